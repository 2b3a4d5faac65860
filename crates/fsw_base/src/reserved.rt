//! Adding bytes to a list that has room for them.
ghost use Rattle.std.specs.Prelude.{◌≡◌, ◌+◌, ◌≤◌, ◌++◌, length, vec_len, vec_capacity};
ghost use Rattle.std.specs.Vec.{vec_ptr};

use std::mem;

/// Puts bytes behind those of a list that has room for them. It takes no memory and can't fail: the
/// list stays where it is and keeps its capacity.
///
/// `extend_from_slice` of a `Vec` may take memory, and answers whether it found any.
pub fn extend_reserved(list: &mut Vec<u8>, bytes: &[u8])
    requires { vec_len list.old + length bytes.now ≤ vec_capacity list.old }
    ensures items { list.new.items ≡ list.old.items ++ bytes.now }
    ensures capacity { vec_capacity list.new ≡ vec_capacity list.old }
    ensures in_place { vec_ptr list.new ≡ vec_ptr list.old }
{
    // Behind a reference the list's length would be written back at each byte; a list of the
    // function's own is filled at the speed of a copy.
    let empty = Vec::new(*list.allocator());
    let mut own = mem::replace(list, empty);
    for byte in bytes {
        own.push_reserved(*byte);
    }
    *list = own;
}
