//! A block of the bus that C writes in place.
ghost use Rattle.std.specs.Prelude.{◌≡◌, ℕ, List, Some, None, Option, IsSome};

use std::marker::Model;

/// A block that C writes, or none: all zero.
#[repr(C)]
#[derive(Drop)]
pub struct LentBlock {
    // Where it lies.
    at: *mut u8,
    // How many bytes it has.
    len: usize,
    /// The bytes that lie there.
    pub ghost bytes: { Option (List ℕ) },
}

impl Model for LentBlock {
    ghost use Rattle.fsw_c.specs.Lent.{maybe_lies};

    ghost also_owns = { λ l. maybe_lies l.at l.len l.bytes };
}

impl LentBlock {
    /// None.
    pub(crate) fn none() -> LentBlock
        ensures { result.bytes ≡ None }
    {
        LentBlock {
            at: std::ptr::null_mut(),
            len: 0,
        }
    }

    /// This block.
    pub(crate) fn of(block: &'static mut [u8]) -> LentBlock
        ensures { result.bytes ≡ Some block.old }
    {
        let len = block.len();
        let at = block.as_mut_ptr();
        LentBlock { at, len }
    }

    /// The block.
    pub(crate) fn into_block(self) -> &'static mut [u8]
        requires { IsSome self.bytes }
        ensures { self.bytes ≡ Some result.now }
    {
        let LentBlock { at, len } = self;
        unsafe { std::slice::from_raw_parts_mut(at, len) }
    }
}

unsafe impl Send for LentBlock {}
