//! What C reads where it lies.
ghost use Rattle.std.specs.Prelude.{◌≡◌, length, IfSome};
ghost use Rattle.std.specs.Option.{option_map};
ghost use Rattle.std.specs.Ptr.{as_ptr};
ghost use Rattle.fsw_c.specs.Shown.{shown_length};

use checked_bus::first_of;
use std::ptr::null;

/// Bytes that are read where they lie.
#[repr(C)]
#[derive(Clone, Copy)]
pub struct FswBytes {
    /// The first byte.
    pub at: *const u8,
    /// How many there are.
    pub len: usize,
}

impl FswBytes {
    /// These bytes.
    pub(crate) fn of(bytes: &[u8]) -> FswBytes
        ensures begins { result.at ≡ as_ptr bytes.entry }
        ensures length { result.len ≡ length bytes.now }
    {
        FswBytes {
            at: first_of(bytes),
            len: bytes.len(),
        }
    }

    /// These bytes, if there are some.
    pub(crate) fn of_any(bytes: Option<&[u8]>) -> FswBytes
        ensures begins { IfSome bytes.entry (λ it. result.at ≡ as_ptr it) }
        ensures length { result.len ≡ shown_length (option_map (λ it. it.now) bytes.entry) }
    {
        match bytes {
            Some(it) => FswBytes::of(it),
            None => FswBytes { at: null(), len: 0 },
        }
    }
}
