//! What opening answers.
ghost use Rattle.std.specs.Prelude.{◌≡◌};
ghost use Rattle.fsw_c.specs.Codes.{already_open_code, bad_limits_code, no_memory_code};
ghost use Rattle.fsw_c.specs.Opened.{status_of};

use crate::codes::SUCCESS;
use fsw_core::MemoryRefusal;

// The statuses of opening alone, which no other file has.

const ALREADY_OPEN: u32 = 0xc000_0002;

const BAD_LIMITS: u32 = 0xc000_0003;

const NO_MEMORY: u32 = 0xc000_0004;

/// The status of an opening. Only this file makes one: that memory ran out, of the evidence alone.
/// A struct of one number comes back to C as the number does, on both processors.
#[repr(C)]
#[derive(Clone, Copy)]
pub struct FswOpened {
    // Private, so that no other file makes one.
    status: u32,
}

impl FswOpened {
    /// There is a core.
    pub(crate) fn done() -> FswOpened
        ensures { status_of result ≡ 0 }
    {
        FswOpened { status: SUCCESS }
    }

    /// The handle is open already.
    pub(crate) fn already_open() -> FswOpened
        ensures { status_of result ≡ already_open_code }
    {
        FswOpened {
            status: ALREADY_OPEN,
        }
    }

    /// A limit isn't in its range.
    pub(crate) fn bad_limits() -> FswOpened
        ensures { status_of result ≡ bad_limits_code }
    {
        FswOpened { status: BAD_LIMITS }
    }

    /// There isn't as much memory.
    pub(crate) fn no_memory(_evidence: MemoryRefusal) -> FswOpened
        ensures { status_of result ≡ no_memory_code }
    {
        FswOpened { status: NO_MEMORY }
    }
}
