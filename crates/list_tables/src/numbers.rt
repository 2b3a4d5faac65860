//! Numbers of 32 bits.
ghost use Rattle.std.specs.Prelude.{◌≡◌, ◌+◌, IfOk};

use std::alloc::AllocError;

/// The next number; an error if it doesn't have 32 bits.
pub(crate) fn one_more(number: u32) -> Result<u32, AllocError>
    ensures { IfOk result (λ next. next ≡ number + 1) }
{
    if number == u32::MAX {
        return Err(AllocError);
    }
    Ok(number + 1)
}

/// The number in 32 bits; an error if it doesn't fit.
pub(crate) fn narrow(number: u64) -> Result<u32, AllocError>
    ensures { IfOk result (λ narrow. narrow ≡ number) }
{
    if number > u64::from(u32::MAX) {
        return Err(AllocError);
    }
    Ok(number as u32)
}
