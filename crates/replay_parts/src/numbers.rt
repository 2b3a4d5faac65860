//! Numbers of 32 bits.
ghost use Rattle.std.specs.Prelude.{◌≡◌, ◌↔◌, ◌+◌, ◌^◌, ◌<◌, IsOk, IfOk};

use std::alloc::AllocError;

/// The next number.
///
/// # Errors
/// `AllocError` if and only if 32 bits are spent.
pub fn one_more(number: u32) -> Result<u32, AllocError>
    ensures next { IfOk result (λ next. next ≡ number + 1) }
    ensures fits { IsOk result ↔ (number + 1 < 2 ^ 32) }
{
    match number.checked_add(1) {
        Some(next) => Ok(next),
        None => Err(AllocError),
    }
}
