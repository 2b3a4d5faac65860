//! Numbers in lists.
ghost use Rattle.std.specs.Prelude.{◌≡◌, replicate, IfOk};

use std::alloc::{AllocError, Global};

/// A list of so many zeros.
pub(crate) fn zeros(alloc: Global, count: u32) -> Result<Vec<u32>, AllocError>
    ensures { IfOk result (λ numbers. numbers.items ≡ replicate count 0) }
{
    let mut numbers = Vec::new(alloc);
    numbers.resize(count as usize, 0)?;
    Ok(numbers)
}

/// A number, if it has 32 bits.
pub(crate) fn narrow(number: u64) -> Result<u32, AllocError>
    ensures { IfOk result (λ same. same ≡ number) }
{
    if number <= u64::from(u32::MAX) {
        Ok(number as u32)
    } else {
        Err(AllocError)
    }
}
