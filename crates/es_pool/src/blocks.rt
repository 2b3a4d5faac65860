//! The blocks of a pool, and its figures by block size.

ghost use Rattle.std.specs.Prelude.{◌≡◌, replicate, IfOk};

use std::alloc::{AllocError, Global};

/// What cutting a block costs beyond its size, in bytes.
pub const OVERHEAD: u32 = 16;

/// The number of a block: blocks are numbered 0, 1, 2 and so on in order of cutting.
pub type BlockNo = u32;

/// A block that was cut.
#[derive(Clone, Copy)]
pub struct CutBlock {
    /// Its size, by the place of this size among the pool's block sizes.
    pub class: u8,
    /// Whether it is out: drawn, and not given back since.
    pub out: bool,
}

/// The figures of one block size of a pool.
#[derive(Clone, Copy, Debug, PartialEq, Eq)]
pub struct ClassStats {
    /// The block size, in bytes.
    pub size: u32,
    /// How many blocks of this size were cut.
    pub made: u32,
    /// How many of them are free now.
    pub free: u32,
}

/// A list of `count` zeros.
///
/// # Errors
/// `AllocError` if memory runs out.
pub fn zeros(alloc: Global, count: u32) -> Result<Vec<u32>, AllocError>
    ensures { IfOk result (λ numbers. numbers.items ≡ replicate count 0) }
{
    let mut numbers = Vec::new(alloc);
    numbers.resize(count as usize, 0)?;
    Ok(numbers)
}
