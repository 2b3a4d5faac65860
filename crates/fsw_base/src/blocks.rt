//! The block sizes of a memory pool.
ghost use Rattle.std.specs.Prelude.{◌≡◌, ℕ, ◌<◌, ◌≤◌, ◌↔◌, List, length, slice_index, IsTrue, IsSome, IfSome};
ghost use Rattle.fsw_base.specs.Blocks.{are_rising_from, are_block_sizes, class_of, usual_sizes};
ghost use Rattle.fsw_base.specs.declared.blocks.TheConstants.{MAX_BLOCK_SIZES};

use arrayvec::ArrayVec;
use std::marker::Model;

/// How many block sizes a pool has at most, as the pools of cFE's Executive Services.
pub const MAX_BLOCK_SIZES: usize = 17;

/// The largest block size, in bytes.
pub const MAX_BLOCK_SIZE: u32 = 80000;

/// One to [`MAX_BLOCK_SIZES`] block sizes in bytes, rising, each a multiple of 8 and at most
/// [`MAX_BLOCK_SIZE`].
#[derive(Drop)]
pub struct BlockSizes {
    sizes: ArrayVec<u32, MAX_BLOCK_SIZES>,
}

impl Model for BlockSizes {
    ghost Value = { List ℕ };

    ghost view = { λ b. b.sizes.items };

    ghost invariant = { λ b. IsTrue (are_block_sizes b.sizes.items) };
}

impl BlockSizes {
    /// These sizes; None if and only if they aren't block sizes: none at all or too many of them,
    /// or one that isn't a multiple of 8, is past [`MAX_BLOCK_SIZE`] or isn't above the one before.
    pub fn try_new(sizes: &[u32]) -> Option<BlockSizes>
        ensures valid { IsSome result ↔ IsTrue (are_block_sizes sizes.now) }
        ensures value { IfSome result (λ kept. kept ≡ sizes.now) }
    {
        if are_block_sizes(sizes) {
            Some(BlockSizes {
                sizes: copy_of(sizes),
            })
        } else {
            None
        }
    }

    /// The sizes that a pool has if a mission configures none.
    pub fn usual() -> BlockSizes
        ensures { result ≡ usual_sizes }
    {
        BlockSizes {
            sizes: copy_of(&[
                8, 16, 32, 48, 64, 96, 128, 160, 256, 512, 1024, 2048, 4096, 8192, 16384, 32768,
                80000,
            ]),
        }
    }

    /// The same sizes once more.
    pub fn again(&self) -> BlockSizes
        ensures { result ≡ self.now }
    {
        BlockSizes {
            sizes: copy_of(self.sizes.as_slice()),
        }
    }

    /// How many sizes there are, 1 to [`MAX_BLOCK_SIZES`].
    pub fn count(&self) -> u32
        ensures count { result ≡ length self.now }
        ensures some { 1 ≤ result }
        ensures few { result ≤ MAX_BLOCK_SIZES }
        ensures rising { IsTrue (are_block_sizes self.now) }
    {
        self.sizes.len() as u32
    }

    /// The size at a place, in bytes; places count from 0.
    pub fn at(&self, i: u32) -> u32
        requires { i < length self.now }
        ensures { result ≡ slice_index self.now i }
    {
        self.sizes.as_slice()[i as usize]
    }

    /// The place of the smallest size that holds `size` bytes; None if and only if none does.
    pub fn class_of(&self, size: u32) -> Option<u32>
        ensures class { result ≡ class_of size self.now }
        ensures within { IfSome result (λ class. class < length self.now) }
    {
        match first_holding(self.sizes.as_slice(), size) {
            Some(class) => Some(class as u32),
            None => None,
        }
    }
}

// The place of the first size that holds so many bytes.
fn first_holding(sizes: &[u32], size: u32) -> Option<usize>
    ensures class { result ≡ class_of size sizes.now }
    ensures within { IfSome result (λ class. class < length sizes.now) }
{
    sizes.iter().position(|&block| size <= block)
}

// The sizes in a list of their own.
fn copy_of(sizes: &[u32]) -> ArrayVec<u32, MAX_BLOCK_SIZES>
    requires { length sizes.now ≤ MAX_BLOCK_SIZES }
    ensures { result.items ≡ sizes.now }
{
    let mut kept = ArrayVec::new();
    let _ = kept.try_extend_from_slice(sizes);
    kept
}

// Whether a pool may have these sizes.
fn are_block_sizes(sizes: &[u32]) -> bool
    ensures { result ≡ are_block_sizes sizes.now }
{
    1 <= sizes.len() && sizes.len() <= MAX_BLOCK_SIZES && are_rising(sizes)
}

// Whether each size is in range and above the one before.
fn are_rising(sizes: &[u32]) -> bool
    ensures { result ≡ are_rising_from 0 sizes.now }
{
    let mut least = 0;
    for &size in sizes {
        if size < least || size % 8 != 0 || size > MAX_BLOCK_SIZE {
            return false;
        }
        least = size + 1;
    }
    true
}
