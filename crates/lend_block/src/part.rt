//! A borrowed block that is read through parts, and is whole again once each part is back.
//!
//! Every raw pointer of the crate stands in this file. A loan is a lifetime of its own, whose
//! number is the loan's: the borrowed block is lent for that lifetime, a part is a share of the
//! lifetime's token, and with all 2^63 parts the lifetime ends and the borrow is back.
ghost use Rattle.std.specs.Prelude.{◌≡◌, ◌≢◌, ℕ, ◌+◌, ◌-◌, ◌^◌, ◌<◌, ◌≤◌, List, length, take};
ghost use denote.Ref.{MutBor};
ghost use denote.RawPtr.{block_ptr, block_of, count_of};
ghost use Rattle.lend_block.specs.Inside.{part_owns, part_shares, deed_owns};

use crate::name::LoanName;
use std::marker::{Model, PhantomData};
use std::slice;

/// The right to read the block, for as long as this is held.
#[derive(Drop)]
pub(crate) struct Part<'r> {
    // The first byte of the block.
    ptr: *const u8,
    // The lifetime of the loan.
    marker: PhantomData<&'r u8>,
    /// The bytes of the block.
    pub(crate) ghost bytes: { List ℕ },
    /// The number of the loan.
    pub(crate) ghost loan: { ℕ },
    /// How many of the loan's 2^63 parts this is.
    pub(crate) ghost count: { ℕ },
    /// The pointer names a place in a block, and the length is one that a slice can have.
    ghost placed: { (ptr ≡ block_ptr (block_of ptr) (count_of ptr)) × (length bytes < 2 ^ 63) },
}

impl<'r> Model for Part<'r> {
    ghost also_owns = { λ p. part_owns 'r p.ptr p.bytes p.loan p.count };

    ghost also_shares = { λ p _ κ. part_shares 'r p.ptr p.bytes p.loan κ };
}

/// The right to have the block back, against all parts of its loan.
#[derive(Drop)]
pub(crate) struct Deed<'r> {
    // The first byte of the block.
    ptr: *mut u8,
    // The lifetime of the loan.
    marker: PhantomData<&'r u8>,
    /// The borrow that comes back.
    pub(crate) ghost block: { MutBor (List ℕ) },
    /// The number of the loan.
    pub(crate) ghost loan: { ℕ },
    /// The pointer is the borrow's.
    ghost placed: { ptr ≡ block_ptr block.ref_ptr.0 block.ref_ptr.1 },
}

impl<'r> Model for Deed<'r> {
    ghost also_owns = { λ d. deed_owns 'r d.block d.loan };
}

/// Begins a loan of the block: the deed to it, and all parts of the right to read it.
pub(crate) fn freeze<'r>(block: &'r mut [u8]) -> (Deed<'r>, Part<'r>)
    ensures block { result.0.block ≡ block.entry }
    ensures bytes { result.1.bytes ≡ block.old }
    ensures loan { result.1.loan ≡ result.0.loan }
    ensures all_parts { result.1.count ≡ 2 ^ 63 }
{
    let ptr = block.as_mut_ptr();
    (
        Deed {
            ptr,
            marker: PhantomData,
        },
        Part {
            ptr,
            marker: PhantomData,
        },
    )
}

/// Ends the loan by all of its parts. `whole` is the length of the block in bytes.
pub(crate) fn thaw<'r>(deed: Deed<'r>, all: Part<'r>, whole: usize) -> &'r mut [u8]
    requires loan { all.loan ≡ deed.loan }
    requires all_parts { all.count ≡ 2 ^ 63 }
    requires length { length deed.block.now ≡ whole }
    ensures block { result ≡ deed.entry.block }
{
    let Deed { ptr, marker: _ } = deed;
    let Part { ptr: _, marker: _ } = all;
    unsafe { slice::from_raw_parts_mut(ptr, whole) }
}

impl<'r> Part<'r> {
    /// The first `len` bytes of the block.
    pub(crate) fn get(&self, len: usize) -> &[u8]
        requires within { len ≤ length self.now.bytes }
        ensures bytes { result.now ≡ take len self.now.bytes }
    {
        unsafe { slice::from_raw_parts(self.ptr, len) }
    }

    /// The name of the loan.
    pub(crate) fn name(&self) -> LoanName
        ensures loan { result.loan ≡ self.now.loan }
    {
        LoanName {}
    }

    /// Cuts off one part, and keeps the others.
    pub(crate) fn split_one(&mut self) -> Part<'r>
        requires many { 1 < self.old.count }
        requires no_more { self.old.count ≤ 2 ^ 63 }
        ensures kept { self.new ≡ record self.old { count = self.old.count - 1 } }
        ensures cut { result ≡ record self.old { count = 1 } }
    {
        Part {
            ptr: self.ptr,
            marker: PhantomData,
        }
    }

    /// Adds one part of the same loan. Since no part is there twice, this did not have all of them.
    pub(crate) fn join(&mut self, other: Part<'r>)
        requires loan { other.loan ≡ self.old.loan }
        requires one { other.count ≡ 1 }
        requires some { 0 < self.old.count }
        requires no_more { self.old.count ≤ 2 ^ 63 }
        ensures not_all { self.old.count < 2 ^ 63 }
        ensures joined { self.new ≡ record self.old { count = self.old.count + 1 } }
    {
        let Part { ptr: _, marker: _ } = other;
    }

    /// Two that each have more than half of their loan's parts are not of one loan. This does
    /// nothing, and is there for what it ensures.
    pub(crate) fn tell_apart(&mut self, other: &mut Part<'_>)
        requires most { (2 ^ 62 < self.old.count) × (self.old.count ≤ 2 ^ 63) }
        requires most_of_other { (2 ^ 62 < other.old.count) × (other.old.count ≤ 2 ^ 63) }
        ensures apart { self.old.loan ≢ other.old.loan }
        ensures same { self.new ≡ self.old }
        ensures same_other { other.new ≡ other.old }
    {}
}

unsafe impl<'r> Send for Part<'r> {}

unsafe impl<'r> Sync for Part<'r> {}

unsafe impl<'r> Send for Deed<'r> {}

unsafe impl<'r> Sync for Deed<'r> {}
