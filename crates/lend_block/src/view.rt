//! What a receiver has of a sealed block.
ghost use Rattle.std.specs.Prelude.{◌≡◌, ◌≤◌, length, take};
ghost use Rattle.lend_block.specs.Loan.{LentBytes};

use crate::name::LoanName;
use crate::part::Part;
use std::marker::Model;

/// The right to read the bytes of a loan, in this thread or another.
///
/// A view goes back to its root by `Root::give_back`. One that is dropped instead stays counted, so
/// that its block is never open again.
#[derive(Drop)]
pub struct View<'r> {
    /// One part of the right to read the block.
    pub(crate) part: Part<'r>,
    /// How many bytes are lent, from the first of the block on.
    pub(crate) len: usize,
}

impl<'r> Model for View<'r> {
    ghost Value = { LentBytes };

    ghost view = { λ v. record { loan = v.part.loan; bytes = take v.len v.part.bytes } };

    ghost invariant = { λ v. (v.part.count ≡ 1) × (v.len ≤ length v.part.bytes) };
}

impl<'r> View<'r> {
    /// The lent bytes, which are those of the block when it was sealed.
    pub fn bytes(&self) -> &[u8]
        ensures bytes { result.now ≡ self.now.bytes }
    {
        self.part.get(self.len)
    }

    /// The name of the loan that this is a view of.
    pub fn name(&self) -> LoanName
        ensures loan { result.loan ≡ self.now.loan }
    {
        self.part.name()
    }
}
