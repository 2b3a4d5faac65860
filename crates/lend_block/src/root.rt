//! A sealed block.
//!
//! ```text
//!        |<-------------- whole ------------->|
//!        |<---- len ---->|                    |
//! block  | b0 | b1 | b2  | b3 | b4 | b5 | ..  |
//!        ^
//!        |-- Root: the parts that no view has, and the deed
//!        |-- View: one part
//!        |-- View: one part
//! ```
//!
//! The right to read the block has 2^63 parts. Each view that is out has one of them and the root
//! has the others, so the root has all of them exactly when no view is out.
ghost use Rattle.std.specs.Prelude.{◌≡◌, ◌≢◌, ◌+◌, ◌^◌, ◌<◌, ◌≤◌, length, take};
ghost use Rattle.lend_block.specs.Loan.{LentBlock};

use crate::name::LoanName;
use crate::part::{Deed, Part, freeze, thaw};
use crate::view::View;
use std::marker::Model;

/// A block whose first bytes are lent. Whoever has it gives views, takes them back and opens the
/// block again.
///
/// Dropping it leaves the block sealed for as long as it was borrowed.
#[derive(Drop)]
pub struct Root<'r> {
    // The right to have the block back, against all parts.
    deed: Deed<'r>,
    // The parts that no view has.
    part: Part<'r>,
    // The length of the block in bytes.
    whole: usize,
    // How many bytes are lent, from the first of the block on; at most `whole`.
    len: usize,
    // How many views are out.
    out: u32,
}

impl<'r> Model for Root<'r> {
    ghost Value = { LentBlock };

    ghost view = { λ r. record {
      loan = r.deed.loan;
      bytes = take r.len r.part.bytes;
      out = r.out;
      block = r.deed.block;
    } };

    // Part and deed are of one loan and one block, the parts are all there, and the lengths are
    // those of the block.
    ghost invariant = { λ r.
        (r.part.loan ≡ r.deed.loan)
        × (r.part.bytes ≡ r.deed.block.now)
        × (r.part.count + r.out ≡ 2 ^ 63)
        × (r.out < 2 ^ 32)
        × (length r.deed.block.now ≡ r.whole)
        × (r.len ≤ r.whole) };
}

impl<'r> Root<'r> {
    /// Begins a loan of the first `len` bytes of the block. The whole block stays closed until
    /// `reopen`.
    pub fn seal(block: &'r mut [u8], len: usize) -> Root<'r>
        requires within { len ≤ length block.old }
        ensures bytes { result.bytes ≡ take len block.old }
        ensures block { result.block ≡ block.entry }
        ensures none_out { result.out ≡ 0 }
    {
        let whole = block.len();
        let (deed, part) = freeze(block);
        Root {
            deed,
            part,
            whole,
            len,
            out: 0,
        }
    }

    /// Gives a view of the loan, which counts as out until `give_back`. At most 4294967295 are out
    /// at a time.
    pub fn view(&mut self) -> View<'r>
        requires room { self.old.out < 4294967295 }
        ensures one_more { self.new ≡ record self.old { out = self.old.out + 1 } }
        ensures loan { result.loan ≡ self.old.loan }
        ensures bytes { result.bytes ≡ self.old.bytes }
    {
        let part = self.part.split_one();
        self.out += 1;
        View {
            part,
            len: self.len,
        }
    }

    /// Takes back a view of this loan. Since it is one of those that are out, their number was not
    /// 0.
    pub fn give_back(&mut self, view: View<'r>)
        requires of_this_loan { view.loan ≡ self.old.loan }
        ensures one_less { self.old ≡ record self.new { out = self.new.out + 1 } }
    {
        let View { part, len: _ } = view;
        self.part.join(part);
        self.out -= 1;
    }

    /// Ends the loan, once no view is out, and opens the block for writing: the whole block as it
    /// was sealed, with its bytes.
    pub fn reopen(self) -> &'r mut [u8]
        requires all_back { self.out ≡ 0 }
        ensures block { result ≡ self.entry.block }
    {
        let Root {
            deed,
            part,
            whole,
            len: _,
            out: _,
        } = self;
        thaw(deed, part, whole)
    }

    /// How many views are out.
    pub fn out(&self) -> u32
        ensures out { result ≡ self.now.out }
    {
        self.out
    }

    /// The lent bytes, which the root reads as its views do.
    pub fn bytes(&self) -> &[u8]
        ensures bytes { result.now ≡ self.now.bytes }
    {
        self.part.get(self.len)
    }

    /// The name of the loan, which its views have too.
    pub fn name(&self) -> LoanName
        ensures loan { result.loan ≡ self.now.loan }
    {
        self.part.name()
    }

    /// Two roots that exist at the same time are of different loans. Does nothing.
    pub fn tell_apart(&mut self, other: &mut Root<'_>)
        ensures apart { self.old.loan ≢ other.old.loan }
        ensures same { self.new ≡ self.old }
        ensures same_other { other.new ≡ other.old }
    {
        self.part.tell_apart(&mut other.part);
    }
}
