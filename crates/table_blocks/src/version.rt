//! A version of a table, in a block that is sealed.
ghost use Rattle.std.specs.Prelude.{◌≡◌, ◌≢◌, ◌+◌, ◌-◌, ◌<◌, ◌≤◌, length, take};
ghost use Rattle.table_blocks.specs.Versions.{LentVersion};

use crate::space::Space;
use lend_block::{Root, View};
use std::marker::Model;

/// A version that is lent: nobody writes its bytes as long as it is sealed.
pub struct Version<'r> {
    // Its loan.
    root: Root<'r>,
}

impl Drop for Version<'_> {
    fn drop(self) {
        let Version { root: _root } = self;
    }
}

impl<'r> Model for Version<'r> {
    ghost use Rattle.std.specs.Prelude.{◌≡◌, ◌≤◌, length, take};
    ghost use Rattle.table_blocks.specs.Versions.{LentVersion};

    ghost Value = { LentVersion };

    ghost view = { λ v.
        record {
          loan = v.root.loan;
          bytes = v.root.bytes;
          views = v.root.out;
          whole = length v.root.block.now;
        } };

    // The lent bytes are the block's first ones.
    ghost invariant = { λ v.
        (length v.root.bytes ≤ length v.root.block.now)
        × (take (length v.root.bytes) v.root.block.now ≡ v.root.bytes) };
}

impl<'r> Version<'r> {
    /// Seals the first `len` bytes of a block.
    pub fn seal(space: Space<'r>, len: usize) -> Version<'r>
        requires within { len ≤ length space }
        ensures { result ≡
            record {
              loan = result.loan;
              bytes = take len space.entry;
              views = 0;
              whole = length space.entry;
            } }
    {
        Version {
            root: Root::seal(space.into_bytes(), len),
        }
    }

    /// Opens the block again, with its bytes.
    pub fn reopen(self) -> Space<'r>
        requires all_back { self.views ≡ 0 }
        ensures whole { length result ≡ self.entry.whole }
        ensures bytes { take (length self.entry.bytes) result ≡ self.entry.bytes }
    {
        let Version { root } = self;
        Space::new(root.reopen())
    }

    /// Its bytes.
    pub fn bytes(&self) -> &[u8]
        ensures { result.now ≡ self.now.bytes }
    {
        self.root.bytes()
    }

    /// How many views of it are out.
    pub fn views(&self) -> u32
        ensures { result ≡ self.now.views }
    {
        self.root.out()
    }

    /// Gives a view.
    pub fn view(&mut self) -> View<'r>
        requires room { self.old.views < 4294967295 }
        ensures one_more { self.new ≡ record self.old { views = self.old.views + 1 } }
        ensures view { result ≡ record { loan = self.old.loan; bytes = self.old.bytes } }
    {
        self.root.view()
    }

    /// Takes a view back.
    pub fn give_back(&mut self, view: View<'r>)
        requires of_this_loan { view.loan ≡ self.old.loan }
        ensures some { 1 ≤ self.old.views }
        ensures one_less { self.new ≡ record self.old { views = self.old.views - 1 } }
    {
        self.root.give_back(view);
    }

    /// Two versions that are sealed at the same time are of different loans. Does nothing.
    pub fn tell_apart(&mut self, other: &mut Version<'_>)
        ensures apart { self.old.loan ≢ other.old.loan }
        ensures same { self.new ≡ self.old }
        ensures same_other { other.new ≡ other.old }
    {
        self.root.tell_apart(&mut other.root);
    }
}
