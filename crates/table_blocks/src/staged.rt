//! A value that is staged.
ghost use Rattle.std.specs.Prelude.{◌≡◌, ◌≤◌, false, true, length, take};
ghost use Rattle.table_blocks.specs.Versions.{StagedValue};

use crate::space::Space;
use std::marker::Model;

/// A value that was loaded and isn't the table's yet: the first bytes of memory that nobody else
/// has.
pub struct StagedBytes<'r> {
    // The memory that it lies in.
    space: Space<'r>,
    // How many bytes it has.
    len: usize,
    // Whether it was validated.
    validated: bool,
}

impl Drop for StagedBytes<'_> {
    fn drop(self) {
        let StagedBytes {
            space: _space,
            len: _len,
            validated: _validated,
        } = self;
    }
}

impl<'r> Model for StagedBytes<'r> {
    ghost use Rattle.std.specs.Prelude.{◌≤◌, length, take};
    ghost use Rattle.table_blocks.specs.Versions.{StagedValue};

    ghost Value = { StagedValue };

    ghost view = { λ s.
        record { bytes = take s.len s.space; validated = s.validated; whole = length s.space } };

    ghost invariant = { λ s. s.len ≤ length s.space };
}

impl<'r> StagedBytes<'r> {
    /// The first `len` bytes of this memory, not validated.
    pub fn new(space: Space<'r>, len: usize) -> StagedBytes<'r>
        requires { len ≤ length space }
        ensures { result ≡
            record {
              bytes = take len space.entry;
              validated = false;
              whole = length space.entry;
            } }
    {
        StagedBytes {
            space,
            len,
            validated: false,
        }
    }

    /// Its bytes.
    pub fn bytes(&self) -> &[u8]
        ensures { result.now ≡ self.now.bytes }
    {
        self.space.front(self.len)
    }

    /// Whether it was validated.
    pub fn is_validated(&self) -> bool
        ensures { result ≡ self.now.validated }
    {
        self.validated
    }

    /// Marks it as validated.
    pub fn set_validated(&mut self)
        ensures { self.new ≡ record self.old { validated = true } }
    {
        self.validated = true;
    }

    /// The memory that it lies in.
    pub fn into_space(self) -> Space<'r>
        ensures whole { length result ≡ self.entry.whole }
        ensures bytes { take (length self.entry.bytes) result ≡ self.entry.bytes }
    {
        let StagedBytes {
            space,
            len: _,
            validated: _,
        } = self;
        space
    }
}
