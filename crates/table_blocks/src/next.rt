//! What lies beside the present version of a table.
ghost use Rattle.std.specs.Prelude.{◌≡◌, ◌≢◌, true, length};
ghost use Rattle.table_blocks.specs.Contents.{older_in, staged_in, is_inactive, is_staged};

use crate::space::Space;
use crate::staged::StagedBytes;
use crate::version::Version;

/// What lies beside the present version of a table.
#[derive(Drop)]
pub enum Next<'r> {
    /// Nothing: the table is single buffered, and nothing is staged.
    Nothing,
    /// The inactive block of a double-buffered table, with the version before, or with bytes that
    /// nobody holds.
    Inactive(Version<'r>),
    /// A staged value: in the inactive block of a double-buffered table, else in a working buffer.
    Staged(StagedBytes<'r>),
}

impl<'r> Next<'r> {
    /// Opens the inactive block, of which no view is out.
    pub fn into_inactive(self) -> Space<'r>
        requires inactive { is_inactive self ≡ true }
        requires all_back { (older_in self).views ≡ 0 }
        ensures whole { length result ≡ (older_in self.entry).whole }
    {
        match self {
            Next::Inactive(version) => version.reopen(),
            Next::Nothing => unreachable!(),
            Next::Staged(_) => unreachable!(),
        }
    }

    /// The staged value.
    pub fn into_staged(self) -> StagedBytes<'r>
        requires staged { is_staged self ≡ true }
        ensures { result ≡ staged_in self.entry }
    {
        match self {
            Next::Staged(staged) => staged,
            Next::Nothing => unreachable!(),
            Next::Inactive(_) => unreachable!(),
        }
    }

    /// The version in the inactive block, if there is one, is of another loan than this one.
    /// Does nothing.
    pub fn tell_apart(&mut self, version: &mut Version<'_>)
        ensures apart { is_inactive self.old ≡ true → (older_in self.old).loan ≢ version.old.loan }
        ensures same { self.new ≡ self.old }
        ensures same_version { version.new ≡ version.old }
    {
        match self {
            Next::Inactive(older) => older.tell_apart(version),
            Next::Nothing => {}
            Next::Staged(_) => {}
        }
    }

    /// The versions in two inactive blocks are of two loans. Does nothing.
    pub fn tell_older_apart(&mut self, other: &mut Next<'_>)
        ensures apart { is_inactive self.old ≡ true →
            is_inactive other.old ≡ true →
            (older_in self.old).loan ≢ (older_in other.old).loan }
        ensures same { self.new ≡ self.old }
        ensures same_other { other.new ≡ other.old }
    {
        match other {
            Next::Inactive(older) => self.tell_apart(older),
            Next::Nothing => {}
            Next::Staged(_) => {}
        }
    }
}
