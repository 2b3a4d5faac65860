//! What is kept for one table.
//!
//! ```text
//! single buffered                        double buffered
//!
//!   present     next                       present     next
//! +---------+                            +---------+ +---------+
//! | v3      |   nothing                  | v3      | | v2      | inactive: views of the version
//! | 2 views |                            | 2 views | | 1 view  | before may still be out
//! +---------+                            +---------+ +---------+
//! +---------+ +---------+                +---------+ +---------+
//! | v3      | | staged  | in a working   | v3      | | staged  | in the inactive block, once no
//! |         | |         | buffer         | 2 views | |         | view of it is out
//! +---------+ +---------+                +---------+ +---------+
//!   an update copies it over the           an update exchanges the two
//!   block, while no view is out
//! ```
ghost use Rattle.std.specs.Prelude.{◌≡◌, ◌==◌, ℕ, ◌+◌, ◌-◌, ◌<◌, ◌≤◌, true, false, length, take, replicate};
ghost use Rattle.tbl_words.specs.Machine.{with_range};
ghost use Rattle.table_blocks.specs.Contents.{is_double, older_in, staged_in, is_staged, is_inactive, version_at, view_given, view_back, lent, staged_by, validated, without_staged, with_value, HasTwoLoans, ShareNoLoan};
ghost use Rattle.table_blocks.specs.declared.next.Next.TheVariants.{Nothing, Inactive};

use crate::next::Next;
use crate::space::Space;
use crate::staged::StagedBytes;
use crate::version::Version;
use lend_block::View;
use std::marker::Model;

/// One table: its blocks, the present version, and what lies beside it.
pub struct Table<'r> {
    // Its bytes.
    size: u32,
    // 1 if it is double buffered.
    option: u32,
    // How often it was updated.
    version: u64,
    // The number of its block in the pool.
    first: u32,
    // The number of its other block. A single-buffered table has one, whose number stands twice.
    // Both blocks have one size, and which of the two numbers the present version has is told to
    // nobody: an exchange leaves the numbers as they are.
    second: u32,
    // The present version.
    present: Version<'r>,
    // What lies beside it.
    next: Next<'r>,
}

impl Drop for Table<'_> {
    fn drop(self) {
        let Table {
            size: _size,
            option: _option,
            version: _version,
            first: _first,
            second: _second,
            present: _present,
            next: _next,
        } = self;
    }
}

impl<'r> Model for Table<'r> {
    ghost use Rattle.table_blocks.specs.Contents.{Content};
    ghost use Rattle.table_blocks.specs.Inside.{IsTable};

    ghost Value = { Content };

    ghost view = { λ t.
        record {
          size = t.size;
          option = t.option;
          version = t.version;
          first = t.first;
          second = t.second;
          present = t.present;
          next = t.next;
        } };

    ghost invariant = { λ t.
        IsTable
        (record {
          size = t.size;
          option = t.option;
          version = t.version;
          first = t.first;
          second = t.second;
          present = t.present;
          next = t.next;
        }) };
}

impl<'r> Table<'r> {
    /// A single-buffered table of zeros in this block.
    pub fn single(size: u32, option: u32, block: u32, space: Space<'r>) -> Table<'r>
        requires room { size ≤ length space }
        requires option { (option == 1) ≡ false }
        ensures { result ≡
            record {
              size = size;
              option = option;
              version = 0;
              first = block;
              second = block;
              present = lent result.present.loan (replicate size 0) (length space.entry);
              next = Nothing;
            } }
    {
        let zeros = space.with_zeros(size as usize);
        Table {
            size,
            option,
            version: 0,
            first: block,
            second: block,
            present: Version::seal(zeros, size as usize),
            next: Next::Nothing,
        }
    }

    /// A double-buffered table of zeros in these two blocks. The inactive one is sealed as it was
    /// left.
    pub fn double(size: u32, first: (u32, Space<'r>), second: (u32, Space<'r>)) -> Table<'r>
        requires room { size ≤ length first.1 }
        requires alike { length second.1 ≡ length first.1 }
        ensures { result ≡
            record {
              size = size;
              option = 1;
              version = 0;
              first = first.entry.0;
              second = second.entry.0;
              present = lent result.present.loan (replicate size 0) (length first.entry.1);
              next = Inactive
                  (lent
                  (older_in result.next).loan
                  (take size second.entry.1)
                  (length second.entry.1));
            } }
    {
        let zeros = first.1.with_zeros(size as usize);
        Table {
            size,
            option: 1,
            version: 0,
            first: first.0,
            second: second.0,
            present: Version::seal(zeros, size as usize),
            next: Next::Inactive(Version::seal(second.1, size as usize)),
        }
    }

    /// Its size in bytes.
    pub fn size(&self) -> u32
        ensures { result ≡ self.now.size }
    {
        self.size
    }

    /// Its option.
    pub fn option(&self) -> u32
        ensures { result ≡ self.now.option }
    {
        self.option
    }

    /// How often it was updated.
    pub fn version(&self) -> u64
        ensures { result ≡ self.now.version }
    {
        self.version
    }

    /// Whether it is double buffered.
    pub fn is_double(&self) -> bool
        ensures { result ≡ is_double self.now }
    {
        self.option == 1
    }

    /// The numbers of its blocks, of which a single-buffered table has one, twice.
    pub fn blocks(&self) -> (u32, u32)
        ensures { (result.0 ≡ self.now.first) × (result.1 ≡ self.now.second) }
    {
        (self.first, self.second)
    }

    /// The present version's bytes.
    pub fn bytes(&self) -> &[u8]
        ensures { result.now ≡ self.now.present.bytes }
    {
        self.present.bytes()
    }

    /// How many views of the present version are out.
    pub fn views(&self) -> u32
        ensures { result ≡ self.now.present.views }
    {
        self.present.views()
    }

    /// How many views of the version before are out.
    pub fn older_views(&self) -> u32
        ensures { result ≡ (older_in self.now.next).views }
    {
        match &self.next {
            Next::Inactive(version) => version.views(),
            Next::Nothing => 0,
            Next::Staged(_) => 0,
        }
    }

    /// Whether a value is staged.
    pub fn is_staged(&self) -> bool
        ensures { result ≡ is_staged self.now.next }
    {
        match &self.next {
            Next::Staged(_) => true,
            Next::Nothing => false,
            Next::Inactive(_) => false,
        }
    }

    /// Whether a value is staged that was validated.
    pub fn is_validated(&self) -> bool
        ensures { result ≡ (staged_in self.now.next).validated }
    {
        match &self.next {
            Next::Staged(staged) => staged.is_validated(),
            Next::Nothing => false,
            Next::Inactive(_) => false,
        }
    }

    /// The staged value's bytes.
    pub fn staged_bytes(&self) -> &[u8]
        requires staged { is_staged self.now.next ≡ true }
        ensures { result.now ≡ (staged_in self.now.next).bytes }
    {
        match &self.next {
            Next::Staged(staged) => staged.bytes(),
            Next::Nothing => unreachable!(),
            Next::Inactive(_) => unreachable!(),
        }
    }

    /// Marks the staged value as validated.
    pub fn set_validated(&mut self)
        requires staged { is_staged self.old.next ≡ true }
        ensures { self.new ≡ validated self.old }
    {
        match &mut self.next {
            Next::Staged(staged) => staged.set_validated(),
            Next::Nothing => unreachable!(),
            Next::Inactive(_) => unreachable!(),
        }
    }

    /// What is always true of its values. This does nothing, and is there for what it ensures.
    pub fn recall(&self)
        ensures present { length self.now.present.bytes ≡ self.now.size }
        ensures staged { is_staged self.now.next ≡ true →
            length (staged_in self.now.next).bytes ≡ self.now.size }
        ensures inactive { is_staged self.now.next ≡ false →
            is_inactive self.now.next ≡ is_double self.now }
    {
        let _ = &self.next;
    }

    /// The two versions of a table, if it has two, are of two loans. Does nothing.
    pub fn tell_versions(&mut self)
        ensures apart { HasTwoLoans self.old }
        ensures same { self.new ≡ self.old }
    {
        self.next.tell_apart(&mut self.present);
    }

    /// Two tables share no loan. Does nothing.
    pub fn tell_apart(&mut self, other: &mut Table<'_>)
        ensures apart { ShareNoLoan self.old other.old }
        ensures same { self.new ≡ self.old }
        ensures same_other { other.new ≡ other.old }
    {
        self.present.tell_apart(&mut other.present);
        self.next.tell_apart(&mut other.present);
        other.next.tell_apart(&mut self.present);
        self.next.tell_older_apart(&mut other.next);
    }

    /// Gives a view of the present version.
    pub fn view(&mut self) -> View<'r>
        requires room { self.old.present.views < 4294967295 }
        ensures view { result ≡
            record { loan = self.old.present.loan; bytes = self.old.present.bytes } }
        ensures after { self.new ≡ view_given self.old }
    {
        self.present.view()
    }

    /// Takes back a view of the version of this number.
    pub fn give_back(&mut self, version: u64, view: View<'r>)
        requires of_this_loan { view.loan ≡ (version_at self.old version).loan }
        requires some { 1 ≤ (version_at self.old version).views }
        ensures { self.new ≡ view_back self.old version }
    {
        if version == self.version {
            self.present.give_back(view);
            return;
        }
        match &mut self.next {
            Next::Inactive(older) => older.give_back(view),
            Next::Nothing => unreachable!(),
            Next::Staged(_) => unreachable!(),
        }
    }

    /// Stages the present value with a range replaced in the inactive block.
    pub fn stage_inactive(self, offset: u32, range: &[u8]) -> Table<'r>
        requires double { is_double self ≡ true }
        requires not_staged { is_staged self.next ≡ false }
        requires all_back { (older_in self.next).views ≡ 0 }
        requires range { offset + length range.now ≤ self.size }
        ensures { result ≡ staged_by self.entry offset range.now self.entry.present.whole }
    {
        let Table {
            size,
            option,
            version,
            first,
            second,
            present,
            next,
        } = self;
        let inactive = next.into_inactive();
        let space = inactive.with_copy(present.bytes(), offset as usize, range);
        Table {
            size,
            option,
            version,
            first,
            second,
            present,
            next: Next::Staged(StagedBytes::new(space, size as usize)),
        }
    }

    /// Stages the present value with a range replaced in a working buffer.
    pub fn stage_in(self, buffer: Space<'r>, offset: u32, range: &[u8]) -> Table<'r>
        requires single { is_double self ≡ false }
        requires room { self.size ≤ length buffer }
        requires range { offset + length range.now ≤ self.size }
        ensures { result ≡ staged_by self.entry offset range.now (length buffer.entry) }
    {
        let Table {
            size,
            option,
            version,
            first,
            second,
            present,
            next: _,
        } = self;
        let space = buffer.with_copy(present.bytes(), offset as usize, range);
        Table {
            size,
            option,
            version,
            first,
            second,
            present,
            next: Next::Staged(StagedBytes::new(space, size as usize)),
        }
    }

    /// Drops the staged value; the inactive block is sealed as it was left.
    pub fn abort_inactive(self) -> Table<'r>
        requires double { is_double self ≡ true }
        requires staged { is_staged self.next ≡ true }
        ensures { result ≡ without_staged self.entry (older_in result.next).loan }
    {
        let Table {
            size,
            option,
            version,
            first,
            second,
            present,
            next,
        } = self;
        let space = next.into_staged().into_space();
        Table {
            size,
            option,
            version,
            first,
            second,
            present,
            next: Next::Inactive(Version::seal(space, size as usize)),
        }
    }

    /// Drops the staged value, and answers the working buffer that it lay in.
    pub fn abort_in(self) -> (Table<'r>, Space<'r>)
        requires single { is_double self ≡ false }
        requires staged { is_staged self.next ≡ true }
        ensures table { (loan : ℕ) → result.0 ≡ without_staged self.entry loan }
        ensures buffer { length result.1 ≡ (staged_in self.entry.next).whole }
    {
        let Table {
            size,
            option,
            version,
            first,
            second,
            present,
            next,
        } = self;
        let buffer = next.into_staged().into_space();
        let table = Table {
            size,
            option,
            version,
            first,
            second,
            present,
            next: Next::Nothing,
        };
        (table, buffer)
    }

    /// Exchanges the two blocks: the staged value is the present version, and the version before is
    /// inactive. Nothing is copied.
    pub fn exchange(self) -> Table<'r>
        requires double { is_double self ≡ true }
        requires staged { is_staged self.next ≡ true }
        requires room { self.version < 18446744073709551615 }
        ensures { result ≡
            with_value self.entry result.present.loan (staged_in self.entry.next).bytes }
    {
        let Table {
            size,
            option,
            version,
            first,
            second,
            present,
            next,
        } = self;
        let staged = next.into_staged().into_space();
        Table {
            size,
            option,
            version: version + 1,
            first,
            second,
            present: Version::seal(staged, size as usize),
            next: Next::Inactive(present),
        }
    }

    /// Copies the staged value over the present one, of which no view is out, and answers the
    /// working buffer that it lay in.
    pub fn copy_over(self) -> (Table<'r>, Space<'r>)
        requires single { is_double self ≡ false }
        requires staged { is_staged self.next ≡ true }
        requires all_back { self.present.views ≡ 0 }
        requires room { self.version < 18446744073709551615 }
        ensures table { result.0 ≡
            with_value self.entry result.0.present.loan (staged_in self.entry.next).bytes }
        ensures buffer { length result.1 ≡ (staged_in self.entry.next).whole }
    {
        let Table {
            size,
            option,
            version,
            first,
            second,
            present,
            next,
        } = self;
        let staged = next.into_staged();
        let space = present.reopen().with_front(staged.bytes());
        let table = Table {
            size,
            option,
            version: version + 1,
            first,
            second,
            present: Version::seal(space, size as usize),
            next: Next::Nothing,
        };
        (table, staged.into_space())
    }

    /// Writes a range over the present value, of which no view is out.
    pub fn write_over(self, offset: u32, range: &[u8]) -> Table<'r>
        requires single { is_double self ≡ false }
        requires not_staged { is_staged self.next ≡ false }
        requires all_back { self.present.views ≡ 0 }
        requires range { offset + length range.now ≤ self.size }
        requires room { self.version < 18446744073709551615 }
        ensures { result ≡
            with_value self.entry
            result.present.loan
            (with_range self.entry.present.bytes offset range.now) }
    {
        let Table {
            size,
            option,
            version,
            first,
            second,
            present,
            next: _,
        } = self;
        let space = present
            .reopen()
            .with_range(size as usize, offset as usize, range);
        Table {
            size,
            option,
            version: version + 1,
            first,
            second,
            present: Version::seal(space, size as usize),
            next: Next::Nothing,
        }
    }

    /// The memory of its one block.
    pub fn into_block(self) -> Space<'r>
        requires all_back { self.present.views ≡ 0 }
        ensures { length result ≡ self.entry.present.whole }
    {
        let Table {
            size: _,
            option: _,
            version: _,
            first: _,
            second: _,
            present,
            next: _,
        } = self;
        present.reopen()
    }

    /// The memory of its two blocks.
    pub fn into_blocks(self) -> (Space<'r>, Space<'r>)
        requires double { is_double self ≡ true }
        requires not_staged { is_staged self.next ≡ false }
        requires all_back { self.present.views ≡ 0 }
        requires older_back { (older_in self.next).views ≡ 0 }
        ensures first { length result.0 ≡ self.entry.present.whole }
        ensures second { length result.1 ≡ self.entry.present.whole }
    {
        let Table {
            size: _,
            option: _,
            version: _,
            first: _,
            second: _,
            present,
            next,
        } = self;
        (present.reopen(), next.into_inactive())
    }
}
