//! Registrations and shares. Each is the plain tables' call and one entry of the journal: the call
//! with its answer.
ghost use Rattle.std.specs.Prelude.{◌≡◌, ◌+◌, ◌≤◌};
ghost use Rattle.tbl_words.specs.declared.history.Call.TheVariants.{Register, Share, Status};
ghost use Rattle.table_core.specs.Answers.{registered, shared, figures_told};
ghost use Rattle.tbl_load.specs.Bags.{KeepsBags};
ghost use Rattle.tbl_load.specs.Core.{MayCall, Does};

use crate::answers::{of_figures, of_registered, of_shared};
use crate::short::status;
use crate::tables::TblCore;
use fsw_base::AppNo;
use lend_block::Note;
use step_count::{Ledger, Steps};
use tbl_rules::RuleList;
use tbl_words::{Registered, TblCall, TblEntry, TblState, TblStatus};

impl<'r> TblCore<'r> {
    /// Registers a table of `size` bytes for the caller, and answers its owner's handle: 1 to 15
    /// bytes of name, `option` 0 for single buffered, 1 for double buffered, 2 for single buffered
    /// and dump only. A table that the caller registered with this name and size is answered as it
    /// is. The value is zeros. At most 16 steps.
    ///
    /// # Errors
    /// `ErrInvalidName` for a name that hasn't 1 to 15 bytes; `ErrInvalidSize` for 0 bytes or more
    /// than the configuration allows; `ErrInvalidOptions` for an option past 2, and for a rule
    /// whose byte isn't below the size, or whose `low` is above its `high`; `ErrDuplicateNotOwned`
    /// if another application has registered a table of this name; `ErrDuplicateDiffSize` if
    /// the caller has, of another size; `ErrRegistryFull` if as many tables have a handle as the
    /// configuration allows, unregistered ones too; `ErrHandlesFull` if as many handles are live
    /// as it allows; `ErrMemBlockSize` if the pool hasn't the blocks. The first that applies.
    pub fn register<L: Ledger>(
        &mut self,
        app: AppNo,
        name: &[u8],
        size: u32,
        option: u32,
        rules: &RuleList,
        steps: &mut Steps<L>,
    ) -> Result<Registered, TblStatus>
        requires may { MayCall self.old app (Register name.now size option rules.now) }
        ensures does { Does self.old self.new app
            (Register name.now size option rules.now)
            (registered result) }
        ensures bags { KeepsBags self.old self.new }
        ensures cost { steps.new ≤ steps.old + 16 }
    {
        let result = self.core.register(app, name, size, option, rules, steps);
        let entry = TblEntry {
            app,
            call: TblCall::Register {
                name,
                size,
                option,
                rules: rules.again(),
            },
            answer: of_registered(&result),
        };
        let now = self.core.in_use();
        self.noted.push(&entry, Note::Nothing, now);
        result
    }

    /// Gives the caller a handle of the registered table of this name, and answers its number.
    /// Handles are numbered 1, 2, 3 and so on, and no number is used again.
    ///
    /// # Errors
    /// `ErrInvalidName` if no registered table has the name; `ErrHandlesFull` if as many
    /// handles are live as the configuration allows. The first that applies.
    pub fn share(&mut self, app: AppNo, name: &[u8]) -> Result<u32, TblStatus>
        requires may { MayCall self.old app (Share name.now) }
        ensures does { Does self.old self.new app (Share name.now) (shared result) }
        ensures bags { KeepsBags self.old self.new }
    {
        let result = self.core.share(app, name);
        let entry = TblEntry {
            app,
            call: TblCall::Share { name },
            answer: of_shared(&result),
        };
        let now = self.core.in_use();
        self.noted.push(&entry, Note::Nothing, now);
        result
    }

    /// The figures of the table of a handle of the caller's, registered or not.
    ///
    /// # Errors
    /// `ErrInvalidHandle` for a handle that isn't live; `ErrNoAccess` for one of another
    /// application. The first that applies.
    pub fn status(&mut self, app: AppNo, handle: u32) -> Result<TblState, TblStatus>
        requires may { MayCall self.old app (Status handle) }
        ensures does { Does self.old self.new app (Status handle) (figures_told result) }
        ensures bags { KeepsBags self.old self.new }
    {
        let result = status(&self.core, app, handle);
        let entry = TblEntry {
            app,
            call: TblCall::Status { handle },
            answer: of_figures(&result),
        };
        let now = self.core.in_use();
        self.noted.push(&entry, Note::Nothing, now);
        result
    }
}
