//! Loads: a value is staged, validated and made the table's.
ghost use Rattle.std.specs.Prelude.{◌≡◌};
ghost use Rattle.tbl_words.specs.declared.history.Call.TheVariants.{Stage, Validate, Update, Abort, Load};
ghost use Rattle.table_core.specs.Answers.{done};
ghost use Rattle.tbl_load.specs.Bags.{KeepsBags};
ghost use Rattle.tbl_load.specs.Core.{MayCall, Does};

use crate::answers::of_done;
use crate::tables::TblCore;
use fsw_base::AppNo;
use lend_block::Note;
use tbl_words::{TblCall, TblEntry, TblStatus};

impl<'r> TblCore<'r> {
    /// Stages the present value of the table of a handle of the caller's with the bytes from
    /// `offset` on replaced by these.
    ///
    /// # Errors
    /// `ErrInvalidHandle` for a handle that isn't live; `ErrNoAccess` for one of another
    /// application; `ErrUnregistered` if the table is registered no more; `ErrDumpOnly` if no
    /// load of it is allowed; `ErrFileTooLarge` if the bytes go past its end; `ErrPartialLoad`
    /// if it was never loaded and they aren't all of it; `ErrLoadInProgress` if a value is
    /// staged already; `InfoTableLocked` if it is double buffered, and an application holds a
    /// version other than the present one; `ErrNoBufferAvail` if it is single buffered, and four
    /// such tables have a staged value. The first that applies.
    pub fn stage(
        &mut self,
        app: AppNo,
        handle: u32,
        offset: u32,
        bytes: &[u8],
    ) -> Result<(), TblStatus>
        requires may { MayCall self.old app (Stage handle offset bytes.now) }
        ensures does { Does self.old self.new app (Stage handle offset bytes.now) (done result) }
        ensures bags { KeepsBags self.old self.new }
    {
        let result = self.core.stage(app, handle, offset, bytes);
        let entry = TblEntry {
            app,
            call: TblCall::Stage {
                handle,
                offset,
                bytes,
            },
            answer: of_done(&result),
        };
        let now = self.core.in_use();
        self.noted.push(&entry, Note::Nothing, now);
        result
    }

    /// Tries the staged value of the table of a handle of the caller's by the table's rules.
    ///
    /// # Errors
    /// `ErrInvalidHandle` for a handle that isn't live; `ErrNoAccess` for one of another
    /// application; `ErrUnregistered` if the table is registered no more; `NoLoad` if nothing
    /// is staged; `Validation` with the number, from 1, of the first rule that the value fails: it
    /// stays staged, and isn't validated. The first that applies.
    pub fn validate(&mut self, app: AppNo, handle: u32) -> Result<(), TblStatus>
        requires may { MayCall self.old app (Validate handle) }
        ensures does { Does self.old self.new app (Validate handle) (done result) }
        ensures bags { KeepsBags self.old self.new }
    {
        let result = self.core.validate(app, handle);
        let entry = TblEntry {
            app,
            call: TblCall::Validate { handle },
            answer: of_done(&result),
        };
        let now = self.core.in_use();
        self.noted.push(&entry, Note::Nothing, now);
        result
    }

    /// Makes the staged value of the table of a handle of the caller's its present one, a version
    /// later.
    ///
    /// # Errors
    /// `ErrInvalidHandle` for a handle that isn't live; `ErrNoAccess` for one of another
    /// application; `ErrUnregistered` if the table is registered no more; `InfoNoUpdatePending`
    /// if nothing is staged; `NotValidated` if the staged value wasn't validated;
    /// `InfoTableLocked` if the table is single buffered, and an application holds it. The first
    /// that applies.
    pub fn update(&mut self, app: AppNo, handle: u32) -> Result<(), TblStatus>
        requires may { MayCall self.old app (Update handle) }
        ensures does { Does self.old self.new app (Update handle) (done result) }
        ensures bags { KeepsBags self.old self.new }
    {
        let result = self.core.update(app, handle);
        let entry = TblEntry {
            app,
            call: TblCall::Update { handle },
            answer: of_done(&result),
        };
        let now = self.core.in_use();
        self.noted.push(&entry, Note::Nothing, now);
        result
    }

    /// Drops the staged value of the table of a handle of the caller's.
    ///
    /// # Errors
    /// `ErrInvalidHandle` for a handle that isn't live; `ErrNoAccess` for one of another
    /// application; `ErrUnregistered` if the table is registered no more; `NoLoad` if nothing
    /// is staged. The first that applies.
    pub fn abort_load(&mut self, app: AppNo, handle: u32) -> Result<(), TblStatus>
        requires may { MayCall self.old app (Abort handle) }
        ensures does { Does self.old self.new app (Abort handle) (done result) }
        ensures bags { KeepsBags self.old self.new }
    {
        let result = self.core.abort_load(app, handle);
        let entry = TblEntry {
            app,
            call: TblCall::Abort { handle },
            answer: of_done(&result),
        };
        let now = self.core.in_use();
        self.noted.push(&entry, Note::Nothing, now);
        result
    }

    /// Makes the present value of the table of a handle of the caller's, with the bytes from
    /// `offset` on replaced by these, its present one, a version later: as `stage`, `validate` and
    /// `update` in one. By the code no working buffer is used; it is refused all the same if
    /// four are taken.
    ///
    /// # Errors
    /// Those of [`TblCore::stage`]; then `Validation` with the number, from 1, of the first rule
    /// that the new value fails; then `InfoTableLocked` if the table is single buffered, and an
    /// application holds it. The first that applies.
    pub fn load(
        &mut self,
        app: AppNo,
        handle: u32,
        offset: u32,
        bytes: &[u8],
    ) -> Result<(), TblStatus>
        requires may { MayCall self.old app (Load handle offset bytes.now) }
        ensures does { Does self.old self.new app (Load handle offset bytes.now) (done result) }
        ensures bags { KeepsBags self.old self.new }
    {
        let result = self.core.load(app, handle, offset, bytes);
        let entry = TblEntry {
            app,
            call: TblCall::Load {
                handle,
                offset,
                bytes,
            },
            answer: of_done(&result),
        };
        let now = self.core.in_use();
        self.noted.push(&entry, Note::Nothing, now);
        result
    }
}
