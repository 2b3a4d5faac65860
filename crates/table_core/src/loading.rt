//! Loads: a value is staged, validated and made the table's.
ghost use Rattle.std.specs.Prelude.{◌≡◌, Some, IfOk, IsSomeAnd};
ghost use Rattle.std.specs.Option.{option_map};
ghost use Rattle.std.specs.Result.{result_err};
ghost use Rattle.tbl_words.specs.Machine.{cause};
ghost use Rattle.tbl_words.specs.Tables.{table_of};
ghost use Rattle.tbl_words.specs.declared.history.Call.TheVariants.{Stage, Validate, Update, Abort, Load};
ghost use Rattle.table_core.specs.Core.{MayAct, Acts, HasNextVersion, answer_behind_last};
ghost use Rattle.table_core.specs.Answers.{done};

use crate::handles::own_table;
use crate::plain::PlainTables;
use crate::staging::{is_lent, unstaged_cause};
use crate::validation::failed_rule;
use fsw_base::AppNo;
use tbl_words::TblStatus;

impl<'r> PlainTables<'r> {
    /// Stages the present value of the table of a handle of the caller's with the bytes from
    /// `offset` on replaced by these.
    ///
    /// # Errors
    /// `ErrInvalidHandle` for a handle that isn't live; `ErrNoAccess` for one of another
    /// application; `ErrUnregistered` if the table is registered no more; `ErrDumpOnly` if no
    /// load of it is allowed; `ErrFileTooLarge` if the bytes go past its end; `ErrPartialLoad`
    /// if it was never loaded and they aren't all of it; `ErrLoadInProgress` if a value is
    /// staged already; `InfoTableLocked` if it is double buffered, and an application holds a
    /// version other than the present one; `ErrNoBufferAvail` if it is single buffered, and four
    /// such tables have a staged value. The first that applies.
    pub fn stage(
        &mut self,
        app: AppNo,
        handle: u32,
        offset: u32,
        bytes: &[u8],
    ) -> Result<(), TblStatus>
        requires may { MayAct self.old app (Stage handle offset bytes.now) }
        ensures { Acts self.old self.new app (Stage handle offset bytes.now) (done result) }
    {
        self.registry.recall_ties();
        let row = own_table(&self.registry, app, handle)?;
        let key = row.key as u32;
        self.blocks.recall_buffers();
        if let Some(status) = unstaged_cause(&self.blocks, key, offset, bytes) {
            return Err(status);
        }
        self.blocks.recall_table(key);
        self.blocks.stage(key, offset, bytes);
        Ok(())
    }

    /// Tries the staged value of the table of a handle of the caller's by the table's rules.
    ///
    /// # Errors
    /// `ErrInvalidHandle` for a handle that isn't live; `ErrNoAccess` for one of another
    /// application; `ErrUnregistered` if the table is registered no more; `NoLoad` if nothing
    /// is staged; `Validation` with the number, from 1, of the first rule that the value fails: it
    /// stays staged, and isn't validated. The first that applies.
    pub fn validate(&mut self, app: AppNo, handle: u32) -> Result<(), TblStatus>
        requires may { MayAct self.old app (Validate handle) }
        ensures { Acts self.old self.new app (Validate handle) (done result) }
    {
        self.registry.recall_ties();
        let row = own_table(&self.registry, app, handle)?;
        let key = row.key as u32;
        if !self.blocks.is_staged(key) {
            return Err(TblStatus::NoLoad);
        }
        self.blocks.recall_table(key);
        let rules = self.registry.table(row.key).rules;
        if let Some(number) = failed_rule(rules.as_slice(), self.blocks.staged_value(key), 0, &[]) {
            return Err(TblStatus::Validation(number));
        }
        self.blocks.set_validated(key);
        Ok(())
    }

    /// The staged value of the table of a handle of the caller's. It is no call of the tables.
    ///
    /// # Errors
    /// Those of [`PlainTables::abort_load`].
    pub fn staged_bytes(&self, app: AppNo, handle: u32) -> Result<&[u8], TblStatus>
        ensures refused { result_err result ≡
            cause self.now.limits self.now.state app (Abort handle) }
        ensures value { IfOk result (λ bytes. IsSomeAnd (table_of self.now.state handle)
            (λ t. option_map (λ staged. staged.value) t.staged ≡ Some bytes.now)) }
    {
        self.registry.recall_ties();
        let row = own_table(&self.registry, app, handle)?;
        let key = row.key as u32;
        if !self.blocks.is_staged(key) {
            return Err(TblStatus::NoLoad);
        }
        Ok(self.blocks.staged_value(key))
    }

    /// Drops the staged value of the table of a handle of the caller's.
    ///
    /// # Errors
    /// `ErrInvalidHandle` for a handle that isn't live; `ErrNoAccess` for one of another
    /// application; `ErrUnregistered` if the table is registered no more; `NoLoad` if nothing
    /// is staged. The first that applies.
    pub fn abort_load(&mut self, app: AppNo, handle: u32) -> Result<(), TblStatus>
        requires may { MayAct self.old app (Abort handle) }
        ensures { Acts self.old self.new app (Abort handle) (done result) }
    {
        self.registry.recall_ties();
        let row = own_table(&self.registry, app, handle)?;
        let key = row.key as u32;
        if !self.blocks.is_staged(key) {
            return Err(TblStatus::NoLoad);
        }
        self.blocks.abort(key);
        Ok(())
    }

    /// Makes the staged value of the table of a handle of the caller's its present one, a version
    /// later.
    ///
    /// # Errors
    /// `ErrInvalidHandle` for a handle that isn't live; `ErrNoAccess` for one of another
    /// application; `ErrUnregistered` if the table is registered no more; `InfoNoUpdatePending`
    /// if nothing is staged; `NotValidated` if the staged value wasn't validated;
    /// `InfoTableLocked` if the table is single buffered, and an application holds it. The first
    /// that applies. At version 2^64 - 1, the last, a call that nothing else refuses is refused
    /// with `InfoTableLocked`.
    pub fn update(&mut self, app: AppNo, handle: u32) -> Result<(), TblStatus>
        requires may { MayAct self.old app (Update handle) }
        ensures does { HasNextVersion self.old.state handle →
            Acts self.old self.new app (Update handle) (done result) }
        ensures spent { (HasNextVersion self.old.state handle → ⊥) → self.new ≡ self.old }
        ensures behind_last { (HasNextVersion self.old.state handle → ⊥) →
            done result ≡ answer_behind_last self.old app (Update handle) }
    {
        self.registry.recall_ties();
        let row = own_table(&self.registry, app, handle)?;
        let key = row.key as u32;
        if !self.blocks.is_staged(key) {
            return Err(TblStatus::InfoNoUpdatePending);
        }
        if !self.blocks.is_validated(key) {
            return Err(TblStatus::NotValidated);
        }
        if is_lent(&self.blocks, key) {
            return Err(TblStatus::InfoTableLocked);
        }
        if !self.blocks.has_next_version(key) {
            return Err(TblStatus::InfoTableLocked); // no other refusal, but no later version
        }
        self.blocks.recall_table(key);
        self.blocks.update(key);
        Ok(())
    }

    /// Makes the present value of the table of a handle of the caller's, with the bytes from
    /// `offset` on replaced by these, its present one, a version later: as `stage`, `validate` and
    /// `update` in one. By the code no working buffer is used; it is refused all the same if
    /// four are taken.
    ///
    /// # Errors
    /// Those of [`PlainTables::stage`]; then `Validation` with the number, from 1, of the first
    /// rule that the new value fails; then `InfoTableLocked` if the table is single buffered,
    /// and an application holds it. The first that applies. At version 2^64 - 1, the last, a call
    /// that nothing else refuses is refused with `InfoTableLocked`.
    pub fn load(
        &mut self,
        app: AppNo,
        handle: u32,
        offset: u32,
        bytes: &[u8],
    ) -> Result<(), TblStatus>
        requires may { MayAct self.old app (Load handle offset bytes.now) }
        ensures does { HasNextVersion self.old.state handle →
            Acts self.old self.new app (Load handle offset bytes.now) (done result) }
        ensures spent { (HasNextVersion self.old.state handle → ⊥) → self.new ≡ self.old }
        ensures behind_last { (HasNextVersion self.old.state handle → ⊥) →
            done result ≡ answer_behind_last self.old app (Load handle offset bytes.now) }
    {
        self.registry.recall_ties();
        let row = own_table(&self.registry, app, handle)?;
        let key = row.key as u32;
        self.blocks.recall_buffers();
        if let Some(status) = unstaged_cause(&self.blocks, key, offset, bytes) {
            return Err(status);
        }
        self.blocks.recall_table(key);
        let rules = self.registry.table(row.key).rules;
        let value = self.blocks.bytes(key);
        if let Some(number) = failed_rule(rules.as_slice(), value, offset, bytes) {
            return Err(TblStatus::Validation(number));
        }
        if is_lent(&self.blocks, key) {
            return Err(TblStatus::InfoTableLocked);
        }
        if !self.blocks.has_next_version(key) {
            return Err(TblStatus::InfoTableLocked);
        }
        self.blocks.load(key, offset, bytes);
        Ok(())
    }
}
