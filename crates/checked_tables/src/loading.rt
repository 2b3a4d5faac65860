//! Loads.
ghost use Rattle.std.specs.Prelude.{◌≡◌, Some, IfOk, OnErr, IsSomeAnd};
ghost use Rattle.std.specs.Option.{option_map};
ghost use Rattle.std.specs.Result.{result_err};
ghost use Rattle.tbl_words.specs.declared.history.Call.TheVariants.{Stage, Validate, Update, Abort, Load};
ghost use Rattle.tbl_words.specs.Machine.{cause};
ghost use Rattle.tbl_words.specs.Tables.{table_of};
ghost use Rattle.table_core.specs.Core.{Acts, HasNextVersion, answer_behind_last};
ghost use Rattle.table_core.specs.Answers.{done};
ghost use Rattle.checked_tables.specs.Asked.{unasked};

use crate::asking::is_range;
use crate::boxed::TblBox;
use crate::refusal::Refusal;
use tbl_words::TblStatus;

impl<'r> TblBox<'r> {
    /// Stages a value, as [`PlainTables::stage`].
    ///
    /// # Errors
    /// Those of [`PlainTables::stage`]; a [`Refusal`] if the tables weren't asked.
    pub fn stage(
        &mut self,
        app: u32,
        handle: u32,
        offset: u32,
        bytes: &[u8],
    ) -> Result<Result<(), TblStatus>, Refusal>
        ensures unasked { result_err result ≡
            unasked self.old.core app (Stage handle offset bytes.now) }
        ensures nothing { OnErr result (self.new ≡ self.old) }
        ensures does { IfOk result
            (λ answer. Acts self.old.core self.new.core app (Stage handle offset bytes.now)
            (done answer)) }
        ensures bags { self.new.bags ≡ self.old.bags }
    {
        let caller = self.asks(app, is_range(offset, bytes))?;
        Ok(self.core.stage(caller, handle, offset, bytes))
    }

    /// Tries the staged value by the table's rules, as [`PlainTables::validate`].
    ///
    /// # Errors
    /// Those of [`PlainTables::validate`]; a [`Refusal`] if the tables weren't asked.
    pub fn validate(&mut self, app: u32, handle: u32) -> Result<Result<(), TblStatus>, Refusal>
        ensures unasked { result_err result ≡ unasked self.old.core app (Validate handle) }
        ensures nothing { OnErr result (self.new ≡ self.old) }
        ensures does { IfOk result
            (λ answer. Acts self.old.core self.new.core app (Validate handle) (done answer)) }
        ensures bags { self.new.bags ≡ self.old.bags }
    {
        let caller = self.asks(app, true)?;
        Ok(self.core.validate(caller, handle))
    }

    /// Makes the staged value the table's, as [`PlainTables::update`].
    ///
    /// # Errors
    /// Those of [`PlainTables::update`]; a [`Refusal`] if the tables weren't asked.
    pub fn update(&mut self, app: u32, handle: u32) -> Result<Result<(), TblStatus>, Refusal>
        ensures unasked { result_err result ≡ unasked self.old.core app (Update handle) }
        ensures nothing { OnErr result (self.new ≡ self.old) }
        ensures does { IfOk result
            (λ answer. HasNextVersion self.old.core.state handle →
            Acts self.old.core self.new.core app (Update handle) (done answer)) }
        ensures spent { IfOk result
            (λ answer. (HasNextVersion self.old.core.state handle → ⊥) →
            self.new.core ≡ self.old.core) }
        ensures behind_last { IfOk result
            (λ answer. (HasNextVersion self.old.core.state handle → ⊥) →
            done answer ≡ answer_behind_last self.old.core app (Update handle)) }
        ensures bags { self.new.bags ≡ self.old.bags }
    {
        let caller = self.asks(app, true)?;
        Ok(self.core.update(caller, handle))
    }

    /// The staged value, as [`PlainTables::staged_bytes`]; it is read before the next call.
    ///
    /// # Errors
    /// Those of [`PlainTables::staged_bytes`]; a [`Refusal`] if the tables weren't asked.
    pub fn staged_bytes(&self, app: u32, handle: u32) -> Result<Result<&[u8], TblStatus>, Refusal>
        ensures unasked { result_err result ≡ unasked self.now.core app (Abort handle) }
        ensures refused { IfOk result (λ answer. result_err answer ≡
            cause self.now.core.limits self.now.core.state app (Abort handle)) }
        ensures value { IfOk result (λ answer. IfOk answer (λ bytes.
            IsSomeAnd (table_of self.now.core.state handle)
            (λ t. option_map (λ staged. staged.value) t.staged ≡ Some bytes.now))) }
    {
        let caller = self.asks(app, true)?;
        Ok(self.core.staged_bytes(caller, handle))
    }

    /// Drops the staged value, as [`PlainTables::abort_load`].
    ///
    /// # Errors
    /// Those of [`PlainTables::abort_load`]; a [`Refusal`] if the tables weren't asked.
    pub fn abort_load(&mut self, app: u32, handle: u32) -> Result<Result<(), TblStatus>, Refusal>
        ensures unasked { result_err result ≡ unasked self.old.core app (Abort handle) }
        ensures nothing { OnErr result (self.new ≡ self.old) }
        ensures does { IfOk result
            (λ answer. Acts self.old.core self.new.core app (Abort handle) (done answer)) }
        ensures bags { self.new.bags ≡ self.old.bags }
    {
        let caller = self.asks(app, true)?;
        Ok(self.core.abort_load(caller, handle))
    }

    /// Stages, validates and updates in one, as [`PlainTables::load`].
    ///
    /// # Errors
    /// Those of [`PlainTables::load`]; a [`Refusal`] if the tables weren't asked.
    pub fn load(
        &mut self,
        app: u32,
        handle: u32,
        offset: u32,
        bytes: &[u8],
    ) -> Result<Result<(), TblStatus>, Refusal>
        ensures unasked { result_err result ≡
            unasked self.old.core app (Load handle offset bytes.now) }
        ensures nothing { OnErr result (self.new ≡ self.old) }
        ensures does { IfOk result
            (λ answer. HasNextVersion self.old.core.state handle →
            Acts self.old.core self.new.core app (Load handle offset bytes.now) (done answer)) }
        ensures spent { IfOk result
            (λ answer. (HasNextVersion self.old.core.state handle → ⊥) →
            self.new.core ≡ self.old.core) }
        ensures behind_last { IfOk result
            (λ answer. (HasNextVersion self.old.core.state handle → ⊥) →
            done answer ≡ answer_behind_last self.old.core app (Load handle offset bytes.now)) }
        ensures bags { self.new.bags ≡ self.old.bags }
    {
        let caller = self.asks(app, is_range(offset, bytes))?;
        Ok(self.core.load(caller, handle, offset, bytes))
    }
}
