//! Handles: registrations, and handles that are given back.
ghost use Rattle.std.specs.Prelude.{◌≡◌, ◌<◌, [], IfOk, OnErr, IsSomeAnd};
ghost use Rattle.std.specs.Result.{result_err};
ghost use Rattle.tbl_words.specs.declared.history.Call.TheVariants.{Register, Share, Unregister, Status, End};
ghost use Rattle.tbl_words.specs.declared.calls.TblAnswer.TheVariants.{Done};
ghost use Rattle.tbl_words.specs.Machine.{cause};
ghost use Rattle.tbl_words.specs.Tables.{table_of};
ghost use Rattle.table_core.specs.Core.{Acts};
ghost use Rattle.table_core.specs.Answers.{registered, shared, plain_figures_told, done};
ghost use Rattle.checked_tables.specs.Asked.{unasked};
ghost use Rattle.checked_tables.specs.Box.{KeepsOtherBags, KeepsOtherViews, bag_of};

use crate::boxed::TblBox;
use crate::refusal::Refusal;
use step_count::{Blank, Ledger, Steps};
use table_core::{PlainShape, PlainState};
use tbl_rules::{Rule, RuleList};
use tbl_words::{Registered, TblStatus};

impl<'r> TblBox<'r> {
    /// Registers a table, with at most 8 rules, as [`PlainTables::register`].
    ///
    /// # Errors
    /// Those of [`PlainTables::register`]; a [`Refusal`] if the tables weren't asked.
    pub fn register<L: Ledger>(
        &mut self,
        app: u32,
        name: &[u8],
        size: u32,
        option: u32,
        rules: &[Rule],
        blank: Blank,
    ) -> Result<Result<Registered, TblStatus>, Refusal>
        requires name { blank.name ≡ L.name }
        requires parts { blank.parts ≡ L.parts }
        requires some_part { 0 < blank.parts }
        ensures unasked { result_err result ≡
            unasked self.old.core app (Register name.now size option rules.now) }
        ensures nothing { OnErr result (self.new ≡ self.old) }
        ensures does { IfOk result
            (λ answer. Acts self.old.core self.new.core app
            (Register name.now size option rules.now) (registered answer)) }
        ensures bags { self.new.bags ≡ self.old.bags }
    {
        let list = RuleList::try_new(rules);
        let caller = self.asks_handle(app, list.is_some())?;
        let mut steps = Steps::<L>::new(blank);
        let few = list.unwrap();
        Ok(
            self.core
                .register(caller, name, size, option, &few, &mut steps),
        )
    }

    /// Gives the application a handle, as [`PlainTables::share`].
    ///
    /// # Errors
    /// Those of [`PlainTables::share`]; a [`Refusal`] if the tables weren't asked.
    pub fn share(&mut self, app: u32, name: &[u8]) -> Result<Result<u32, TblStatus>, Refusal>
        ensures unasked { result_err result ≡ unasked self.old.core app (Share name.now) }
        ensures nothing { OnErr result (self.new ≡ self.old) }
        ensures does { IfOk result
            (λ answer. Acts self.old.core self.new.core app (Share name.now) (shared answer)) }
        ensures bags { self.new.bags ≡ self.old.bags }
    {
        let caller = self.asks_handle(app, true)?;
        Ok(self.core.share(caller, name))
    }

    /// Gives a handle back, as [`PlainTables::unregister`].
    ///
    /// # Errors
    /// Those of [`PlainTables::unregister`]; a [`Refusal`] if the tables weren't asked.
    pub fn unregister<L: Ledger>(
        &mut self,
        app: u32,
        handle: u32,
        blank: Blank,
    ) -> Result<Result<(), TblStatus>, Refusal>
        requires name { blank.name ≡ L.name }
        requires parts { blank.parts ≡ L.parts }
        requires some_part { 0 < blank.parts }
        ensures unasked { result_err result ≡ unasked self.old.core app (Unregister handle) }
        ensures nothing { OnErr result (self.new ≡ self.old) }
        ensures does { IfOk result
            (λ answer. Acts self.old.core self.new.core app (Unregister handle) (done answer)) }
        ensures others { IfOk result (λ answer. KeepsOtherBags self.old self.new app) }
        ensures own { IfOk result (λ answer.
            KeepsOtherViews (bag_of self.old app) (bag_of self.new app) handle) }
        ensures bag_refused { IfOk result
            (λ answer. OnErr answer (bag_of self.new app ≡ bag_of self.old app)) }
    {
        let caller = self.asks(app, true)?;
        let mut steps = Steps::<L>::new(blank);
        let bag = &mut self.bags[(caller.get() - 1) as usize];
        Ok(self.core.unregister(caller, handle, bag, &mut steps))
    }

    /// The figures of a table, as [`PlainTables::status`].
    ///
    /// # Errors
    /// Those of [`PlainTables::status`]; a [`Refusal`] if the tables weren't asked.
    pub fn status(&self, app: u32, handle: u32) -> Result<Result<PlainState, TblStatus>, Refusal>
        ensures unasked { result_err result ≡ unasked self.now.core app (Status handle) }
        ensures does { IfOk result
            (λ answer. Acts self.now.core self.now.core app (Status handle)
            (plain_figures_told answer)) }
    {
        let caller = self.asks(app, true)?;
        Ok(self.core.status(caller, handle))
    }

    /// What a table is, as [`PlainTables::shape`].
    ///
    /// # Errors
    /// Those of [`PlainTables::shape`]; a [`Refusal`] if the tables weren't asked.
    pub fn shape(&self, app: u32, handle: u32) -> Result<Result<PlainShape, TblStatus>, Refusal>
        ensures unasked { result_err result ≡ unasked self.now.core app (Status handle) }
        ensures refused { IfOk result (λ answer. result_err answer ≡
            cause self.now.core.limits self.now.core.state app (Status handle)) }
        ensures shape { IfOk result (λ answer. IfOk answer (λ shape.
            IsSomeAnd (table_of self.now.core.state handle)
            (λ t. (shape.size ≡ t.size) × (shape.option ≡ t.option)))) }
    {
        let caller = self.asks(app, true)?;
        Ok(self.core.shape(caller, handle))
    }

    /// The application's last call, as [`PlainTables::end`].
    ///
    /// # Errors
    /// A [`Refusal`] if the tables weren't asked.
    pub fn end<L: Ledger>(&mut self, app: u32, blank: Blank) -> Result<(), Refusal>
        requires name { blank.name ≡ L.name }
        requires parts { blank.parts ≡ L.parts }
        requires some_part { 0 < blank.parts }
        ensures unasked { result_err result ≡ unasked self.old.core app End }
        ensures nothing { OnErr result (self.new ≡ self.old) }
        ensures does { IfOk result
            (λ answer. Acts self.old.core self.new.core app End Done) }
        ensures others { IfOk result (λ answer. KeepsOtherBags self.old self.new app) }
        ensures empty { IfOk result
            (λ answer. bag_of self.new app ≡ record (bag_of self.old app) { views = [] }) }
    {
        let caller = self.asks(app, true)?;
        let mut steps = Steps::<L>::new(blank);
        let bag = &mut self.bags[(caller.get() - 1) as usize];
        self.core.end(caller, bag, &mut steps);
        Ok(())
    }
}
