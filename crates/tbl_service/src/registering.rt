//! Registrations, shares and figures of tables, by ports.
ghost use Rattle.std.specs.Prelude.{◌≡◌};
ghost use Rattle.tbl_words.specs.declared.history.Call.TheVariants as made;
ghost use Rattle.table_core.specs.Answers.{registered, shared, figures_told};
ghost use Rattle.tbl_load.specs.Core.{MayCall};
ghost use Rattle.tbl_service.specs.Ports.{Answers};

use crate::calls::PortCall;
use crate::ports::TblPort;
use crate::tables::Tables;
use fsw_base::AppNo;
use std::sync::Wait;
use step_count::{Ledger, Steps};
use tbl_load::{HeldTables, Registered, TblCore, TblState, TblStatus};
use tbl_rules::RuleList;

/// [`TblPort::register`].
#[derive(Drop)]
pub(crate) struct Register<'a> {
    // The table's name.
    name: &'a [u8],
    // Its bytes.
    size: u32,
    // How it is buffered.
    option: u32,
    // What its validation asks.
    rules: &'a RuleList,
}

impl PortCall for Register<'_> {
    type Told = Result<Registered, TblStatus>;

    ghost call = { λ c. made.Register c.name.now c.size c.option c.rules.now };

    ghost answer = { registered };

    ghost leaves = { λ c old new told. new ≡ old };

    fn make<'r, L: Ledger>(
        self,
        core: &mut TblCore<'r>,
        app: AppNo,
        bag: &mut HeldTables<'r>,
        steps: &mut Steps<L>,
    ) -> Result<Registered, TblStatus> {
        core.register(app, self.name, self.size, self.option, self.rules, steps)
    }
}

/// [`TblPort::share`].
#[derive(Drop)]
pub(crate) struct Share<'a> {
    // The table's name.
    name: &'a [u8],
}

impl PortCall for Share<'_> {
    type Told = Result<u32, TblStatus>;

    ghost call = { λ c. made.Share c.name.now };

    ghost answer = { shared };

    ghost leaves = { λ c old new told. new ≡ old };

    fn make<'r, L: Ledger>(
        self,
        core: &mut TblCore<'r>,
        app: AppNo,
        bag: &mut HeldTables<'r>,
        _steps: &mut Steps<L>,
    ) -> Result<u32, TblStatus> {
        core.share(app, self.name)
    }
}

/// [`TblPort::status`].
#[derive(Drop)]
pub(crate) struct Status {
    // The handle's number.
    handle: u32,
}

impl PortCall for Status {
    type Told = Result<TblState, TblStatus>;

    ghost call = { λ c. made.Status c.handle };

    ghost answer = { figures_told };

    ghost leaves = { λ c old new told. new ≡ old };

    fn make<'r, L: Ledger>(
        self,
        core: &mut TblCore<'r>,
        app: AppNo,
        bag: &mut HeldTables<'r>,
        _steps: &mut Steps<L>,
    ) -> Result<TblState, TblStatus> {
        core.status(app, self.handle)
    }
}

impl<'r> TblPort<'r> {
    /// Registers a table of `size` bytes for the port's application, as [`TblCore::register`] does
    /// at the application's turn, which it waits for.
    ///
    /// # Errors
    /// Those of [`TblCore::register`], at the turn.
    pub fn register<R: Wait>(
        &mut self,
        tables: &Tables<'r>,
        rt: &R,
        name: &[u8],
        size: u32,
        option: u32,
        rules: &RuleList,
    ) -> Result<Registered, TblStatus>
        requires tables { self.old.lock ≡ tables.now }
        requires may { MayCall self.old.seen self.old.app
            (made.Register name.now size option rules.now) }
        ensures answers { Answers self.old self.new
            (made.Register name.now size option rules.now)
            (registered result) }
        ensures bag { self.new.bag ≡ self.old.bag }
    {
        let call = Register {
            name,
            size,
            option,
            rules,
        };
        self.visit(tables, rt, call)
    }

    /// Gives the port's application a handle of the registered table of this name, as
    /// [`TblCore::share`] does at its turn, which it waits for.
    ///
    /// # Errors
    /// Those of [`TblCore::share`], at the turn.
    pub fn share<R: Wait>(
        &mut self,
        tables: &Tables<'r>,
        rt: &R,
        name: &[u8],
    ) -> Result<u32, TblStatus>
        requires tables { self.old.lock ≡ tables.now }
        requires may { MayCall self.old.seen self.old.app (made.Share name.now) }
        ensures answers { Answers self.old self.new (made.Share name.now) (shared result) }
        ensures bag { self.new.bag ≡ self.old.bag }
    {
        self.visit(tables, rt, Share { name })
    }

    /// The figures of the table of a handle, as [`TblCore::status`] tells them at the application's
    /// turn, which it waits for.
    ///
    /// # Errors
    /// Those of [`TblCore::status`], at the turn.
    pub fn status<R: Wait>(
        &mut self,
        tables: &Tables<'r>,
        rt: &R,
        handle: u32,
    ) -> Result<TblState, TblStatus>
        requires tables { self.old.lock ≡ tables.now }
        requires may { MayCall self.old.seen self.old.app (made.Status handle) }
        ensures answers { Answers self.old self.new (made.Status handle) (figures_told result) }
        ensures bag { self.new.bag ≡ self.old.bag }
    {
        self.visit(tables, rt, Status { handle })
    }
}
