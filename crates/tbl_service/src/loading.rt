//! Loads of tables, by ports.
ghost use Rattle.std.specs.Prelude.{◌≡◌};
ghost use Rattle.tbl_words.specs.declared.history.Call.TheVariants as made;
ghost use Rattle.table_core.specs.Answers.{done};
ghost use Rattle.tbl_load.specs.Core.{MayCall};
ghost use Rattle.tbl_service.specs.Ports.{Answers};

use crate::calls::PortCall;
use crate::ports::TblPort;
use crate::tables::Tables;
use fsw_base::AppNo;
use std::sync::Wait;
use step_count::{Ledger, Steps};
use tbl_load::{HeldTables, TblCore, TblStatus};

/// [`TblPort::stage`].
#[derive(Drop)]
pub(crate) struct Stage<'a> {
    // The handle's number.
    handle: u32,
    // The place of the first byte in the table.
    offset: u32,
    // The bytes.
    bytes: &'a [u8],
}

impl PortCall for Stage<'_> {
    type Told = Result<(), TblStatus>;

    ghost call = { λ c. made.Stage c.handle c.offset c.bytes.now };

    ghost answer = { done };

    ghost leaves = { λ c old new told. new ≡ old };

    fn make<'r, L: Ledger>(
        self,
        core: &mut TblCore<'r>,
        app: AppNo,
        bag: &mut HeldTables<'r>,
        _steps: &mut Steps<L>,
    ) -> Result<(), TblStatus> {
        core.stage(app, self.handle, self.offset, self.bytes)
    }
}

/// [`TblPort::validate`].
#[derive(Drop)]
pub(crate) struct Validate {
    // The handle's number.
    handle: u32,
}

impl PortCall for Validate {
    type Told = Result<(), TblStatus>;

    ghost call = { λ c. made.Validate c.handle };

    ghost answer = { done };

    ghost leaves = { λ c old new told. new ≡ old };

    fn make<'r, L: Ledger>(
        self,
        core: &mut TblCore<'r>,
        app: AppNo,
        bag: &mut HeldTables<'r>,
        _steps: &mut Steps<L>,
    ) -> Result<(), TblStatus> {
        core.validate(app, self.handle)
    }
}

/// [`TblPort::update`].
#[derive(Drop)]
pub(crate) struct Update {
    // The handle's number.
    handle: u32,
}

impl PortCall for Update {
    type Told = Result<(), TblStatus>;

    ghost call = { λ c. made.Update c.handle };

    ghost answer = { done };

    ghost leaves = { λ c old new told. new ≡ old };

    fn make<'r, L: Ledger>(
        self,
        core: &mut TblCore<'r>,
        app: AppNo,
        bag: &mut HeldTables<'r>,
        _steps: &mut Steps<L>,
    ) -> Result<(), TblStatus> {
        core.update(app, self.handle)
    }
}

/// [`TblPort::abort_load`].
#[derive(Drop)]
pub(crate) struct Abort {
    // The handle's number.
    handle: u32,
}

impl PortCall for Abort {
    type Told = Result<(), TblStatus>;

    ghost call = { λ c. made.Abort c.handle };

    ghost answer = { done };

    ghost leaves = { λ c old new told. new ≡ old };

    fn make<'r, L: Ledger>(
        self,
        core: &mut TblCore<'r>,
        app: AppNo,
        bag: &mut HeldTables<'r>,
        _steps: &mut Steps<L>,
    ) -> Result<(), TblStatus> {
        core.abort_load(app, self.handle)
    }
}

/// [`TblPort::load`].
#[derive(Drop)]
pub(crate) struct Load<'a> {
    // The handle's number.
    handle: u32,
    // The place of the first byte in the table.
    offset: u32,
    // The bytes.
    bytes: &'a [u8],
}

impl PortCall for Load<'_> {
    type Told = Result<(), TblStatus>;

    ghost call = { λ c. made.Load c.handle c.offset c.bytes.now };

    ghost answer = { done };

    ghost leaves = { λ c old new told. new ≡ old };

    fn make<'r, L: Ledger>(
        self,
        core: &mut TblCore<'r>,
        app: AppNo,
        bag: &mut HeldTables<'r>,
        _steps: &mut Steps<L>,
    ) -> Result<(), TblStatus> {
        core.load(app, self.handle, self.offset, self.bytes)
    }
}

impl<'r> TblPort<'r> {
    /// Stages bytes for the table of a handle, as [`TblCore::stage`] does at the application's
    /// turn, which it waits for.
    ///
    /// # Errors
    /// Those of [`TblCore::stage`], at the turn.
    pub fn stage<R: Wait>(
        &mut self,
        tables: &Tables<'r>,
        rt: &R,
        handle: u32,
        offset: u32,
        bytes: &[u8],
    ) -> Result<(), TblStatus>
        requires tables { self.old.lock ≡ tables.now }
        requires may { MayCall self.old.seen self.old.app (made.Stage handle offset bytes.now) }
        ensures answers { Answers self.old self.new
            (made.Stage handle offset bytes.now)
            (done result) }
        ensures bag { self.new.bag ≡ self.old.bag }
    {
        let call = Stage {
            handle,
            offset,
            bytes,
        };
        self.visit(tables, rt, call)
    }

    /// Tries what is staged for the table of a handle by its rules, as [`TblCore::validate`] does
    /// at the application's turn, which it waits for.
    ///
    /// # Errors
    /// Those of [`TblCore::validate`], at the turn.
    pub fn validate<R: Wait>(
        &mut self,
        tables: &Tables<'r>,
        rt: &R,
        handle: u32,
    ) -> Result<(), TblStatus>
        requires tables { self.old.lock ≡ tables.now }
        requires may { MayCall self.old.seen self.old.app (made.Validate handle) }
        ensures answers { Answers self.old self.new (made.Validate handle) (done result) }
        ensures bag { self.new.bag ≡ self.old.bag }
    {
        self.visit(tables, rt, Validate { handle })
    }

    /// Makes what is staged for the table of a handle its value, as [`TblCore::update`] does at the
    /// application's turn, which it waits for.
    ///
    /// # Errors
    /// Those of [`TblCore::update`], at the turn.
    pub fn update<R: Wait>(
        &mut self,
        tables: &Tables<'r>,
        rt: &R,
        handle: u32,
    ) -> Result<(), TblStatus>
        requires tables { self.old.lock ≡ tables.now }
        requires may { MayCall self.old.seen self.old.app (made.Update handle) }
        ensures answers { Answers self.old self.new (made.Update handle) (done result) }
        ensures bag { self.new.bag ≡ self.old.bag }
    {
        self.visit(tables, rt, Update { handle })
    }

    /// Drops what is staged for the table of a handle, as [`TblCore::abort_load`] does at the
    /// application's turn, which it waits for.
    ///
    /// # Errors
    /// Those of [`TblCore::abort_load`], at the turn.
    pub fn abort_load<R: Wait>(
        &mut self,
        tables: &Tables<'r>,
        rt: &R,
        handle: u32,
    ) -> Result<(), TblStatus>
        requires tables { self.old.lock ≡ tables.now }
        requires may { MayCall self.old.seen self.old.app (made.Abort handle) }
        ensures answers { Answers self.old self.new (made.Abort handle) (done result) }
        ensures bag { self.new.bag ≡ self.old.bag }
    {
        self.visit(tables, rt, Abort { handle })
    }

    /// Stages, validates and updates in one, as [`TblCore::load`] does at the application's turn,
    /// which it waits for.
    ///
    /// # Errors
    /// Those of [`TblCore::load`], at the turn.
    pub fn load<R: Wait>(
        &mut self,
        tables: &Tables<'r>,
        rt: &R,
        handle: u32,
        offset: u32,
        bytes: &[u8],
    ) -> Result<(), TblStatus>
        requires tables { self.old.lock ≡ tables.now }
        requires may { MayCall self.old.seen self.old.app (made.Load handle offset bytes.now) }
        ensures answers { Answers self.old self.new
            (made.Load handle offset bytes.now)
            (done result) }
        ensures bag { self.new.bag ≡ self.old.bag }
    {
        let call = Load {
            handle,
            offset,
            bytes,
        };
        self.visit(tables, rt, call)
    }
}
