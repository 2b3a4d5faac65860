//! Addresses, by ports.
ghost use Rattle.std.specs.Prelude.{◌≡◌, OnErr};
ghost use Rattle.tbl_words.specs.declared.history.Call.TheVariants as made;
ghost use Rattle.table_core.specs.Answers.{addressed, done};
ghost use Rattle.tbl_load.specs.Core.{MayCall};
ghost use Rattle.tbl_service.specs.Ports.{Answers, KeepsOthers};

use crate::calls::PortCall;
use crate::ports::TblPort;
use crate::tables::Tables;
use fsw_base::AppNo;
use std::sync::Wait;
use step_count::{Ledger, Steps};
use tbl_load::{Address, HeldTables, TblCore, TblStatus};

/// [`TblPort::get_address`].
#[derive(Drop)]
pub(crate) struct GetAddress {
    // The handle's number.
    handle: u32,
}

impl PortCall for GetAddress {
    type Told = Result<Address, TblStatus>;

    ghost call = { λ c. made.GetAddress c.handle };

    ghost answer = { addressed };

    ghost leaves = { λ c old new told.
        KeepsOthers c.handle old new × (new.room ≡ old.room) × OnErr told (new ≡ old) };

    fn make<'r, L: Ledger>(
        self,
        core: &mut TblCore<'r>,
        app: AppNo,
        bag: &mut HeldTables<'r>,
        _steps: &mut Steps<L>,
    ) -> Result<Address, TblStatus> {
        core.get_address(app, self.handle, bag)
    }
}

/// [`TblPort::release_address`].
#[derive(Drop)]
pub(crate) struct ReleaseAddress {
    // The handle's number.
    handle: u32,
}

impl PortCall for ReleaseAddress {
    type Told = Result<(), TblStatus>;

    ghost call = { λ c. made.ReleaseAddress c.handle };

    ghost answer = { done };

    ghost leaves = { λ c old new told.
        KeepsOthers c.handle old new × (new.room ≡ old.room) × OnErr told (new ≡ old) };

    fn make<'r, L: Ledger>(
        self,
        core: &mut TblCore<'r>,
        app: AppNo,
        bag: &mut HeldTables<'r>,
        _steps: &mut Steps<L>,
    ) -> Result<(), TblStatus> {
        core.release_address(app, self.handle, bag)
    }
}

impl<'r> TblPort<'r> {
    /// Takes hold of the present version of the table of a handle, as [`TblCore::get_address`] does
    /// at the application's turn, which it waits for. [`TblPort::held`] shows this version until
    /// the handle's next address, its release or its end, whatever is loaded meanwhile.
    ///
    /// # Errors
    /// Those of [`TblCore::get_address`], at the turn.
    pub fn get_address<R: Wait>(
        &mut self,
        tables: &Tables<'r>,
        rt: &R,
        handle: u32,
    ) -> Result<Address, TblStatus>
        requires tables { self.old.lock ≡ tables.now }
        requires may { MayCall self.old.seen self.old.app (made.GetAddress handle) }
        ensures answers { Answers self.old self.new (made.GetAddress handle) (addressed result) }
        ensures others { KeepsOthers handle self.old.bag self.new.bag }
        ensures room { self.new.bag.room ≡ self.old.bag.room }
        ensures unchanged { OnErr result (self.new.bag ≡ self.old.bag) }
    {
        self.visit(tables, rt, GetAddress { handle })
    }

    /// Lets go of what a handle holds, as [`TblCore::release_address`] does at the application's
    /// turn, which it waits for.
    ///
    /// # Errors
    /// Those of [`TblCore::release_address`], at the turn.
    pub fn release_address<R: Wait>(
        &mut self,
        tables: &Tables<'r>,
        rt: &R,
        handle: u32,
    ) -> Result<(), TblStatus>
        requires tables { self.old.lock ≡ tables.now }
        requires may { MayCall self.old.seen self.old.app (made.ReleaseAddress handle) }
        ensures answers { Answers self.old self.new (made.ReleaseAddress handle) (done result) }
        ensures others { KeepsOthers handle self.old.bag self.new.bag }
        ensures room { self.new.bag.room ≡ self.old.bag.room }
        ensures unchanged { OnErr result (self.new.bag ≡ self.old.bag) }
    {
        self.visit(tables, rt, ReleaseAddress { handle })
    }
}
