//! Handles that leave, and the end of an application, by ports.
ghost use Rattle.std.specs.Prelude.{◌≡◌, true, [], OnErr};
ghost use Rattle.tbl_words.specs.declared.history.Call.TheVariants as made;
ghost use Rattle.tbl_words.specs.declared.calls.TblAnswer.TheVariants.{Done};
ghost use Rattle.table_core.specs.Answers.{done};
ghost use Rattle.tbl_words.specs.Tables.{has_ended};
ghost use Rattle.tbl_load.specs.Core.{MayCall, state_of};
ghost use Rattle.tbl_service.specs.Ports.{Answers, KeepsOthers};

use crate::calls::PortCall;
use crate::ports::TblPort;
use crate::tables::Tables;
use fsw_base::AppNo;
use std::sync::Wait;
use step_count::{Ledger, Steps};
use tbl_load::{HeldTables, TblCore, TblStatus};

/// [`TblPort::unregister`].
#[derive(Drop)]
pub(crate) struct Unregister {
    // The handle's number.
    handle: u32,
}

impl PortCall for Unregister {
    type Told = Result<(), TblStatus>;

    ghost call = { λ c. made.Unregister c.handle };

    ghost answer = { done };

    ghost leaves = { λ c old new told.
        KeepsOthers c.handle old new × (new.room ≡ old.room) × OnErr told (new ≡ old) };

    fn make<'r, L: Ledger>(
        self,
        core: &mut TblCore<'r>,
        app: AppNo,
        bag: &mut HeldTables<'r>,
        steps: &mut Steps<L>,
    ) -> Result<(), TblStatus> {
        core.unregister(app, self.handle, bag, steps)
    }
}

/// [`TblPort::end`].
#[derive(Drop)]
pub(crate) struct End;

impl PortCall for End {
    type Told = ();

    ghost call = { λ c. made.End };

    ghost answer = { λ told. Done };

    ghost leaves = { λ c old new told. new ≡ record old { views = [] } };

    fn make<'r, L: Ledger>(
        self,
        core: &mut TblCore<'r>,
        app: AppNo,
        bag: &mut HeldTables<'r>,
        steps: &mut Steps<L>,
    ) {
        core.end(app, bag, steps);
    }
}

impl<'r> TblPort<'r> {
    /// Gives a handle back, with what it holds, as [`TblCore::unregister`] does at the
    /// application's turn, which it waits for.
    ///
    /// # Errors
    /// Those of [`TblCore::unregister`], at the turn.
    pub fn unregister<R: Wait>(
        &mut self,
        tables: &Tables<'r>,
        rt: &R,
        handle: u32,
    ) -> Result<(), TblStatus>
        requires tables { self.old.lock ≡ tables.now }
        requires may { MayCall self.old.seen self.old.app (made.Unregister handle) }
        ensures answers { Answers self.old self.new (made.Unregister handle) (done result) }
        ensures others { KeepsOthers handle self.old.bag self.new.bag }
        ensures room { self.new.bag.room ≡ self.old.bag.room }
        ensures unchanged { OnErr result (self.new.bag ≡ self.old.bag) }
    {
        self.visit(tables, rt, Unregister { handle })
    }

    /// The application's last call, as [`TblCore::end`] makes it at its turn, which it waits for.
    /// All its handles are given back, each with what it holds. [`TblPort::finish`] comes next.
    pub fn end<R: Wait>(&mut self, tables: &Tables<'r>, rt: &R)
        requires tables { self.old.lock ≡ tables.now }
        requires may { MayCall self.old.seen self.old.app made.End }
        ensures answers { Answers self.old self.new made.End Done }
        ensures ended { has_ended (state_of self.new.seen) self.new.app ≡ true }
        ensures empty { self.new.bag ≡ record self.old.bag { views = [] } }
    {
        self.visit(tables, rt, End);
    }
}
