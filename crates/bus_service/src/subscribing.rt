//! Subscriptions, by ports.
ghost use Rattle.std.specs.Prelude.{◌≡◌};
ghost use Rattle.bus_words.specs.declared.history.Call.TheVariants as made;
ghost use Rattle.bus_core.specs.Answers.{done};
ghost use Rattle.sb_calls.specs.Core.{MayCall};
ghost use Rattle.bus_service.specs.Ports.{Answers};

use crate::bus::Bus;
use crate::calls::PortCall;
use crate::ports::BusPort;
use buf_desc::Held;
use fsw_base::{AppNo, SbStatus, Scope};
use sb_calls::BusCore;
use std::sync::Wait;
use step_count::{Ledger, Steps};

/// [`BusPort::subscribe`].
#[derive(Drop)]
pub(crate) struct Subscribe {
    // The message id.
    id: u16,
    // The pipe's number.
    pipe: u32,
    // How many of its messages may wait at once.
    limit: u32,
    // Its scope.
    scope: Scope,
}

impl PortCall for Subscribe {
    type Told = Result<(), SbStatus>;

    ghost call = { λ c bag. made.Subscribe c.id c.pipe c.limit c.scope };

    ghost answer = { done };

    ghost leaves = { λ c old new told. new ≡ old };

    fn make<'r, L: Ledger>(
        self,
        core: &mut BusCore<'r>,
        app: AppNo,
        _bag: &mut Held<'r>,
        steps: &mut Steps<L>,
    ) -> Result<(), SbStatus> {
        core.subscribe(app, self.id, self.pipe, self.limit, self.scope, steps)
    }
}

/// [`BusPort::unsubscribe`].
#[derive(Drop)]
pub(crate) struct Unsubscribe {
    // The message id.
    id: u16,
    // The pipe's number.
    pipe: u32,
}

impl PortCall for Unsubscribe {
    type Told = Result<(), SbStatus>;

    ghost call = { λ c bag. made.Unsubscribe c.id c.pipe };

    ghost answer = { done };

    ghost leaves = { λ c old new told. new ≡ old };

    fn make<'r, L: Ledger>(
        self,
        core: &mut BusCore<'r>,
        app: AppNo,
        _bag: &mut Held<'r>,
        steps: &mut Steps<L>,
    ) -> Result<(), SbStatus> {
        core.unsubscribe(app, self.id, self.pipe, steps)
    }
}

impl<'r> BusPort<'r> {
    /// Has messages of this id queued on a pipe of the application's, up to `limit` of them at
    /// once, as [`BusCore::subscribe`] does at the application's turn, which it waits for.
    ///
    /// # Errors
    /// Those of [`BusCore::subscribe`], at the turn.
    pub fn subscribe<R: Wait>(
        &mut self,
        bus: &Bus<'r>,
        rt: &R,
        id: u16,
        pipe: u32,
        limit: u32,
        scope: Scope,
    ) -> Result<(), SbStatus>
        requires bus { self.old.lock ≡ bus.now }
        requires may { MayCall self.old.seen self.old.app (made.Subscribe id pipe limit scope) }
        ensures answers { Answers self.old self.new (made.Subscribe id pipe limit scope)
            (done result) }
        ensures bag { self.new.bag ≡ self.old.bag }
    {
        self.visit(
            bus,
            rt,
            Subscribe {
                id,
                pipe,
                limit,
                scope,
            },
        )
    }

    /// Has no more messages of this id queued on a pipe of the application's, as
    /// [`BusCore::unsubscribe`] does at the application's turn, which it waits for.
    ///
    /// # Errors
    /// Those of [`BusCore::unsubscribe`], at the turn.
    pub fn unsubscribe<R: Wait>(
        &mut self,
        bus: &Bus<'r>,
        rt: &R,
        id: u16,
        pipe: u32,
    ) -> Result<(), SbStatus>
        requires bus { self.old.lock ≡ bus.now }
        requires may { MayCall self.old.seen self.old.app (made.Unsubscribe id pipe) }
        ensures answers { Answers self.old self.new (made.Unsubscribe id pipe) (done result) }
        ensures bag { self.new.bag ≡ self.old.bag }
    {
        self.visit(bus, rt, Unsubscribe { id, pipe })
    }
}
