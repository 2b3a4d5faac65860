//! Receives and looks, by ports.
ghost use Rattle.std.specs.Prelude.{◌≡◌, Err, OnErr};
ghost use Rattle.fsw_base.specs.declared.statuses.SbStatus.TheVariants.{BadArgument};
ghost use Rattle.bus_words.specs.declared.history.Call.TheVariants as made;
ghost use Rattle.bus_core.specs.Answers.{got};
ghost use Rattle.sb_calls.specs.Answers.{pended};
ghost use Rattle.sb_calls.specs.Core.{MayCall, state_of};
ghost use Rattle.bus_service.specs.Ports.{Answers, AnswersLook};
ghost use Rattle.bus_words.specs.Bus.{standing_of, waited_on};
ghost use Rattle.bus_words.specs.declared.history.Call.TheVariants.{Look};

use crate::bus::Bus;
use crate::calls::PortCall;
use crate::kind::LookAgain;
use crate::ports::BusPort;
use buf_desc::Held;
use fsw_base::{AppNo, SbStatus};
use sb_calls::{BusCore, Pended};
use std::sync::Wait;
use step_count::{Ledger, Steps};

/// [`BusPort::receive`].
#[derive(Drop)]
pub(crate) struct Receive {
    // The pipe's number.
    pipe: u32,
}

impl PortCall for Receive {
    type Told = Result<u32, SbStatus>;

    ghost call = { λ c bag. made.Receive c.pipe };

    ghost answer = { got };

    ghost leaves = { λ c old new told.
        (new ≡ record old { views = new.views }) × (told ≡ Err BadArgument → new ≡ old) };

    fn make<'r, L: Ledger>(
        self,
        core: &mut BusCore<'r>,
        app: AppNo,
        bag: &mut Held<'r>,
        steps: &mut Steps<L>,
    ) -> Result<u32, SbStatus> {
        core.receive(app, self.pipe, bag, steps)
    }
}

/// [`BusPort::pend`].
#[derive(Drop)]
pub(crate) struct Pend {
    // The pipe's number.
    pipe: u32,
}

impl PortCall for Pend {
    type Told = Result<Pended, SbStatus>;

    ghost call = { λ c bag. made.Pend c.pipe };

    ghost answer = { pended };

    ghost leaves = { λ c old new told.
        (new ≡ record old { views = new.views }) × OnErr told (new ≡ old) };

    fn make<'r, L: Ledger>(
        self,
        core: &mut BusCore<'r>,
        app: AppNo,
        bag: &mut Held<'r>,
        steps: &mut Steps<L>,
    ) -> Result<Pended, SbStatus> {
        core.pend(app, self.pipe, bag, steps)
    }
}

impl<'r> BusPort<'r> {
    /// Takes the oldest message that waits on a pipe of the application's, as
    /// [`BusCore::receive`] does at the application's turn, which it waits for.
    ///
    /// # Errors
    /// Those of [`BusCore::receive`], at the turn.
    pub fn receive<R: Wait>(&mut self, bus: &Bus<'r>, rt: &R, pipe: u32) -> Result<u32, SbStatus>
        requires bus { self.old.lock ≡ bus.now }
        requires may { MayCall self.old.seen self.old.app (made.Receive pipe) }
        ensures answers { Answers self.old self.new (made.Receive pipe) (got result) }
        ensures buffers { self.new.bag ≡ record self.old.bag { views = self.new.bag.views } }
        ensures bag_refused { result ≡ Err BadArgument → self.new.bag ≡ self.old.bag }
    {
        self.visit(bus, rt, Receive { pipe })
    }

    /// Takes the oldest message that waits on a pipe of the application's; if none waits,
    /// and it is no time-out, the application waits on the pipe from then on, and looks again
    /// by [`BusPort::look`], as [`BusCore::pend`] does at the application's turn, which it
    /// waits for.
    ///
    /// # Errors
    /// Those of [`BusCore::pend`], at the turn.
    pub fn pend<R: Wait>(&mut self, bus: &Bus<'r>, rt: &R, pipe: u32) -> Result<Pended, SbStatus>
        requires bus { self.old.lock ≡ bus.now }
        requires may { MayCall self.old.seen self.old.app (made.Pend pipe) }
        ensures answers { Answers self.old self.new (made.Pend pipe) (pended result) }
        ensures buffers { self.new.bag ≡ record self.old.bag { views = self.new.bag.views } }
        ensures bag_refused { OnErr result (self.new.bag ≡ self.old.bag) }
    {
        self.visit(bus, rt, Pend { pipe })
    }

    /// Looks again for a message on the pipe that the application waits on, as [`BusCore::look`]
    /// does at the application's turn. If its last look was in vain, it first sleeps until a
    /// waiting application has news. It may wake earlier; nothing is claimed of how long it sleeps.
    ///
    /// [`BusCore::look`]: sb_calls::BusCore::look
    pub fn look<R: Wait>(&mut self, bus: &Bus<'r>, rt: &R) -> Pended
        requires bus { self.old.lock ≡ bus.now }
        requires may { MayCall self.old.seen self.old.app
            (Look (waited_on (standing_of (state_of self.old.seen) self.old.app))) }
        ensures answers { AnswersLook self.old self.new
            (waited_on (standing_of (state_of self.old.seen) self.old.app)) result }
        ensures still { result ≡ Pended.Pending → self.new.bag ≡ self.old.bag }
        ensures buffers { self.new.bag ≡ record self.old.bag { views = self.new.bag.views } }
    {
        self.port.recall();
        self.port
            .look::<BusCore<'r>, LookAgain, R>(&bus.service, rt, &mut self.bag)
    }
}
