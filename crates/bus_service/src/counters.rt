//! What the bus counts, by ports.
ghost use Rattle.std.specs.Prelude.{◌≡◌};
ghost use Rattle.bus_words.specs.declared.history.Call.TheVariants as made;
ghost use Rattle.bus_words.specs.declared.calls.BusAnswer.TheVariants as answered;
ghost use Rattle.sb_calls.specs.Answers.{sent};
ghost use Rattle.sb_calls.specs.Core.{MayCall};
ghost use Rattle.bus_service.specs.Ports.{Answers};

use crate::bus::Bus;
use crate::calls::PortCall;
use crate::ports::BusPort;
use buf_desc::Held;
use fsw_base::{AppNo, BusStats, SbStatus};
use sb_calls::{BusCore, Sent};
use std::sync::Wait;
use step_count::{Ledger, Steps};

/// [`BusPort::send_housekeeping`].
#[derive(Drop)]
pub(crate) struct Housekeeping;

impl PortCall for Housekeeping {
    type Told = Result<Sent, SbStatus>;

    ghost call = { λ c bag. made.Housekeeping };

    ghost answer = { sent };

    ghost leaves = { λ c old new told. new ≡ old };

    fn make<'r, L: Ledger>(
        self,
        core: &mut BusCore<'r>,
        app: AppNo,
        _bag: &mut Held<'r>,
        steps: &mut Steps<L>,
    ) -> Result<Sent, SbStatus> {
        core.send_housekeeping(app, steps)
    }
}

/// [`BusPort::bus_stats`].
#[derive(Drop)]
pub(crate) struct Figures;

impl PortCall for Figures {
    type Told = BusStats;

    ghost call = { λ c bag. made.Figures };

    ghost answer = { answered.Bus };

    ghost leaves = { λ c old new told. new ≡ old };

    fn make<'r, L: Ledger>(
        self,
        core: &mut BusCore<'r>,
        app: AppNo,
        _bag: &mut Held<'r>,
        _steps: &mut Steps<L>,
    ) -> BusStats {
        core.bus_stats(app)
    }
}

impl<'r> BusPort<'r> {
    /// Sends the housekeeping packet as a message of the application's, as
    /// [`BusCore::send_housekeeping`] does at the application's turn, which it waits for.
    ///
    /// # Errors
    /// Those of [`BusCore::send_housekeeping`], at the turn.
    pub fn send_housekeeping<R: Wait>(&mut self, bus: &Bus<'r>, rt: &R) -> Result<Sent, SbStatus>
        requires bus { self.old.lock ≡ bus.now }
        requires may { MayCall self.old.seen self.old.app made.Housekeeping }
        ensures answers { Answers self.old self.new made.Housekeeping (sent result) }
        ensures bag { self.new.bag ≡ self.old.bag }
    {
        self.visit(bus, rt, Housekeeping)
    }

    /// Answers the figures of the bus, as [`BusCore::bus_stats`] does at the application's
    /// turn, which it waits for.
    pub fn bus_stats<R: Wait>(&mut self, bus: &Bus<'r>, rt: &R) -> BusStats
        requires bus { self.old.lock ≡ bus.now }
        requires may { MayCall self.old.seen self.old.app made.Figures }
        ensures answers { Answers self.old self.new made.Figures (answered.Bus result) }
        ensures bag { self.new.bag ≡ self.old.bag }
    {
        self.visit(bus, rt, Figures)
    }
}
