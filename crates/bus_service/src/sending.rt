//! Sends, by ports.
ghost use Rattle.std.specs.Prelude.{◌≡◌};
ghost use Rattle.bus_words.specs.declared.history.Call.TheVariants as made;
ghost use Rattle.sb_calls.specs.Answers.{sent};
ghost use Rattle.sb_calls.specs.Core.{MayCall};
ghost use Rattle.bus_service.specs.Ports.{Answers};

use crate::bus::Bus;
use crate::calls::PortCall;
use crate::ports::BusPort;
use buf_desc::Held;
use fsw_base::{AppNo, SbStatus};
use sb_calls::{BusCore, Sent};
use std::sync::Wait;
use step_count::{Ledger, Steps};

/// [`BusPort::transmit`].
#[derive(Drop)]
pub(crate) struct Transmit<'a> {
    // The message.
    bytes: &'a [u8],
    // Whether it gets its id's next sequence count.
    inc: bool,
}

impl PortCall for Transmit<'_> {
    type Told = Result<Sent, SbStatus>;

    ghost call = { λ c bag. made.Transmit c.bytes.now c.inc };

    ghost answer = { sent };

    ghost leaves = { λ c old new told. new ≡ old };

    fn make<'r, L: Ledger>(
        self,
        core: &mut BusCore<'r>,
        app: AppNo,
        _bag: &mut Held<'r>,
        steps: &mut Steps<L>,
    ) -> Result<Sent, SbStatus> {
        core.transmit(app, self.bytes, self.inc, steps)
    }
}

impl<'r> BusPort<'r> {
    /// Sends a message to every pipe that is subscribed to its id, as [`BusCore::transmit`]
    /// does at the application's turn, which it waits for.
    ///
    /// # Errors
    /// Those of [`BusCore::transmit`], at the turn.
    pub fn transmit<R: Wait>(
        &mut self,
        bus: &Bus<'r>,
        rt: &R,
        bytes: &[u8],
        inc: bool,
    ) -> Result<Sent, SbStatus>
        requires bus { self.old.lock ≡ bus.now }
        requires may { MayCall self.old.seen self.old.app (made.Transmit bytes.now inc) }
        ensures answers { Answers self.old self.new (made.Transmit bytes.now inc) (sent result) }
        ensures bag { self.new.bag ≡ self.old.bag }
    {
        self.visit(bus, rt, Transmit { bytes, inc })
    }
}
