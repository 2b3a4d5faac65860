//! The end of an application, by its port.
ghost use Rattle.std.specs.Prelude.{◌≡◌, true, []};
ghost use Rattle.bus_words.specs.declared.history.Call.TheVariants as made;
ghost use Rattle.bus_words.specs.declared.calls.BusAnswer.TheVariants.{Done};
ghost use Rattle.bus_words.specs.Bus.{standing_of, has_ended};
ghost use Rattle.sb_calls.specs.Core.{MayCall, state_of};
ghost use Rattle.bus_service.specs.Ports.{Answers};

use crate::bus::Bus;
use crate::calls::PortCall;
use crate::ports::BusPort;
use buf_desc::Held;
use fsw_base::AppNo;
use sb_calls::BusCore;
use std::sync::Wait;
use step_count::{Ledger, Steps};

/// [`BusPort::end`].
#[derive(Drop)]
pub(crate) struct End;

impl PortCall for End {
    type Told = ();

    ghost call = { λ c bag. made.End };

    ghost answer = { λ told. Done };

    ghost leaves = { λ c old new told. new ≡ record old { views = []; buffers = [] } };

    fn make<'r, L: Ledger>(
        self,
        core: &mut BusCore<'r>,
        app: AppNo,
        bag: &mut Held<'r>,
        steps: &mut Steps<L>,
    ) {
        core.end(app, bag, steps);
    }
}

impl<'r> BusPort<'r> {
    /// The application's last call, as [`BusCore::end`] makes it at the application's turn,
    /// which it waits for. Its pipes leave, and its unsent buffers. [`BusPort::finish`] comes
    /// next.
    pub fn end<R: Wait>(&mut self, bus: &Bus<'r>, rt: &R)
        requires bus { self.old.lock ≡ bus.now }
        requires may { MayCall self.old.seen self.old.app made.End }
        ensures answers { Answers self.old self.new made.End Done }
        ensures ended { has_ended (standing_of (state_of self.new.seen) self.new.app) ≡ true }
        ensures empty { self.new.bag ≡ record self.old.bag { views = []; buffers = [] } }
    {
        self.visit(bus, rt, End);
    }
}
