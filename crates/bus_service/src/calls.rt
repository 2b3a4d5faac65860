//! What the calls of all ports have in common.
ghost use Rattle.lend_block.specs.Loan.{LentBytes};
ghost use Rattle.buf_desc.specs.Held.{Holding};
ghost use Rattle.bus_words.specs.declared.calls.BusAnswer.{BusAnswer};
ghost use Rattle.bus_words.specs.declared.history.Call.{Call};
ghost use Rattle.sb_calls.specs.Bags.{HasBag};
ghost use Rattle.sb_calls.specs.Core.{MayCall, Does};
ghost use Rattle.bus_service.specs.Ports.{FindsRoom};

use crate::kind::BusKind;
use buf_desc::Held;
use fsw_base::AppNo;
use sb_calls::BusCore;
use step_count::{Ledger, Steps};

/// One of the core's calls with its parameters. Whichever it is, a port makes it in one way, so
/// that one proof is enough. A call may be about bytes of the caller's bag.
pub(crate) trait PortCall {
    /// What it is answered.
    type Told;

    ghost call: { Self → Holding LentBytes → Call };

    ghost answer: { Self.Told → BusAnswer };

    ghost leaves: { Self → Holding LentBytes → Holding LentBytes → Self.Told → Type 0 };

    /// Makes it at the core.
    fn make<'r, L: Ledger>(
        self,
        core: &mut BusCore<'r>,
        app: AppNo,
        bag: &mut Held<'r>,
        steps: &mut Steps<L>,
    ) -> Self::Told
        requires may { MayCall core.old app (call self bag.old) }
        requires bag { HasBag core.old app bag.old }
        requires room { FindsRoom bag.old (call self bag.old) }
        ensures does { Does core.old core.new app (call self bag.old) (answer result) }
        ensures bag { HasBag core.new app bag.new }
        ensures left { leaves self bag.old bag.new result };
}

/// A call, as a port makes it.
pub(crate) struct MadeCall<P> {
    /// The call.
    pub(crate) call: P,
}

impl<'r, P: PortCall> core_port::PortCall<BusKind, BusCore<'r>> for MadeCall<P> {
    type Told = P::Told;

    ghost call = { λ m bag. P.call m.call bag };

    ghost answer = { P.answer };

    ghost leaves = { λ m old new told. P.leaves m.call old new told };

    fn make<L: Ledger>(
        self,
        core: &mut BusCore<'r>,
        app: AppNo,
        bag: &mut Held<'r>,
        steps: &mut Steps<L>,
    ) -> P::Told {
        let MadeCall { call } = self;
        call.make(core, app, bag, steps)
    }
}
