//! What the calls of all ports have in common.
ghost use Rattle.tbl_words.specs.declared.calls.TblAnswer.{TblAnswer};
ghost use Rattle.tbl_words.specs.declared.history.Call.{Call};
ghost use Rattle.table_blocks.specs.Held.{HeldViews};
ghost use Rattle.tbl_load.specs.Bags.{HasBag};
ghost use Rattle.tbl_load.specs.Core.{MayCall, Does};

use crate::kind::TblKind;
use fsw_base::AppNo;
use step_count::{Ledger, Steps};
use tbl_load::{HeldTables, TblCore};

/// One of the core's calls with its parameters. Whichever it is, a port makes it in one way, so
/// that one proof is enough.
pub(crate) trait PortCall {
    /// What it is answered.
    type Told;

    ghost call: { Self → Call };

    ghost answer: { Self.Told → TblAnswer };

    ghost leaves: { Self → HeldViews → HeldViews → Self.Told → Type 0 };

    /// Makes it at the core.
    fn make<'r, L: Ledger>(
        self,
        core: &mut TblCore<'r>,
        app: AppNo,
        bag: &mut HeldTables<'r>,
        steps: &mut Steps<L>,
    ) -> Self::Told
        requires may { MayCall core.old app (call self) }
        requires bag { HasBag core.old app bag.old }
        ensures does { Does core.old core.new app (call self) (answer result) }
        ensures bag { HasBag core.new app bag.new }
        ensures left { leaves self bag.old bag.new result };
}

/// A call, as a port makes it.
pub(crate) struct MadeCall<P> {
    /// The call.
    pub(crate) call: P,
}

impl<'r, P: PortCall> core_port::PortCall<TblKind, TblCore<'r>> for MadeCall<P> {
    type Told = P::Told;

    ghost call = { λ m bag. P.call m.call };

    ghost answer = { P.answer };

    ghost leaves = { λ m old new told. P.leaves m.call old new told };

    fn make<L: Ledger>(
        self,
        core: &mut TblCore<'r>,
        app: AppNo,
        bag: &mut HeldTables<'r>,
        steps: &mut Steps<L>,
    ) -> P::Told {
        let MadeCall { call } = self;
        call.make(core, app, bag, steps)
    }
}
