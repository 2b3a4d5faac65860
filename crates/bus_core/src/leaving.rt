//! The end of an application.
ghost use Rattle.std.specs.Prelude.{◌≡◌, []};
ghost use Rattle.bus_words.specs.declared.calls.BusAnswer.TheVariants.{Done};
ghost use Rattle.bus_words.specs.declared.history.Call.TheVariants.{End};
ghost use Rattle.bus_core.specs.Core.{MayAct, Acts};
ghost use Rattle.bus_core.specs.Bags.{HasBag, KeepsOtherBags, KeepsOtherLoans, KeepsOtherDescs};

use crate::activities::Activity;
use crate::pipe_ends::end_pipes;
use crate::plain::PlainBus;
use crate::uses::see;
use buf_desc::Held;
use fsw_base::AppNo;
use step_count::{Ledger, Steps};

impl<'r> PlainBus<'r> {
    /// The caller's last call: its pipes leave with their subscriptions and messages, whose views
    /// are taken out of its bag; its unsent buffers are taken out of the bag, and their blocks go
    /// back to the pool; its grants of memory pools are given back; and it isn't registered for
    /// events any more. The bag is empty then.
    pub fn end<L: Ledger>(&mut self, app: AppNo, held: &mut Held<'r>, steps: &mut Steps<L>)
        requires may { MayAct self.old app End }
        requires bag { HasBag self.old app held.old }
        ensures does { Acts self.old self.new app End Done }
        ensures loans { KeepsOtherLoans self.old self.new app }
        ensures descs { KeepsOtherDescs self.old self.new app }
        ensures bag { HasBag self.new app held.new }
        ensures other_bags { KeepsOtherBags self.old self.new app }
        ensures empty { held.new ≡ record held.old { views = []; buffers = [] } }
    {
        // Does nothing; the proof learns of it that no two applications have one pipe.
        self.store.recall_order();
        self.activities[(app.get() - 1) as usize] = Activity::Ended;
        end_pipes(&mut self.store, app, held, steps);
        self.store.release_all(app, held, steps);
        self.pools.end(app, steps);
        self.records.unregister(app);
        see(&mut self.records, &self.store);
    }
}
