//! The calls of subscriptions. Each answers and changes what the bus of the definitions does by its
//! state alone.
ghost use Rattle.std.specs.Prelude.{◌+◌, ◌*◌, ◌≤◌, length, IsTrue};
ghost use Rattle.bus_words.specs.declared.history.Call.TheVariants.{Subscribe, Unsubscribe};
ghost use Rattle.bus_words.specs.Bus.{route};
ghost use Rattle.bus_core.specs.Core.{MayAct, Acts, has_subscription_number};
ghost use Rattle.bus_core.specs.Answers.{done};
ghost use Rattle.bus_core.specs.Bags.{KeepsBags, KeepsAllLoans, KeepsAllDescs};

use crate::plain::PlainBus;
use crate::uses::{see, tell_unless};
use bus_events::ServiceEvent;
use fsw_base::{AppNo, SbStatus, Scope};
use housekeeping::CounterName;
use step_count::{Ledger, Steps};

impl<'r> PlainBus<'r> {
    /// Has messages of this id queued on the caller's pipe, up to `limit` of them at once. If
    /// the pipe is subscribed to the id already, the bus tells and counts that, and nothing else
    /// changes. The caller asks first whether a number is left for the subscription
    /// ([`PlainBus::has_subscription_number`]). At most 2 steps for each subscription of the id,
    /// and 10 more.
    ///
    /// # Errors
    /// `BadArgument` for an id that isn't 1 to 0x1FFF, and for a pipe that isn't live or isn't the
    /// caller's; `MaxMsgsMet` if the id has no route and as many ids have one as the
    /// configuration allows; `MaxDestsMet` if the id has as many subscriptions as the
    /// configuration allows. The first that applies; it is counted.
    pub fn subscribe<L: Ledger>(
        &mut self,
        app: AppNo,
        id: u16,
        pipe: u32,
        limit: u32,
        scope: Scope,
        steps: &mut Steps<L>,
    ) -> Result<(), SbStatus>
        requires may { MayAct self.old app (Subscribe id pipe limit scope) }
        requires number { IsTrue (has_subscription_number self.old.whole.bus) }
        ensures does { Acts self.old self.new app (Subscribe id pipe limit scope) (done result) }
        ensures cost { steps.new
            ≤ steps.old + 2 * length (route self.old.whole.bus.subscriptions id) + 10 }
        ensures bags { KeepsBags self.old self.new }
        ensures loans { KeepsAllLoans self.old self.new }
        ensures descs { KeepsAllDescs self.old self.new }
    {
        let there = self.store.is_subscribed(id, pipe, steps);
        if let Some(status) = self.subscribe_cause(app, id, pipe, there) {
            self.refuse(CounterName::Sub);
            return Err(status);
        }
        if there {
            self.records
                .tell(ServiceEvent::DuplicateSubscription { id, pipe });
            return Ok(());
        }
        self.store.subscribe(id, pipe, limit, scope, steps);
        see(&mut self.records, &self.store);
        Ok(())
    }

    /// Has no more messages of this id queued on the caller's pipe. Those that wait
    /// stay. If the pipe isn't subscribed to the id, the bus tells that, and nothing else
    /// changes. At most 3 steps for each subscription of the id, and 10 more.
    ///
    /// # Errors
    /// `BadArgument` for an id that isn't 1 to 0x1FFF, and for a pipe that isn't live or isn't the
    /// caller's; it is counted.
    pub fn unsubscribe<L: Ledger>(
        &mut self,
        app: AppNo,
        id: u16,
        pipe: u32,
        steps: &mut Steps<L>,
    ) -> Result<(), SbStatus>
        requires may { MayAct self.old app (Unsubscribe id pipe) }
        ensures does { Acts self.old self.new app (Unsubscribe id pipe) (done result) }
        ensures cost { steps.new
            ≤ steps.old + 3 * length (route self.old.whole.bus.subscriptions id) + 10 }
        ensures bags { KeepsBags self.old self.new }
        ensures loans { KeepsAllLoans self.old self.new }
        ensures descs { KeepsAllDescs self.old self.new }
    {
        if let Some(status) = self.unsubscribe_cause(app, id, pipe) {
            self.refuse(CounterName::Sub);
            return Err(status);
        }
        let there = self.store.unsubscribe(id, pipe, steps);
        let event = ServiceEvent::NotSubscribed { id, pipe };
        tell_unless(&mut self.records, there, event);
        see(&mut self.records, &self.store);
        Ok(())
    }
}
