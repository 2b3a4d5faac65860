//! The calls of subscriptions. Each is the core's call and one entry of the journal: the call with
//! its answer.
ghost use Rattle.std.specs.Prelude.{◌+◌, ◌*◌, ◌≤◌, length};
ghost use Rattle.bus_words.specs.Bus.{route};
ghost use Rattle.sb_calls.specs.Bags.{KeepsBags};
ghost use Rattle.sb_calls.specs.Core.{MayCall, Does, state_of};
ghost use Rattle.bus_core.specs.Answers.{done};

use crate::answers::of_done;
use crate::journalled::BusCore;
use bus_words::{BusCall, BusEntry, Call};
use fsw_base::{AppNo, SbStatus, Scope};
use lend_block::Note;
use step_count::{Ledger, Steps};

impl<'r> BusCore<'r> {
    /// Has messages of this id queued on the caller's pipe, up to `limit` of them at once. If
    /// the pipe is subscribed to the id already, the bus tells and counts that, and nothing else
    /// changes. At most 2 steps for each subscription of the id, and 10 more.
    ///
    /// # Errors
    /// `BadArgument` for an id that isn't 1 to 0x1FFF, and for a pipe that isn't live or isn't the
    /// caller's; `MaxMsgsMet` if the id has no route and as many ids have one as the
    /// configuration allows; `MaxDestsMet` if the id has as many subscriptions as the
    /// configuration allows. The first that applies.
    pub fn subscribe<L: Ledger>(
        &mut self,
        app: AppNo,
        id: u16,
        pipe: u32,
        limit: u32,
        scope: Scope,
        steps: &mut Steps<L>,
    ) -> Result<(), SbStatus>
        requires may { MayCall self.old app (Call.Subscribe id pipe limit scope) }
        ensures does { Does self.old self.new app (Call.Subscribe id pipe limit scope)
            (done result) }
        ensures bags { KeepsBags self.old self.new }
        ensures cost { steps.new
            ≤ steps.old + 2 * length (route (state_of self.old).subscriptions id) + 10 }
    {
        let result = self.core.subscribe(app, id, pipe, limit, scope, steps);
        let entry = BusEntry {
            app,
            call: BusCall::Subscribe {
                id,
                pipe,
                limit,
                scope,
            },
            answer: of_done(&result),
        };
        self.noted.push(&entry, Note::Nothing);
        result
    }

    /// Has no more messages of this id queued on the caller's pipe. Those that wait
    /// stay. If the pipe isn't subscribed to the id, the bus tells that, and nothing else
    /// changes. At most 3 steps for each subscription of the id, and 10 more.
    ///
    /// # Errors
    /// `BadArgument` for an id that isn't 1 to 0x1FFF, and for a pipe that isn't live or isn't the
    /// caller's.
    pub fn unsubscribe<L: Ledger>(
        &mut self,
        app: AppNo,
        id: u16,
        pipe: u32,
        steps: &mut Steps<L>,
    ) -> Result<(), SbStatus>
        requires may { MayCall self.old app (Call.Unsubscribe id pipe) }
        ensures does { Does self.old self.new app (Call.Unsubscribe id pipe) (done result) }
        ensures bags { KeepsBags self.old self.new }
        ensures cost { steps.new
            ≤ steps.old + 3 * length (route (state_of self.old).subscriptions id) + 10 }
    {
        let result = self.core.unsubscribe(app, id, pipe, steps);
        let entry = BusEntry {
            app,
            call: BusCall::Unsubscribe { id, pipe },
            answer: of_done(&result),
        };
        self.noted.push(&entry, Note::Nothing);
        result
    }
}
