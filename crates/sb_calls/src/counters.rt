//! The calls that tell what the bus counts (cFE Software Bus, housekeeping and statistics
//! telemetry), and what it has in use. Each call is the core's and one entry of the journal.
ghost use Rattle.std.specs.Prelude.{◌≡◌, ◌+◌, ◌*◌, ◌≤◌, length};
ghost use Rattle.housekeeping.specs.Packet.{housekeeping_id};
ghost use Rattle.housekeeping.specs.Peaks.{greater};
ghost use Rattle.bus_words.specs.Bus.{route};
ghost use Rattle.bus_words.specs.Held.{in_use};
ghost use Rattle.bus_words.specs.Machine.{statistics_after};
ghost use Rattle.sb_calls.specs.Bags.{KeepsBags};
ghost use Rattle.sb_calls.specs.Core.{MayCall, Does, apps_of, state_of};
ghost use Rattle.sb_calls.specs.Answers.{sent};
ghost use Rattle.bus_core.specs.Core.{drops_for};

use crate::answers::of_sent;
use crate::journalled::BusCore;
use crate::results::Sent;
use crate::short::send_housekeeping;
use bus_words::{BusAnswer, BusCall, BusEntry, Call, statistics_are_counted};
use fsw_base::{AppNo, BusStats, SbStatus};
use housekeeping::{Counters, InUse};
use lend_block::Note;
use step_count::{Ledger, Steps};

impl<'r> BusCore<'r> {
    /// Sends the housekeeping packet as a message of the caller's, with its id's next sequence
    /// count: 64 bytes of the id 0x0803, which tell the counters and what is in use, as they are
    /// before the call. At most 4 steps for each subscription of the id, 8 more for
    /// each whose pipe drops a message, and 32 more.
    ///
    /// # Errors
    /// `MsgTooBig` if the configuration allows no 64 bytes; `BufAlocErr` if somebody
    /// subscribes to the id, and the bus's pool has no block for them. The first that applies.
    pub fn send_housekeeping<L: Ledger>(
        &mut self,
        app: AppNo,
        steps: &mut Steps<L>,
    ) -> Result<Sent, SbStatus>
        requires may { MayCall self.old app Call.Housekeeping }
        ensures does { Does self.old self.new app Call.Housekeeping (sent result) }
        ensures bags { KeepsBags self.old self.new }
        ensures cost { steps.new
            ≤ steps.old + 32 + 4 * length
            (route (state_of self.old).subscriptions housekeeping_id) +
            8 * drops_for (state_of self.old) app housekeeping_id }
    {
        let result = send_housekeeping(&mut self.core, app, steps);
        let entry = BusEntry {
            app,
            call: BusCall::Housekeeping,
            answer: of_sent(&result),
        };
        self.noted.push(&entry, Note::Nothing);
        result
    }

    /// Answers the figures of the bus: how many messages went to nobody, were kept from a pipe by a
    /// limit and found a full pipe, how many buffers are in use, and the bytes of their blocks.
    pub fn bus_stats(&mut self, app: AppNo) -> BusStats
        requires may { MayCall self.old app Call.Figures }
        ensures does { Does self.old self.new app Call.Figures (BusAnswer.Bus result) }
        ensures bags { KeepsBags self.old self.new }
    {
        let result = self.core.bus_stats();
        let entry = BusEntry {
            app,
            call: BusCall::Figures,
            answer: BusAnswer::Bus(result),
        };
        self.noted.push(&entry, Note::Nothing);
        result
    }

    /// The counters of the bus, and the peaks of what was in use. They are those that the journal
    /// tells.
    pub fn counters(&self) -> &Counters
        ensures statistics { result.now ≡ (state_of self.now).statistics }
        ensures told { result.now ≡
            statistics_after self.now.limits (apps_of self.now) self.now.log.entries }
    {
        // Does nothing; the proof learns of it that the journal tells the statistics.
        statistics_are_counted();
        self.core.counters()
    }

    /// What is in use now; none of it is above its peak.
    pub fn in_use(&self) -> InUse
        ensures now { result ≡ in_use self.now.limits (state_of self.now) }
        ensures peaks { greater (state_of self.now).statistics.peak result ≡
            (state_of self.now).statistics.peak }
    {
        self.core.in_use()
    }
}
