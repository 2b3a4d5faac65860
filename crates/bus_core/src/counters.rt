//! What the bus tells of its counters and of what is in use (cFE Software Bus, housekeeping and
//! statistics telemetry).
ghost use Rattle.std.specs.Prelude.{◌≡◌, ℕ, ◌+◌, ◌*◌, ◌≤◌, false, length, Err, OnErr, IfOk, IsTrue};
ghost use Rattle.housekeeping.specs.Packet.{housekeeping_id};
ghost use Rattle.housekeeping.specs.Peaks.{greater};
ghost use Rattle.bus_words.specs.declared.calls.BusAnswer.TheVariants.{Bus};
ghost use Rattle.bus_words.specs.declared.history.Call.TheVariants.{Housekeeping, Figures};
ghost use Rattle.bus_words.specs.Bus.{route};
ghost use Rattle.bus_words.specs.Held.{in_use};
ghost use Rattle.bus_core.specs.Core.{MayAct, Acts, with_tick, drops_for, has_send_number};
ghost use Rattle.bus_core.specs.Answers.{sent};
ghost use Rattle.bus_core.specs.Bags.{KeepsBags, KeepsAllLoans, KeepsAllDescs};

use crate::plain::PlainBus;
use crate::sending::Sent;
use crate::uses::in_use_at;
use fsw_base::{AppNo, BusStats, SbStatus};
use housekeeping::{CounterName, Counters, InUse, PACKET_BYTES};
use step_count::{Ledger, Steps};

impl<'r> PlainBus<'r> {
    /// Sends the housekeeping packet, in which the counters and the numbers in use are those before
    /// this call, as [`PlainBus::transmit`] sends a message that gets its id's next sequence count.
    /// At most 4 steps for each subscription of the packet's id, 8 more for each whose pipe drops a
    /// message, and 32 more.
    ///
    /// # Errors
    /// `MsgTooBig` if the configuration allows fewer bytes than the packet has; `BufAlocErr`
    /// if somebody subscribes to its id, and the bus's pool has no block for it. The first that
    /// applies; it is counted. If no send number is left ([`PlainBus::has_send_number`]), it is
    /// refused with `BufAlocErr`.
    pub fn send_housekeeping<L: Ledger>(
        &mut self,
        app: AppNo,
        steps: &mut Steps<L>,
    ) -> Result<Sent, SbStatus>
        requires may { MayAct self.old app Housekeeping }
        ensures does { IsTrue (has_send_number self.old.whole.bus) →
            Acts self.old self.new app Housekeeping (sent result) }
        ensures spent { has_send_number self.old.whole.bus ≡ false →
            result ≡ Err SbStatus.BufAlocErr }
        ensures refused { OnErr result (self.new ≡ with_tick self.old CounterName.Send) }
        ensures number { IfOk result
            (λ sent. sent.number ≤ self.old.whole.bus.numbers_given + 1) }
        ensures cost { steps.new
            ≤ steps.old + 32 + 4 * length
            (route self.old.whole.bus.subscriptions housekeeping_id) +
            8 * drops_for self.old.whole.bus app housekeeping_id }
        ensures bags { KeepsBags self.old self.new }
        ensures loans { KeepsAllLoans self.old self.new }
        ensures descs { KeepsAllDescs self.old self.new }
    {
        let mut packet = [0; PACKET_BYTES];
        self.records.packet(self.in_use(), &mut packet);
        self.transmit(app, &packet, true, steps)
    }

    /// Answers the figures of the bus: the messages that went nowhere, that were over their limit
    /// or met a full pipe, and the buffers in use with the bytes of their blocks.
    pub fn bus_stats(&self) -> BusStats
        ensures { (app : ℕ) → Acts self.now self.now app Figures (Bus result) }
    {
        let counters = self.records.counters();
        let now = self.in_use();
        BusStats {
            nosub: counters.at(CounterName::Nosub),
            limit: counters.at(CounterName::Limit),
            overflow: counters.at(CounterName::Overflow),
            buffers: now.buffers,
            bytes: now.bytes,
        }
    }

    /// The counters, and the peaks of what was in use.
    pub fn counters(&self) -> &Counters
        ensures { result.now ≡ self.now.whole.bus.statistics }
    {
        self.records.counters()
    }

    /// What is in use now. By the code, it takes a constant time.
    pub fn in_use(&self) -> InUse
        ensures now { result ≡ in_use self.now.limits self.now.whole.bus }
        ensures peaks { greater self.now.whole.bus.statistics.peak result ≡
            self.now.whole.bus.statistics.peak }
    {
        in_use_at(&self.store)
    }
}
