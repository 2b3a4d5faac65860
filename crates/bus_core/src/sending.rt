//! Sends. A send answers and changes what the bus of the definitions does by its state alone.
ghost use Rattle.std.specs.Prelude.{◌≡◌, ◌+◌, ◌*◌, ◌≤◌, false, length, Err, OnErr, IfOk, IsTrue};
ghost use Rattle.ccsds_msg.specs.Message.{message_id};
ghost use Rattle.bus_words.specs.declared.history.Call.TheVariants.{Transmit};
ghost use Rattle.bus_words.specs.Bus.{route};
ghost use Rattle.bus_core.specs.Core.{MayAct, Acts, with_tick, drops_for, has_send_number};
ghost use Rattle.bus_core.specs.Answers.{sent};
ghost use Rattle.bus_core.specs.Bags.{KeepsBags, KeepsAllLoans, KeepsAllDescs};

use crate::plain::PlainBus;
use crate::uses::see_blocks;
use bus_events::ServiceEvent;
use ccsds_msg::id_of;
use fsw_base::{AppNo, SbStatus};
use housekeeping::CounterName;
use step_count::{Ledger, Steps};

/// What an accepted send was answered.
#[derive(Clone, Copy, Debug, PartialEq, Eq)]
pub struct Sent {
    /// The number of the message, from 1; 0 if nobody subscribes to its id.
    pub number: u64,
    /// How many pipes it reached.
    pub reached: u32,
}

impl<'r> PlainBus<'r> {
    /// Sends a message to every pipe that is subscribed to its id, in order of subscription. A pipe
    /// misses it that ignores what its owner sends and whose owner is the sender; else one if as
    /// many messages of the subscription wait as its limit says; else one that is full and hasn't
    /// option 0x02. A full pipe with option 0x02 drops the message that waits longest and takes
    /// this one. The bus logs and counts each pipe that is over its limit, is full or drops a
    /// message, in order of subscription. With `inc` the message gets the id's next sequence count
    /// (CCSDS 133.0-B, 4.1.3.4.3). If nobody subscribes to the id, it takes neither a number nor a
    /// block, and the bus logs and counts that. At most 4 steps for each subscription of the id, 8
    /// more for each whose pipe drops a message, and 32 more, whatever else there is.
    ///
    /// # Errors
    /// `BadArgument` for bytes that are no message; `MsgTooBig` for more bytes than the
    /// configuration allows; `BufAlocErr` if somebody subscribes to the id, and the bus's pool
    /// has no block for so many bytes. The first that applies; it is counted. If no send number is
    /// left ([`PlainBus::has_send_number`]), every send is refused with `BufAlocErr`, whatever its
    /// bytes.
    #[inline(always)]
    pub fn transmit<L: Ledger>(
        &mut self,
        app: AppNo,
        bytes: &[u8],
        inc: bool,
        steps: &mut Steps<L>,
    ) -> Result<Sent, SbStatus>
        requires may { MayAct self.old app (Transmit bytes.now inc) }
        ensures does { IsTrue (has_send_number self.old.whole.bus) →
            Acts self.old self.new app (Transmit bytes.now inc) (sent result) }
        ensures spent { has_send_number self.old.whole.bus ≡ false →
            result ≡ Err SbStatus.BufAlocErr }
        ensures refused { OnErr result (self.new ≡ with_tick self.old CounterName.Send) }
        ensures number { IfOk result
            (λ sent. sent.number ≤ self.old.whole.bus.numbers_given + 1) }
        ensures cost { steps.new
            ≤ steps.old + 32 + 4 * length
            (route self.old.whole.bus.subscriptions (message_id bytes.now)) +
            8 * drops_for self.old.whole.bus app (message_id bytes.now) }
        ensures bags { KeepsBags self.old self.new }
        ensures loans { KeepsAllLoans self.old self.new }
        ensures descs { KeepsAllDescs self.old self.new }
    {
        if !self.has_send_number() {
            self.refuse(CounterName::Send);
            return Err(SbStatus::BufAlocErr);
        }
        if let Some(status) = self.transmit_cause(bytes) {
            self.refuse(CounterName::Send);
            return Err(status);
        }
        let id = id_of(bytes);
        if self.store.dests_of(id) == 0 {
            self.records.tell(ServiceEvent::NoSubscribers { id });
            return Ok(Sent {
                number: 0,
                reached: 0,
            });
        }
        // Does nothing; the proof learns of it which blocks are out.
        self.store.recall_held();
        let sent = self.store.send(app, bytes, inc, steps);
        self.records.tell_misses(self.store.misses(), id, app);
        see_blocks(&mut self.records, &self.store);
        Ok(Sent {
            number: sent.number,
            reached: sent.reached,
        })
    }
}
