//! Sends. Each is the core's call and one entry of the journal: the call with its answer.
ghost use Rattle.std.specs.Prelude.{◌+◌, ◌*◌, ◌≤◌, length};
ghost use Rattle.ccsds_msg.specs.Message.{message_id};
ghost use Rattle.bus_words.specs.Bus.{route};
ghost use Rattle.sb_calls.specs.Bags.{KeepsBags};
ghost use Rattle.sb_calls.specs.Core.{MayCall, Does, state_of};
ghost use Rattle.sb_calls.specs.Answers.{sent};
ghost use Rattle.bus_core.specs.Core.{drops_for};

use crate::answers::of_sent;
use crate::journalled::BusCore;
use crate::results::Sent;
use crate::short::transmit;
use bus_words::{BusCall, BusEntry, Call};
use fsw_base::{AppNo, SbStatus};
use lend_block::Note;
use step_count::{Ledger, Steps};

impl<'r> BusCore<'r> {
    /// Sends a message to every pipe that is subscribed to its id, in order of subscription. A pipe
    /// misses it that ignores what its owner sends and whose owner is the sender; else one if as
    /// many messages of the subscription wait as its limit says; else one that is full and hasn't
    /// option 0x02. A full pipe with option 0x02 drops the message that waits longest and takes
    /// this one. With `inc` the message gets the id's next sequence count (CCSDS 133.0-B,
    /// 4.1.3.4.3). If nobody subscribes to the id, it takes neither a number nor a block. At most 4
    /// steps for each subscription of the id, 8 more for each whose pipe drops a message, and 32
    /// more, whatever else there is.
    ///
    /// # Errors
    /// `BadArgument` for bytes that are no message; `MsgTooBig` for more bytes than the
    /// configuration allows; `BufAlocErr` if somebody subscribes to the id, and the bus's pool
    /// has no block for so many bytes. The first that applies.
    pub fn transmit<L: Ledger>(
        &mut self,
        app: AppNo,
        bytes: &[u8],
        inc: bool,
        steps: &mut Steps<L>,
    ) -> Result<Sent, SbStatus>
        requires may { MayCall self.old app (Call.Transmit bytes.now inc) }
        ensures does { Does self.old self.new app (Call.Transmit bytes.now inc) (sent result) }
        ensures bags { KeepsBags self.old self.new }
        ensures cost { steps.new
            ≤ steps.old + 32 + 4 * length
            (route (state_of self.old).subscriptions (message_id bytes.now)) +
            8 * drops_for (state_of self.old) app (message_id bytes.now) }
    {
        let result = transmit(&mut self.core, app, bytes, inc, steps);
        let entry = BusEntry {
            app,
            call: BusCall::Transmit { bytes, inc },
            answer: of_sent(&result),
        };
        self.noted.push(&entry, Note::Nothing);
        result
    }
}
