//! The calls of buffers (cFE Software Bus, zero copy): an application is given a buffer of the
//! bus's pool, writes a message into it, and sends it without a copy, or gives it back. Each is the
//! core's call and one entry of the journal.
ghost use Rattle.std.specs.Prelude.{◌≡◌, ℕ, ◌+◌, ◌*◌, ◌<◌, ◌≤◌, length, replicate, IfOk, OnErr};
ghost use Rattle.buf_desc.specs.Held.{bytes_at};
ghost use Rattle.ccsds_msg.specs.Message.{message_id};
ghost use Rattle.bus_words.specs.Bus.{route};
ghost use Rattle.bus_core.specs.Answers.{numbered, done};
ghost use Rattle.sb_calls.specs.Answers.{sent};
ghost use Rattle.bus_core.specs.Bags.{KeepsBuffers};
ghost use Rattle.sb_calls.specs.Bags.{HasBag, KeepsOtherBags};
ghost use Rattle.sb_calls.specs.Core.{MayCall, Does, state_of};
ghost use Rattle.bus_core.specs.Core.{drops_for};

use crate::answers::{of_done, of_number, of_sent};
use crate::journalled::BusCore;
use crate::noted::{bytes_of, note_of_buffer};
use crate::results::Sent;
use crate::short::{allocate, transmit_buffer};
use buf_desc::Held;
use bus_words::{BusAnswer, BusCall, BusEntry, Call};
use fsw_base::{AppNo, SbStatus};
use lend_block::Note;
use step_count::{Ledger, Steps};

impl<'r> BusCore<'r> {
    /// Gives the caller a buffer of `size` bytes to write a message into, and answers its number,
    /// under which the message will be sent: one more than were given so far. The buffer is put
    /// into the caller's bag, all its bytes zeros, and the descriptor of its block is noted. The
    /// bag must have room for it. At most 32 steps.
    ///
    /// # Errors
    /// `BadArgument` for fewer than 7 bytes, which no message has; `MsgTooBig` for more than the
    /// configuration allows; `BufAlocErr` if the bus's pool has no block for so many bytes. The
    /// first that applies.
    pub fn allocate<L: Ledger>(
        &mut self,
        app: AppNo,
        size: u32,
        held: &mut Held<'r>,
        steps: &mut Steps<L>,
    ) -> Result<u32, SbStatus>
        requires may { MayCall self.old app (Call.Allocate size) }
        requires bag { HasBag self.old app held.old }
        requires room { length held.old.buffers < held.old.buffer_room }
        ensures does { Does self.old self.new app (Call.Allocate size) (numbered result) }
        ensures bag { HasBag self.new app held.new }
        ensures other_bags { KeepsOtherBags self.old self.new app }
        ensures zeros { IfOk result (λ number. bytes_at held.new number ≡ replicate size 0) }
        ensures buffers { IfOk result (KeepsBuffers held.old held.new) }
        ensures count { length held.new.buffers ≤ length held.old.buffers + 1 }
        ensures views { held.new ≡ record held.old { buffers = held.new.buffers } }
        ensures bag_refused { OnErr result (held.new ≡ held.old) }
        ensures cost { steps.new ≤ steps.old + 32 }
    {
        let result = allocate(&mut self.core, app, size, held, steps);
        let note = note_of_buffer(&result, held);
        let entry = BusEntry {
            app,
            call: BusCall::Allocate { size },
            answer: of_number(&result),
        };
        self.noted.push(&entry, note);
        result
    }

    /// Sends the message that the caller's buffer begins with, as many bytes as its header says
    /// (CCSDS 133.0-B, 4.1.3.5), as `transmit` does, but without a copy: the buffer leaves the bag,
    /// and its receivers get views of its block, under the buffer's number. With `inc` the message
    /// gets its id's next sequence count. If nobody subscribes to the id, it goes nowhere, and
    /// is answered with number 0; if somebody does and no pipe takes it, with its own number;
    /// the block goes back to the pool in both. How large it is was tested when the buffer was
    /// given. At most 4 steps for each subscription of the id, 8 more for each whose pipe drops
    /// a message, and 32 more. The call stands in the journal with all bytes of the buffer.
    ///
    /// # Errors
    /// `BufferInvalid` if the caller has no unsent buffer of this number; `BadArgument` if
    /// the buffer's bytes begin with no message. The first that applies; the buffer stays then.
    pub fn transmit_buffer<L: Ledger>(
        &mut self,
        app: AppNo,
        buf: u32,
        inc: bool,
        held: &mut Held<'r>,
        steps: &mut Steps<L>,
    ) -> Result<Sent, SbStatus>
        requires may { MayCall self.old app
            (Call.TransmitBuffer buf (bytes_at held.old buf) inc) }
        requires bag { HasBag self.old app held.old }
        ensures does { Does self.old self.new app
            (Call.TransmitBuffer buf (bytes_at held.old buf) inc) (sent result) }
        ensures bag { HasBag self.new app held.new }
        ensures other_bags { KeepsOtherBags self.old self.new app }
        ensures buffers { KeepsBuffers held.old held.new buf }
        ensures count { length held.new.buffers ≤ length held.old.buffers }
        ensures views { held.new ≡ record held.old { buffers = held.new.buffers } }
        ensures bag_refused { OnErr result (held.new ≡ held.old) }
        ensures cost { steps.new
            ≤ steps.old + 32 + 4 * length
            (route (state_of self.old).subscriptions (message_id (bytes_at held.old buf))) +
            8 * drops_for (state_of self.old) app (message_id (bytes_at held.old buf)) }
    {
        // The call takes the bytes away, so its entry is made before, with an answer that stands in
        // for its own.
        let entry = BusEntry {
            app,
            call: BusCall::TransmitBuffer {
                buf,
                bytes: bytes_of(held, buf),
                inc,
            },
            answer: BusAnswer::Done,
        };
        self.noted.push(&entry, Note::Nothing);
        let result = transmit_buffer(&mut self.core, app, buf, inc, held, steps);
        self.noted.set_answer(of_sent(&result));
        result
    }

    /// Gives the caller's buffer back unsent: it leaves the bag, and its block goes back to the
    /// pool. At most 32 steps.
    ///
    /// # Errors
    /// `BufferInvalid` if the caller has no unsent buffer of this number.
    pub fn release<L: Ledger>(
        &mut self,
        app: AppNo,
        buf: u32,
        held: &mut Held<'r>,
        steps: &mut Steps<L>,
    ) -> Result<(), SbStatus>
        requires may { MayCall self.old app (Call.Release buf) }
        requires bag { HasBag self.old app held.old }
        ensures does { Does self.old self.new app (Call.Release buf) (done result) }
        ensures bag { HasBag self.new app held.new }
        ensures other_bags { KeepsOtherBags self.old self.new app }
        ensures buffers { KeepsBuffers held.old held.new buf }
        ensures count { length held.new.buffers ≤ length held.old.buffers }
        ensures views { held.new ≡ record held.old { buffers = held.new.buffers } }
        ensures bag_refused { OnErr result (held.new ≡ held.old) }
        ensures cost { steps.new ≤ steps.old + 32 }
    {
        let result = self.core.release(app, buf as u64, held, steps);
        let entry = BusEntry {
            app,
            call: BusCall::Release { buf },
            answer: of_done(&result),
        };
        self.noted.push(&entry, Note::Nothing);
        result
    }
}
