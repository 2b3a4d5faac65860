//! The calls of buffers that an application writes itself, and sends without a copy (cFE Software
//! Bus, zero copy). Each answers and changes what the bus of the definitions does by its state
//! alone.
ghost use Rattle.std.specs.Prelude.{◌≡◌, ◌+◌, ◌*◌, ◌<◌, ◌≤◌, false, Some, None, Err, not, is_some, length, replicate, IsTrue, IfOk, IfErr, OnErr};
ghost use Rattle.ccsds_msg.specs.Message.{message_id, front_fault};
ghost use Rattle.bus_words.specs.declared.history.Call.TheVariants.{Allocate, TransmitBuffer, Release};
ghost use Rattle.bus_words.specs.Bus.{route};
ghost use Rattle.bus_words.specs.Machine.{allocate_cause};
ghost use Rattle.buf_desc.specs.Held.{buffer_at, bytes_at};
ghost use Rattle.bus_core.specs.Core.{MayAct, Acts, with_tick, drops_for, has_send_number};
ghost use Rattle.bus_core.specs.Answers.{numbered, sent, done};
ghost use Rattle.bus_core.specs.Bags.{HasBag, KeepsOtherBags, KeepsBuffers, KeepsAllLoans, KeepsDescs};
ghost use Rattle.bus_core.specs.Rows.{buffer_cause};

use crate::plain::PlainBus;
use crate::sending::Sent;
use buf_desc::{Block, Held};
use ccsds_msg::{Header, MsgFault, front};
use fsw_base::{AppNo, SbStatus};
use housekeeping::CounterName;
use step_count::{Ledger, Steps};

// What the header says of the message that the block's bytes begin with.
fn header_in(block: &Block<'_>) -> Result<Header, MsgFault>
    ensures ok { IfOk result (λ header. header.id ≡ message_id block.now.bytes) }
    ensures none { IfOk result (λ header. front_fault block.now.bytes ≡ None) }
    ensures fault { IfErr result (λ why. front_fault block.now.bytes ≡ Some why) }
{
    // Does nothing; the proof learns of it that the block's length has 32 bits.
    let _ = block.len();
    front(block.bytes())
}

/// The id of the message that a buffer of the bag begins with, or why it can't be sent.
pub(crate) fn id_to_send(held: &Held<'_>, buf: u64) -> Result<u16, SbStatus>
    ensures id { IfOk result (λ id. id ≡ message_id (bytes_at held.now buf)) }
    ensures none { IfOk result (λ id. buffer_cause held.now buf ≡ None) }
    ensures why { IfErr result (λ status. buffer_cause held.now buf ≡ Some status) }
{
    match held.buffer(buf) {
        Some(block) => match header_in(block) {
            Ok(header) => Ok(header.id),
            Err(_) => Err(SbStatus::BadArgument),
        },
        None => Err(SbStatus::BufferInvalid),
    }
}

impl<'r> PlainBus<'r> {
    /// Gives the caller a buffer of zeros to write a message into, and answers its number, under
    /// which it will be sent. Its block is put into the caller's bag, which has room for one more.
    /// At most 32 steps.
    ///
    /// # Errors
    /// `BadArgument` for fewer than 7 bytes; `MsgTooBig` for more bytes than the configuration
    /// allows; `BufAlocErr` if the bus's pool has no block for so many. The first that applies;
    /// it is counted. If no send number is left ([`PlainBus::has_send_number`]), every request is
    /// refused with `BufAlocErr`, whatever its size.
    pub fn allocate<L: Ledger>(
        &mut self,
        app: AppNo,
        size: u32,
        held: &mut Held<'r>,
        steps: &mut Steps<L>,
    ) -> Result<u64, SbStatus>
        requires may { MayAct self.old app (Allocate size) }
        requires bag { HasBag self.old app held.old }
        requires room { length held.old.buffers < held.old.buffer_room }
        ensures does { IsTrue (has_send_number self.old.whole.bus) →
            Acts self.old self.new app (Allocate size) (numbered result) }
        ensures spent { has_send_number self.old.whole.bus ≡ false →
            result ≡ Err SbStatus.BufAlocErr }
        ensures number { IfOk result
            (λ number. number ≡ self.old.whole.bus.numbers_given + 1) }
        ensures refused { OnErr result (self.new ≡ with_tick self.old CounterName.Send) }
        ensures bag_refused { OnErr result (held.new ≡ held.old) }
        ensures zeros { IfOk result (λ number. bytes_at held.new number ≡ replicate size 0) }
        ensures buffers { IfOk result (KeepsBuffers held.old held.new) }
        ensures descs { IfOk result (KeepsDescs self.old self.new) }
        ensures loans { KeepsAllLoans self.old self.new }
        ensures bag { HasBag self.new app held.new }
        ensures other_bags { KeepsOtherBags self.old self.new app }
        ensures views { held.new ≡ record held.old { buffers = held.new.buffers } }
        ensures count { length held.new.buffers ≤ length held.old.buffers + 1 }
        ensures cost { steps.new ≤ steps.old + 32 }
    {
        self.allocate_lending(app, size, held, steps)
    }

    /// Sends the message that the caller's buffer begins with, as many bytes as its header says,
    /// under the buffer's number: the buffer's block is then the message's, and nothing is drawn or
    /// copied. The buffer isn't the caller's any more. If nobody subscribes to the id, the
    /// answer is number 0, and no count moves; if somebody does and no pipe takes it, its own
    /// number; its block goes back to the pool in both. All else is as with [`PlainBus::transmit`],
    /// but that the size was tested when the buffer was given. At most 4 steps for each
    /// subscription of the id, 8 more for each whose pipe drops a message, and 32 more.
    ///
    /// # Errors
    /// `BufferInvalid` if this is no unsent buffer of the caller's; `BadArgument` if its
    /// bytes don't begin with a message. The first that applies; it is counted, and the buffer
    /// stays as it is.
    pub fn transmit_buffer<L: Ledger>(
        &mut self,
        app: AppNo,
        buf: u64,
        inc: bool,
        held: &mut Held<'r>,
        steps: &mut Steps<L>,
    ) -> Result<Sent, SbStatus>
        requires may { MayAct self.old app (TransmitBuffer buf (bytes_at held.old buf) inc) }
        requires bag { HasBag self.old app held.old }
        ensures does { Acts self.old self.new app (TransmitBuffer buf (bytes_at held.old buf) inc)
            (sent result) }
        ensures number { IfOk result (λ sent. sent.number ≤ buf) }
        ensures refused { OnErr result (self.new ≡ with_tick self.old CounterName.Send) }
        ensures bag_refused { OnErr result (held.new ≡ held.old) }
        ensures buffers { KeepsBuffers held.old held.new buf }
        ensures descs { KeepsDescs self.old self.new buf }
        ensures loans { KeepsAllLoans self.old self.new }
        ensures bag { HasBag self.new app held.new }
        ensures other_bags { KeepsOtherBags self.old self.new app }
        ensures views { held.new ≡ record held.old { buffers = held.new.buffers } }
        ensures count { length held.new.buffers ≤ length held.old.buffers }
        ensures cost { steps.new
            ≤ steps.old + 32 + 4 * length
            (route self.old.whole.bus.subscriptions (message_id (bytes_at held.old buf))) +
            8 * drops_for self.old.whole.bus app (message_id (bytes_at held.old buf)) }
    {
        self.transmit_buffer_lending(app, buf, inc, held, steps)
    }

    /// Gives the caller's buffer back unsent: it is taken out of the caller's bag, and its block
    /// goes back to the pool. At most 32 steps.
    ///
    /// # Errors
    /// `BufferInvalid` if this is no unsent buffer of the caller's; it is counted.
    pub fn release<L: Ledger>(
        &mut self,
        app: AppNo,
        buf: u64,
        held: &mut Held<'r>,
        steps: &mut Steps<L>,
    ) -> Result<(), SbStatus>
        requires may { MayAct self.old app (Release buf) }
        requires bag { HasBag self.old app held.old }
        ensures does { Acts self.old self.new app (Release buf) (done result) }
        ensures refused { OnErr result (self.new ≡ with_tick self.old CounterName.Send) }
        ensures bag_refused { OnErr result (held.new ≡ held.old) }
        ensures buffers { KeepsBuffers held.old held.new buf }
        ensures descs { KeepsDescs self.old self.new buf }
        ensures loans { KeepsAllLoans self.old self.new }
        ensures bag { HasBag self.new app held.new }
        ensures other_bags { KeepsOtherBags self.old self.new app }
        ensures views { held.new ≡ record held.old { buffers = held.new.buffers } }
        ensures count { length held.new.buffers ≤ length held.old.buffers }
        ensures cost { steps.new ≤ steps.old + 32 }
    {
        self.release_lending(app, buf, held, steps)
    }
}
