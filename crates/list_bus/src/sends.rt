//! Sends and buffers.
ghost use Rattle.std.specs.Prelude.{◌≡◌, ◌<◌, ◌≤◌, ◌^◌, ◌&&◌, nat_le, length, map, if◌then◌else◌, IfOk};
ghost use Rattle.bus_words.specs.declared.history.Call.TheVariants.{Transmit, TransmitBuffer, Allocate, Release, Housekeeping};
ghost use Rattle.bus_words.specs.Acts.{next_in, moved_on};
ghost use Rattle.bus_words.specs.Events.{miss_event, miss_events};
ghost use Rattle.bus_words.specs.Machine.{stamped, packet_in};
ghost use Rattle.list_bus.specs.Decided.{Decides, HasEvents};
ghost use Rattle.list_bus.specs.Played.{IsPlayed};

use crate::bus::ListBus;
use crate::decisions::{Decision, silent, with_event};
use bus_events::ServiceEvent;
use bus_words::{BusAnswer, Miss, MissCause};
use ccsds_msg::{id_of, set_count, size_of};
use fsw_base::AppNo;
use housekeeping::{PACKET_BYTES, recall_packets};
use list_pipes::ListNexts;
use std::alloc::{AllocError, Global};

impl ListBus {
    /// A message goes to the subscriptions of its id; if there is none, an event says so.
    #[tactic(auto, unfolding(bus_words::specs::Events::call_events))]
    pub(crate) fn transmit(
        &mut self,
        alloc: Global,
        app: AppNo,
        bytes: &[u8],
        inc: bool,
    ) -> Result<Decision, AllocError>
        requires kept { IsPlayed self.old }
        requires call { length bytes.now < 2 ^ 32 }
        ensures made { IfOk result
            (λ made. Decides self.old self.new app (Transmit bytes.now inc) made.answer) }
        ensures events { IfOk result
            (λ made.
            HasEvents self.old app (Transmit bytes.now inc) made.answer made.events.items) }
    {
        if let Some(why) = self.transmit_cause(bytes) {
            return Ok(silent(alloc, BusAnswer::Sb(why)));
        }
        let id = id_of(bytes);
        let subs = self.subs.route(alloc, id)?;
        if subs.is_empty() {
            let decision = with_event(alloc, to_nobody(), ServiceEvent::NoSubscribers { id })?;
            return Ok(decision);
        }
        let message = stamped_message(alloc, &self.nexts, bytes, inc)?;
        let size = bytes.len() as u32;
        let done = self.messages.send(alloc, app, size, message, &subs)?;
        move_if(&mut self.nexts, inc, id);
        let events = miss_events(alloc, &done.misses, id, app)?;
        let answer = BusAnswer::Sent {
            number: done.number,
            reached: done.reached,
        };
        Ok(Decision { answer, events })
    }

    /// The message that a buffer begins with goes to the subscriptions of its id, and the buffer
    /// leaves.
    #[tactic(auto, unfolding(bus_words::specs::Events::call_events))]
    pub(crate) fn transmit_buffer(
        &mut self,
        alloc: Global,
        app: AppNo,
        buf: u32,
        bytes: &[u8],
        inc: bool,
    ) -> Result<Decision, AllocError>
        requires kept { IsPlayed self.old }
        requires call { length bytes.now < 2 ^ 32 }
        ensures made { IfOk result
            (λ made.
            Decides self.old self.new app (TransmitBuffer buf bytes.now inc) made.answer) }
        ensures events { IfOk result
            (λ made.
            HasEvents self.old app (TransmitBuffer buf bytes.now inc) made.answer
            made.events.items) }
    {
        if let Some(why) = self.transmit_buffer_cause(app, buf, bytes) {
            return Ok(silent(alloc, BusAnswer::Sb(why)));
        }
        let id = id_of(bytes);
        let subs = self.subs.route(alloc, id)?;
        if subs.is_empty() {
            self.messages.release(alloc, app, buf)?;
            let decision = with_event(alloc, to_nobody(), ServiceEvent::NoSubscribers { id })?;
            return Ok(decision);
        }
        let size = size_of(bytes) as usize;
        let message = stamped_message(alloc, &self.nexts, &bytes[..size], inc)?;
        let done = self.messages.send_buffer(alloc, app, buf, message, &subs)?;
        move_if(&mut self.nexts, is_counted(inc, buf), id);
        let events = miss_events(alloc, &done.misses, id, app)?;
        let answer = BusAnswer::Sent {
            number: buf,
            reached: done.reached,
        };
        Ok(Decision { answer, events })
    }

    /// The housekeeping packet is sent, as it is before the call.
    #[tactic(auto, unfolding(bus_words::specs::Events::call_events))]
    pub(crate) fn send_housekeeping(
        &mut self,
        alloc: Global,
        app: AppNo,
    ) -> Result<Decision, AllocError>
        requires { IsPlayed self.old }
        ensures made { IfOk result
            (λ made. Decides self.old self.new app Housekeeping made.answer) }
        ensures events { IfOk result
            (λ made. HasEvents self.old app Housekeeping made.answer made.events.items) }
    {
        recall_packets();
        let packet = self.packet();
        let decision = self.transmit(alloc, app, &packet, true)?;
        Ok(decision)
    }

    // The housekeeping packet.
    fn packet(&self) -> [u8; PACKET_BYTES]
        requires { IsPlayed self.now }
        ensures { result ≡ packet_in self.now.limits self.now.whole.bus }
    {
        let mut packet = [0; PACKET_BYTES];
        self.counters.packet(self.in_use(), &mut packet);
        packet
    }

    /// A buffer of this size, under the next number.
    pub(crate) fn allocate(&mut self, app: AppNo, size: u32) -> Result<BusAnswer, AllocError>
        requires { IsPlayed self.old }
        ensures { IfOk result (λ answer. Decides self.old self.new app (Allocate size) answer) }
    {
        if let Some(why) = self.allocate_cause(size) {
            return Ok(BusAnswer::Sb(why));
        }
        let number = self.messages.allocate(app, size)?;
        Ok(BusAnswer::Number(number))
    }

    /// A buffer leaves unsent.
    pub(crate) fn release(
        &mut self,
        alloc: Global,
        app: AppNo,
        buf: u32,
    ) -> Result<BusAnswer, AllocError>
        requires { IsPlayed self.old }
        ensures { IfOk result (λ answer. Decides self.old self.new app (Release buf) answer) }
    {
        if let Some(why) = self.release_cause(app, buf) {
            return Ok(BusAnswer::Sb(why));
        }
        self.messages.release(alloc, app, buf)?;
        Ok(BusAnswer::Done)
    }
}

// The message as it is delivered: with its id's next count, if the send asks for it.
fn stamped_message(
    alloc: Global,
    nexts: &ListNexts,
    bytes: &[u8],
    inc: bool,
) -> Result<Vec<u8>, AllocError>
    requires { 6 ≤ length bytes.now }
    ensures { IfOk result
        (λ message. message.items ≡
        stamped (record { next = next_in nexts.now }) bytes.now inc) }
{
    let mut message = Vec::from_slice(alloc, bytes)?;
    if inc {
        let count = nexts.next_of(id_of(bytes));
        set_count(message.as_mut_slice(), count);
    }
    Ok(message)
}

// Whether a send under this number moves its id's count.
fn is_counted(inc: bool, number: u32) -> bool
    ensures { result ≡ (inc && nat_le 1 number) }
{
    inc && 1 <= number
}

// The next count of an id goes up by one, if the test is true.
fn move_if(nexts: &mut ListNexts, test: bool, id: u16)
    ensures { nexts.new ≡ (if test then map (moved_on id) nexts.old else nexts.old) }
{
    if test {
        nexts.move_on(id);
    }
}

// The events of the pipes at which a message of this id and sender is missed, in order.
fn miss_events(
    alloc: Global,
    misses: &[Miss],
    id: u16,
    sender: AppNo,
) -> Result<Vec<ServiceEvent>, AllocError>
    ensures { IfOk result (λ events. events.items ≡ miss_events id sender misses.now) }
{
    let mut events = Vec::new(alloc);
    for miss in misses {
        events.push(event_of(miss, id, sender))?;
    }
    Ok(events)
}

// The event of a pipe at which a message of this id and sender is missed.
fn event_of(miss: &Miss, id: u16, sender: AppNo) -> ServiceEvent
    ensures { result ≡ miss_event id sender miss.now }
{
    let pipe = miss.pipe;
    match miss.cause {
        MissCause::OverLimit => ServiceEvent::MessageLimit { id, pipe, sender },
        MissCause::Full => ServiceEvent::PipeOverflow { id, pipe, sender },
        MissCause::Oldest => ServiceEvent::OldestDropped { id, pipe, sender },
    }
}

// The answer of a send to nobody.
fn to_nobody() -> BusAnswer
    ensures { result ≡ BusAnswer.Sent 0 0 }
{
    BusAnswer::Sent {
        number: 0,
        reached: 0,
    }
}
