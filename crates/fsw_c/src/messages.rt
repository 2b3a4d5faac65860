//! Messages.
ghost use Rattle.std.specs.Prelude.{◌≡◌, ◌≢◌};
ghost use Rattle.bus_words.specs.declared.history.Call.TheVariants.{Transmit, Receive, Pend, Look, Housekeeping};
ghost use Rattle.bus_words.specs.declared.calls.BusAnswer.TheVariants.{Sent, Got};
ghost use Rattle.checked_bus.specs.Asked.{unasked, unasked_look};
ghost use Rattle.fsw_c.specs.BusAnswers.{BusCall, AnswersBus, pipe_waited_on};
ghost use Rattle.fsw_c.specs.Shown.{ShowsLast, last_shown, shown_length};

use crate::bus_codes::{code_of_call, code_of_look, code_of_pend};
use crate::codes::CLOSED;
use crate::handle::FswCore;
use crate::seen::FswBytes;
use bus_core::Pended;
use checked_bus::{LookAnswer, ReceivedMessage, SbBox};
use std::alloc::Global;
use std::marker::Brand;
use step_count::Blank;

/// What an accepted send was answered.
#[repr(C)]
#[derive(Clone, Copy)]
pub struct FswSent {
    /// The message's number; 0 if nobody subscribes to its id.
    pub number: u64,
    /// How many pipes it reached.
    pub reached: u32,
}

impl FswSent {
    /// Tells what the bus answered, field by field, so that no bytes behind them are written.
    pub(crate) fn tell(&mut self, sent: bus_core::Sent)
        ensures number { self.new.number ≡ sent.number }
        ensures reached { self.new.reached ≡ sent.reached }
    {
        self.number = sent.number;
        self.reached = sent.reached;
    }
}

/// A message that was received.
#[repr(C)]
#[derive(Clone, Copy)]
pub struct FswMessage {
    /// Its first byte.
    pub at: *const u8,
    /// How many there are.
    pub len: usize,
    /// Its number.
    pub number: u64,
}

impl FswMessage {
    // A message where it lies.
    fn where_received(message: ReceivedMessage) -> FswMessage
        ensures begins { result.at ≡ message.at }
        ensures length { result.len ≡ message.len }
        ensures number { result.number ≡ message.number }
    {
        FswMessage {
            at: message.at,
            len: message.len,
            number: message.number,
        }
    }

    // The message of this number that the application received last on the pipe.
    fn of(bus: &SbBox<'static>, app: u32, pipe: u32, number: u64) -> FswMessage
        ensures length { result.len ≡ shown_length (last_shown bus.now app pipe) }
        ensures number { result.number ≡ number }
    {
        let FswBytes { at, len } = FswBytes::of_any(bus.message(app, pipe));
        FswMessage { at, len, number }
    }
}

/// Sends a copy of a packet.
#[unsafe(no_mangle)]
pub extern "C" fn fsw_raw_transmit(
    alloc: Global,
    core: &mut FswCore,
    app: u32,
    bytes: &[u8],
    counts: bool,
    sent: &mut FswSent,
) -> u32
    ensures call { BusCall core.old.held.value core.new.held.value app (Transmit bytes.now counts)
        (λ bus. unasked bus.core app (Transmit bytes.now counts)) result }
    ensures kept { result ≢ 0 → sent.new ≡ sent.old }
    ensures answer { result ≡ 0 →
        AnswersBus core.old.held.value core.new.held.value app (Transmit bytes.now counts)
        (Sent sent.new.number sent.new.reached) }
{
    let Some(mut it) = core.take(alloc) else {
        return CLOSED;
    };
    let answer = it.bus.transmit::<Brand>(app, bytes, counts, Blank::new(1));
    *core = FswCore::open(it);
    if let Ok(Ok(given)) = answer {
        sent.tell(given);
    }
    code_of_call(&answer)
}

/// Sends the housekeeping packet.
#[unsafe(no_mangle)]
pub extern "C" fn fsw_raw_send_housekeeping(
    alloc: Global,
    core: &mut FswCore,
    app: u32,
    sent: &mut FswSent,
) -> u32
    ensures call { BusCall core.old.held.value core.new.held.value app Housekeeping
        (λ bus. unasked bus.core app Housekeeping) result }
    ensures kept { result ≢ 0 → sent.new ≡ sent.old }
    ensures answer { result ≡ 0 →
        AnswersBus core.old.held.value core.new.held.value app Housekeeping
        (Sent sent.new.number sent.new.reached) }
{
    let Some(mut it) = core.take(alloc) else {
        return CLOSED;
    };
    let answer = it.bus.send_housekeeping::<Brand>(app, Blank::new(1));
    *core = FswCore::open(it);
    if let Ok(Ok(given)) = answer {
        sent.tell(given);
    }
    code_of_call(&answer)
}

/// Takes the oldest message from a pipe of the caller's.
#[unsafe(no_mangle)]
#[tactic(auto, using(crate::proofs::Shown::last_length))]
pub extern "C" fn fsw_raw_receive(
    alloc: Global,
    core: &mut FswCore,
    app: u32,
    pipe: u32,
    message: &mut FswMessage,
) -> u32
    ensures call { BusCall core.old.held.value core.new.held.value app (Receive pipe)
        (λ bus. unasked bus.core app (Receive pipe)) result }
    ensures kept { result ≢ 0 → message.new ≡ message.old }
    ensures number { result ≡ 0 →
        AnswersBus core.old.held.value core.new.held.value app (Receive pipe)
        (Got message.new.number) }
    ensures shown { result ≡ 0 →
        ShowsLast core.new.held.value app pipe message.new }
{
    let Some(mut it) = core.take(alloc) else {
        return CLOSED;
    };
    let answer = it.bus.receive::<Brand>(app, pipe, Blank::new(1));
    *core = FswCore::open(it);
    if let Ok(Ok(given)) = answer {
        *message = FswMessage::where_received(given);
    }
    code_of_call(&answer)
}

/// Takes the oldest message from a pipe of the caller's, or waits for one.
#[unsafe(no_mangle)]
pub extern "C" fn fsw_raw_pend(
    alloc: Global,
    core: &mut FswCore,
    app: u32,
    pipe: u32,
    message: &mut FswMessage,
) -> u32
    ensures call { BusCall core.old.held.value core.new.held.value app (Pend pipe)
        (λ bus. unasked bus.core app (Pend pipe)) result }
    ensures kept { result ≢ 0 → message.new ≡ message.old }
    ensures number { result ≡ 0 →
        AnswersBus core.old.held.value core.new.held.value app (Pend pipe)
        (Got message.new.number) }
    ensures shown { result ≡ 0 →
        ShowsLast core.new.held.value app pipe message.new }
{
    let Some(mut it) = core.take(alloc) else {
        return CLOSED;
    };
    let answer = it.bus.pend::<Brand>(app, pipe, Blank::new(1));
    if let Ok(Ok(Pended::Got(number))) = answer {
        *message = FswMessage::of(&it.bus, app, pipe, number);
    }
    *core = FswCore::open(it);
    code_of_pend(&answer)
}

/// Looks again, for an application that waits.
#[unsafe(no_mangle)]
pub extern "C" fn fsw_raw_look(
    alloc: Global,
    core: &mut FswCore,
    app: u32,
    message: &mut FswMessage,
) -> u32
    ensures call { BusCall core.old.held.value core.new.held.value app
        (Look (pipe_waited_on core.old.held.value app))
        (λ bus. unasked_look bus.core app) result }
    ensures kept { result ≢ 0 → message.new ≡ message.old }
    ensures number { result ≡ 0 →
        AnswersBus core.old.held.value core.new.held.value app
        (Look (pipe_waited_on core.old.held.value app)) (Got message.new.number) }
    ensures shown { result ≡ 0 →
        ShowsLast core.new.held.value app (pipe_waited_on core.old.held.value app)
        message.new }
{
    let Some(mut it) = core.take(alloc) else {
        return CLOSED;
    };
    let answer = it.bus.look(app);
    if let Ok(
        LookAnswer {
            pipe,
            answer: Pended::Got(number),
        },
    ) = answer
    {
        *message = FswMessage::of(&it.bus, app, pipe, number);
    }
    *core = FswCore::open(it);
    code_of_look(&answer)
}
