//! Buffers that C writes in place.
ghost use Rattle.std.specs.Prelude.{◌≡◌, ◌≢◌, None};
ghost use Rattle.bus_words.specs.declared.calls.BusAnswer.TheVariants.{Number, Sent};
ghost use Rattle.bus_words.specs.declared.history.Call.TheVariants.{Allocate, TransmitBuffer, Release};
ghost use Rattle.checked_bus.specs.Asked.{unasked_allocate, unasked_transmit, unasked_release};
ghost use Rattle.fsw_c.specs.BusAnswers.{BusCall, AnswersBus};
ghost use Rattle.fsw_c.specs.Buffers.{buffer_of, written_in, StaysWith, GivesOut};

use crate::buffer::FswBuffer;
use crate::bus_codes::code_of_call;
use crate::codes::CLOSED;
use crate::handle::FswCore;
use crate::messages::FswSent;
use std::alloc::Global;
use std::marker::Brand;
use step_count::Blank;

/// Gives the caller a buffer for a message of so many bytes.
#[unsafe(no_mangle)]
pub extern "C" fn fsw_raw_allocate_buffer(
    alloc: Global,
    core: &mut FswCore,
    app: u32,
    size: u32,
    buffer: &mut FswBuffer,
) -> u32
    ensures call { BusCall core.old.held.value core.new.held.value app (Allocate size)
        (λ bus. unasked_allocate bus app size (buffer_of buffer.old)) result }
    ensures kept { result ≢ 0 → buffer_of buffer.new ≡ buffer_of buffer.old }
    ensures answer { result ≡ 0 →
        AnswersBus core.old.held.value core.new.held.value app (Allocate size)
        (Number (buffer_of buffer.new).number) }
    ensures given { result ≡ 0 →
        GivesOut core.new.held.value app size (buffer_of buffer.new) }
{
    let Some(mut it) = core.take(alloc) else {
        return CLOSED;
    };
    let mut lent = buffer.take();
    let answer = it
        .bus
        .allocate::<Brand>(app, size, &mut lent, Blank::new(1));
    *core = FswCore::open(it);
    *buffer = FswBuffer::of(lent);
    code_of_call(&answer)
}

/// Sends the packet that a buffer of the caller's begins with, without a copy.
#[unsafe(no_mangle)]
pub extern "C" fn fsw_raw_transmit_buffer(
    alloc: Global,
    core: &mut FswCore,
    app: u32,
    buffer: &mut FswBuffer,
    counts: bool,
    sent: &mut FswSent,
) -> u32
    ensures call { BusCall core.old.held.value core.new.held.value app
        (TransmitBuffer (buffer_of buffer.old).number
        (written_in core.old.held.value app (buffer_of buffer.old)) counts)
        (λ bus. unasked_transmit bus app (buffer_of buffer.old) counts) result }
    ensures kept { result ≢ 0 → sent.new ≡ sent.old }
    ensures stays { result ≢ 0 →
        StaysWith core.old.held.value app (buffer_of buffer.old) (buffer_of buffer.new) }
    ensures gone { result ≡ 0 → buffer.new.lent.bytes ≡ None }
    ensures answer { result ≡ 0 →
        AnswersBus core.old.held.value core.new.held.value app
        (TransmitBuffer (buffer_of buffer.old).number
        (written_in core.old.held.value app (buffer_of buffer.old)) counts)
        (Sent sent.new.number sent.new.reached) }
{
    let Some(mut it) = core.take(alloc) else {
        return CLOSED;
    };
    let mut lent = buffer.take();
    let answer = it
        .bus
        .transmit_buffer::<Brand>(app, &mut lent, counts, Blank::new(1));
    *core = FswCore::open(it);
    *buffer = FswBuffer::of(lent);
    if let Ok(Ok(given)) = answer {
        sent.tell(given);
    }
    code_of_call(&answer)
}

/// Gives a buffer of the caller's back unsent.
#[unsafe(no_mangle)]
pub extern "C" fn fsw_raw_release_buffer(
    alloc: Global,
    core: &mut FswCore,
    app: u32,
    buffer: &mut FswBuffer,
) -> u32
    ensures call { BusCall core.old.held.value core.new.held.value app
        (Release (buffer_of buffer.old).number)
        (λ bus. unasked_release bus app (buffer_of buffer.old)) result }
    ensures stays { result ≢ 0 →
        StaysWith core.old.held.value app (buffer_of buffer.old) (buffer_of buffer.new) }
    ensures gone { result ≡ 0 → buffer.new.lent.bytes ≡ None }
{
    let Some(mut it) = core.take(alloc) else {
        return CLOSED;
    };
    let mut lent = buffer.take();
    let answer = it.bus.release::<Brand>(app, &mut lent, Blank::new(1));
    *core = FswCore::open(it);
    *buffer = FswBuffer::of(lent);
    code_of_call(&answer)
}
