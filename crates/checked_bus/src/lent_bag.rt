//! The bag of an application whose buffers' blocks are lent out of it, to be written in place.
ghost use Rattle.std.specs.Prelude.{◌≡◌, ◌==◌, ◌&&◌, not, ◌+◌, ◌-◌, ◌<◌, ◌≤◌, false, [], ◌∷◌, Some, None, length, take, filter, slice_get, slice_index_or, vec_len, vec_capacity, IfOk, OnErr, IsSome, IsTrue, replicate, Err, nat_lt};
ghost use Rattle.std.specs.List.{insert, remove, position, All};
ghost use Rattle.std.specs.Option.{option_map, option_map_or};
ghost use Rattle.bus_words.specs.declared.calls.BusAnswer.TheVariants.{Done};
ghost use Rattle.bus_words.specs.declared.history.Call.TheVariants.{Allocate, TransmitBuffer, Release, Receive, Pend, Look, Delete, End};
ghost use Rattle.buf_desc.specs.Block.{Unsent};
ghost use Rattle.buf_desc.specs.Held.{view_at, buffer_at, bytes_at, without_first};
ghost use Rattle.bus_core.specs.Core.{MayAct, Acts, with_tick, has_send_number};
ghost use Rattle.bus_core.specs.Answers.{numbered, sent, done, pended, waited};
ghost use Rattle.bus_core.specs.Bags.{HasBag, KeepsOtherBags, KeepsBuffers, KeepsLoans};
ghost use Rattle.checked_bus.specs.Answers.{received};
ghost use Rattle.checked_bus.specs.Box.{last_message};
ghost use Rattle.checked_bus.specs.Inside.{IsSeat, seat_of};
ghost use Rattle.checked_bus.specs.Lent.{is_misfit, bytes_in, written, no_buffer, StaysOut, IsGivenOut};

use crate::lent_buffer::LentBuffer;
use crate::received_message::ReceivedMessage;
use buf_desc::{Block, Held, Seat};
use bus_core::{Pended, PlainBus, Sent};
use fsw_base::{AppNo, SbStatus};
use housekeeping::CounterName;
use lend_block::View;
use ruled_out::{ruled_out, surely_some};
use std::alloc::{AllocError, Global};
use std::marker::Model;
use step_count::{Ledger, Steps};

/// The bag of an application that has the blocks of its buffers outside of it.
///
/// Contracts see the views, and of each buffer its seat: the block with zeros for its bytes.
#[derive(Drop)]
pub(crate) struct LentBag<'r> {
    // The views. A buffer's block is here only within a call.
    held: Held<'r>,
    // What stays of each lent block.
    seats: Vec<Seat>,
    // How many there may be.
    room: u32,
}

impl<'r> Model for LentBag<'r> {
    ghost use Rattle.std.specs.Prelude.{◌≡◌, ◌≤◌, [], length, vec_capacity};
    ghost use Rattle.std.specs.List.{All};
    ghost use Rattle.lend_block.specs.Loan.{LentBytes};
    ghost use Rattle.buf_desc.specs.Held.{Holding};
    ghost use Rattle.checked_bus.specs.Inside.{IsSeat};

    ghost Value = { Holding LentBytes };

    ghost view = { λ b.
        record {
          views = b.held.views;
          buffers = b.seats.items;
          view_room = b.held.view_room;
          buffer_room = b.room;
        } };

    ghost invariant = { λ b.
        (b.held.buffers ≡ [])
        × (1 ≤ b.held.buffer_room)
        × (length b.seats.items ≤ b.room)
        × (b.room ≤ vec_capacity b.seats)
        × All IsSeat b.seats.items };
}

impl<'r> LentBag<'r> {
    /// An empty bag with room for that many views and buffers.
    pub(crate) fn new(alloc: Global, views: u32, buffers: u32) -> Result<LentBag<'r>, AllocError>
        ensures { IfOk result
            (λ bag. bag ≡
            record { views = []; buffers = []; view_room = views; buffer_room = buffers }) }
    {
        let held: Held<'r> = Held::new(alloc, views, 1)?;
        let seats = Vec::with_capacity(alloc, buffers as usize)?;
        Ok(LentBag {
            held,
            seats,
            room: buffers,
        })
    }

    /// The view of a pipe.
    pub(crate) fn view_of(&self, pipe: u32) -> Option<&View<'r>>
        ensures { option_map (λ v. v.now) result ≡ view_at self.now pipe }
    {
        self.held.view_of(pipe)
    }

    /// How many buffers still fit.
    pub(crate) fn buffer_room(&self) -> u32
        ensures { result ≡ self.now.buffer_room - length self.now.buffers }
    {
        self.room - self.seats.len() as u32
    }

    /// Whether a buffer is out.
    pub(crate) fn has_buffers(&self) -> bool
        ensures { result ≡ nat_lt 0 (length self.now.buffers) }
    {
        self.seats.len() > 0
    }

    /// Whether there is a seat of the buffer's number, and the buffer's memory is no block for it.
    pub(crate) fn is_misfit(&self, buffer: &LentBuffer<'r>) -> bool
        ensures { result ≡ is_misfit self.now buffer.now }
    {
        match place_of(&self.seats, buffer.number()) {
            Some(place) => !buffer.is_as_long(self.seats[place].size()),
            None => false,
        }
    }

    /// [`PlainBus::allocate`], whose block is lent.
    pub(crate) fn allocate<L: Ledger>(
        &mut self,
        core: &mut PlainBus<'r>,
        app: AppNo,
        size: u32,
        buffer: &mut LentBuffer<'r>,
        steps: &mut Steps<L>,
    ) -> Result<u64, SbStatus>
        requires may { MayAct core.old app (Allocate size) }
        requires bag { HasBag core.old app self.old }
        requires room { length self.old.buffers < self.old.buffer_room }
        requires fresh { buffer_at self.old (core.old.whole.bus.numbers_given + 1) ≡ None }
        ensures does { IsTrue (has_send_number core.old.whole.bus) →
            Acts core.old core.new app (Allocate size) (numbered result) }
        ensures spent { has_send_number core.old.whole.bus ≡ false →
            result ≡ Err SbStatus.BufAlocErr }
        ensures refused { OnErr result (core.new ≡ with_tick core.old CounterName.Send) }
        ensures bag_refused { OnErr result (self.new ≡ self.old) }
        ensures buffer_refused { OnErr result (buffer.new ≡ buffer.old) }
        ensures zeros { IfOk result (λ number. bytes_at self.new number ≡ replicate size 0) }
        ensures given { IfOk result (λ number. IsGivenOut self.new size number buffer.new) }
        ensures buffers { IfOk result (KeepsBuffers self.old self.new) }
        ensures bag { HasBag core.new app self.new }
        ensures other_bags { KeepsOtherBags core.old core.new app }
        ensures views { self.new ≡ record self.old { buffers = self.new.buffers } }
    {
        let number = core.allocate_lending(app, size, &mut self.held, steps)?;
        let place = self.seats.len();
        *buffer = lend(&mut self.held, &mut self.seats, number, place);
        Ok(number)
    }

    /// [`PlainBus::transmit_buffer`] with what the application wrote.
    pub(crate) fn transmit<L: Ledger>(
        &mut self,
        core: &mut PlainBus<'r>,
        app: AppNo,
        buffer: &mut LentBuffer<'r>,
        inc: bool,
        steps: &mut Steps<L>,
    ) -> Result<Sent, SbStatus>
        requires may { MayAct core.old app
            (TransmitBuffer buffer.old.number (written self.old buffer.old) inc) }
        requires bag { HasBag core.old app self.old }
        requires fits { is_misfit self.old buffer.old ≡ false }
        ensures does { Acts core.old core.new app
            (TransmitBuffer buffer.old.number (written self.old buffer.old) inc) (sent result) }
        ensures bag_refused { OnErr result (self.new ≡ self.old) }
        ensures gone { IfOk result (λ it. buffer.new ≡ no_buffer) }
        ensures stays { OnErr result (StaysOut self.old buffer.old buffer.new) }
        ensures buffers { KeepsBuffers self.old self.new buffer.old.number }
        ensures bag { HasBag core.new app self.new }
        ensures other_bags { KeepsOtherBags core.old core.new app }
        ensures views { self.new ≡ record self.old { buffers = self.new.buffers } }
    {
        let number = buffer.number();
        let Some(place) = place_of(&self.seats, number) else {
            return core.transmit_buffer_lending(app, number, inc, &mut self.held, steps);
        };
        take_back(&mut self.held, &mut self.seats, place, buffer);
        let answer = core.transmit_buffer_lending(app, number, inc, &mut self.held, steps);
        match answer {
            Ok(_) => forget(&mut self.seats, number),
            Err(_) => *buffer = lend_again(&mut self.held, &mut self.seats, number, place),
        }
        answer
    }

    /// [`PlainBus::release`].
    pub(crate) fn release<L: Ledger>(
        &mut self,
        core: &mut PlainBus<'r>,
        app: AppNo,
        buffer: &mut LentBuffer<'r>,
        steps: &mut Steps<L>,
    ) -> Result<(), SbStatus>
        requires may { MayAct core.old app (Release buffer.old.number) }
        requires bag { HasBag core.old app self.old }
        requires fits { is_misfit self.old buffer.old ≡ false }
        ensures does { Acts core.old core.new app (Release buffer.old.number) (done result) }
        ensures bag_refused { OnErr result (self.new ≡ self.old) }
        ensures gone { IfOk result (λ it. buffer.new ≡ no_buffer) }
        ensures stays { OnErr result (StaysOut self.old buffer.old buffer.new) }
        ensures buffers { KeepsBuffers self.old self.new buffer.old.number }
        ensures bag { HasBag core.new app self.new }
        ensures other_bags { KeepsOtherBags core.old core.new app }
        ensures views { self.new ≡ record self.old { buffers = self.new.buffers } }
    {
        let number = buffer.number();
        let Some(place) = place_of(&self.seats, number) else {
            return core.release_lending(app, number, &mut self.held, steps);
        };
        take_back(&mut self.held, &mut self.seats, place, buffer);
        let answer = core.release_lending(app, number, &mut self.held, steps);
        match answer {
            Ok(()) => forget(&mut self.seats, number),
            Err(_) => *buffer = lend_again(&mut self.held, &mut self.seats, number, place),
        }
        answer
    }

    /// [`PlainBus::receive`], and where the message lies.
    pub(crate) fn receive<L: Ledger>(
        &mut self,
        core: &mut PlainBus<'r>,
        app: AppNo,
        pipe: u32,
        steps: &mut Steps<L>,
    ) -> Result<ReceivedMessage, SbStatus>
        requires may { MayAct core.old app (Receive pipe) }
        requires bag { HasBag core.old app self.old }
        ensures does { Acts core.old core.new app (Receive pipe) (received result) }
        ensures shown { IfOk result
            (λ it. Some it.len ≡
            option_map (λ bytes. length bytes) (last_message core.new app pipe)) }
        ensures loans { KeepsLoans core.old core.new pipe }
        ensures bag { HasBag core.new app self.new }
        ensures other_bags { KeepsOtherBags core.old core.new app }
        ensures buffers { self.new ≡ record self.old { views = self.new.views } }
    {
        let number = core.receive_lending(app, pipe, &mut self.held, steps)?;
        let view = surely_some(self.held.view_of(pipe));
        Ok(ReceivedMessage::of(core, app, pipe, number, view.bytes()))
    }

    /// [`PlainBus::pend`].
    pub(crate) fn pend<L: Ledger>(
        &mut self,
        core: &mut PlainBus<'r>,
        app: AppNo,
        pipe: u32,
        steps: &mut Steps<L>,
    ) -> Result<Pended, SbStatus>
        requires may { MayAct core.old app (Pend pipe) }
        requires bag { HasBag core.old app self.old }
        ensures does { Acts core.old core.new app (Pend pipe) (pended result) }
        ensures loans { KeepsLoans core.old core.new pipe }
        ensures bag { HasBag core.new app self.new }
        ensures other_bags { KeepsOtherBags core.old core.new app }
        ensures buffers { self.new ≡ record self.old { views = self.new.views } }
    {
        core.pend_lending(app, pipe, &mut self.held, steps)
    }

    /// [`PlainBus::look`].
    pub(crate) fn look(&mut self, core: &mut PlainBus<'r>, app: AppNo, pipe: u32) -> Pended
        requires may { MayAct core.old app (Look pipe) }
        requires bag { HasBag core.old app self.old }
        ensures does { Acts core.old core.new app (Look pipe) (waited result) }
        ensures loans { KeepsLoans core.old core.new pipe }
        ensures bag { HasBag core.new app self.new }
        ensures other_bags { KeepsOtherBags core.old core.new app }
        ensures buffers { self.new ≡ record self.old { views = self.new.views } }
    {
        core.look_lending(app, pipe, &mut self.held)
    }

    /// [`PlainBus::delete_pipe`].
    pub(crate) fn delete_pipe<L: Ledger>(
        &mut self,
        core: &mut PlainBus<'r>,
        app: AppNo,
        pipe: u32,
        steps: &mut Steps<L>,
    ) -> Result<(), SbStatus>
        requires may { MayAct core.old app (Delete pipe) }
        requires bag { HasBag core.old app self.old }
        ensures does { Acts core.old core.new app (Delete pipe) (done result) }
        ensures loans { KeepsLoans core.old core.new pipe }
        ensures bag { HasBag core.new app self.new }
        ensures other_bags { KeepsOtherBags core.old core.new app }
        ensures buffers { self.new ≡ record self.old { views = self.new.views } }
    {
        core.delete_pipe_lending(app, pipe, &mut self.held, steps)
    }

    /// [`PlainBus::end`], while no buffer is out.
    pub(crate) fn end<L: Ledger>(
        &mut self,
        core: &mut PlainBus<'r>,
        app: AppNo,
        steps: &mut Steps<L>,
    )
        requires may { MayAct core.old app End }
        requires bag { HasBag core.old app self.old }
        requires none { self.old.buffers ≡ [] }
        ensures does { Acts core.old core.new app End Done }
        ensures bag { HasBag core.new app self.new }
        ensures other_bags { KeepsOtherBags core.old core.new app }
        ensures empty { self.new ≡ record self.old { views = []; buffers = [] } }
    {
        core.end(app, &mut self.held, steps);
    }
}

// The place of the first seat of a number. That of the buffer that was asked for first is found
// without a search.
#[inline(always)]
fn place_of(seats: &Vec<Seat>, number: u64) -> Option<usize>
    ensures { result ≡ position (λ seat. seat.number == number) seats.now.items }
{
    if is_first(seats, number) {
        return Some(0);
    }
    place_among(seats, number)
}

// Whether the first seat has the number.
#[inline(always)]
fn is_first(seats: &Vec<Seat>, number: u64) -> bool
    ensures { result ≡
        option_map_or (λ seat. seat.number == number) (slice_get seats.now.items 0) false }
{
    match seats.first() {
        Some(seat) => seat.number() == number,
        None => false,
    }
}

// The place of the first seat of a number, searched for. It is apart, so that the way without a
// search is short; so is all that is apart below.
#[inline(never)]
fn place_among(seats: &Vec<Seat>, number: u64) -> Option<usize>
    ensures { result ≡ position (λ seat. seat.number == number) seats.now.items }
{
    seats.iter().position(|seat| seat.number() == number)
}

// Takes the block of a seat back into the bag, which has no other: the buffer's memory is the
// block's. It is apart, so that the bag's insertion is compiled into it.
#[inline(never)]
fn take_back<'r>(
    held: &mut Held<'r>,
    seats: &mut Vec<Seat>,
    place: usize,
    buffer: &mut LentBuffer<'r>,
)
    requires within { place < length seats.old.items }
    requires empty { held.old.buffers ≡ [] }
    requires room { 1 ≤ held.old.buffer_room }
    requires size { Some (length (bytes_in buffer.old)) ≡
        option_map (λ seat. seat.size) (slice_get seats.old.items place) }
    requires out { IsSome buffer.old.bytes }
    ensures seats { seats.new.items ≡ remove seats.old.items place }
    ensures capacity { vec_capacity seats.new ≡ vec_capacity seats.old }
    ensures held { (seat : Unsent) → slice_get seats.old.items place ≡ Some seat → held.new ≡
        record held.old {
          buffers = record seat { bytes = take (length seat.bytes) (bytes_in buffer.old) } ∷ [];
        } }
    ensures gone { buffer.new ≡ no_buffer }
{
    let space = surely_some(buffer.take());
    let seat = remove_at(seats, place);
    held.put_buffer(seat.take_back(space));
}

// Takes the seat at a place out of a list. From the end it moves no other.
#[inline(always)]
fn remove_at(seats: &mut Vec<Seat>, place: usize) -> Seat
    requires within { place < length seats.old.items }
    ensures value { result ≡ slice_index_or seats.old.items place result }
    ensures items { seats.new.items ≡ remove seats.old.items place }
    ensures capacity { vec_capacity seats.new ≡ vec_capacity seats.old }
{
    if place + 1 == seats.len() {
        return surely_some(seats.pop());
    }
    remove_within(seats, place)
}

// Takes the seat at a place out of a list. It is apart.
#[inline(never)]
fn remove_within(seats: &mut Vec<Seat>, place: usize) -> Seat
    requires within { place < length seats.old.items }
    ensures value { result ≡ slice_index_or seats.old.items place result }
    ensures items { seats.new.items ≡ remove seats.old.items place }
    ensures capacity { vec_capacity seats.new ≡ vec_capacity seats.old }
{
    seats.remove(place)
}

// Lends the block of a buffer out of the bag; its seat goes to this place.
#[inline(always)]
fn lend<'r>(held: &mut Held<'r>, seats: &mut Vec<Seat>, number: u64, place: usize) -> LentBuffer<'r>
    requires there { IsSome (buffer_at held.old number) }
    requires within { place ≤ length seats.old.items }
    requires room { vec_len seats.old < vec_capacity seats.old }
    ensures number { result.number ≡ number }
    ensures whole { option_map (λ bytes. length bytes) result.bytes ≡
        option_map (λ block. block.size) (buffer_at held.old number) }
    ensures bytes { take (length (bytes_at held.old number)) (bytes_in result) ≡
        bytes_at held.old number }
    ensures held { held.new ≡
        record held.old {
          buffers = without_first (λ block. block.number == number) held.old.buffers;
        } }
    ensures seats { (block : Unsent) → buffer_at held.old number ≡ Some block →
        seats.new.items ≡ insert seats.old.items place (seat_of block) }
    ensures capacity { vec_capacity seats.old ≤ vec_capacity seats.new }
{
    let block = surely_some(held.take_buffer(number));
    put_at(seats, place, block.seat());
    LentBuffer::of(number, block.into_space())
}

// [`lend`], for a call that was refused. It is apart.
#[inline(never)]
fn lend_again<'r>(
    held: &mut Held<'r>,
    seats: &mut Vec<Seat>,
    number: u64,
    place: usize,
) -> LentBuffer<'r>
    requires there { IsSome (buffer_at held.old number) }
    requires within { place ≤ length seats.old.items }
    requires room { vec_len seats.old < vec_capacity seats.old }
    ensures number { result.number ≡ number }
    ensures whole { option_map (λ bytes. length bytes) result.bytes ≡
        option_map (λ block. block.size) (buffer_at held.old number) }
    ensures bytes { take (length (bytes_at held.old number)) (bytes_in result) ≡
        bytes_at held.old number }
    ensures held { held.new ≡
        record held.old {
          buffers = without_first (λ block. block.number == number) held.old.buffers;
        } }
    ensures seats { (block : Unsent) → buffer_at held.old number ≡ Some block →
        seats.new.items ≡ insert seats.old.items place (seat_of block) }
    ensures capacity { vec_capacity seats.old ≤ vec_capacity seats.new }
{
    lend(held, seats, number, place)
}

// Puts a seat at a place of a list that has room for it. At the end it moves no other.
#[inline(always)]
fn put_at(seats: &mut Vec<Seat>, place: usize, seat: Seat)
    requires within { place ≤ length seats.old.items }
    requires room { vec_len seats.old < vec_capacity seats.old }
    ensures items { seats.new.items ≡ insert seats.old.items place seat }
    ensures capacity { vec_capacity seats.old ≤ vec_capacity seats.new }
{
    if place == seats.len() {
        seats.push_reserved(seat);
        return;
    }
    match seats.insert(place, seat) {
        Ok(()) => {}
        Err(_) => ruled_out!(),
    }
}

// Leaves the seats of other numbers.
#[inline(always)]
fn forget(seats: &mut Vec<Seat>, number: u64)
    ensures items { seats.new.items ≡ filter (λ seat. not (seat.number == number)) seats.old.items }
    ensures capacity { vec_capacity seats.new ≡ vec_capacity seats.old }
{
    if !seats.is_empty() {
        forget_among(seats, number);
    }
}

// Leaves the seats of other numbers. It is apart.
#[inline(never)]
fn forget_among(seats: &mut Vec<Seat>, number: u64)
    ensures items { seats.new.items ≡ filter (λ seat. not (seat.number == number)) seats.old.items }
    ensures capacity { vec_capacity seats.new ≡ vec_capacity seats.old }
{
    seats.retain(|seat| seat.number() != number);
}
