//! The calls of buffers, which their applications write in place and send without a copy.
ghost use Rattle.std.specs.Prelude.{◌≡◌, ◌<◌, ◌≤◌, false, nat_lt, length, Err, replicate, IfOk, OnErr, IsTrue};
ghost use Rattle.std.specs.Result.{result_err};
ghost use Rattle.bus_words.specs.declared.history.Call.TheVariants.{Allocate, TransmitBuffer, Release};
ghost use Rattle.buf_desc.specs.Held.{bytes_at};
ghost use Rattle.bus_core.specs.Core.{Acts, apps_in, with_tick, has_send_number};
ghost use Rattle.bus_core.specs.Answers.{numbered, sent, done};
ghost use Rattle.bus_core.specs.Bags.{KeepsBuffers};
ghost use Rattle.checked_bus.specs.Asked.{unasked_allocate, unasked_transmit, unasked_release};
ghost use Rattle.checked_bus.specs.Box.{KeepsOtherBags, KeepsOwnViews, bag_of};
ghost use Rattle.checked_bus.specs.Lent.{no_buffer, is_misfit, written, StaysOut, IsGivenOut};

use crate::boxed::SbBox;
use crate::lent_buffer::LentBuffer;
use crate::refusal::Refusal;
use bus_core::Sent;
use bus_words::BusCall;
use fsw_base::{AppNo, SbStatus};
use housekeeping::CounterName;
use step_count::{Blank, Ledger, Steps};

impl<'r> SbBox<'r> {
    /// Gives the application a buffer of zeros to write in place, as [`PlainBus::allocate`]. What
    /// stands in the block behind the bytes that were asked for is never sent.
    ///
    /// # Errors
    /// Those of [`PlainBus::allocate`]; a [`Refusal`] if the bus wasn't asked.
    pub fn allocate<L: Ledger>(
        &mut self,
        app: u32,
        size: u32,
        buffer: &mut LentBuffer<'r>,
        blank: Blank,
    ) -> Result<Result<u64, SbStatus>, Refusal>
        requires name { blank.name ≡ L.name }
        requires parts { blank.parts ≡ L.parts }
        requires some_part { 0 < blank.parts }
        ensures unasked { result_err result ≡ unasked_allocate self.old app size buffer.old }
        ensures nothing { OnErr result (self.new ≡ self.old) }
        ensures does { IfOk result
            (λ answer. IsTrue (has_send_number self.old.core.whole.bus) →
            Acts self.old.core self.new.core app (Allocate size) (numbered answer)) }
        ensures spent { IfOk result
            (λ answer. has_send_number self.old.core.whole.bus ≡ false →
            answer ≡ Err SbStatus.BufAlocErr) }
        ensures refused { IfOk result
            (λ answer. OnErr answer (self.new.core ≡ with_tick self.old.core CounterName.Send)) }
        ensures zeros { IfOk result (λ answer. IfOk answer
            (λ number. bytes_at (bag_of self.new app) number ≡ replicate size 0)) }
        ensures given { IfOk result (λ answer. IfOk answer
            (λ number. IsGivenOut (bag_of self.new app) size number buffer.new)) }
        ensures others { IfOk result (λ answer. KeepsOtherBags self.old self.new app) }
        ensures views { IfOk result (λ answer. KeepsOwnViews self.old self.new app) }
        ensures kept { IfOk result
            (λ answer. IfOk answer (KeepsBuffers (bag_of self.old app) (bag_of self.new app))) }
        ensures bag_refused { IfOk result
            (λ answer. OnErr answer (bag_of self.new app ≡ bag_of self.old app)) }
        ensures buffer_unasked { OnErr result (buffer.new ≡ buffer.old) }
        ensures buffer_refused { IfOk result (λ answer. OnErr answer (buffer.new ≡ buffer.old)) }
    {
        let caller = self.caller_for(app, &BusCall::Allocate { size })?;
        if buffer.is_out() {
            return Err(Refusal::BufferOut);
        }
        if !self.has_buffer_room(caller) {
            return Err(Refusal::NoRoom);
        }
        let mut steps = Steps::<L>::new(blank);
        let bag = &mut self.bags[(caller.get() - 1) as usize];
        Ok(bag.allocate(&mut self.core, caller, size, buffer, &mut steps))
    }

    /// Sends the message that a buffer begins with, as [`PlainBus::transmit_buffer`]. If it is
    /// accepted, its memory is the bus's again; if not, the application keeps the buffer.
    ///
    /// # Errors
    /// Those of [`PlainBus::transmit_buffer`]; a [`Refusal`] if the bus wasn't asked.
    pub fn transmit_buffer<L: Ledger>(
        &mut self,
        app: u32,
        buffer: &mut LentBuffer<'r>,
        inc: bool,
        blank: Blank,
    ) -> Result<Result<Sent, SbStatus>, Refusal>
        requires name { blank.name ≡ L.name }
        requires parts { blank.parts ≡ L.parts }
        requires some_part { 0 < blank.parts }
        ensures unasked { result_err result ≡ unasked_transmit self.old app buffer.old inc }
        ensures nothing { OnErr result (self.new ≡ self.old) }
        ensures does { IfOk result
            (λ answer. Acts self.old.core self.new.core app
            (TransmitBuffer buffer.old.number (written (bag_of self.old app) buffer.old) inc)
            (sent answer)) }
        ensures others { IfOk result (λ answer. KeepsOtherBags self.old self.new app) }
        ensures views { IfOk result (λ answer. KeepsOwnViews self.old self.new app) }
        ensures kept { IfOk result
            (λ answer. KeepsBuffers (bag_of self.old app) (bag_of self.new app) buffer.old.number) }
        ensures bag_refused { IfOk result
            (λ answer. OnErr answer (bag_of self.new app ≡ bag_of self.old app)) }
        ensures gone { IfOk result (λ answer. IfOk answer (λ it. buffer.new ≡ no_buffer)) }
        ensures buffer_unasked { OnErr result (buffer.new ≡ buffer.old) }
        ensures buffer_refused { IfOk result
            (λ answer. OnErr answer (StaysOut (bag_of self.old app) buffer.old buffer.new)) }
    {
        let caller = self.active_caller(app)?;
        if self.is_misfit(caller, buffer) {
            return Err(Refusal::NotItsBlock);
        }
        let mut steps = Steps::<L>::new(blank);
        let bag = &mut self.bags[(caller.get() - 1) as usize];
        Ok(bag.transmit(&mut self.core, caller, buffer, inc, &mut steps))
    }

    /// Gives a buffer back unsent, as [`PlainBus::release`]. If it is accepted, its memory is the
    /// bus's again; if not, the application keeps the buffer.
    ///
    /// # Errors
    /// Those of [`PlainBus::release`]; a [`Refusal`] if the bus wasn't asked.
    pub fn release<L: Ledger>(
        &mut self,
        app: u32,
        buffer: &mut LentBuffer<'r>,
        blank: Blank,
    ) -> Result<Result<(), SbStatus>, Refusal>
        requires name { blank.name ≡ L.name }
        requires parts { blank.parts ≡ L.parts }
        requires some_part { 0 < blank.parts }
        ensures unasked { result_err result ≡ unasked_release self.old app buffer.old }
        ensures nothing { OnErr result (self.new ≡ self.old) }
        ensures does { IfOk result
            (λ answer. Acts self.old.core self.new.core app (Release buffer.old.number)
            (done answer)) }
        ensures others { IfOk result (λ answer. KeepsOtherBags self.old self.new app) }
        ensures views { IfOk result (λ answer. KeepsOwnViews self.old self.new app) }
        ensures kept { IfOk result
            (λ answer. KeepsBuffers (bag_of self.old app) (bag_of self.new app) buffer.old.number) }
        ensures bag_refused { IfOk result
            (λ answer. OnErr answer (bag_of self.new app ≡ bag_of self.old app)) }
        ensures gone { IfOk result (λ answer. IfOk answer (λ it. buffer.new ≡ no_buffer)) }
        ensures buffer_unasked { OnErr result (buffer.new ≡ buffer.old) }
        ensures buffer_refused { IfOk result
            (λ answer. OnErr answer (StaysOut (bag_of self.old app) buffer.old buffer.new)) }
    {
        let caller = self.active_caller(app)?;
        if self.is_misfit(caller, buffer) {
            return Err(Refusal::NotItsBlock);
        }
        let mut steps = Steps::<L>::new(blank);
        let bag = &mut self.bags[(caller.get() - 1) as usize];
        Ok(bag.release(&mut self.core, caller, buffer, &mut steps))
    }

    // Whether the buffer's memory is no block of the application's buffer of its number.
    fn is_misfit(&self, caller: AppNo, buffer: &LentBuffer<'r>) -> bool
        requires { caller ≤ apps_in self.now.core }
        ensures { result ≡ is_misfit (bag_of self.now caller) buffer.now }
    {
        self.bags[(caller.get() - 1) as usize].is_misfit(buffer)
    }

    // Whether the application's bag has room for a buffer more.
    fn has_buffer_room(&self, caller: AppNo) -> bool
        requires { caller ≤ apps_in self.now.core }
        ensures { result ≡
            nat_lt (length (bag_of self.now caller).buffers)
            (bag_of self.now caller).buffer_room }
    {
        self.bags[(caller.get() - 1) as usize].buffer_room() > 0
    }
}
