//! The calls of an application that may have lent blocks out of its bag, so that they are written
//! in place outside of it: a block that is lent out leaves the bag, and comes back before its
//! buffer is sent or given back. Each call that takes a bag is here, but for `end`.
ghost use Rattle.std.specs.Prelude.{◌≡◌, ℕ, ◌+◌, ◌*◌, ◌<◌, ◌≤◌, false, Ok, Err, length, replicate, IsTrue, IfOk, OnErr};
ghost use Rattle.ccsds_msg.specs.Message.{message_id};
ghost use Rattle.bus_words.specs.declared.history.Call.TheVariants.{Allocate, TransmitBuffer, Release, Receive, Pend, Look, Delete};
ghost use Rattle.bus_words.specs.Bus.{route, owns};
ghost use Rattle.buf_desc.specs.Held.{bytes_at};
ghost use Rattle.bus_messages.specs.Blocks.{IsGiven};
ghost use Rattle.bus_core.specs.Core.{MayAct, Acts, with_tick, drops_for, has_send_number};
ghost use Rattle.bus_core.specs.Answers.{numbered, sent, done, got, pended, waited};
ghost use Rattle.bus_core.specs.Bags.{HasOwnViews, HasBuffer, HasBagInPart, KeepsBag, KeepsBagBut, KeepsOtherBags, KeepsBuffers, KeepsLoans, KeepsAllLoans, KeepsDescs, KeepsAllDescs};

use crate::activities::Activity;
use crate::buffers::id_to_send;
use crate::plain::PlainBus;
use crate::receiving::{Pended, set_waiting};
use crate::sending::Sent;
use crate::uses::{see, see_blocks};
use buf_desc::Held;
use bus_events::ServiceEvent;
use fsw_base::{AppNo, SbStatus};
use housekeeping::CounterName;
use step_count::{Ledger, Steps};

impl<'r> PlainBus<'r> {
    /// [`PlainBus::allocate`] if blocks of the caller's may be lent out of its bag. The new one
    /// isn't. The caller leaves room in the bag for those that are.
    ///
    /// # Errors
    /// Those of [`PlainBus::allocate`].
    pub fn allocate_lending<L: Ledger>(
        &mut self,
        app: AppNo,
        size: u32,
        held: &mut Held<'r>,
        steps: &mut Steps<L>,
    ) -> Result<u64, SbStatus>
        requires may { MayAct self.old app (Allocate size) }
        requires bag { HasBagInPart self.old app held.old }
        requires room { length held.old.buffers < held.old.buffer_room }
        ensures does { IsTrue (has_send_number self.old.whole.bus) →
            Acts self.old self.new app (Allocate size) (numbered result) }
        ensures spent { has_send_number self.old.whole.bus ≡ false →
            result ≡ Err SbStatus.BufAlocErr }
        ensures number { IfOk result
            (λ number. number ≡ self.old.whole.bus.numbers_given + 1) }
        ensures refused { OnErr result (self.new ≡ with_tick self.old CounterName.Send) }
        ensures bag_refused { OnErr result (held.new ≡ held.old) }
        ensures zeros { IfOk result (λ number. bytes_at held.new number ≡ replicate size 0) }
        ensures buffers { IfOk result (KeepsBuffers held.old held.new) }
        ensures descs { IfOk result (KeepsDescs self.old self.new) }
        ensures loans { KeepsAllLoans self.old self.new }
        ensures bag { KeepsBag self.old self.new app held.old held.new }
        ensures other_bags { KeepsOtherBags self.old self.new app }
        ensures views { held.new ≡ record held.old { buffers = held.new.buffers } }
        ensures count { length held.new.buffers ≤ length held.old.buffers + 1 }
        ensures cost { steps.new ≤ steps.old + 32 }
    {
        if !self.has_send_number() {
            self.refuse(CounterName::Send);
            return Err(SbStatus::BufAlocErr);
        }
        if let Some(status) = self.allocate_cause(size) {
            self.refuse(CounterName::Send);
            return Err(status);
        }
        // Does nothing; the proof learns of it which blocks are out.
        self.store.recall_held();
        let number = self.store.allocate(app, size, held, steps);
        see_blocks(&mut self.records, &self.store);
        Ok(number)
    }

    /// [`PlainBus::transmit_buffer`] if blocks of the caller's may be lent out of its bag. This
    /// one isn't.
    ///
    /// # Errors
    /// Those of [`PlainBus::transmit_buffer`].
    pub fn transmit_buffer_lending<L: Ledger>(
        &mut self,
        app: AppNo,
        buf: u64,
        inc: bool,
        held: &mut Held<'r>,
        steps: &mut Steps<L>,
    ) -> Result<Sent, SbStatus>
        requires may { MayAct self.old app (TransmitBuffer buf (bytes_at held.old buf) inc) }
        requires buffer { HasBuffer self.old app held.old buf }
        ensures does { Acts self.old self.new app (TransmitBuffer buf (bytes_at held.old buf) inc)
            (sent result) }
        ensures number { IfOk result (λ sent. sent.number ≤ buf) }
        ensures refused { OnErr result (self.new ≡ with_tick self.old CounterName.Send) }
        ensures bag_refused { OnErr result (held.new ≡ held.old) }
        ensures buffers { KeepsBuffers held.old held.new buf }
        ensures descs { KeepsDescs self.old self.new buf }
        ensures loans { KeepsAllLoans self.old self.new }
        ensures bag { KeepsBagBut self.old self.new app held.old held.new buf }
        ensures other_bags { KeepsOtherBags self.old self.new app }
        ensures views { held.new ≡ record held.old { buffers = held.new.buffers } }
        ensures count { length held.new.buffers ≤ length held.old.buffers }
        ensures cost { steps.new
            ≤ steps.old + 32 + 4 * length
            (route self.old.whole.bus.subscriptions (message_id (bytes_at held.old buf))) +
            8 * drops_for self.old.whole.bus app (message_id (bytes_at held.old buf)) }
    {
        let id = match id_to_send(held, buf) {
            Ok(id) => id,
            Err(status) => {
                self.refuse(CounterName::Send);
                return Err(status);
            }
        };
        if self.store.dests_of(id) == 0 {
            self.store.release(app, buf, held, steps);
            self.records.tell(ServiceEvent::NoSubscribers { id });
            see(&mut self.records, &self.store);
            return Ok(Sent {
                number: 0,
                reached: 0,
            });
        }
        // Does nothing; the proof learns of it which blocks are out.
        self.store.recall_held();
        let sent = self.store.transmit_buffer(app, buf, inc, held, steps);
        self.records.tell_misses(self.store.misses(), id, app);
        see_blocks(&mut self.records, &self.store);
        Ok(Sent {
            number: sent.number,
            reached: sent.reached,
        })
    }

    /// [`PlainBus::release`] if blocks of the caller's may be lent out of its bag. This one
    /// isn't.
    ///
    /// # Errors
    /// Those of [`PlainBus::release`].
    pub fn release_lending<L: Ledger>(
        &mut self,
        app: AppNo,
        buf: u64,
        held: &mut Held<'r>,
        steps: &mut Steps<L>,
    ) -> Result<(), SbStatus>
        requires may { MayAct self.old app (Release buf) }
        requires buffer { HasBuffer self.old app held.old buf }
        ensures does { Acts self.old self.new app (Release buf) (done result) }
        ensures refused { OnErr result (self.new ≡ with_tick self.old CounterName.Send) }
        ensures bag_refused { OnErr result (held.new ≡ held.old) }
        ensures buffers { KeepsBuffers held.old held.new buf }
        ensures descs { KeepsDescs self.old self.new buf }
        ensures loans { KeepsAllLoans self.old self.new }
        ensures bag { KeepsBagBut self.old self.new app held.old held.new buf }
        ensures other_bags { KeepsOtherBags self.old self.new app }
        ensures views { held.new ≡ record held.old { buffers = held.new.buffers } }
        ensures count { length held.new.buffers ≤ length held.old.buffers }
        ensures cost { steps.new ≤ steps.old + 32 }
    {
        if held.buffer(buf).is_none() {
            self.refuse(CounterName::Send);
            return Err(SbStatus::BufferInvalid);
        }
        self.store.release(app, buf, held, steps);
        see(&mut self.records, &self.store);
        Ok(())
    }

    /// [`PlainBus::receive`] if blocks of the caller's may be lent out of its bag. Its views are
    /// all there.
    ///
    /// # Errors
    /// Those of [`PlainBus::receive`].
    pub fn receive_lending<L: Ledger>(
        &mut self,
        app: AppNo,
        pipe: u32,
        held: &mut Held<'r>,
        steps: &mut Steps<L>,
    ) -> Result<u64, SbStatus>
        requires may { MayAct self.old app (Receive pipe) }
        requires views { HasOwnViews self.old app held.old }
        ensures does { Acts self.old self.new app (Receive pipe) (got result) }
        ensures given { IfOk result
            (λ number. IsGiven self.old.whole.bus.numbers_given number) }
        ensures unowned { owns self.old.whole.bus.pipes app pipe ≡ false →
            self.new ≡ with_tick self.old CounterName.Recv }
        ensures bag_refused { owns self.old.whole.bus.pipes app pipe ≡ false →
            held.new ≡ held.old }
        ensures loans { KeepsLoans self.old self.new pipe }
        ensures descs { KeepsAllDescs self.old self.new }
        ensures bag { KeepsBag self.old self.new app held.old held.new }
        ensures other_bags { KeepsOtherBags self.old self.new app }
        ensures buffers { held.new ≡ record held.old { views = held.new.views } }
        ensures cost { steps.new ≤ steps.old + 32 }
    {
        // Do nothing; the proof learns of them that no two applications have one pipe, that each
        // message has a number that was given, and, here and below, which blocks are out.
        self.store.recall_order();
        self.store.recall_sends();
        self.store.recall_held();
        let Some(received) = self.store.receive_if_owned(app, pipe, held, steps) else {
            self.refuse(CounterName::Recv);
            return Err(SbStatus::BadArgument);
        };
        // No more is in use than before, so no peak is looked at.
        self.store.recall_held();
        let Some(number) = received else {
            return Err(SbStatus::NoMessage);
        };
        Ok(number)
    }

    /// [`PlainBus::pend`] if blocks of the caller's may be lent out of its bag. Its views are
    /// all there.
    ///
    /// # Errors
    /// Those of [`PlainBus::pend`].
    pub fn pend_lending<L: Ledger>(
        &mut self,
        app: AppNo,
        pipe: u32,
        held: &mut Held<'r>,
        steps: &mut Steps<L>,
    ) -> Result<Pended, SbStatus>
        requires may { MayAct self.old app (Pend pipe) }
        requires views { HasOwnViews self.old app held.old }
        ensures does { Acts self.old self.new app (Pend pipe) (pended result) }
        ensures given { (number : ℕ) → result ≡ Ok (Pended.Got number) →
            IsGiven self.old.whole.bus.numbers_given number }
        ensures unowned { owns self.old.whole.bus.pipes app pipe ≡ false →
            self.new ≡ with_tick self.old CounterName.Recv }
        ensures bag_refused { OnErr result (held.new ≡ held.old) }
        ensures loans { KeepsLoans self.old self.new pipe }
        ensures descs { KeepsAllDescs self.old self.new }
        ensures bag { KeepsBag self.old self.new app held.old held.new }
        ensures other_bags { KeepsOtherBags self.old self.new app }
        ensures buffers { held.new ≡ record held.old { views = held.new.views } }
        ensures cost { steps.new ≤ steps.old + 32 }
    {
        if let Some(status) = self.unowned_cause(app, pipe) {
            self.refuse(CounterName::Recv);
            return Err(status);
        }
        // Does nothing; the proof learns of it that no two applications have one pipe.
        self.store.recall_order();
        let answer = self.pended(app, pipe);
        self.store.receive(app, pipe, held, steps);
        set_waiting(&mut self.activities, app, pipe, &answer);
        see(&mut self.records, &self.store);
        Ok(answer)
    }

    /// [`PlainBus::look`] if blocks of the caller's may be lent out of its bag. Its views are
    /// all there.
    pub fn look_lending(&mut self, app: AppNo, pipe: u32, held: &mut Held<'r>) -> Pended
        requires may { MayAct self.old app (Look pipe) }
        requires views { HasOwnViews self.old app held.old }
        ensures does { Acts self.old self.new app (Look pipe) (waited result) }
        ensures given { (number : ℕ) → result ≡ Pended.Got number →
            IsGiven self.old.whole.bus.numbers_given number }
        ensures still { result ≡ Pended.Pending → self.new ≡ self.old }
        ensures bag_still { result ≡ Pended.Pending → held.new ≡ held.old }
        ensures loans { KeepsLoans self.old self.new pipe }
        ensures descs { KeepsAllDescs self.old self.new }
        ensures bag { KeepsBag self.old self.new app held.old held.new }
        ensures other_bags { KeepsOtherBags self.old self.new app }
        ensures buffers { held.new ≡ record held.old { views = held.new.views } }
    {
        let answer = self.pended(app, pipe);
        if answer.is_pending() {
            return answer;
        }
        // Does nothing; the proof learns of it that no two applications have one pipe.
        self.store.recall_order();
        self.store.receive_first(app, pipe, held);
        self.activities[(app.get() - 1) as usize] = Activity::Active;
        see(&mut self.records, &self.store);
        answer
    }

    /// [`PlainBus::delete_pipe`] if blocks of the caller's may be lent out of its bag. Its views
    /// are all there.
    ///
    /// # Errors
    /// Those of [`PlainBus::delete_pipe`].
    pub fn delete_pipe_lending<L: Ledger>(
        &mut self,
        app: AppNo,
        pipe: u32,
        held: &mut Held<'r>,
        steps: &mut Steps<L>,
    ) -> Result<(), SbStatus>
        requires may { MayAct self.old app (Delete pipe) }
        requires views { HasOwnViews self.old app held.old }
        ensures does { Acts self.old self.new app (Delete pipe) (done result) }
        ensures unowned { owns self.old.whole.bus.pipes app pipe ≡ false →
            self.new ≡ with_tick self.old CounterName.Create }
        ensures bag_refused { OnErr result (held.new ≡ held.old) }
        ensures loans { KeepsLoans self.old self.new pipe }
        ensures descs { KeepsAllDescs self.old self.new }
        ensures bag { KeepsBag self.old self.new app held.old held.new }
        ensures other_bags { KeepsOtherBags self.old self.new app }
        ensures buffers { held.new ≡ record held.old { views = held.new.views } }
    {
        if let Some(status) = self.unowned_cause(app, pipe) {
            self.refuse(CounterName::Create);
            return Err(status);
        }
        // Does nothing; the proof learns of it that no two applications have one pipe.
        self.store.recall_order();
        self.store.delete_pipe(app, pipe, held, steps);
        see(&mut self.records, &self.store);
        Ok(())
    }
}
