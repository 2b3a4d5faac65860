//! The calls of messages.
ghost use Rattle.std.specs.Prelude.{◌≡◌, ◌<◌, false, true, length, None, Some, Err, IfOk, OnErr, IsTrue};
ghost use Rattle.std.specs.Option.{option_map};
ghost use Rattle.std.specs.Result.{result_err};
ghost use Rattle.bus_words.specs.declared.history.Call.TheVariants.{Transmit, Receive};
ghost use Rattle.bus_core.specs.Core.{Acts, with_tick, has_send_number};
ghost use Rattle.bus_core.specs.Answers.{sent};
ghost use Rattle.bus_core.specs.Bags.{KeepsLoans};
ghost use Rattle.checked_bus.specs.Answers.{received};
ghost use Rattle.checked_bus.specs.Asked.{is_application, unasked};
ghost use Rattle.checked_bus.specs.Box.{KeepsOtherBags, KeepsOwnBuffers, last_message};

use crate::boxed::SbBox;
use crate::received_message::ReceivedMessage;
use crate::refusal::Refusal;
use bus_core::Sent;
use bus_words::BusCall;
use fsw_base::SbStatus;
use housekeeping::CounterName;
use step_count::{Blank, Ledger, Steps};

impl<'r> SbBox<'r> {
    /// Sends a message, as [`PlainBus::transmit`].
    ///
    /// # Errors
    /// Those of [`PlainBus::transmit`]; a [`Refusal`] if the bus wasn't asked.
    pub fn transmit<L: Ledger>(
        &mut self,
        app: u32,
        bytes: &[u8],
        inc: bool,
        blank: Blank,
    ) -> Result<Result<Sent, SbStatus>, Refusal>
        requires name { blank.name ≡ L.name }
        requires parts { blank.parts ≡ L.parts }
        requires some_part { 0 < blank.parts }
        ensures unasked { result_err result ≡ unasked self.old.core app (Transmit bytes.now inc) }
        ensures nothing { OnErr result (self.new ≡ self.old) }
        ensures does { IfOk result
            (λ answer. IsTrue (has_send_number self.old.core.whole.bus) →
            Acts self.old.core self.new.core app (Transmit bytes.now inc) (sent answer)) }
        ensures spent { IfOk result
            (λ answer. has_send_number self.old.core.whole.bus ≡ false →
            answer ≡ Err SbStatus.BufAlocErr) }
        ensures refused { IfOk result
            (λ answer. OnErr answer (self.new.core ≡ with_tick self.old.core CounterName.Send)) }
        ensures bags { self.new.bags ≡ self.old.bags }
    {
        let caller = self.caller_for(app, &BusCall::Transmit { bytes, inc })?;
        let mut steps = Steps::<L>::new(blank);
        Ok(self.core.transmit(caller, bytes, inc, &mut steps))
    }

    /// Receives a message, as [`PlainBus::receive`], and answers where its bytes lie. They stay
    /// there until the application receives on the pipe again, deletes it, or ends.
    ///
    /// # Errors
    /// Those of [`PlainBus::receive`]; a [`Refusal`] if the bus wasn't asked.
    pub fn receive<L: Ledger>(
        &mut self,
        app: u32,
        pipe: u32,
        blank: Blank,
    ) -> Result<Result<ReceivedMessage, SbStatus>, Refusal>
        requires name { blank.name ≡ L.name }
        requires parts { blank.parts ≡ L.parts }
        requires some_part { 0 < blank.parts }
        ensures unasked { result_err result ≡ unasked self.old.core app (Receive pipe) }
        ensures nothing { OnErr result (self.new ≡ self.old) }
        ensures does { IfOk result
            (λ answer. Acts self.old.core self.new.core app (Receive pipe) (received answer)) }
        ensures others { IfOk result (λ answer. KeepsOtherBags self.old self.new app) }
        ensures buffers { IfOk result (λ answer. KeepsOwnBuffers self.old self.new app) }
        ensures loans { IfOk result (λ answer. KeepsLoans self.old.core self.new.core pipe) }
        ensures application { IfOk result (λ answer. is_application self.new.core app ≡ true) }
        ensures shown { IfOk result
            (λ answer. IfOk answer
            (λ it. Some it.len ≡
            option_map (λ bytes. length bytes) (last_message self.new.core app pipe))) }
    {
        let caller = self.caller_for(app, &BusCall::Receive { pipe })?;
        let mut steps = Steps::<L>::new(blank);
        let bag = &mut self.bags[(caller.get() - 1) as usize];
        Ok(bag.receive(&mut self.core, caller, pipe, &mut steps))
    }

    /// The message that the application received last on a pipe of its own. Its bytes stay if
    /// they lie until the application receives on the pipe again, deletes it, or ends. None if
    /// it received none, if the pipe isn't live or is another application's, and if the bus
    /// serves no such application.
    pub fn message(&self, app: u32, pipe: u32) -> Option<&[u8]>
        ensures known { is_application self.now.core app ≡ true →
            option_map (λ bytes. bytes.now) result ≡ last_message self.now.core app pipe }
        ensures unknown { is_application self.now.core app ≡ false → result ≡ None }
    {
        let Ok(caller) = self.caller(app) else {
            return None;
        };
        let bag = &self.bags[(caller.get() - 1) as usize];
        match bag.view_of(pipe) {
            Some(view) => Some(view.bytes()),
            None => None,
        }
    }
}
