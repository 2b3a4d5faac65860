//! Receives that wait.
ghost use Rattle.std.specs.Prelude.{◌≡◌, ◌<◌, None, Some, IfOk, OnErr, if◌then◌else◌};
ghost use Rattle.std.specs.Result.{result_err};
ghost use Rattle.bus_words.specs.declared.history.Call.TheVariants.{Pend, Look};
ghost use Rattle.bus_words.specs.Bus.{standing_of, waited_on};
ghost use Rattle.bus_core.specs.Core.{Acts};
ghost use Rattle.bus_core.specs.Answers.{pended, waited};
ghost use Rattle.bus_core.specs.Bags.{KeepsLoans};
ghost use Rattle.checked_bus.specs.Asked.{is_application, unasked, unasked_look};
ghost use Rattle.checked_bus.specs.Box.{KeepsOtherBags, KeepsOwnBuffers};

use crate::boxed::SbBox;
use crate::refusal::Refusal;
use bus_core::Pended;
use bus_words::BusCall;
use fsw_base::SbStatus;
use step_count::{Blank, Ledger, Steps};

/// What a look was answered.
#[derive(Clone, Copy, Debug, PartialEq, Eq)]
pub struct LookAnswer {
    /// The pipe that the application waited on.
    pub pipe: u32,
    /// The answer.
    pub answer: Pended,
}

impl<'r> SbBox<'r> {
    /// Receives a message or waits for one, as [`PlainBus::pend`].
    ///
    /// # Errors
    /// Those of [`PlainBus::pend`]; a [`Refusal`] if the bus wasn't asked.
    pub fn pend<L: Ledger>(
        &mut self,
        app: u32,
        pipe: u32,
        blank: Blank,
    ) -> Result<Result<Pended, SbStatus>, Refusal>
        requires name { blank.name ≡ L.name }
        requires parts { blank.parts ≡ L.parts }
        requires some_part { 0 < blank.parts }
        ensures unasked { result_err result ≡ unasked self.old.core app (Pend pipe) }
        ensures nothing { OnErr result (self.new ≡ self.old) }
        ensures does { IfOk result
            (λ answer. Acts self.old.core self.new.core app (Pend pipe) (pended answer)) }
        ensures others { IfOk result (λ answer. KeepsOtherBags self.old self.new app) }
        ensures buffers { IfOk result (λ answer. KeepsOwnBuffers self.old self.new app) }
        ensures loans { IfOk result (λ answer. KeepsLoans self.old.core self.new.core pipe) }
    {
        let caller = self.caller_for(app, &BusCall::Pend { pipe })?;
        let mut steps = Steps::<L>::new(blank);
        let bag = &mut self.bags[(caller.get() - 1) as usize];
        Ok(bag.pend(&mut self.core, caller, pipe, &mut steps))
    }

    /// Looks again for a message on the pipe that the application waits on, as
    /// [`PlainBus::look`].
    ///
    /// # Errors
    /// A [`Refusal`] if the bus wasn't asked.
    pub fn look(&mut self, app: u32) -> Result<LookAnswer, Refusal>
        ensures unasked { result_err result ≡ unasked_look self.old.core app }
        ensures nothing { OnErr result (self.new ≡ self.old) }
        ensures pipe { IfOk result
            (λ looked. looked.pipe ≡ waited_on (standing_of self.old.core.whole.bus app)) }
        ensures does { IfOk result (λ looked.
            Acts self.old.core self.new.core app (Look looked.pipe) (waited looked.answer)) }
        ensures others { IfOk result (λ answer. KeepsOtherBags self.old self.new app) }
        ensures buffers { IfOk result (λ answer. KeepsOwnBuffers self.old self.new app) }
        ensures loans { IfOk result (λ looked. KeepsLoans self.old.core self.new.core looked.pipe) }
    {
        let pipe = self.pipe_waited_on(app)?;
        let caller = self.caller_for(app, &BusCall::Look { pipe })?;
        let bag = &mut self.bags[(caller.get() - 1) as usize];
        let answer = bag.look(&mut self.core, caller, pipe);
        Ok(LookAnswer { pipe, answer })
    }

    // The pipe that the application waits on; 0 if it doesn't wait.
    fn pipe_waited_on(&self, app: u32) -> Result<u32, Refusal>
        ensures why { result_err result ≡
            (if is_application self.now.core app then None else Some Refusal.NoApplication) }
        ensures pipe { IfOk result
            (λ pipe. pipe ≡ waited_on (standing_of self.now.core.whole.bus app)) }
    {
        let caller = self.caller(app)?;
        Ok(self.core.pipe_waited_on(caller))
    }
}
