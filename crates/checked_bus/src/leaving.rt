//! The last call of an application.
ghost use Rattle.std.specs.Prelude.{◌≡◌, ◌<◌, ◌≤◌, [], length, IfOk, OnErr};
ghost use Rattle.std.specs.Result.{result_err};
ghost use Rattle.bus_words.specs.declared.history.Call.TheVariants.{End};
ghost use Rattle.bus_words.specs.declared.calls.BusAnswer.TheVariants.{Done};
ghost use Rattle.bus_core.specs.Core.{Acts, MayAct};
ghost use Rattle.checked_bus.specs.Asked.{unasked_end};
ghost use Rattle.checked_bus.specs.Box.{KeepsOtherBags, bag_of};

use crate::boxed::SbBox;
use crate::refusal::Refusal;
use bus_words::BusCall;
use fsw_base::AppNo;
use step_count::{Blank, Ledger, Steps};

impl<'r> SbBox<'r> {
    /// Whether the application may end now.
    ///
    /// # Errors
    /// A [`Refusal`] if it may not.
    pub fn may_end(&self, app: u32) -> Result<(), Refusal>
        ensures { result_err result ≡ unasked_end self.now app }
    {
        self.ending_caller(app)?;
        Ok(())
    }

    /// The application's last call, as [`PlainBus::end`]. It has no buffer out.
    ///
    /// # Errors
    /// A [`Refusal`] if the bus wasn't asked.
    pub fn end<L: Ledger>(&mut self, app: u32, blank: Blank) -> Result<(), Refusal>
        requires name { blank.name ≡ L.name }
        requires parts { blank.parts ≡ L.parts }
        requires some_part { 0 < blank.parts }
        ensures unasked { result_err result ≡ unasked_end self.old app }
        ensures nothing { OnErr result (self.new ≡ self.old) }
        ensures does { IfOk result
            (λ answer. Acts self.old.core self.new.core app End Done) }
        ensures others { IfOk result (λ answer. KeepsOtherBags self.old self.new app) }
        ensures empty { IfOk result
            (λ answer. bag_of self.new app ≡
            record (bag_of self.old app) { views = []; buffers = [] }) }
    {
        let caller = self.ending_caller(app)?;
        let bag = &mut self.bags[(caller.get() - 1) as usize];
        let mut steps = Steps::<L>::new(blank);
        bag.end(&mut self.core, caller, &mut steps);
        Ok(())
    }

    // The caller of an end that the bus may be asked.
    fn ending_caller(&self, app: u32) -> Result<AppNo, Refusal>
        ensures why { result_err result ≡ unasked_end self.now app }
        ensures value { IfOk result (λ caller. caller ≡ app) }
        ensures first { IfOk result (λ caller. 1 ≤ caller) }
        ensures may { IfOk result (λ caller. MayAct self.now.core caller End) }
        ensures none { IfOk result (λ caller. (bag_of self.now caller).buffers ≡ []) }
    {
        let caller = self.caller_for(app, &BusCall::End)?;
        if self.bags[(caller.get() - 1) as usize].has_buffers() {
            return Err(Refusal::BufferOut);
        }
        Ok(caller)
    }
}
