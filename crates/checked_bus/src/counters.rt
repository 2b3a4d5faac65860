//! The calls of counters.
ghost use Rattle.std.specs.Prelude.{◌≡◌, ◌<◌, ℕ, false, Err, IfOk, OnErr, IsTrue};
ghost use Rattle.std.specs.Result.{result_err};
ghost use Rattle.bus_words.specs.declared.history.Call.TheVariants.{Housekeeping, Figures};
ghost use Rattle.bus_words.specs.declared.calls.BusAnswer.TheVariants.{Bus};
ghost use Rattle.bus_words.specs.Held.{in_use};
ghost use Rattle.bus_core.specs.Core.{Acts, with_tick, has_send_number};
ghost use Rattle.bus_core.specs.Answers.{sent};
ghost use Rattle.checked_bus.specs.Asked.{unasked};

use crate::boxed::SbBox;
use crate::refusal::Refusal;
use bus_core::Sent;
use bus_words::BusCall;
use fsw_base::{BusStats, SbStatus};
use housekeeping::{CounterName, Counters, InUse};
use step_count::{Blank, Ledger, Steps};

impl<'r> SbBox<'r> {
    /// Sends the housekeeping packet, as [`PlainBus::send_housekeeping`].
    ///
    /// # Errors
    /// Those of [`PlainBus::send_housekeeping`]; a [`Refusal`] if the bus wasn't asked.
    pub fn send_housekeeping<L: Ledger>(
        &mut self,
        app: u32,
        blank: Blank,
    ) -> Result<Result<Sent, SbStatus>, Refusal>
        requires name { blank.name ≡ L.name }
        requires parts { blank.parts ≡ L.parts }
        requires some_part { 0 < blank.parts }
        ensures unasked { result_err result ≡ unasked self.old.core app Housekeeping }
        ensures nothing { OnErr result (self.new ≡ self.old) }
        ensures does { IfOk result
            (λ answer. IsTrue (has_send_number self.old.core.whole.bus) →
            Acts self.old.core self.new.core app Housekeeping (sent answer)) }
        ensures spent { IfOk result
            (λ answer. has_send_number self.old.core.whole.bus ≡ false →
            answer ≡ Err SbStatus.BufAlocErr) }
        ensures refused { IfOk result
            (λ answer. OnErr answer (self.new.core ≡ with_tick self.old.core CounterName.Send)) }
        ensures bags { self.new.bags ≡ self.old.bags }
    {
        let caller = self.caller_for(app, &BusCall::Housekeeping)?;
        let mut steps = Steps::<L>::new(blank);
        Ok(self.core.send_housekeeping(caller, &mut steps))
    }

    /// Answers the figures of the bus, as [`PlainBus::bus_stats`].
    pub fn bus_stats(&self) -> BusStats
        ensures { (app : ℕ) → Acts self.now.core self.now.core app Figures (Bus result) }
    {
        self.core.bus_stats()
    }

    /// The counters, and the peaks of what was in use.
    pub fn counters(&self) -> &Counters
        ensures { result.now ≡ self.now.core.whole.bus.statistics }
    {
        self.core.counters()
    }

    /// What is in use now.
    pub fn in_use(&self) -> InUse
        ensures { result ≡ in_use self.now.core.limits self.now.core.whole.bus }
    {
        self.core.in_use()
    }
}
