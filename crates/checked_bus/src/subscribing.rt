//! The calls of subscriptions.
ghost use Rattle.std.specs.Prelude.{◌≡◌, ◌<◌, Some, IfOk, OnErr};
ghost use Rattle.std.specs.Result.{result_err};
ghost use Rattle.bus_words.specs.declared.history.Call.TheVariants.{Subscribe, Unsubscribe};
ghost use Rattle.fsw_base.specs.declared.config.Scope.{Scope as Reach};
ghost use Rattle.bus_core.specs.Core.{Acts};
ghost use Rattle.bus_core.specs.Answers.{done};
ghost use Rattle.checked_bus.specs.Asked.{unasked, unasked_subscribe, scope_of};

use crate::boxed::SbBox;
use crate::refusal::Refusal;
use bus_words::BusCall;
use fsw_base::{SbStatus, Scope};
use step_count::{Blank, Ledger, Steps};

// The scope of a number: 0 local, 1 global.
fn scope_of(number: u32) -> Option<Scope>
    ensures { result ≡ scope_of number }
{
    match number {
        0 => Some(Scope::Local),
        1 => Some(Scope::Global),
        _ => None,
    }
}

impl<'r> SbBox<'r> {
    /// Subscribes a pipe to a message id, as [`PlainBus::subscribe`]. The scope is 0, local, or 1,
    /// global.
    ///
    /// # Errors
    /// Those of [`PlainBus::subscribe`]; a [`Refusal`] if the bus wasn't asked.
    pub fn subscribe<L: Ledger>(
        &mut self,
        app: u32,
        id: u16,
        pipe: u32,
        limit: u32,
        scope: u32,
        blank: Blank,
    ) -> Result<Result<(), SbStatus>, Refusal>
        requires name { blank.name ≡ L.name }
        requires parts { blank.parts ≡ L.parts }
        requires some_part { 0 < blank.parts }
        ensures unasked { result_err result ≡
            unasked_subscribe self.old.core app id pipe limit scope }
        ensures nothing { OnErr result (self.new ≡ self.old) }
        ensures does { IfOk result
            (λ answer. (reach : Reach) → scope_of scope ≡ Some reach →
            Acts self.old.core self.new.core app (Subscribe id pipe limit reach) (done answer)) }
        ensures bags { self.new.bags ≡ self.old.bags }
    {
        let call = BusCall::Subscribe {
            id,
            pipe,
            limit,
            scope: Scope::Global,
        };
        let caller = self.caller_for(app, &call)?;
        let Some(reach) = scope_of(scope) else {
            return Err(Refusal::NoScope);
        };
        let mut steps = Steps::<L>::new(blank);
        Ok(
            self.core
                .subscribe(caller, id, pipe, limit, reach, &mut steps),
        )
    }

    /// Ends a subscription, as [`PlainBus::unsubscribe`].
    ///
    /// # Errors
    /// Those of [`PlainBus::unsubscribe`]; a [`Refusal`] if the bus wasn't asked.
    pub fn unsubscribe<L: Ledger>(
        &mut self,
        app: u32,
        id: u16,
        pipe: u32,
        blank: Blank,
    ) -> Result<Result<(), SbStatus>, Refusal>
        requires name { blank.name ≡ L.name }
        requires parts { blank.parts ≡ L.parts }
        requires some_part { 0 < blank.parts }
        ensures unasked { result_err result ≡ unasked self.old.core app (Unsubscribe id pipe) }
        ensures nothing { OnErr result (self.new ≡ self.old) }
        ensures does { IfOk result
            (λ answer. Acts self.old.core self.new.core app (Unsubscribe id pipe) (done answer)) }
        ensures bags { self.new.bags ≡ self.old.bags }
    {
        let caller = self.caller_for(app, &BusCall::Unsubscribe { id, pipe })?;
        let mut steps = Steps::<L>::new(blank);
        Ok(self.core.unsubscribe(caller, id, pipe, &mut steps))
    }
}
