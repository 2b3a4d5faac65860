//! The calls of events.
ghost use Rattle.std.specs.Prelude.{◌≡◌, Some, IfOk, OnErr};
ghost use Rattle.std.specs.Result.{result_err};
ghost use Rattle.bus_words.specs.declared.history.Call.TheVariants.{Register, SendEvent, ResetFilter, LogMode, ClearLog};
ghost use Rattle.fsw_base.specs.declared.events.EventKind.{EventKind as Kind};
ghost use Rattle.bus_words.specs.declared.calls.BusAnswer.TheVariants.{Done};
ghost use Rattle.bus_core.specs.Core.{Acts};
ghost use Rattle.bus_core.specs.Answers.{event_told};
ghost use Rattle.checked_bus.specs.Asked.{unasked, unasked_register, unasked_event, unasked_mode, kind_of};

use crate::boxed::SbBox;
use crate::refusal::Refusal;
use bus_words::BusCall;
use evs_events::EventDesk;
use fsw_base::{EventKind, EvsStatus, FilterList, MAX_FILTERS};

// The kind of an event of a number.
fn kind_of(number: u32) -> Option<EventKind>
    ensures { result ≡ kind_of number }
{
    match number {
        1 => Some(EventKind::Debug),
        2 => Some(EventKind::Information),
        3 => Some(EventKind::Error),
        4 => Some(EventKind::Critical),
        _ => None,
    }
}

impl<'r> SbBox<'r> {
    /// Registers the application for events with these filters, each an event id and a mask, as
    /// [`PlainBus::evs_register`].
    ///
    /// # Errors
    /// A [`Refusal`] if the bus wasn't asked.
    pub fn register(&mut self, app: u32, filters: &[(u16, u16)]) -> Result<(), Refusal>
        ensures unasked { result_err result ≡ unasked_register self.old.core app filters.now }
        ensures nothing { OnErr result (self.new ≡ self.old) }
        ensures does { IfOk result
            (λ answer. Acts self.old.core self.new.core app (Register filters.now) Done) }
        ensures bags { self.new.bags ≡ self.old.bags }
    {
        self.caller(app)?;
        if filters.len() > MAX_FILTERS {
            return Err(Refusal::TooLong);
        }
        let caller = self.active_caller(app)?;
        let Some(list) = FilterList::try_new(filters) else {
            return Err(Refusal::SameFilter);
        };
        self.core.evs_register(caller, &list);
        Ok(())
    }

    /// Sends an event of a kind 1 to 4, as [`PlainBus::send_event`].
    ///
    /// # Errors
    /// Those of [`PlainBus::send_event`]; a [`Refusal`] if the bus wasn't asked.
    pub fn send_event(
        &mut self,
        app: u32,
        id: u16,
        kind: u32,
        text: &[u8],
    ) -> Result<Result<(), EvsStatus>, Refusal>
        ensures unasked { result_err result ≡ unasked_event self.old.core app id kind text.now }
        ensures nothing { OnErr result (self.new ≡ self.old) }
        ensures does { IfOk result
            (λ answer. (known : Kind) → kind_of kind ≡ Some known →
            Acts self.old.core self.new.core app (SendEvent id known text.now)
            (event_told answer)) }
        ensures bags { self.new.bags ≡ self.old.bags }
    {
        let call = BusCall::SendEvent {
            id,
            kind: EventKind::Debug,
            text,
        };
        let caller = self.caller_for(app, &call)?;
        let Some(known) = kind_of(kind) else {
            return Err(Refusal::NoKind);
        };
        Ok(self.core.send_event(caller, id, known, text))
    }

    /// Has a filter count from 0 again, as [`PlainBus::reset_filter`].
    ///
    /// # Errors
    /// Those of [`PlainBus::reset_filter`]; a [`Refusal`] if the bus wasn't asked.
    pub fn reset_filter(&mut self, app: u32, id: u16) -> Result<Result<(), EvsStatus>, Refusal>
        ensures unasked { result_err result ≡ unasked self.old.core app (ResetFilter id) }
        ensures nothing { OnErr result (self.new ≡ self.old) }
        ensures does { IfOk result
            (λ answer. Acts self.old.core self.new.core app (ResetFilter id) (event_told answer)) }
        ensures bags { self.new.bags ≡ self.old.bags }
    {
        let caller = self.caller_for(app, &BusCall::ResetFilter { id })?;
        Ok(self.core.reset_filter(caller, id))
    }

    /// Sets what a full log drops, as [`PlainBus::set_log_mode`].
    ///
    /// # Errors
    /// A [`Refusal`] if the bus wasn't asked.
    pub fn set_log_mode(&mut self, app: u32, mode: u8) -> Result<(), Refusal>
        ensures unasked { result_err result ≡ unasked_mode self.old.core app mode }
        ensures nothing { OnErr result (self.new ≡ self.old) }
        ensures does { IfOk result
            (λ answer. Acts self.old.core self.new.core app (LogMode mode) Done) }
        ensures bags { self.new.bags ≡ self.old.bags }
    {
        let caller = self.caller_for(app, &BusCall::LogMode { mode: 0 })?;
        if mode > 1 {
            return Err(Refusal::NoMode);
        }
        self.core.set_log_mode(caller, mode);
        Ok(())
    }

    /// Empties the log, as [`PlainBus::clear_log`].
    ///
    /// # Errors
    /// A [`Refusal`] if the bus wasn't asked.
    pub fn clear_log(&mut self, app: u32) -> Result<(), Refusal>
        ensures unasked { result_err result ≡ unasked self.old.core app ClearLog }
        ensures nothing { OnErr result (self.new ≡ self.old) }
        ensures does { IfOk result
            (λ answer. Acts self.old.core self.new.core app ClearLog Done) }
        ensures bags { self.new.bags ≡ self.old.bags }
    {
        let caller = self.caller_for(app, &BusCall::ClearLog)?;
        self.core.clear_log(caller);
        Ok(())
    }

    /// The event desk: the log with what became of events, in numbers.
    pub fn events(&self) -> &EventDesk
        ensures { result.now ≡ self.now.core.whole.bus.events }
    {
        self.core.events()
    }
}
