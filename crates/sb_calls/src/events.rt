//! The calls of event services (cFE Event Services): an application is registered with its filters,
//! sends events, and sees to the log that they stand in. Each is the core's call and one entry of
//! the journal. Of calls of the bus the bus itself tells events, which go the same way.
ghost use Rattle.std.specs.Prelude.{◌≡◌};
ghost use Rattle.bus_words.specs.Machine.{desk_after};
ghost use Rattle.sb_calls.specs.Bags.{KeepsBags};
ghost use Rattle.sb_calls.specs.Core.{MayCall, Does, apps_of, state_of};
ghost use Rattle.bus_core.specs.Answers.{event_told};

use crate::answers::of_event;
use crate::journalled::BusCore;
use bus_words::{BusAnswer, BusCall, BusEntry, Call, events_are_told};
use evs_events::EventDesk;
use fsw_base::{AppNo, EventKind, EvsStatus, FilterList};
use lend_block::Note;

impl<'r> BusCore<'r> {
    /// Registers the caller with the event services (`CFE_EVS_Register`). It has these filters from
    /// then on, in place of any that it had, and each counts from 0.
    pub fn evs_register(&mut self, app: AppNo, filters: &FilterList)
        requires may { MayCall self.old app (Call.Register filters.now) }
        ensures does { Does self.old self.new app (Call.Register filters.now) BusAnswer.Done }
        ensures bags { KeepsBags self.old self.new }
    {
        self.core.evs_register(app, filters);
        let entry = BusEntry {
            app,
            call: BusCall::Register {
                filters: filters.again(),
            },
            answer: BusAnswer::Done,
        };
        self.noted.push(&entry, Note::Nothing);
    }

    /// Sends an event (`CFE_EVS_SendEvent`): if none of the caller's filters keeps it back, it
    /// goes into the log with the first 122 bytes of its text. An event that is kept back is
    /// answered as one that isn't. The call stands in the journal with all of the text, at most 200
    /// bytes.
    ///
    /// # Errors
    /// `AppNotRegistered` if the caller isn't registered.
    pub fn send_event(
        &mut self,
        app: AppNo,
        id: u16,
        kind: EventKind,
        text: &[u8],
    ) -> Result<(), EvsStatus>
        requires may { MayCall self.old app (Call.SendEvent id kind text.now) }
        ensures does { Does self.old self.new app (Call.SendEvent id kind text.now)
            (event_told result) }
        ensures bags { KeepsBags self.old self.new }
    {
        let result = self.core.send_event(app, id, kind, text);
        let entry = BusEntry {
            app,
            call: BusCall::SendEvent { id, kind, text },
            answer: of_event(&result),
        };
        self.noted.push(&entry, Note::Nothing);
        result
    }

    /// Has the caller's filter for an event id count from 0 again (`CFE_EVS_ResetFilter`).
    ///
    /// # Errors
    /// `AppNotRegistered` if the caller isn't registered; `EvtNotRegistered` if it has no
    /// filter for the id. The first that applies.
    pub fn reset_filter(&mut self, app: AppNo, id: u16) -> Result<(), EvsStatus>
        requires may { MayCall self.old app (Call.ResetFilter id) }
        ensures does { Does self.old self.new app (Call.ResetFilter id) (event_told result) }
        ensures bags { KeepsBags self.old self.new }
    {
        let result = self.core.reset_filter(app, id);
        let entry = BusEntry {
            app,
            call: BusCall::ResetFilter { id },
            answer: of_event(&result),
        };
        self.noted.push(&entry, Note::Nothing);
        result
    }

    /// Sets what a full log drops from then on: with 0 its oldest event, with 1 the new one. There
    /// is no other mode.
    pub fn set_log_mode(&mut self, app: AppNo, mode: u8)
        requires may { MayCall self.old app (Call.LogMode mode) }
        ensures does { Does self.old self.new app (Call.LogMode mode) BusAnswer.Done }
        ensures bags { KeepsBags self.old self.new }
    {
        self.core.set_log_mode(app, mode);
        let entry = BusEntry {
            app,
            call: BusCall::LogMode { mode },
            answer: BusAnswer::Done,
        };
        self.noted.push(&entry, Note::Nothing);
    }

    /// Empties the log. Its mode and all counts stay.
    pub fn clear_log(&mut self, app: AppNo)
        requires may { MayCall self.old app Call.ClearLog }
        ensures does { Does self.old self.new app Call.ClearLog BusAnswer.Done }
        ensures bags { KeepsBags self.old self.new }
    {
        self.core.clear_log(app);
        let entry = BusEntry {
            app,
            call: BusCall::ClearLog,
            answer: BusAnswer::Done,
        };
        self.noted.push(&entry, Note::Nothing);
    }

    /// The event desk: who is registered with which filters, the log, and what was counted of
    /// events. It is the one that the journal tells.
    pub fn events(&self) -> &EventDesk
        ensures desk { result.now ≡ (state_of self.now).events }
        ensures told { result.now ≡
            desk_after self.now.limits (apps_of self.now) self.now.log.entries }
    {
        // Does nothing; the proof learns of it that the journal tells the desk.
        events_are_told();
        self.core.events()
    }
}
