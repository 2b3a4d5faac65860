//! The calls of the event services (cFE Event Services): registrations with their filters, events
//! of applications, and the log.
ghost use Rattle.std.specs.Prelude.{◌≡◌};
ghost use Rattle.bus_words.specs.declared.calls.BusAnswer.TheVariants.{Done};
ghost use Rattle.bus_words.specs.declared.history.Call.TheVariants.{Register, SendEvent, ResetFilter, LogMode, ClearLog};
ghost use Rattle.bus_core.specs.Core.{MayAct, Acts};
ghost use Rattle.bus_core.specs.Answers.{event_told};
ghost use Rattle.bus_core.specs.Bags.{KeepsBags, KeepsAllLoans, KeepsAllDescs};

use crate::plain::PlainBus;
use evs_events::EventDesk;
use fsw_base::{AppNo, EventKind, EvsStatus, FilterList};

impl<'r> PlainBus<'r> {
    /// Registers the caller for events with these filters, whose counts start at 0, in place of
    /// those that it registered before.
    pub fn evs_register(&mut self, app: AppNo, filters: &FilterList)
        requires may { MayAct self.old app (Register filters.now) }
        ensures does { Acts self.old self.new app (Register filters.now) Done }
        ensures bags { KeepsBags self.old self.new }
        ensures loans { KeepsAllLoans self.old self.new }
        ensures descs { KeepsAllDescs self.old self.new }
    {
        self.records.register(app, filters);
    }

    /// Sends an event of the caller, with a text of at most 200 bytes. It is logged, with the first
    /// 122 bytes of its text, if the caller's filter for its id lets it through or none is for
    /// its id. Passed or not, the filter counts it.
    ///
    /// # Errors
    /// `AppNotRegistered` if the caller isn't registered; the desk counts the refusal.
    pub fn send_event(
        &mut self,
        app: AppNo,
        id: u16,
        kind: EventKind,
        text: &[u8],
    ) -> Result<(), EvsStatus>
        requires may { MayAct self.old app (SendEvent id kind text.now) }
        ensures does { Acts self.old self.new app (SendEvent id kind text.now)
            (event_told result) }
        ensures bags { KeepsBags self.old self.new }
        ensures loans { KeepsAllLoans self.old self.new }
        ensures descs { KeepsAllDescs self.old self.new }
    {
        self.records.send_event(app, id, kind, text)
    }

    /// Has the caller's filter for an event id count from 0 again.
    ///
    /// # Errors
    /// `AppNotRegistered` if the caller isn't registered; `EvtNotRegistered` if none of its
    /// filters is for this id. The first that applies; the desk counts the refusal.
    pub fn reset_filter(&mut self, app: AppNo, id: u16) -> Result<(), EvsStatus>
        requires may { MayAct self.old app (ResetFilter id) }
        ensures does { Acts self.old self.new app (ResetFilter id) (event_told result) }
        ensures bags { KeepsBags self.old self.new }
        ensures loans { KeepsAllLoans self.old self.new }
        ensures descs { KeepsAllDescs self.old self.new }
    {
        self.records.reset_filter(app, id)
    }

    /// Sets the log's mode: from now on a full log drops its oldest line in mode 0, and the new one
    /// in mode 1.
    pub fn set_log_mode(&mut self, app: AppNo, mode: u8)
        requires may { MayAct self.old app (LogMode mode) }
        ensures does { Acts self.old self.new app (LogMode mode) Done }
        ensures bags { KeepsBags self.old self.new }
        ensures loans { KeepsAllLoans self.old self.new }
        ensures descs { KeepsAllDescs self.old self.new }
    {
        self.records.set_log_mode(mode);
    }

    /// Empties the log. No count changes.
    pub fn clear_log(&mut self, app: AppNo)
        requires may { MayAct self.old app ClearLog }
        ensures does { Acts self.old self.new app ClearLog Done }
        ensures bags { KeepsBags self.old self.new }
        ensures loans { KeepsAllLoans self.old self.new }
        ensures descs { KeepsAllDescs self.old self.new }
    {
        self.records.clear_log();
    }

    /// The event desk: the log with what became of events, in numbers.
    pub fn events(&self) -> &EventDesk
        ensures { result.now ≡ self.now.whole.bus.events }
    {
        self.records.desk()
    }
}
