//! The event desk.
ghost use Rattle.std.specs.Prelude.{◌≡◌, ℕ, ◌-◌, ◌<◌, ◌≤◌, true, List, length, slice_get, Some, IfOk};
ghost use Rattle.std.specs.Result.{result_err};
ghost use Rattle.fsw_base.specs.EventDesk.{Desk, new_desk, registered, unregistered, passed, sent, served, send_refusal, reset_refusal, reset, refused_once, with_mode, cleared};
ghost use Rattle.fsw_base.specs.declared.events.EventKind.{EventKind};
ghost use Rattle.evs_events.specs.Views.{drops_next, line_shown, counts_of};

use crate::counts::EventCounts;
use crate::filters::Registration;
use crate::line::{LogLine, MAX_TEXT};
use crate::log::{EventLog, LOG_LINES, LogMode};
use fsw_base::{AppNo, EventKind, EvsStatus, FilterList, MAX_APPS};
use std::alloc::{AllocError, Global};
use std::marker::Model;

// A place for each application.
const APPS: usize = MAX_APPS as usize;

/// The registrations, the log and the counts of one Event Services.
///
/// By the code, no call but [`EventDesk::new`] takes memory, and a call looks at the filters of its
/// own application alone, at most [`fsw_base::MAX_FILTERS`].
pub struct EventDesk {
    // By application, number 1 first; None if it isn't registered.
    registrations: [Option<Registration>; APPS],
    // The events that passed.
    log: EventLog,
    // The counts, as `EventCounts` has them.
    sent: u32,
    // Events that a filter held back.
    filtered: u32,
    // Events whose text was cut.
    cut: u32,
    // Calls that were refused.
    refused: u32,
    // Events that a full log lost, or lines that it dropped.
    lost: u32,
}

impl Drop for EventDesk {
    fn drop(self) {
        let EventDesk {
            registrations: _registrations,
            log: _log,
            sent: _sent,
            filtered: _filtered,
            cut: _cut,
            refused: _refused,
            lost: _lost,
        } = self;
    }
}

impl Model for EventDesk {
    ghost use Rattle.fsw_base.specs.EventDesk.{Desk};

    ghost Value = { Desk };

    ghost view = { λ d.
        record {
          registrations = d.registrations;
          log = d.log;
          sent = d.sent;
          filtered = d.filtered;
          cut = d.cut;
          refused = d.refused;
          lost = d.lost;
        } };
}

impl EventDesk {
    /// A desk at which nobody is registered, with an empty log in mode 1. It takes the memory of
    /// all log lines; AllocError if there isn't enough.
    ///
    /// # Errors
    /// `AllocError` if memory runs out.
    pub fn new(alloc: Global) -> Result<EventDesk, AllocError>
        ensures { IfOk result (λ desk. desk ≡ new_desk) }
    {
        let log = EventLog::new(alloc)?;
        Ok(EventDesk {
            registrations: Default::default(),
            log,
            sent: 0,
            filtered: 0,
            cut: 0,
            refused: 0,
            lost: 0,
        })
    }

    /// Registers an application with these filters, whose counts start at 0, in place of those that
    /// it registered before.
    pub fn register(&mut self, app: AppNo, filters: &FilterList)
        ensures { self.new ≡ registered self.old app filters.now }
    {
        self.registrations[place_of(app)] = Some(Registration::new(filters));
    }

    /// Ends an application's registration, if there is one.
    pub fn unregister(&mut self, app: AppNo)
        ensures { self.new ≡ unregistered self.old app }
    {
        self.registrations[place_of(app)] = None;
    }

    /// Sends an event of an application. It passes if the filter for its id lets it through, or
    /// none is for its id: then it is logged, with the first [`MAX_TEXT`] bytes of its text, which
    /// may have any length. Passed or not, the filter counts it.
    ///
    /// # Errors
    /// AppNotRegistered if and only if the application isn't registered; the refusal is counted.
    #[tactic(auto, unfolding(fsw_base::specs::EventDesk::sent))]
    pub fn send(
        &mut self,
        app: AppNo,
        id: u16,
        kind: EventKind,
        text: &[u8],
    ) -> Result<(), EvsStatus>
        ensures refusal { result_err result ≡ send_refusal self.old app }
        ensures desk { self.new ≡ sent self.old app id kind text.now }
    {
        let Some(registration) = &mut self.registrations[place_of(app)] else {
            return Err(self.refuse(EvsStatus::AppNotRegistered));
        };
        let passes = registration.passes(id);
        registration.count(id);
        if passes {
            self.pass(app.get(), id, kind, text);
        } else {
            self.filtered = self.filtered.saturating_add(1);
        }
        Ok(())
    }

    /// Logs and counts an event of a service, which has application number 0 and is never filtered.
    pub fn service(&mut self, id: u16, kind: EventKind, text: &[u8])
        ensures { self.new ≡ served self.old id kind text.now }
    {
        self.pass(0, id, kind, text);
    }

    /// Whether the log drops the line of the next event that passes: it is full, and in mode 1.
    pub fn drops_next(&self) -> bool
        ensures { result ≡ drops_next self.now.log }
    {
        self.log.drops_next()
    }

    /// Counts an event of a service whose line the log drops, whichever it is: as
    /// [`EventDesk::service`] does, if the event's text has at most [`MAX_TEXT`] bytes, and
    /// without it.
    #[tactic(auto, unfolding(fsw_base::specs::EventDesk::passed))]
    pub fn service_dropped(&mut self)
        requires { drops_next self.old.log ≡ true }
        ensures { (id : ℕ) (kind : EventKind) (text : List ℕ) →
            length text ≤ MAX_TEXT → self.new ≡ served self.old id kind text }
    {
        self.sent = self.sent.saturating_add(1);
        self.lost = self.lost.saturating_add(1);
    }

    /// Sets the count of an application's filter for this event id to 0.
    ///
    /// # Errors
    /// AppNotRegistered if and only if the application isn't registered; else EvtNotRegistered
    /// if and only if none of its filters is for this id. A refusal is counted.
    #[tactic(auto, unfolding(fsw_base::specs::EventDesk::reset))]
    pub fn reset_filter(&mut self, app: AppNo, id: u16) -> Result<(), EvsStatus>
        ensures refusal { result_err result ≡ reset_refusal self.old app id }
        ensures desk { self.new ≡ reset self.old app id }
    {
        let Some(registration) = &mut self.registrations[place_of(app)] else {
            return Err(self.refuse(EvsStatus::AppNotRegistered));
        };
        if !registration.has_filter(id) {
            return Err(self.refuse(EvsStatus::EvtNotRegistered));
        }
        registration.restart(id);
        Ok(())
    }

    /// Why an event of the application would be refused; None if it wouldn't. Counts nothing.
    pub fn send_refusal(&self, app: AppNo) -> Option<EvsStatus>
        ensures { result ≡ send_refusal self.now app }
    {
        match &self.registrations[place_of(app)] {
            None => Some(EvsStatus::AppNotRegistered),
            Some(_) => None,
        }
    }

    /// Why a reset of the application's filter for this event id would be refused; None if it
    /// wouldn't. Counts nothing.
    pub fn reset_refusal(&self, app: AppNo, id: u16) -> Option<EvsStatus>
        ensures { result ≡ reset_refusal self.now app id }
    {
        match &self.registrations[place_of(app)] {
            None => Some(EvsStatus::AppNotRegistered),
            Some(registration) if registration.has_filter(id) => None,
            Some(_) => Some(EvsStatus::EvtNotRegistered),
        }
    }

    /// Sets the log's mode: from now on a full log drops its oldest line in mode 0, and the new one
    /// in mode 1. The lines stay.
    pub fn set_log_mode(&mut self, mode: u8)
        requires { mode ≤ 1 }
        ensures { self.new ≡ with_mode self.old mode }
    {
        self.log.set_mode(LogMode::new(mode));
    }

    /// Empties the log. No count changes.
    pub fn clear_log(&mut self)
        ensures { self.new ≡ cleared self.old }
    {
        self.log.clear();
    }

    /// How many lines the log has, at most [`LOG_LINES`].
    pub fn log_len(&self) -> u32
        ensures len { result ≡ length self.now.log.lines }
        ensures few { result ≤ LOG_LINES }
    {
        self.log.len()
    }

    /// The log's line at a place; places count from 0, the oldest line first.
    pub fn log_at(&self, i: u32) -> LogLine<'_>
        requires { i < length self.now.log.lines }
        ensures line { slice_get self.now.log.lines i ≡ Some (line_shown result) }
        ensures short { length result.text.now ≤ MAX_TEXT }
    {
        self.log.at(i)
    }

    /// The counts and the log's mode.
    pub fn counts(&self) -> EventCounts
        ensures counts { result ≡ counts_of self.now }
        ensures mode { self.now.log.mode ≤ 1 }
    {
        EventCounts {
            sent: self.sent,
            filtered: self.filtered,
            cut: self.cut,
            refused: self.refused,
            lost: self.lost,
            mode: self.log.mode().number(),
        }
    }

    // Counts a refused call, and answers why it was refused.
    fn refuse(&mut self, status: EvsStatus) -> EvsStatus
        ensures status { result ≡ status }
        ensures desk { self.new ≡ refused_once self.old }
    {
        self.refused = self.refused.saturating_add(1);
        status
    }

    // Logs and counts an event that passes.
    #[tactic(auto, unfolding(fsw_base::specs::EventDesk::passed))]
    fn pass(&mut self, app: u32, id: u16, kind: EventKind, text: &[u8])
        ensures { self.new ≡ passed self.old app id kind text.now }
    {
        self.sent = self.sent.saturating_add(1);
        if text.len() > MAX_TEXT {
            self.cut = self.cut.saturating_add(1);
        }
        if self.log.keep(app, id, kind, text) {
            self.lost = self.lost.saturating_add(1);
        }
    }
}

// The place of an application in the registrations.
fn place_of(app: AppNo) -> usize
    ensures place { result ≡ app - 1 }
    ensures within { result < APPS }
{
    app.get() as usize - 1
}
