//! The records of a bus.
ghost use Rattle.std.specs.Prelude.{◌≡◌, ◌≤◌, fold, IfOk, if◌then◌else◌};
ghost use Rattle.std.specs.Result.{result_err};
ghost use Rattle.fsw_base.specs.EventDesk.{registered, unregistered, sent, reset, send_refusal, reset_refusal, with_mode, cleared};
ghost use Rattle.housekeeping.specs.Counters.{ticked};
ghost use Rattle.housekeeping.specs.Packet.{housekeeping_packet};
ghost use Rattle.bus_events.specs.Events.{served_event};
ghost use Rattle.bus_words.specs.Counters.{event_counter};
ghost use Rattle.bus_words.specs.Events.{miss_event, miss_events};
ghost use Rattle.bus_counts.specs.Records.{no_recordings, told_event, told_all, counter_ticked, peaks_raised};

use bus_events::ServiceEvent;
use bus_words::{Miss, MissCause};
use evs_events::EventDesk;
use fsw_base::{AppNo, EventKind, EvsStatus, FilterList};
use housekeeping::{CounterName, Counters, InUse, PACKET_BYTES};
use std::alloc::{AllocError, Global};
use std::marker::Model;

/// The event desk, the counters and the peaks of a software bus.
pub struct Records {
    // The applications' registrations and the log, which has the bus's own events too.
    events: EventDesk,
    // How often what happened, and the peaks of what was in use.
    counters: Counters,
}

impl Drop for Records {
    fn drop(self) {
        let Records {
            events: _events,
            counters: _counters,
        } = self;
    }
}

impl Model for Records {
    ghost use Rattle.bus_counts.specs.Records.{Recordings};

    ghost Value = { Recordings };

    ghost view = { λ r. record { events = r.events; statistics = r.counters } };
}

impl Records {
    /// Records of a bus on which no call was made. They take the memory of all lines of the log.
    ///
    /// # Errors
    /// `AllocError` if memory runs out.
    pub fn new(alloc: Global) -> Result<Records, AllocError>
        ensures { IfOk result (λ records. records ≡ no_recordings) }
    {
        Ok(Records {
            events: EventDesk::new(alloc)?,
            counters: Counters::new(),
        })
    }

    /// Tells an event of the bus: the desk is served it, and its counter goes up, if it has one.
    /// No text is made for a log that drops the line.
    pub fn tell(&mut self, event: ServiceEvent)
        ensures { self.new ≡ told_event self.old event }
    {
        serve(&mut self.events, &event);
        raise(&mut self.counters, &event);
    }

    /// Logs an event for each pipe that missed a message of this id and sender, in order: by its
    /// limit, or since it was full; and for each that dropped its oldest message for it.
    pub fn tell_misses(&mut self, misses: &[Miss], id: u16, sender: AppNo)
        ensures { self.new ≡ told_all self.old (miss_events id sender misses.now) }
    {
        for miss in misses {
            self.tell_miss(miss, id, sender);
        }
    }

    // Tells of a pipe that missed a message of this id and sender.
    fn tell_miss(&mut self, miss: &Miss, id: u16, sender: AppNo)
        ensures { self.new ≡ told_event self.old (miss_event id sender miss.now) }
    {
        let event = event_of(miss, id, sender);
        if !drop_event(&mut self.events, &event) {
            log_miss(&mut self.events, miss, id, sender);
        }
        raise(&mut self.counters, &event);
    }

    /// Counts one more, of a call that was refused. A counter stops at 4294967295.
    pub fn count(&mut self, which: CounterName)
        ensures { self.new ≡ counter_ticked self.old which }
    {
        self.counters.tick(which);
    }

    /// Raises each peak that is exceeded by what is in use now.
    pub fn see(&mut self, now: InUse)
        ensures { self.new ≡ peaks_raised self.old now }
    {
        self.counters.seen(now);
    }

    /// Registers an application for events with these filters, in place of those that it registered
    /// before.
    pub fn register(&mut self, app: AppNo, filters: &FilterList)
        ensures { self.new ≡
            record self.old { events = registered self.old.events app filters.now } }
    {
        self.events.register(app, filters);
    }

    /// Ends an application's registration, if there is one.
    pub fn unregister(&mut self, app: AppNo)
        ensures { self.new ≡ record self.old { events = unregistered self.old.events app } }
    {
        self.events.unregister(app);
    }

    /// Sends an event of an application, whose text may have any length.
    ///
    /// # Errors
    /// `AppNotRegistered` if and only if the application isn't registered; the desk counts it.
    pub fn send_event(
        &mut self,
        app: AppNo,
        id: u16,
        kind: EventKind,
        text: &[u8],
    ) -> Result<(), EvsStatus>
        ensures refusal { result_err result ≡ send_refusal self.old.events app }
        ensures records { self.new ≡
            record self.old { events = sent self.old.events app id kind text.now } }
    {
        self.events.send(app, id, kind, text)
    }

    /// Sets the count of an application's filter for this event id to 0.
    ///
    /// # Errors
    /// `AppNotRegistered` if and only if the application isn't registered; else `EvtNotRegistered`
    /// if and only if none of its filters is for this id. The desk counts a refusal.
    pub fn reset_filter(&mut self, app: AppNo, id: u16) -> Result<(), EvsStatus>
        ensures refusal { result_err result ≡ reset_refusal self.old.events app id }
        ensures records { self.new ≡
            record self.old { events = reset self.old.events app id } }
    {
        self.events.reset_filter(app, id)
    }

    /// Sets the log's mode: from now on a full log drops its oldest line in mode 0, and the new one
    /// in mode 1.
    pub fn set_log_mode(&mut self, mode: u8)
        requires { mode ≤ 1 }
        ensures { self.new ≡ record self.old { events = with_mode self.old.events mode } }
    {
        self.events.set_log_mode(mode);
    }

    /// Empties the log. No count changes.
    pub fn clear_log(&mut self)
        ensures { self.new ≡ record self.old { events = cleared self.old.events } }
    {
        self.events.clear_log();
    }

    /// Writes the housekeeping packet: the counters, and what is in use now.
    pub fn packet(&self, now: InUse, out: &mut [u8; PACKET_BYTES])
        ensures { out.new ≡ housekeeping_packet self.now.statistics.counts now }
    {
        self.counters.packet(now, out);
    }

    /// The event desk.
    pub fn desk(&self) -> &EventDesk
        ensures { result.now ≡ self.now.events }
    {
        &self.events
    }

    /// The counters and the peaks.
    pub fn counters(&self) -> &Counters
        ensures { result.now ≡ self.now.statistics }
    {
        &self.counters
    }
}

// Serves the desk an event of the bus, whose text is made only if the log takes the line.
fn serve(events: &mut EventDesk, event: &ServiceEvent)
    ensures { events.new ≡ served_event events.old event.now }
{
    if !drop_event(events, event) {
        log_event(events, event);
    }
}

// Serves the desk an event if the log drops its line, and answers whether it does.
fn drop_event(events: &mut EventDesk, event: &ServiceEvent) -> bool
    ensures { events.new ≡
        (if result then served_event events.old event.now else events.old) }
{
    if !events.drops_next() {
        return false;
    }
    // Does nothing; the proof learns of it that the text would be short.
    event.recall_text();
    events.service_dropped();
    true
}

// Serves the desk an event with its text. The room for the text is made in this function alone: a
// send to a full pipe, whose event a full log drops, would take some 40 instructions more for it.
#[inline(never)]
fn log_event(events: &mut EventDesk, event: &ServiceEvent)
    ensures { events.new ≡ served_event events.old event.now }
{
    let text = event.text();
    events.service(event.number(), event.kind(), text.as_slice());
}

// Serves the desk with its text that a pipe missed a message of this id and sender. It stands apart
// so that if the log drops the line no event is made in memory.
#[inline(never)]
fn log_miss(events: &mut EventDesk, miss: &Miss, id: u16, sender: AppNo)
    ensures { events.new ≡ served_event events.old (miss_event id sender miss.now) }
{
    log_event(events, &event_of(miss, id, sender));
}

// Counts an event of the bus on its counter; that a pair wasn't subscribed has none.
fn raise(counters: &mut Counters, event: &ServiceEvent)
    ensures { counters.new ≡ record counters.old {
      counts = fold ticked counters.old.counts (event_counter event.now);
    } }
{
    match event {
        ServiceEvent::DuplicateSubscription { .. } => counters.tick(CounterName::Dup),
        ServiceEvent::NotSubscribed { .. } => {}
        ServiceEvent::NoSubscribers { .. } => counters.tick(CounterName::Nosub),
        ServiceEvent::MessageLimit { .. } => counters.tick(CounterName::Limit),
        ServiceEvent::PipeOverflow { .. } => counters.tick(CounterName::Overflow),
        ServiceEvent::OldestDropped { .. } => counters.tick(CounterName::Oldest),
    }
}

// What is told of a pipe that missed a message of this id and sender.
fn event_of(miss: &Miss, id: u16, sender: AppNo) -> ServiceEvent
    ensures { result ≡ miss_event id sender miss.now }
{
    let pipe = miss.pipe;
    match miss.cause {
        MissCause::OverLimit => ServiceEvent::MessageLimit { id, pipe, sender },
        MissCause::Full => ServiceEvent::PipeOverflow { id, pipe, sender },
        MissCause::Oldest => ServiceEvent::OldestDropped { id, pipe, sender },
    }
}
