//! The event desk and the counters once a call was answered.
ghost use Rattle.std.specs.Prelude.{◌≡◌, fold, IsTrue};
ghost use Rattle.std.specs.Option.{option_to_list};
ghost use Rattle.housekeeping.specs.Counters.{ticked};
ghost use Rattle.bus_events.specs.Events.{served_event, served_all};
ghost use Rattle.bus_words.specs.declared.calls.BusAnswer.TheVariants.{Sb};
ghost use Rattle.bus_words.specs.Counters.{event_counter, refusal_counter, statistics_by};
ghost use Rattle.bus_words.specs.Entries.{call_of};
ghost use Rattle.bus_words.specs.Events.{desk_by};
ghost use Rattle.bus_words.specs.Held.{in_use};
ghost use Rattle.list_bus.specs.Decided.{all_counted, with_desk, with_statistics};
ghost use Rattle.list_bus.specs.Played.{IsPlayed, is_playable};

use crate::bus::ListBus;
use bus_events::ServiceEvent;
use bus_words::{BusAnswer, BusCall};
use evs_events::EventDesk;
use fsw_base::{AppNo, SbStatus};
use housekeeping::{CounterName, Counters};

impl ListBus {
    /// The event desk changes by a call that has these events.
    pub(crate) fn change_desk(&mut self, app: AppNo, call: &BusCall<'_>, events: &[ServiceEvent])
        requires { IsTrue (is_playable (call_of call.now)) }
        ensures { self.new ≡
            with_desk self.old
            (desk_by self.old.whole.bus.events app (call_of call.now) events.now) }
    {
        change_desk(&mut self.desk, app, call, events);
    }

    /// The counters and the peaks change by a call so answered that has these events.
    #[tactic(auto, unfolding(bus_words::specs::Counters::statistics_by))]
    pub(crate) fn count(&mut self, call: &BusCall<'_>, answer: &BusAnswer, events: &[ServiceEvent])
        requires { IsPlayed self.old }
        ensures { self.new ≡
            with_statistics self.old
            (statistics_by self.old.whole.bus.statistics (call_of call.now) answer.now events.now
            (in_use self.old.limits self.old.whole.bus)) }
    {
        let now = self.in_use();
        count_refusal(&mut self.counters, call, answer);
        count_events(&mut self.counters, events);
        self.counters.seen(now);
    }
}

// The event desk changes by a call that has these events.
#[tactic(auto, unfolding(bus_words::specs::Events::desk_by))]
fn change_desk(desk: &mut EventDesk, app: AppNo, call: &BusCall<'_>, events: &[ServiceEvent])
    requires { IsTrue (is_playable (call_of call.now)) }
    ensures { desk.new ≡ desk_by desk.old app (call_of call.now) events.now }
{
    match call {
        BusCall::Register { filters } => desk.register(app, filters),
        BusCall::SendEvent { id, kind, text } => {
            let _ = desk.send(app, *id, *kind, text);
        }
        BusCall::ResetFilter { id } => {
            let _ = desk.reset_filter(app, *id);
        }
        BusCall::LogMode { mode } => desk.set_log_mode(*mode),
        BusCall::ClearLog => desk.clear_log(),
        BusCall::End => desk.unregister(app),
        _ => serve_all(desk, events),
    }
}

// The desk is served these events, in order.
fn serve_all(desk: &mut EventDesk, events: &[ServiceEvent])
    ensures { desk.new ≡ served_all desk.old events.now }
{
    for event in events {
        serve(desk, event);
    }
}

// The desk is served an event.
fn serve(desk: &mut EventDesk, event: &ServiceEvent)
    ensures { desk.new ≡ served_event desk.old event.now }
{
    let text = event.text();
    desk.service(event.number(), event.kind(), text.as_slice());
}

// The counters that these events raise go up.
fn count_events(counters: &mut Counters, events: &[ServiceEvent])
    ensures { counters.new ≡
        record counters.old { counts = all_counted counters.old.counts events.now } }
{
    for event in events {
        count_event(counters, event);
    }
}

// The counter that an event raises goes up; that a pair wasn't subscribed raises none.
fn count_event(counters: &mut Counters, event: &ServiceEvent)
    ensures { counters.new ≡
        record counters.old {
          counts = fold ticked counters.old.counts (event_counter event.now);
        } }
{
    match event {
        ServiceEvent::DuplicateSubscription { .. } => counters.tick(CounterName::Dup),
        ServiceEvent::NotSubscribed { .. } => {}
        ServiceEvent::NoSubscribers { .. } => counters.tick(CounterName::Nosub),
        ServiceEvent::MessageLimit { .. } => counters.tick(CounterName::Limit),
        ServiceEvent::PipeOverflow { .. } => counters.tick(CounterName::Overflow),
        ServiceEvent::OldestDropped { .. } => counters.tick(CounterName::Oldest),
    }
}

// The counter that a refused call raises goes up.
fn count_refusal(counters: &mut Counters, call: &BusCall<'_>, answer: &BusAnswer)
    ensures { counters.new ≡
        record counters.old {
          counts = fold ticked counters.old.counts
              (refusal_counter (call_of call.now) answer.now);
        } }
{
    if let BusAnswer::Sb(status) = answer {
        if let Some(name) = refusal_counter(call, *status) {
            counters.tick(name);
        }
    }
}

// The counter that a call raises that is refused for this reason; a receive that found no message
// raises none.
fn refusal_counter(call: &BusCall<'_>, status: SbStatus) -> Option<CounterName>
    ensures { option_to_list result ≡ refusal_counter (call_of call.now) (Sb status) }
{
    match (call, status) {
        (BusCall::Create { .. } | BusCall::Delete { .. }, _) => Some(CounterName::Create),
        (BusCall::SetOpts { .. } | BusCall::GetOpts { .. }, _) => Some(CounterName::Opts),
        (BusCall::Find { .. } | BusCall::PipeName { .. }, _) => Some(CounterName::Find),
        (BusCall::Subscribe { .. } | BusCall::Unsubscribe { .. }, _) => Some(CounterName::Sub),
        (BusCall::Receive { .. } | BusCall::Pend { .. }, SbStatus::BadArgument) => {
            Some(CounterName::Recv)
        }
        (BusCall::Transmit { .. } | BusCall::TransmitBuffer { .. }, _) => Some(CounterName::Send),
        (BusCall::Allocate { .. } | BusCall::Release { .. }, _) => Some(CounterName::Send),
        (BusCall::Housekeeping, _) => Some(CounterName::Send),
        _ => None,
    }
}
