//! Receives, and receives that wait. Nothing blocks here: an application that would wait is told
//! so, and looks again in its next turn.
ghost use Rattle.std.specs.Prelude.{◌≡◌, ℕ, ◌≤◌, ◌+◌, ◌-◌, false, Ok, length, slice_set, slice_index_or, if◌then◌else◌, OnErr, ◌≢◌, true, ◌&&◌, ◌||◌, IfOk};
ghost use Rattle.std.specs.List.{list_all, list_any};
ghost use Rattle.bus_words.specs.declared.history.Call.TheVariants.{Pend, Look, Receive};
ghost use Rattle.bus_words.specs.Bus.{owns, standing_of, waited_on};
ghost use Rattle.bus_words.specs.declared.calls.BusAnswer.TheVariants.{Pending};
ghost use Rattle.bus_words.specs.Machine.{pended_answer};
ghost use Rattle.bus_messages.specs.Blocks.{IsGiven};
ghost use Rattle.bus_core.specs.Answers.{pended, waited, is_pending, got};
ghost use Rattle.bus_core.specs.Core.{MayAct, Acts, apps_in, with_tick};
ghost use Rattle.bus_core.specs.News.{has_news, has_message, is_waiting};
ghost use Rattle.bus_core.specs.Rows.{idle_in, standing_in};
ghost use Rattle.bus_core.specs.Bags.{HasBag, KeepsOtherBags, KeepsLoans, KeepsAllDescs};

use crate::activities::Activity;
use crate::plain::PlainBus;
use buf_desc::Held;
use bus_messages::BusStore;
use fsw_base::{AppNo, SbStatus};
use housekeeping::CounterName;
use step_count::{Ledger, Steps};

/// What a receive that may wait was answered.
#[derive(Clone, Copy, Debug, PartialEq, Eq)]
pub enum Pended {
    /// The number of the message received.
    Got(u64),
    /// No message waits, and every other application has ended or waits on an empty pipe.
    TimeOut,
    /// No message waits yet. The application waits on the pipe and may only look again, or end.
    Pending,
}

impl Pended {
    /// Whether the application is to wait.
    pub fn is_pending(&self) -> bool
        ensures { result ≡ is_pending self.now }
    {
        matches!(self, Pended::Pending)
    }
}

impl<'r> PlainBus<'r> {
    /// Takes the oldest message that waits on the caller's pipe, and answers its number: its view
    /// is put into the caller's bag. The last message received from the pipe is let go, also if
    /// none waits: its view is taken out of the bag, and if no other pipe names it, its block
    /// goes back to the pool. At most 32 steps.
    ///
    /// # Errors
    /// `BadArgument` for a pipe that isn't live or isn't the caller's, which is counted;
    /// `NoMessage` if none waits. The first that applies.
    pub fn receive<L: Ledger>(
        &mut self,
        app: AppNo,
        pipe: u32,
        held: &mut Held<'r>,
        steps: &mut Steps<L>,
    ) -> Result<u64, SbStatus>
        requires may { MayAct self.old app (Receive pipe) }
        requires bag { HasBag self.old app held.old }
        ensures does { Acts self.old self.new app (Receive pipe) (got result) }
        ensures given { IfOk result
            (λ number. IsGiven self.old.whole.bus.numbers_given number) }
        ensures unowned { owns self.old.whole.bus.pipes app pipe ≡ false →
            self.new ≡ with_tick self.old CounterName.Recv }
        ensures bag_refused { owns self.old.whole.bus.pipes app pipe ≡ false →
            held.new ≡ held.old }
        ensures loans { KeepsLoans self.old self.new pipe }
        ensures descs { KeepsAllDescs self.old self.new }
        ensures bag { HasBag self.new app held.new }
        ensures other_bags { KeepsOtherBags self.old self.new app }
        ensures buffers { held.new ≡ record held.old { views = held.new.views } }
        ensures cost { steps.new ≤ steps.old + 32 }
    {
        self.receive_lending(app, pipe, held, steps)
    }

    /// Takes the oldest message that waits on the caller's pipe, and answers its number: its view
    /// is put into the caller's bag. If none waits, it is a time-out if every other application
    /// has ended or waits on an empty pipe; otherwise the caller waits on the pipe from then on and
    /// looks again by [`PlainBus::look`]. The last message received from the pipe is let go in each
    /// case: its view is taken out of the bag, and if no other pipe names it, its block goes
    /// back to the pool. At most 32 steps.
    ///
    /// # Errors
    /// `BadArgument` for a pipe that isn't live or isn't the caller's; it is counted.
    pub fn pend<L: Ledger>(
        &mut self,
        app: AppNo,
        pipe: u32,
        held: &mut Held<'r>,
        steps: &mut Steps<L>,
    ) -> Result<Pended, SbStatus>
        requires may { MayAct self.old app (Pend pipe) }
        requires bag { HasBag self.old app held.old }
        ensures does { Acts self.old self.new app (Pend pipe) (pended result) }
        ensures given { (number : ℕ) → result ≡ Ok (Pended.Got number) →
            IsGiven self.old.whole.bus.numbers_given number }
        ensures unowned { owns self.old.whole.bus.pipes app pipe ≡ false →
            self.new ≡ with_tick self.old CounterName.Recv }
        ensures bag_refused { OnErr result (held.new ≡ held.old) }
        ensures loans { KeepsLoans self.old self.new pipe }
        ensures descs { KeepsAllDescs self.old self.new }
        ensures bag { HasBag self.new app held.new }
        ensures other_bags { KeepsOtherBags self.old self.new app }
        ensures buffers { held.new ≡ record held.old { views = held.new.views } }
        ensures cost { steps.new ≤ steps.old + 32 }
    {
        self.pend_lending(app, pipe, held, steps)
    }

    /// The pipe that the application waits on; 0, which no pipe has, if it doesn't wait.
    pub fn pipe_waited_on(&self, app: AppNo) -> u32
        requires { app ≤ apps_in self.now }
        ensures { result ≡ waited_on (standing_of self.now.whole.bus app) }
    {
        waited_pipe(activity_of(&self.activities, app))
    }

    /// Looks again for a message on this pipe, which the caller waits on
    /// ([`PlainBus::pipe_waited_on`]). The view of a message is put into the caller's bag. With a
    /// message or a time-out the caller makes calls again. If it still waits, nothing changes.
    /// Nothing is let go: the pipe has no last message since the caller waits on it.
    pub fn look(&mut self, app: AppNo, pipe: u32, held: &mut Held<'r>) -> Pended
        requires may { MayAct self.old app (Look pipe) }
        requires bag { HasBag self.old app held.old }
        ensures does { Acts self.old self.new app (Look pipe) (waited result) }
        ensures given { (number : ℕ) → result ≡ Pended.Got number →
            IsGiven self.old.whole.bus.numbers_given number }
        ensures still { result ≡ Pended.Pending → self.new ≡ self.old }
        ensures bag_still { result ≡ Pended.Pending → held.new ≡ held.old }
        ensures loans { KeepsLoans self.old self.new pipe }
        ensures descs { KeepsAllDescs self.old self.new }
        ensures bag { HasBag self.new app held.new }
        ensures other_bags { KeepsOtherBags self.old self.new app }
        ensures buffers { held.new ≡ record held.old { views = held.new.views } }
    {
        self.look_lending(app, pipe, held)
    }

    /// Whether a waiting application would be answered if it looked now: with a message on its
    /// pipe, or with a time-out, since every application has ended or waits on an empty pipe. If
    /// this is false, each look would be in vain. For services that wake sleepers.
    pub fn has_news(&self) -> bool
        ensures told { result ≡ has_news self.now.whole.bus }
        ensures none { result ≡ false → (app : ℕ)
            → is_waiting (standing_of self.now.whole.bus app) ≡ true
            → pended_answer self.now.whole.bus app (waited_on (standing_of self.now.whole.bus app))
            ≡ Pending }
        ensures some { result ≡ true → (app : ℕ)
            × (is_waiting (standing_of self.now.whole.bus app) ≡ true)
            × (pended_answer self.now.whole.bus app
            (waited_on (standing_of self.now.whole.bus app)) ≢ Pending) }
    {
        is_anyone_served(&self.activities, &self.store)
    }

    /// What a receive on the pipe that may wait is answered.
    pub(crate) fn pended(&self, app: AppNo, pipe: u32) -> Pended
        requires { app ≤ apps_in self.now }
        ensures answer { waited result ≡ pended_answer self.now.whole.bus app pipe }
        ensures given { (number : ℕ) → result ≡ Pended.Got number →
            IsGiven self.now.whole.bus.numbers_given number }
    {
        // Does nothing; the proof learns of it that each message has a number that was given.
        self.store.recall_sends();
        if let Some(number) = self.store.oldest(pipe) {
            return Pended::Got(number);
        }
        if are_others_idle(&self.activities, &self.store, app) {
            return Pended::TimeOut;
        }
        Pended::Pending
    }
}

// Whether every application but this one has ended or waits on an empty pipe.
fn are_others_idle(activities: &[Activity], store: &BusStore<'_>, app: AppNo) -> bool
    requires { app ≤ length activities.now }
    ensures { result ≡
        list_all (idle_in store.now.pipes) (slice_set activities.now (app - 1) Activity.Ended) }
{
    let own = (app.get() - 1) as usize;
    let before = are_idle(&activities[..own], store);
    let behind = are_idle(&activities[own + 1..], store);
    before && behind
}

// Whether a waiting application would be answered: with a message on its pipe, or with a time-out,
// since every application is idle.
fn is_anyone_served(activities: &[Activity], store: &BusStore<'_>) -> bool
    ensures { result ≡ (list_any (λ activity. has_message store.now.pipes (standing_in activity))
        activities.now
        || (list_any (λ activity. is_waiting (standing_in activity)) activities.now
        && list_all (idle_in store.now.pipes) activities.now)) }
{
    let served = is_message_awaited(activities, store);
    let waiting = is_anyone_waiting(activities);
    served || (waiting && are_idle(activities, store))
}

// Whether an application waits on a pipe that has a message.
fn is_message_awaited(activities: &[Activity], store: &BusStore<'_>) -> bool
    ensures { result ≡
        list_any (λ activity. has_message store.now.pipes (standing_in activity)) activities.now }
{
    activities
        .iter()
        .any(|activity| has_message(activity, store))
}

// Whether an application waits.
fn is_anyone_waiting(activities: &[Activity]) -> bool
    ensures { result ≡ list_any (λ activity. is_waiting (standing_in activity)) activities.now }
{
    activities.iter().any(|activity| is_waiting(activity))
}

/// What the application does.
pub(crate) fn activity_of(activities: &[Activity], app: AppNo) -> Activity
    requires { app ≤ length activities.now }
    ensures activity { result ≡ slice_index_or activities.now (app - 1) Activity.Ended }
    ensures first { 1 ≤ app }
{
    activities[(app.get() - 1) as usize]
}

// Whether each of these applications has ended or waits on an empty pipe.
fn are_idle(activities: &[Activity], store: &BusStore<'_>) -> bool
    ensures { result ≡ list_all (idle_in store.now.pipes) activities.now }
{
    activities.iter().all(|activity| is_idle(activity, store))
}

// Whether the application has ended or waits on an empty pipe.
fn is_idle(activity: &Activity, store: &BusStore<'_>) -> bool
    ensures { result ≡ idle_in store.now.pipes activity.now }
{
    match activity {
        Activity::Active => false,
        Activity::Waiting(pipe) => store.oldest(*pipe).is_none(),
        Activity::Ended => true,
    }
}

// Whether the application waits.
fn is_waiting(activity: &Activity) -> bool
    ensures { result ≡ is_waiting (standing_in activity.now) }
{
    matches!(activity, Activity::Waiting(_))
}

// Whether the application waits on a pipe that has a message.
fn has_message(activity: &Activity, store: &BusStore<'_>) -> bool
    ensures { result ≡ has_message store.now.pipes (standing_in activity.now) }
{
    is_waiting(activity) && !is_idle(activity, store)
}

/// Has the application wait on the pipe if it was told so.
pub(crate) fn set_waiting(activities: &mut Vec<Activity>, app: AppNo, pipe: u32, answer: &Pended)
    requires { app ≤ length activities.old.items }
    ensures { activities.new.items ≡
        (if is_pending answer.now
        then slice_set activities.old.items (app - 1) (Activity.Waiting pipe)
        else activities.old.items) }
{
    if answer.is_pending() {
        activities[(app.get() - 1) as usize] = Activity::Waiting(pipe);
    }
}

// The pipe that the application waits on.
fn waited_pipe(activity: Activity) -> u32
    ensures { result ≡ waited_on (standing_in activity) }
{
    match activity {
        Activity::Waiting(pipe) => pipe,
        Activity::Active | Activity::Ended => 0,
    }
}
