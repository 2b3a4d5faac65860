//! Whether a call may be made now.
ghost use Rattle.std.specs.Prelude.{◌≡◌, ◌↔◌, ◌≤◌, ℕ, Bool, List, IsTrue};
ghost use Rattle.bus_words.specs.Bus.{standing_of};
ghost use Rattle.bus_words.specs.declared.history.Call.TheVariants.{TransmitBuffer, Release, PoolPut, Figures};
ghost use Rattle.bus_words.specs.Entries.{call_of};
ghost use Rattle.bus_words.specs.Machine.{may_call};
ghost use Rattle.bus_core.specs.Core.{MayAct, apps_in, is_within, has_pipe_number, has_subscription_number, has_send_number};
ghost use Rattle.bus_core.specs.Rows.{standing_in};

use crate::activities::Activity;
use crate::plain::PlainBus;
use crate::receiving::activity_of;
use bus_words::BusCall;
use fsw_base::{AppNo, MAX_MESSAGE_BYTES, MAX_NAME_BYTES, MAX_TEXT_BYTES};

impl<'r> PlainBus<'r> {
    /// How many applications it serves.
    pub fn apps(&self) -> usize
        ensures { result ≡ apps_in self.now }
    {
        self.activities.len()
    }

    /// Whether the application's standing lets it make this call: a look while it waits on that
    /// pipe, its end while it hasn't ended, every other call while it is active.
    pub fn is_open(&self, app: AppNo, call: &BusCall<'_>) -> bool
        requires { app ≤ apps_in self.now }
        ensures { result ≡ may_call (standing_of self.now.whole.bus app) (call_of call.now) }
    {
        is_open(activity_of(&self.activities, app), call)
    }

    /// Whether the application may make this call now. The bus serves it; it is active (for a look,
    /// it waits on that pipe; for its end, it hasn't ended); a name has at most 64 bytes, a message
    /// at most 65542, an event's text at most 200; a log mode is 0 or 1.
    ///
    /// The call may have further conditions: on the caller's bag, and that a number is left
    /// ([`PlainBus::has_pipe_number`], [`PlainBus::has_subscription_number`]).
    pub fn may_make(&self, app: AppNo, call: &BusCall<'_>) -> bool
        ensures { IsTrue result ↔ MayAct self.now app (call_of call.now) }
    {
        if app.get() as usize > self.apps() {
            return false;
        }
        self.is_open(app, call) && is_within(call)
    }

    /// Whether the bus serves the application and it is active. Then it may make each call that
    /// names a buffer or a grant, also by a number too large for a [`BusCall`].
    pub fn is_active(&self, app: AppNo) -> bool
        ensures active { IsTrue result ↔ MayAct self.now app Figures }
        ensures transmit { IsTrue result → (buf : ℕ) (bytes : List ℕ) (inc : Bool) →
            MayAct self.now app (TransmitBuffer buf bytes inc) }
        ensures release { IsTrue result → (buf : ℕ) → MayAct self.now app (Release buf) }
        ensures put { IsTrue result → (pool grant : ℕ) →
            MayAct self.now app (PoolPut pool grant) }
    {
        self.may_make(app, &BusCall::Figures)
    }

    /// Whether a number is left for one pipe more, which is a condition of `create_pipe`:
    /// 4294967295 pipes can be created.
    pub fn has_pipe_number(&self) -> bool
        ensures { result ≡ has_pipe_number self.now.whole.bus }
    {
        self.store.pipes_created() < u32::MAX
    }

    /// Whether a number is left for one subscription more, which is a condition of `subscribe`:
    /// 4294967295 subscriptions can be made.
    pub fn has_subscription_number(&self) -> bool
        ensures { result ≡ has_subscription_number self.now.whole.bus }
    {
        self.store.subscriptions_made() < u32::MAX
    }

    /// Whether a number is left for one send or buffer more: 2^64 - 1 can be numbered. If none
    /// is left, each further one is refused, as if the bus's pool has no block.
    pub fn has_send_number(&self) -> bool
        ensures { result ≡ has_send_number self.now.whole.bus }
    {
        self.store.numbers_given() < u64::MAX
    }
}

/// Whether the call's name, message or event's text is short enough, and its log mode is one, which
/// is a condition of the call: at most 64 bytes, 65542 and 200, and 0 or 1.
pub fn is_within(call: &BusCall<'_>) -> bool
    ensures { result ≡ is_within (call_of call.now) }
{
    match call {
        BusCall::Create { name, .. } => name.len() <= MAX_NAME_BYTES,
        BusCall::Find { name } => name.len() <= MAX_NAME_BYTES,
        BusCall::Transmit { bytes, .. } => bytes.len() <= MAX_MESSAGE_BYTES as usize,
        BusCall::SendEvent { text, .. } => text.len() <= MAX_TEXT_BYTES,
        BusCall::LogMode { mode } => *mode <= 1,
        _ => true,
    }
}

// Whether an application that does this may make the call.
fn is_open(activity: Activity, call: &BusCall<'_>) -> bool
    ensures { result ≡ may_call (standing_in activity) (call_of call.now) }
{
    match (activity, call) {
        (Activity::Active, BusCall::Look { .. }) => false,
        (Activity::Active, _) => true,
        (Activity::Waiting(pipe), BusCall::Look { pipe: other }) => pipe == *other,
        (Activity::Waiting(_), BusCall::End) => true,
        (Activity::Waiting(_), _) => false,
        (Activity::Ended, _) => false,
    }
}
