//! Whether a call may be made now, as a port tells it.
ghost use Rattle.std.specs.Prelude.{◌≡◌, ◌↔◌, ◌&&◌, false, not, nat_le, IsTrue};
ghost use Rattle.bus_words.specs.Bus.{standing_of, waited_on};
ghost use Rattle.bus_words.specs.Entries.{call_of, call_bytes};
ghost use Rattle.bus_words.specs.declared.history.Call.TheVariants.{Look};
ghost use Rattle.sb_calls.specs.Core.{MayCall, is_within, state_of};
ghost use Rattle.bus_service.specs.Inside.{lets};
ghost use Rattle.bus_service.specs.Ports.{is_look};

use crate::ports::BusPort;
use bus_words::{Allowance, BusCall};
use fsw_base::{MAX_MESSAGE_BYTES, MAX_NAME_BYTES, MAX_TEXT_BYTES};

/// What an application may still add to the journal, and which calls it may make that bring no
/// bytes.
#[derive(Clone, Copy)]
pub struct Permits {
    /// What it may still add.
    pub(crate) left: Allowance,
    /// Any, but for looks and its last one.
    pub(crate) any: bool,
    /// Its last one.
    pub(crate) last: bool,
}

impl BusPort<'_> {
    /// Whether the application may make this call now, which is the condition of the call, beside
    /// that of an allocation on its bag: it is active (for its end, it hasn't ended), it has an
    /// entry and the call's bytes left, and a name has at most 64 bytes, a message at most 65542,
    /// an event's text at most 200, and a log mode is 0 or 1. A buffer's transmission is asked for
    /// with the bytes that the bag has of the buffer, none if it has no such buffer. Of a look
    /// it says no, whatever the application does: [`BusPort::may_look`] tells of that. Told without
    /// the lock.
    pub fn may_make(&self, call: &BusCall<'_>) -> bool
        ensures may { IsTrue result → MayCall self.now.seen self.now.app (call_of call.now) }
        ensures otherwise { is_look (call_of call.now) ≡ false →
            MayCall self.now.seen self.now.app (call_of call.now) → IsTrue result }
    {
        is_permitted(*self.port.permits(), call)
    }

    /// Whether the application may look now: it waits on a pipe, and has an entry left. Told
    /// without the lock.
    pub fn may_look(&self) -> bool
        ensures { IsTrue result ↔ MayCall self.now.seen self.now.app
            (Look (waited_on (standing_of (state_of self.now.seen) self.now.app))) }
    {
        is_waiting(*self.port.permits())
    }
}

// Whether an application with these permits waits on a pipe: it may end, and make no other call.
fn is_waiting(permits: Permits) -> bool
    ensures { result ≡ (not permits.any && permits.last) }
{
    !permits.any && permits.last
}

// Whether an application with these permits may make the call.
fn is_permitted(permits: Permits, call: &BusCall<'_>) -> bool
    ensures { result ≡
        (lets permits (call_of call.now) &&
        nat_le (call_bytes (call_of call.now)) permits.left.bytes &&
        is_within (call_of call.now)) }
{
    let open = is_open(permits, call);
    let bytes = call.byte_count();
    let short = is_within(call);
    open && bytes <= permits.left.bytes as usize && short
}

// Whether these permits let the application make the call.
fn is_open(permits: Permits, call: &BusCall<'_>) -> bool
    ensures { result ≡ lets permits (call_of call.now) }
{
    match call {
        BusCall::Look { .. } => false,
        BusCall::End => permits.last,
        _ => permits.any,
    }
}

// Whether the call's name, message or event's text is short enough, and its log mode is one.
fn is_within(call: &BusCall<'_>) -> bool
    ensures { result ≡ is_within (call_of call.now) }
{
    match call {
        BusCall::Create { name, .. } => name.len() <= MAX_NAME_BYTES,
        BusCall::Find { name } => name.len() <= MAX_NAME_BYTES,
        BusCall::Transmit { bytes, .. } => bytes.len() <= MAX_MESSAGE_BYTES as usize,
        BusCall::SendEvent { text, .. } => text.len() <= MAX_TEXT_BYTES,
        BusCall::LogMode { mode } => *mode <= 1,
        _ => true,
    }
}
