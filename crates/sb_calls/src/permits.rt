//! Whether a call may be made now.
ghost use Rattle.std.specs.Prelude.{◌≡◌, ◌↔◌, ◌&&◌, nat_le, IsTrue};
ghost use Rattle.bus_words.specs.Entries.{call_of, call_bytes};
ghost use Rattle.bus_core.specs.Core.{is_within};
ghost use Rattle.sb_calls.specs.Core.{MayCall};

use crate::journalled::BusCore;
use bus_words::{Allowance, BusCall};
use fsw_base::{AppNo, MAX_MESSAGE_BYTES, MAX_NAME_BYTES, MAX_TEXT_BYTES};

impl BusCore<'_> {
    /// Whether the application may make this call now, which is the condition of the call, beside
    /// those on its bag if it takes one along (that the bag is its own and, for an allocation,
    /// that it has room for a buffer more): the core serves it, it is active (for a look, it waits
    /// on that pipe; for its end, it hasn't ended), it has an entry and the call's bytes left, and
    /// a name has at most 64 bytes, a message at most 65542, an event's text at most 200, and a log
    /// mode is 0 or 1. A buffer's transmission is asked for with the bytes that the bag has of the
    /// buffer, none if it has no such buffer.
    pub fn may_make(&self, app: AppNo, call: &BusCall<'_>) -> bool
        ensures { IsTrue result ↔ MayCall self.now app (call_of call.now) }
    {
        if app.get() > self.apps() {
            return false;
        }
        let left = self.noted.journal().left(app);
        let lets = self.core.is_open(app, call);
        is_permitted(lets, left, call)
    }
}

// Whether an application may make the call that has so much left, and whose standing lets it or
// doesn't.
fn is_permitted(lets: bool, left: Allowance, call: &BusCall<'_>) -> bool
    ensures { result ≡
        (lets && nat_le 1 left.entries && nat_le (call_bytes (call_of call.now)) left.bytes &&
        is_within (call_of call.now)) }
{
    let bytes = call.byte_count();
    let short = is_within(call);
    lets && 1 <= left.entries && bytes <= left.bytes as usize && short
}

// Whether the call's name, message or event's text is short enough, and its log mode is one.
fn is_within(call: &BusCall<'_>) -> bool
    ensures { result ≡ is_within (call_of call.now) }
{
    match call {
        BusCall::Create { name, .. } => name.len() <= MAX_NAME_BYTES,
        BusCall::Find { name } => name.len() <= MAX_NAME_BYTES,
        BusCall::Transmit { bytes, .. } => bytes.len() <= MAX_MESSAGE_BYTES as usize,
        BusCall::SendEvent { text, .. } => text.len() <= MAX_TEXT_BYTES,
        BusCall::LogMode { mode } => *mode <= 1,
        _ => true,
    }
}
