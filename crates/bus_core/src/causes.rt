//! Why a call is refused: the first cause that applies, in the order of the bus machine
//! (`bus_words`).
ghost use Rattle.std.specs.Prelude.{◌≡◌, None, ◌==◌, ◌||◌, ◌&&◌, not, nat_lt, nat_le, length, is_some, ◌≤◌};
ghost use Rattle.ccsds_msg.specs.Message.{fault, is_valid_id};
ghost use Rattle.bus_words.specs.Bus.{all_bits, is_subscribed, owns};
ghost use Rattle.bus_words.specs.Machine.{refused_if, create_cause, subscribe_cause, unsubscribe_cause, unowned_cause, set_opts_cause, transmit_cause, allocate_cause};
ghost use Rattle.bus_routes.specs.Rows.{has_way};

use crate::plain::PlainBus;
use bus_messages::BusStore;
use bus_words::NAME_BYTES;
use ccsds_msg::{id_of, read_header};
use fsw_base::{AppNo, MAX_ID, SbStatus};

impl<'r> PlainBus<'r> {
    /// Why the pipe can't be created.
    pub(crate) fn create_cause(&self, depth: u32, name: &[u8]) -> Option<SbStatus>
        ensures { result ≡ create_cause self.now.limits self.now.whole.bus depth name.now }
    {
        if is_bad_pipe(depth, self.config.depth, name) {
            return Some(SbStatus::BadArgument);
        }
        if self.store.pipes_len() >= self.config.pipes as usize {
            return Some(SbStatus::MaxPipesMet);
        }
        if self.store.find(name).is_some() {
            return Some(SbStatus::PipeCrErr);
        }
        None
    }

    /// Why the pipe can't be subscribed to the id; `there` says whether it is already.
    pub(crate) fn subscribe_cause(
        &self,
        app: AppNo,
        id: u16,
        pipe: u32,
        there: bool,
    ) -> Option<SbStatus>
        requires { there ≡ is_subscribed self.now.whole.bus.subscriptions id pipe }
        ensures { result ≡ subscribe_cause self.now.limits self.now.whole.bus app id pipe }
    {
        if is_bad_subscription(&self.store, app, id, pipe) {
            return Some(SbStatus::BadArgument);
        }
        if there {
            return None;
        }
        if lacks_route(&self.store, id, self.config.msgids) {
            return Some(SbStatus::MaxMsgsMet);
        }
        if self.store.dests_of(id) >= self.config.dests {
            return Some(SbStatus::MaxDestsMet);
        }
        None
    }

    /// Why the pipe's subscription to the id can't be ended.
    pub(crate) fn unsubscribe_cause(&self, app: AppNo, id: u16, pipe: u32) -> Option<SbStatus>
        ensures { result ≡ unsubscribe_cause self.now.whole.bus app id pipe }
    {
        bad_argument_if(is_bad_subscription(&self.store, app, id, pipe))
    }

    /// Why the pipe isn't the application's to end or to receive on.
    pub(crate) fn unowned_cause(&self, app: AppNo, pipe: u32) -> Option<SbStatus>
        ensures { result ≡ unowned_cause self.now.whole.bus app pipe }
    {
        bad_argument_if(!self.store.owns(app, pipe))
    }

    /// Why the pipe's option bits can't be set to these.
    pub(crate) fn set_opts_cause(&self, app: AppNo, pipe: u32, bits: u8) -> Option<SbStatus>
        ensures { result ≡ set_opts_cause self.now.limits self.now.whole.bus app pipe bits }
    {
        bad_argument_if(is_bad_option(&self.store, app, pipe, bits, self.config.version))
    }

    /// Why a buffer of this size can't be given.
    pub(crate) fn allocate_cause(&self, size: u32) -> Option<SbStatus>
        ensures { result ≡ allocate_cause self.now.limits self.now.whole.bus size }
    {
        if size < 7 {
            return Some(SbStatus::BadArgument);
        }
        if size > self.config.msgmax {
            return Some(SbStatus::MsgTooBig);
        }
        // Does nothing; the proof learns of it which blocks are out.
        self.store.recall_held();
        if !self.store.fits(size) {
            return Some(SbStatus::BufAlocErr);
        }
        None
    }

    /// Why the bytes can't be sent.
    #[inline(always)]
    pub(crate) fn transmit_cause(&self, bytes: &[u8]) -> Option<SbStatus>
        requires { length bytes.now ≤ 65542 }
        ensures { result ≡ transmit_cause self.now.limits self.now.whole.bus bytes.now }
    {
        if !is_message(bytes) {
            return Some(SbStatus::BadArgument);
        }
        if bytes.len() > self.config.msgmax as usize {
            return Some(SbStatus::MsgTooBig);
        }
        if self.store.dests_of(id_of(bytes)) == 0 {
            return None;
        }
        // Does nothing; the proof learns of it which blocks are out.
        self.store.recall_held();
        if !self.store.fits(bytes.len() as u32) {
            return Some(SbStatus::BufAlocErr);
        }
        None
    }
}

// The one refusal if the test is true.
fn bad_argument_if(test: bool) -> Option<SbStatus>
    ensures { result ≡ refused_if test SbStatus.BadArgument None }
{
    if test {
        return Some(SbStatus::BadArgument);
    }
    None
}

// Whether the depth or the name is out of its range.
fn is_bad_pipe(depth: u32, greatest: u32, name: &[u8]) -> bool
    ensures { result ≡
        (depth == 0 || nat_lt greatest depth || length name.now == 0 ||
        nat_lt 19 (length name.now)) }
{
    depth == 0 || depth > greatest || name.is_empty() || name.len() > NAME_BYTES
}

// Whether the pipe isn't the application's, or a bit is no option of this version.
fn is_bad_option(store: &BusStore<'_>, app: AppNo, pipe: u32, bits: u8, version: u32) -> bool
    ensures { result ≡ (not (owns store.now.pipes app pipe) || nat_lt (all_bits version) bits) }
{
    !store.owns(app, pipe) || bits > all_bits(version)
}

// The option bits that a version has, added up.
fn all_bits(version: u32) -> u8
    ensures { result ≡ all_bits version }
{
    if version == 2 { 3 } else { 1 }
}

// Whether the id is out of its range, or the pipe isn't the application's.
fn is_bad_subscription(store: &BusStore<'_>, app: AppNo, id: u16, pipe: u32) -> bool
    ensures { result ≡ (not (is_valid_id id) || not (owns store.now.pipes app pipe)) }
{
    !is_valid_id(id) || !store.owns(app, pipe)
}

// Whether the id has no route if as many ids have one as may.
fn lacks_route(store: &BusStore<'_>, id: u16, most: u32) -> bool
    ensures { result ≡
        (not (has_way store.now.routes id) && nat_le most (length store.now.routes)) }
{
    !store.has_route(id) && store.routes_len() >= most
}

// Whether it is a message id, 1 to 0x1FFF (CCSDS 133.0-B, 4.1.3.2 and 4.1.3.3).
fn is_valid_id(id: u16) -> bool
    ensures { result ≡ is_valid_id id }
{
    1 <= id && id <= MAX_ID
}

// Whether the bytes are one whole message.
fn is_message(bytes: &[u8]) -> bool
    requires { length bytes.now ≤ 65542 }
    ensures { result ≡ not (is_some (fault bytes.now)) }
{
    read_header(bytes).is_ok()
}
