//! Why a call is refused: its tests in the order of the definitions, each of them made.
ghost use Rattle.std.specs.Prelude.{◌≡◌, ◌==◌, ◌||◌, ◌^◌, ◌<◌, not, nat_lt, nat_le, ◌&&◌, if◌then◌else◌, length, is_some, None};
ghost use Rattle.ccsds_msg.specs.Message.{fault, front_fault, is_valid_id};
ghost use Rattle.bus_words.specs.Bus.{all_bits, is_subscribed, has_route, route};
ghost use Rattle.fsw_base.specs.PoolAccounts.{has_room};
ghost use Rattle.bus_words.specs.Held.{account_of};
ghost use Rattle.bus_words.specs.Machine.{refused_if, create_cause, unowned_cause, set_opts_cause, dead_cause, find_cause, subscribe_cause, unsubscribe_cause, transmit_cause, receive_cause, allocate_cause, transmit_buffer_cause, release_cause};
ghost use Rattle.list_bus.specs.Played.{IsPlayed};

use crate::bus::ListBus;
use bus_words::NAME_BYTES;
use ccsds_msg::{front, id_of, read_header};
use fsw_base::{AppNo, MAX_ID, SbStatus};
use list_pipes::{has_message, is_live, is_named, owns};

impl ListBus {
    /// Why a pipe can't be created.
    pub(crate) fn create_cause(&self, depth: u32, name: &[u8]) -> Option<SbStatus>
        requires { IsPlayed self.now }
        ensures { result ≡ create_cause self.now.limits self.now.whole.bus depth name.now }
    {
        let is_taken = is_named(self.messages.pipes(), name);
        let is_full = at_least(self.config.pipes, self.messages.pipe_count());
        let taken = refused_if(is_taken, SbStatus::PipeCrErr, None);
        let full = refused_if(is_full, SbStatus::MaxPipesMet, taken);
        let is_bad = is_bad_pipe(depth, self.config.depth, name);
        refused_if(is_bad, SbStatus::BadArgument, full)
    }

    /// Why a pipe isn't the application's to end or to receive on.
    pub(crate) fn unowned_cause(&self, app: AppNo, pipe: u32) -> Option<SbStatus>
        ensures { result ≡ unowned_cause self.now.whole.bus app pipe }
    {
        let is_own = owns(self.messages.pipes(), app, pipe);
        refused_if(!is_own, SbStatus::BadArgument, None)
    }

    /// Why a pipe's option bits can't be set to these.
    pub(crate) fn set_opts_cause(&self, app: AppNo, pipe: u32, bits: u8) -> Option<SbStatus>
        ensures { result ≡ set_opts_cause self.now.limits self.now.whole.bus app pipe bits }
    {
        let is_own = owns(self.messages.pipes(), app, pipe);
        let is_bad = is_bad_option(is_own, bits, self.config.version);
        refused_if(is_bad, SbStatus::BadArgument, None)
    }

    /// Why there is no pipe of this number.
    pub(crate) fn dead_cause(&self, pipe: u32) -> Option<SbStatus>
        ensures { result ≡ dead_cause self.now.whole.bus pipe }
    {
        let is_there = is_live(self.messages.pipes(), pipe);
        refused_if(!is_there, SbStatus::BadArgument, None)
    }

    /// Why there is no pipe of this name.
    pub(crate) fn find_cause(&self, name: &[u8]) -> Option<SbStatus>
        ensures { result ≡ find_cause self.now.whole.bus name.now }
    {
        let is_there = is_named(self.messages.pipes(), name);
        refused_if(!is_there, SbStatus::BadArgument, None)
    }

    /// Why a pipe can't be subscribed to an id.
    pub(crate) fn subscribe_cause(&self, app: AppNo, id: u16, pipe: u32) -> Option<SbStatus>
        ensures { result ≡ subscribe_cause self.now.limits self.now.whole.bus app id pipe }
    {
        let is_own = owns(self.messages.pipes(), app, pipe);
        let is_bad = is_bad_pair(id, is_own);
        let others = self.room_cause(id, pipe);
        refused_if(is_bad, SbStatus::BadArgument, others)
    }

    // Why there is no room for the subscription of a pair, if the pair isn't live.
    fn room_cause(&self, id: u16, pipe: u32) -> Option<SbStatus>
        ensures { result ≡
            (if is_subscribed self.now.whole.bus.subscriptions id pipe then None
            else refused_if
            (not (has_route self.now.whole.bus.routed id) &&
            nat_le self.now.limits.msgids (length self.now.whole.bus.routed))
            SbStatus.MaxMsgsMet
            (refused_if
            (nat_le self.now.limits.dests (length (route self.now.whole.bus.subscriptions id)))
            SbStatus.MaxDestsMet None)) }
    {
        if self.subs.is_subscribed(id, pipe) {
            return None;
        }
        let has_most = at_least(self.config.dests, self.subs.count_of(id));
        let most = refused_if(has_most, SbStatus::MaxDestsMet, None);
        let is_full = at_least(self.config.msgids, self.subs.routed_count());
        let lacks_route = both(!self.subs.has_route(id), is_full);
        refused_if(lacks_route, SbStatus::MaxMsgsMet, most)
    }

    /// Why a pipe's subscription to an id can't be ended.
    pub(crate) fn unsubscribe_cause(&self, app: AppNo, id: u16, pipe: u32) -> Option<SbStatus>
        ensures { result ≡ unsubscribe_cause self.now.whole.bus app id pipe }
    {
        let is_own = owns(self.messages.pipes(), app, pipe);
        let is_bad = is_bad_pair(id, is_own);
        refused_if(is_bad, SbStatus::BadArgument, None)
    }

    /// Why a message can't be sent.
    pub(crate) fn transmit_cause(&self, bytes: &[u8]) -> Option<SbStatus>
        requires kept { IsPlayed self.now }
        requires call { length bytes.now < 2 ^ 32 }
        ensures { result ≡ transmit_cause self.now.limits self.now.whole.bus bytes.now }
    {
        if is_faulty(bytes) {
            return Some(SbStatus::BadArgument);
        }
        let size = bytes.len() as u32;
        let others = self.block_cause(id_of(bytes), size);
        refused_if(
            is_less(self.config.msgmax, size),
            SbStatus::MsgTooBig,
            others,
        )
    }

    // Why there is no block for a message of this id and size, if somebody subscribes to the id.
    fn block_cause(&self, id: u16, size: u32) -> Option<SbStatus>
        requires { IsPlayed self.now }
        ensures { result ≡
            (if length (route self.now.whole.bus.subscriptions id) == 0 then None
            else refused_if (not (has_room (account_of self.now.limits self.now.whole.bus) size))
            SbStatus.BufAlocErr None) }
    {
        if self.subs.count_of(id) == 0 {
            return None;
        }
        refused_if(!self.messages.has_room(size), SbStatus::BufAlocErr, None)
    }

    /// Why no message can be received.
    pub(crate) fn receive_cause(&self, app: AppNo, pipe: u32) -> Option<SbStatus>
        ensures { result ≡ receive_cause self.now.whole.bus app pipe }
    {
        let has_one = has_message(self.messages.pipes(), pipe);
        let empty = refused_if(!has_one, SbStatus::NoMessage, None);
        let is_own = owns(self.messages.pipes(), app, pipe);
        refused_if(!is_own, SbStatus::BadArgument, empty)
    }

    /// Why no buffer of this size can be given.
    pub(crate) fn allocate_cause(&self, size: u32) -> Option<SbStatus>
        requires { IsPlayed self.now }
        ensures { result ≡ allocate_cause self.now.limits self.now.whole.bus size }
    {
        let has_room = self.messages.has_room(size);
        let full = refused_if(!has_room, SbStatus::BufAlocErr, None);
        let big = refused_if(is_less(self.config.msgmax, size), SbStatus::MsgTooBig, full);
        refused_if(is_less(size, 7), SbStatus::BadArgument, big)
    }

    /// Why a buffer can't be sent.
    pub(crate) fn transmit_buffer_cause(
        &self,
        app: AppNo,
        buf: u32,
        bytes: &[u8],
    ) -> Option<SbStatus>
        requires { length bytes.now < 2 ^ 32 }
        ensures { result ≡ transmit_buffer_cause self.now.whole.bus app buf bytes.now }
    {
        let bad = refused_if(is_front_faulty(bytes), SbStatus::BadArgument, None);
        let is_own = self.messages.has_unsent(app, buf);
        refused_if(!is_own, SbStatus::BufferInvalid, bad)
    }

    /// Why a buffer can't be given back.
    pub(crate) fn release_cause(&self, app: AppNo, buf: u32) -> Option<SbStatus>
        ensures { result ≡ release_cause self.now.whole.bus app buf }
    {
        let is_own = self.messages.has_unsent(app, buf);
        refused_if(!is_own, SbStatus::BufferInvalid, None)
    }
}

// This refusal if the test is true, else the ones that follow.
fn refused_if(test: bool, status: SbStatus, others: Option<SbStatus>) -> Option<SbStatus>
    ensures { result ≡ refused_if test status others }
{
    if test { Some(status) } else { others }
}

// Whether there are at least so many.
fn at_least(least: u32, count: u32) -> bool
    ensures { result ≡ nat_le least count }
{
    least <= count
}

// Whether a number is below another.
fn is_less(number: u32, other: u32) -> bool
    ensures { result ≡ nat_lt number other }
{
    number < other
}

// Whether both tests are true.
fn both(one: bool, other: bool) -> bool
    ensures { result ≡ (one && other) }
{
    one && other
}

// Whether the depth or the name is out of its range.
fn is_bad_pipe(depth: u32, greatest: u32, name: &[u8]) -> bool
    ensures { result ≡
        (depth == 0 || nat_lt greatest depth || length name.now == 0 ||
        nat_lt 19 (length name.now)) }
{
    depth == 0 || depth > greatest || name.is_empty() || name.len() > NAME_BYTES
}

// Whether the pipe isn't the application's, or a bit is no option of this version.
fn is_bad_option(is_own: bool, bits: u8, version: u32) -> bool
    ensures { result ≡ (not is_own || nat_lt (all_bits version) bits) }
{
    !is_own || bits > all_bits(version)
}

// The option bits that a version has, added up.
fn all_bits(version: u32) -> u8
    ensures { result ≡ all_bits version }
{
    if version == 2 { 3 } else { 1 }
}

// Whether the id is out of its range, or the pipe isn't the application's.
fn is_bad_pair(id: u16, is_own: bool) -> bool
    ensures { result ≡ (not (is_valid_id id) || not is_own) }
{
    !is_valid_id(id) || !is_own
}

// Whether it is a message id, 1 to 0x1FFF (CCSDS 133.0-B, 4.1.3.2 and 4.1.3.3).
fn is_valid_id(id: u16) -> bool
    ensures { result ≡ is_valid_id id }
{
    1 <= id && id <= MAX_ID
}

// Whether the bytes are no whole message.
#[tactic(auto, using(crate::proofs::HeaderFaults::err_at_fault))]
fn is_faulty(bytes: &[u8]) -> bool
    requires { length bytes.now < 2 ^ 32 }
    ensures { result ≡ is_some (fault bytes.now) }
{
    read_header(bytes).is_err()
}

// Whether the bytes don't begin with a message.
#[tactic(auto, using(crate::proofs::HeaderFaults::err_at_fault))]
fn is_front_faulty(bytes: &[u8]) -> bool
    requires { length bytes.now < 2 ^ 32 }
    ensures { result ≡ is_some (front_fault bytes.now) }
{
    front(bytes).is_err()
}
