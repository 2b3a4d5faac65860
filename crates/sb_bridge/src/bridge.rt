//! The bridge, on its thread.
ghost use Rattle.std.specs.Prelude.{◌≡◌, ℕ, ◌+◌, ◌≤◌, ◌&&◌, nat_le, true, false, List, length, Some, is_some, IsTrue};
ghost use Rattle.bus_words.specs.declared.history.Call.TheVariants.{Look};
ghost use Rattle.bus_words.specs.Bus.{Active, Waiting};
ghost use Rattle.bus_words.specs.Runs.{standing_behind};
ghost use Rattle.journal_store.specs.Budgets.{allowance_of};
ghost use Rattle.bus_words.specs.Log.{left_of};
ghost use Rattle.sb_calls.specs.Bags.{last_message};
ghost use Rattle.ccsds_msg.specs.Message.{IsMessage};
ghost use Rattle.sb_calls.specs.Core.{state_of};
ghost use Rattle.sb_bridge.specs.Ports.{HasTaken, HasTimedOut, IsAt, IsOwn, LacksRoom, Sends, TakesOne, TimesOut, budget_of};
ghost use Rattle.sb_bridge.specs.Works.{HasStopped, IsForwarding, IsThrough, MayBridge};

use crate::ends::{BridgeDone, end_on_one, end_on_two};
use bus_service::{Bus, BusPort};
use fsw_base::Budget;
use sb_calls::Pended;
use std::sync::Wait;
use std::thread::Promise;
use tbl_service::TblPort;
use thread_run::{OfRun, RunParts};

/// The bridge's ports of a side.
#[derive(Drop)]
pub(crate) struct BridgePorts<'r> {
    /// Of the bus.
    pub(crate) port: BusPort<'r>,
    /// Of the tables.
    pub(crate) tables_port: TblPort<'r>,
}

/// A bridge between two buses, and a thread's promise: what it sent is what its pipe gave, each
/// once and in order.
#[derive(Clone, Copy)]
pub(crate) struct Crossing<'e, 'r> {
    /// What runs on side 1.
    pub(crate) one: RunParts<'e, 'r>,
    /// What runs on side 2.
    pub(crate) two: RunParts<'e, 'r>,
    /// The bridge's pipe on side 1.
    pub(crate) pipe: u32,
    /// How many calls it made there before its first wait.
    pub(crate) firsts: u32,
    /// What it may add to the journal of side 2.
    pub(crate) most: Budget,
}

impl<'e, 'r> Promise<BridgeDone> for Crossing<'e, 'r> {
    ghost use Rattle.sb_bridge.specs.Works.{IsThrough};

    ghost kept_by = { IsThrough };
}

impl<'e, 'r> OfRun for Crossing<'e, 'r> {
    ghost use Rattle.std.specs.Prelude.{length};
    ghost use Rattle.thread_run.specs.Whole.{whole};

    // As those of side 2, of which it is one.
    ghost run_apps = { λ crossing. length (whole crossing.two).apps };

    fn apps(&self) -> u32 {
        self.two.apps()
    }
}

/// The bridge's run, as its thread is given it: in one value, which the thread's closure moves
/// whole.
#[derive(Drop)]
pub(crate) struct BridgeJob<'e, 'r> {
    /// What it is between.
    pub(crate) crossing: Crossing<'e, 'r>,
    /// Its ports of side 1.
    pub(crate) from: BridgePorts<'r>,
    /// Its ports of side 2.
    pub(crate) to: BridgePorts<'r>,
}

/// Runs the bridge to its end, on the thread that calls this: it takes each message from its pipe
/// and sends it on side 2. At the first time-out it ends on side 1, and then on side 2. It may wait
/// for others' turns and for messages.
pub(crate) fn run_one<'e, 'r, R: Wait>(rt: &R, job: BridgeJob<'e, 'r>) -> BridgeDone
    requires { MayBridge job }
    ensures { IsThrough job.entry.crossing result }
{
    let BridgeJob {
        crossing,
        mut from,
        mut to,
    } = job;
    for _ in rt.forever() {
        if !pass_one(rt, crossing, &mut from.port, &mut to.port) {
            let ended = end_on_one(rt, crossing, from);
            return end_on_two(rt, crossing, to, ended);
        }
    }
    unreachable!()
}

// Takes a message, and sends it; false at a time-out.
fn pass_one<'r, R: Wait>(
    rt: &R,
    crossing: Crossing<'_, 'r>,
    from: &mut BusPort<'r>,
    to: &mut BusPort<'r>,
) -> bool
    requires { IsForwarding crossing from.old to.old }
    ensures on { IsTrue result → IsForwarding crossing.entry from.new to.new }
    ensures stops { result ≡ false → HasStopped crossing.entry from.new to.new }
{
    if !take_next(rt, crossing.one.bus, from, crossing.pipe) {
        return false;
    }
    forward(rt, from, crossing.pipe, crossing.two.bus, to)
}

// Takes the next message from the bridge's pipe, which is then the pipe's last, and waits for it;
// false at a time-out.
fn take_next<'r, R: Wait>(rt: &R, bus: &Bus<'r>, from: &mut BusPort<'r>, pipe: u32) -> bool
    requires bus { from.old.lock ≡ bus.now }
    requires at { IsAt pipe from.old }
    requires active { standing_behind from.old.mine ≡ Active }
    requires room { length from.old.mine + 2 ≤ (budget_of from.old).entries }
    ensures took { IsTrue result → TakesOne pipe from.old from.new }
    ensures timed_out { result ≡ false → TimesOut pipe from.old from.new }
{
    let Ok(told) = from.pend(bus, rt, pipe) else {
        // The pipe is the bridge's own.
        unreachable!()
    };
    // The proof learns that its entries are all that the history has of it.
    from.recall();
    match told {
        Pended::Got(_) => true,
        Pended::TimeOut => false,
        Pended::Pending => look_on(rt, bus, from, pipe),
    }
}

// Looks again while the bridge waits on the pipe.
fn look_on<'r, R: Wait>(rt: &R, bus: &Bus<'r>, from: &mut BusPort<'r>, _pipe: u32) -> bool
    requires bus { from.old.lock ≡ bus.now }
    requires at { IsAt _pipe from.old }
    requires waiting { standing_behind from.old.mine ≡ Waiting _pipe }
    requires room { length from.old.mine + 1 ≤ (budget_of from.old).entries }
    ensures took { IsTrue result → HasTaken _pipe from.old from.new (Look _pipe) }
    ensures timed_out { result ≡ false → HasTimedOut _pipe from.old from.new (Look _pipe) }
{
    for _ in rt.forever() {
        let told = from.look(bus, rt);
        from.recall();
        match told {
            Pended::Got(_) => return true,
            Pended::TimeOut => return false,
            Pended::Pending => {}
        }
    }
    unreachable!()
}

// Sends the pipe's last message on side 2, with the count that it has. A refusal stands in the
// history there, and the message is not sent again. False if the budget has no room for it, and
// nothing is sent.
fn forward<'r, R: Wait>(
    rt: &R,
    from: &BusPort<'r>,
    pipe: u32,
    bus: &Bus<'r>,
    to: &mut BusPort<'r>,
) -> bool
    requires bus { to.old.lock ≡ bus.now }
    requires own { IsOwn to.old }
    requires active { standing_behind to.old.mine ≡ Active }
    requires some { is_some (last_message (state_of from.now.seen) from.now.app pipe) ≡ true }
    ensures sent { IsTrue result → (message : List ℕ) →
        last_message (state_of from.now.seen) from.now.app pipe ≡ Some message →
        Sends message to.old to.new }
    ensures no_room { result ≡ false → (message : List ℕ) →
        last_message (state_of from.now.seen) from.now.app pipe ≡ Some message →
        LacksRoom message to.old to.new }
{
    match from.last(pipe) {
        Some(message) => send_on(rt, bus, to, message),
        // A message was taken, and is the last.
        None => unreachable!(),
    }
}

// Sends a message on side 2, if the budget has room for it and for the bridge's end. It has: there
// are no more messages than the lines of side 1 send, and they have no more bytes. A port can't
// know that, since it sees what others may add and not what their lines do.
fn send_on<'r, R: Wait>(rt: &R, bus: &Bus<'r>, to: &mut BusPort<'r>, message: &[u8]) -> bool
    requires bus { to.old.lock ≡ bus.now }
    requires own { IsOwn to.old }
    requires active { standing_behind to.old.mine ≡ Active }
    requires message { IsMessage message.now }
    ensures sent { IsTrue result → Sends message.now to.old to.new }
    ensures no_room { result ≡ false → LacksRoom message.now to.old to.new }
{
    if !has_room(to, message) {
        return false;
    }
    let _ = to.transmit(bus, rt, message, false);
    to.recall();
    true
}

// Whether the budget of side 2 has entries for a send and the end, and the message's bytes.
fn has_room(to: &BusPort<'_>, message: &[u8]) -> bool
    ensures { result ≡ (nat_le 2 (allowance_of (left_of to.now.seen.log) to.now.app).entries &&
        nat_le (length message.now) (allowance_of (left_of to.now.seen.log) to.now.app).bytes) }
{
    2 <= to.entries_left() && message.len() <= to.bytes_left() as usize
}
