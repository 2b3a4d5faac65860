//! The applications of both sides and the bridge, each on its thread.
ghost use Rattle.std.specs.Prelude.{◌≡◌};
ghost use Rattle.sb_bridge.specs.Sides.{AreThroughOf, IsBegunSide, IsDoneSide, MayBegin};
ghost use Rattle.sb_bridge.specs.Works.{IsThrough, MayBridge};

use crate::bridge::{BridgeJob, run_one};
use crate::crews::ScriptSide;
use crate::ends::BridgeDone;
use crate::gates::GateOfTwo;
use bus_words::ReceiptList;
use fsw_base::Gate;
use std::sync::Wait;
use std::thread;
use std::thread::{Scope, Threads};
use thread_run::{Begun, Done, Ends, Lists, RunParts, Starts, begin_all, end_all, start_one};

// All that runs at once, as the scope of its threads is given it: in one value, which the scope's
// closure moves whole.
#[derive(Drop)]
struct Jobs<'a, 'b, 'c, 'g, 'r, R: Threads + Wait + Sync, G: Gate> {
    // By what they wait, and what starts their threads.
    rt: &'a R,
    // The same, for as long as side 2 lasts.
    rt_of_two: &'b R,
    // What is called round the lines of side 1.
    gate: &'a G,
    // And of side 2.
    gate_of_two: &'b GateOfTwo<'g, G>,
    // The bridge.
    bridge: BridgeJob<'c, 'r>,
    // Side 1.
    one: ScriptSide<'a, 'r>,
    // Side 2.
    two: ScriptSide<'b, 'r>,
}

/// Runs the applications of both sides and the bridge to their ends.
pub(crate) fn run_all<'a, 'b, 'c, 'g, 'r, R: Threads + Wait + Sync, G: Gate>(
    rt: &'a R,
    rt_of_two: &'b R,
    gate: &'a G,
    gate_of_two: &'b GateOfTwo<'g, G>,
    bridge: BridgeJob<'c, 'r>,
    one: ScriptSide<'a, 'r>,
    two: ScriptSide<'b, 'r>,
) -> BothEnded
    requires bridge { MayBridge bridge }
    requires one { MayBegin one }
    requires two { MayBegin two }
    requires to { bridge.crossing.two ≡ two.shared }
    ensures one { IsDoneSide one.entry result.one }
    ensures two { IsDoneSide two.entry result.two }
    ensures bridge { IsThrough bridge.entry.crossing result.bridge }
{
    let jobs = Jobs {
        rt,
        rt_of_two,
        gate,
        gate_of_two,
        bridge,
        one,
        two,
    };
    thread::scope(
        thread::scope_env(),
        rt,
        move |scope| -> BothEnded
            requires bridge { MayBridge jobs.bridge }
            requires one { MayBegin jobs.one }
            requires two { MayBegin jobs.two }
            requires to { jobs.bridge.crossing.two ≡ jobs.two.shared }
            ensures one { IsDoneSide jobs.entry.one result.one }
            ensures two { IsDoneSide jobs.entry.two result.two }
            ensures bridge { IsThrough jobs.entry.bridge.crossing result.bridge }
        { run_in(scope, jobs) },
    )
}

/// What is left of the applications of both sides, and of the bridge.
#[derive(Drop)]
pub(crate) struct BothEnded {
    /// Of side 1.
    pub(crate) one: DoneSide,
    /// Of side 2.
    pub(crate) two: DoneSide,
    /// Of the bridge.
    pub(crate) bridge: BridgeDone,
}

/// What is left of a side's applications, in order of number, and room for the receipts of each.
#[derive(Drop)]
pub(crate) struct DoneSide {
    /// What is left of them.
    pub(crate) dones: Vec<Done>,
    /// Room for the receipts.
    pub(crate) receipts: Vec<ReceiptList>,
}

// The same, in a scope of threads: the bridge is started first, then side 1, then side 2.
fn run_in<'s, 'x, 'a: 's, 'b: 's, 'c: 's, 'g: 's, 'r: 's, R: Threads + Wait + Sync, G: Gate>(
    scope: &'s Scope<'s, &'x ()>,
    jobs: Jobs<'a, 'b, 'c, 'g, 'r, R, G>,
) -> BothEnded
    requires bridge { MayBridge jobs.bridge }
    requires one { MayBegin jobs.one }
    requires two { MayBegin jobs.two }
    requires to { jobs.bridge.crossing.two ≡ jobs.two.shared }
    ensures one { IsDoneSide jobs.entry.one result.one }
    ensures two { IsDoneSide jobs.entry.two result.two }
    ensures bridge { IsThrough jobs.entry.bridge.crossing result.bridge }
{
    let Jobs {
        rt,
        rt_of_two,
        gate,
        gate_of_two,
        bridge,
        one,
        two,
    } = jobs;
    let mut asked = Starts::none();
    let start = start_one(
        &mut asked,
        scope,
        bridge.crossing,
        move || -> BridgeDone
            requires { MayBridge bridge }
            ensures { IsThrough bridge.entry.crossing result }
        { run_one(rt_of_two, bridge) },
    );
    // The bridge's thread counts on either side.
    let one = begin_side(scope, rt, gate, one, asked);
    let two = begin_side(scope, rt_of_two, gate_of_two, two, asked);
    let bridge = start.begin(&two.starts).end(rt, &two.starts);
    BothEnded {
        one: end_side(rt, one),
        two: end_side(rt, two),
        bridge,
    }
}

/// The applications of a side, once all were begun.
#[derive(Drop)]
pub(crate) struct BegunSide<'e, 'r> {
    /// What they share.
    pub(crate) shared: RunParts<'e, 'r>,
    /// Each as it was begun, in order of number.
    pub(crate) begun: Vec<Begun<Done, Ends<'e, 'r>>>,
    /// Room for what is left of them.
    pub(crate) dones: Vec<Done>,
    /// Room for the receipts of each.
    pub(crate) receipts: Vec<ReceiptList>,
    /// How many threads were asked for, with the bridge's.
    pub(crate) starts: Starts,
}

// Begins a side's applications, each on a thread of the scope, if the bridge's thread was asked
// for.
fn begin_side<'s, 'x, 'e: 's, 'r: 's, R: Threads + Wait + Sync, G: Gate>(
    scope: &'s Scope<'s, &'x ()>,
    rt: &'e R,
    gate: &'e G,
    side: ScriptSide<'e, 'r>,
    asked: Starts,
) -> BegunSide<'e, 'r>
    requires side { MayBegin side }
    requires asked { asked ≡ 1 }
    ensures begun { IsBegunSide result }
    ensures shared { result.shared ≡ side.entry.shared }
{
    let ScriptSide {
        shared,
        mut works,
        lists,
        receipts,
    } = side;
    let Lists { mut begun, dones } = lists;
    let mut starts = asked;
    begin_all(scope, rt, gate, shared, &mut works, &mut starts, &mut begun);
    BegunSide {
        shared,
        begun,
        dones,
        receipts,
        starts,
    }
}

// Waits for the ends of a side's applications.
fn end_side<'e, 'r, R: Threads>(rt: &R, side: BegunSide<'e, 'r>) -> DoneSide
    requires { IsBegunSide side }
    ensures { AreThroughOf side.entry.shared result }
{
    let BegunSide {
        shared,
        mut begun,
        mut dones,
        receipts,
        starts,
    } = side;
    end_all(rt, shared, &mut begun, &mut dones, &starts);
    DoneSide { dones, receipts }
}
