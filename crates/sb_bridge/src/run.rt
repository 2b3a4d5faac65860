//! Both sides and the bridge, each application on a thread of its own.
ghost use Rattle.std.specs.Prelude.{◌≡◌, ◌⊎◌, [], length, IfOk, Some};
ghost use Rattle.app_run.specs.Openings.{HaveRoom};
ghost use Rattle.app_run.specs.Runners.{histories_of};
ghost use Rattle.bridge_plan.specs.Plan.{script_of};
ghost use Rattle.bridge_runs.specs.Bridged.{IsBridged};
ghost use Rattle.thread_run.specs.Mains.{AreOpen, IsJoined, IsOpen};
ghost use Rattle.thread_run.specs.Whole.{whole};
ghost use Rattle.sb_bridge.specs.Crews.{AreAllThrough, IsCrewOf, IsSecondClosed};
ghost use Rattle.sb_bridge.specs.Left.{Leaves, LeavesSide};
ghost use Rattle.sb_bridge.specs.Sides.{budget_on, whole_on};

use crate::bridge::{BridgeJob, Crossing};
use crate::closing::close_side;
use crate::crews::{Crew, crew_of};
use crate::ends::EndedPorts;
use crate::gates::GateOfTwo;
use crate::opening::begin_bridge;
use crate::threads::{BothEnded, DoneSide, run_all};
use app_run::{Finished, Regions};
use bridge_plan::BridgePlan;
use bus_service::{Bus, BusMain};
use fsw_base::{Budget, Gate};
use std::alloc::{AllocError, Global};
use std::sync::Wait;
use std::thread::Threads;
use tbl_service::Tables;
use thread_run::{OpenServices, RunParts, open_services};

/// What a run of two buses and a bridge leaves: on each side what a run of its script leaves, with
/// the bridge's entries in its histories. The receipts are those of the script's applications.
#[derive(Drop)]
pub struct Bridged<'r> {
    /// Side 1, from which messages went.
    pub one: Finished<'r>,
    /// Side 2, to which they went.
    pub two: Finished<'r>,
}

/// Runs the scripts of both sides, each application on a thread of its own, and the bridge between
/// them, on one more. Messages and tables of a side lie in its regions, which are at least as large
/// as its script's configuration says. The gate's calls stand round each line of the scripts,
/// outside every lock; it knows the applications of side 2 under their numbers and 16 more, and it
/// doesn't know the bridge. All memory is taken before the first call, but for what each thread
/// takes when it is started: what runs the applications has no allocator.
///
/// The call may wait, and returns once all applications and the bridge have ended. If a thread
/// can't be started the caller runs its application, once the others of its side were started, and
/// the bridge, once all were; one that waits there for a later one of these waits for ever.
///
/// # Errors
/// If memory runs out; by the code, no application ran then.
pub fn run_bridge<'r, R: Threads + Wait + Sync, G: Gate>(
    rt: &R,
    alloc: Global,
    plan: &BridgePlan,
    one: &'r mut Regions,
    two: &'r mut Regions,
    gate: &G,
) -> Result<Bridged<'r>, AllocError>
    requires one { HaveRoom one.old plan.now.one.limits }
    requires two { HaveRoom two.old plan.now.two.limits }

    // Whatever the interleaving: on each side the histories merge the applications' calls, and each
    // message of a route went over the bridge once and in order.
    ensures bridged { IfOk result
        (λ left. IsBridged plan.now (histories_of left.one.bus left.one.tables)
        (histories_of left.two.bus left.two.tables)) }

    // And what each side leaves.
    ensures one { IfOk result (λ left. LeavesSide plan.now 1 left.one) }
    ensures two { IfOk result (λ left. LeavesSide plan.now 2 left.two) }
{
    // Does nothing; the proof learns of it what plans there can be.
    plan.recall_ranges();
    let first = open_services(alloc, plan.script(1), Some(plan.budget_on_one()), one)?;
    let second = open_services(alloc, plan.script(2), Some(plan.budget_on_two()), two)?;
    run_open(rt, alloc, plan, gate, first, second)
}

// Runs both sides and the bridge, which are open.
fn run_open<'p, 'r, R: Threads + Wait + Sync, G: Gate>(
    rt: &'p R,
    alloc: Global,
    plan: &'p BridgePlan,
    gate: &'p G,
    first: OpenServices<'r>,
    second: OpenServices<'r>,
) -> Result<Bridged<'r>, AllocError>
    requires bus_one { IsOpen (whole_on plan.now 1) first.bus 0 first.bus_main }
    requires tables_one { AreOpen (whole_on plan.now 1) first.tables 0 first.tables_main }
    requires bus_two { IsOpen (whole_on plan.now 2) second.bus 0 second.bus_main }
    requires tables_two { AreOpen (whole_on plan.now 2) second.tables 0 second.tables_main }
    ensures { IfOk result (λ left. Leaves plan.now left) }
{
    let OpenServices {
        bus,
        mut bus_main,
        tables,
        mut tables_main,
    } = first;
    let shared = parts_of(plan, 1, &bus, &tables);
    let number = plan.bridge(1);
    let one = crew_of(alloc, shared, number, &mut bus_main, &mut tables_main)?;
    let left = run_second(rt, alloc, plan, gate, &mut bus_main, one, second)?;
    let first = OpenServices {
        bus,
        bus_main,
        tables,
        tables_main,
    };
    Ok(Bridged {
        one: close_side(plan, 1, first, left.done, left.from),
        two: left.two,
    })
}

/// What is left of side 1, before it is closed, and of side 2.
#[derive(Drop)]
pub(crate) struct SecondClosed<'r> {
    /// Of the applications of side 1.
    pub(crate) done: DoneSide,
    /// Of the bridge's ports there.
    pub(crate) from: EndedPorts,
    /// Of side 2.
    pub(crate) two: Finished<'r>,
}

// Runs both sides and the bridge, if the applications of side 1 may begin, and closes side 2.
fn run_second<'a, 'r, R: Threads + Wait + Sync, G: Gate>(
    rt: &'a R,
    alloc: Global,
    plan: &'a BridgePlan,
    gate: &'a G,
    met: &mut BusMain,
    one: Crew<'a, 'r>,
    second: OpenServices<'r>,
) -> Result<SecondClosed<'r>, AllocError>
    requires one { IsCrewOf plan.now 1 one }
    requires bus_one { IsOpen (whole one.side.shared) one.side.shared.bus.now
        (length (whole one.side.shared).apps) met.old }
    requires bus_two { IsOpen (whole_on plan.now 2) second.bus 0 second.bus_main }
    requires tables_two { AreOpen (whole_on plan.now 2) second.tables 0 second.tables_main }
    ensures main { IfOk result (λ _. IsJoined (whole one.entry.side.shared)
        one.entry.side.shared.bus.now [] met.new) }
    ensures closed { IfOk result (λ left. IsSecondClosed plan.now one.entry.side met.new left) }
{
    let gate_of_two = GateOfTwo { gate };
    let OpenServices {
        bus,
        mut bus_main,
        tables,
        mut tables_main,
    } = second;
    let shared = parts_of(plan, 2, &bus, &tables);
    let number = plan.bridge(2);
    let two = crew_of(alloc, shared, number, &mut bus_main, &mut tables_main)?;
    // From here on nothing has an allocator.
    let ended = run_crews(rt, rt, plan, gate, &gate_of_two, met, one, two);
    let second = OpenServices {
        bus,
        bus_main,
        tables,
        tables_main,
    };
    let BothEnded {
        one: done,
        two: done_two,
        bridge,
    } = ended;
    Ok(SecondClosed {
        done,
        from: bridge.from,
        two: close_side(plan, 2, second, done_two, bridge.to),
    })
}

// Runs the applications of both sides and the bridge to their ends. The bridge makes its first
// calls before an application is started.
fn run_crews<'a, 'b, 'g, 'r, R: Threads + Wait + Sync, G: Gate>(
    rt: &'a R,
    rt_of_two: &'b R,
    plan: &BridgePlan,
    gate: &'a G,
    gate_of_two: &'b GateOfTwo<'g, G>,
    bus_main: &mut BusMain,
    one: Crew<'a, 'r>,
    two: Crew<'b, 'r>,
) -> BothEnded
    requires one { IsCrewOf plan.now 1 one }
    requires two { IsCrewOf plan.now 2 two }
    requires bus { IsOpen (whole one.side.shared) one.side.shared.bus.now
        (length (whole one.side.shared).apps) bus_main.old }
    ensures main { IsJoined (whole one.entry.side.shared) one.entry.side.shared.bus.now []
        bus_main.new }
    ensures ended { AreAllThrough plan.now one.entry.side two.entry.side bus_main.new result }
{
    let Crew {
        mut side,
        mut ports,
    } = one;
    let pipe = begin_bridge(rt, plan, side.shared, bus_main, &mut ports, &mut side.works);
    let bridge = BridgeJob {
        crossing: Crossing {
            one: side.shared,
            two: two.side.shared,
            pipe,
            firsts: plan.routes() + 1,
            most: plan.budget_on_two(),
        },
        from: ports,
        to: two.ports,
    };
    run_all(rt, rt_of_two, gate, gate_of_two, bridge, side, two.side)
}

/// What the applications of a side share.
pub(crate) fn parts_of<'e, 'r>(
    plan: &'e BridgePlan,
    side: u32,
    bus: &'e Bus<'r>,
    tables: &'e Tables<'r>,
) -> RunParts<'e, 'r>
    requires { (side ≡ 1) ⊎ (side ≡ 2) }
    ensures script { result.script.now ≡ script_of plan.now side }
    ensures beside { result.beside ≡ Some (budget_on plan.now side) }
    ensures bus { result.bus.now ≡ bus.now }
    ensures tables { result.tables.now ≡ tables.now }
{
    RunParts {
        script: plan.script(side),
        beside: Some(budget_on(plan, side)),
        bus,
        tables,
    }
}

// What the bridge may add on a side.
fn budget_on(plan: &BridgePlan, side: u32) -> Budget
    requires { (side ≡ 1) ⊎ (side ≡ 2) }
    ensures { result ≡ budget_on plan.now side }
{
    if side == 1 {
        plan.budget_on_one()
    } else {
        plan.budget_on_two()
    }
}
