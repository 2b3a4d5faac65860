//! The bridge's ports, and its first calls.
ghost use Rattle.std.specs.Prelude.{◌≡◌, ◌+◌, ◌≤◌, [], length, IfOk, Some, vec_capacity};
ghost use Rattle.bus_words.specs.Bus.{Active};
ghost use Rattle.bus_words.specs.Runs.{standing_behind};
ghost use Rattle.bridge_plan.specs.Plan.{bridge_of};
ghost use Rattle.bridge_plan.specs.Sends.{budget_on_one_of};
ghost use Rattle.thread_run.specs.Mains.{IsOpen, AreOpen, IsJoined};
ghost use Rattle.thread_run.specs.Whole.{whole};
ghost use Rattle.thread_run.specs.Works.{MayWork, Numbered};
ghost use Rattle.sb_bridge.specs.Openings.{AreNew, HasCalled, HasCreated, IsFirst, subscriptions};
ghost use Rattle.sb_bridge.specs.Calls.{bytes_in, calls_in};
ghost use Rattle.sb_bridge.specs.Ports.{IsOwn, budget_of};
ghost use Rattle.sb_bridge.specs.Works.{IsBridges};

use crate::bridge::BridgePorts;
use bridge_plan::BridgePlan;
use bus_service::{Bus, BusMain, BusPort};
use fsw_base::{AppNo, Scope};
use std::alloc::{AllocError, Global};
use std::sync::Wait;
use tbl_service::TblMain;
use thread_run::{RunParts, Work, meet_works};

// The name of the bridge's pipe.
const BRIDGE: &[u8] = b"BRIDGE";

/// Takes the memory of the bridge's ports of a side, if those of the script's applications were
/// made.
///
/// # Errors
/// If memory runs out.
pub(crate) fn open_ports<'r>(
    alloc: Global,
    shared: RunParts<'_, 'r>,
    bridge: AppNo,
    bus_main: &mut BusMain,
    tables_main: &mut TblMain,
) -> Result<BridgePorts<'r>, AllocError>
    requires beside { length (whole shared).apps ≡ length shared.script.now.apps + 1 }
    requires number { bridge ≡ bridge_of shared.script.now }
    requires bus { IsOpen (whole shared) shared.bus.now (length shared.script.now.apps)
        bus_main.old }
    requires tables { AreOpen (whole shared) shared.tables.now (length shared.script.now.apps)
        tables_main.old }
    ensures bus { IfOk result (λ _. IsOpen (whole shared.entry) shared.entry.bus.now
        (length (whole shared.entry).apps) bus_main.new) }
    ensures tables { IfOk result (λ _. AreOpen (whole shared.entry) shared.entry.tables.now
        (length (whole shared.entry).apps) tables_main.new) }
    ensures ports { IfOk result (λ ports. AreNew shared.entry ports) }
{
    let port = shared.bus.port(alloc, bus_main, bridge)?;
    let tables_port = shared.tables.port(alloc, tables_main, bridge)?;
    Ok(BridgePorts { port, tables_port })
}

/// Makes the bridge's first calls on side 1, and has the main part of the bus see that nobody else
/// has made one by then. Answers the number of the bridge's pipe.
pub(crate) fn begin_bridge<'e, 'r, R: Wait>(
    rt: &R,
    plan: &BridgePlan,
    shared: RunParts<'e, 'r>,
    bus_main: &mut BusMain,
    ports: &mut BridgePorts<'r>,
    works: &mut Vec<Work<'e, 'r>>,
) -> u32
    requires script { shared.script.now ≡ plan.now.one }
    requires beside { shared.beside ≡ Some (budget_on_one_of plan.now) }
    requires bus { IsOpen (whole shared) shared.bus.now (length (whole shared).apps)
        bus_main.old }
    requires ports { AreNew shared ports.old }
    requires works { Numbered (MayWork (whole shared) shared.bus.now shared.tables.now) 1
        works.old.items }
    requires all { length works.old.items ≡ length shared.script.now.apps }
    requires room { length works.old.items ≤ vec_capacity works.old }
    ensures main { IsJoined (whole shared.entry) shared.entry.bus.now [] bus_main.new }
    ensures first { IsFirst plan.now result bus_main.new.seen.log.entries ports.new.port }
    ensures bridges { IsBridges shared.entry ports.new.port }
    ensures port { ports.new ≡ record ports.old { port = ports.new.port } }
    ensures works { Numbered (MayWork (whole shared.entry) shared.entry.bus.now
        shared.entry.tables.now) 1 works.new.items }
    ensures all { length works.new.items ≡ length works.old.items }
{
    let pipe = make_pipe(rt, plan, shared.bus, &mut ports.port);
    subscribe_routes(rt, plan, shared.bus, &mut ports.port, pipe);
    shared.bus.meet(rt, bus_main, &mut ports.port);
    meet_works(rt, shared, bus_main, works);
    bus_main.recall_apps();
    pipe
}

// Creates the bridge's pipe, as deep as the configuration allows. It is the first on its bus, so
// the call is accepted; that nobody called before is known once the main part saw it.
fn make_pipe<'r, R: Wait>(rt: &R, plan: &BridgePlan, bus: &Bus<'r>, port: &mut BusPort<'r>) -> u32
    requires bus { port.old.lock ≡ bus.now }
    requires own { IsOwn port.old }
    requires active { standing_behind port.old.mine ≡ Active }
    requires room { length port.old.mine + 1 ≤ (budget_of port.old).entries }
    requires bytes { bytes_in (calls_in port.old.mine) + 6 ≤ (budget_of port.old).bytes }
    ensures made { HasCreated plan.now result port.old port.new }
    ensures depth { 1 ≤ plan.now.one.limits.depth }
    ensures pipes { 1 ≤ plan.now.one.limits.pipes }
{
    let depth = plan.script(1).config().depth;
    let made = port.create_pipe(bus, rt, depth, BRIDGE);
    port.recall();
    match made {
        Ok(pipe) => pipe,
        Err(_) => 0,
    }
}

// Subscribes the bridge's pipe to each route, in order. A subscription may be refused; its route
// then forwards nothing.
fn subscribe_routes<'r, R: Wait>(
    rt: &R,
    plan: &BridgePlan,
    bus: &Bus<'r>,
    port: &mut BusPort<'r>,
    pipe: u32,
)
    requires bus { port.old.lock ≡ bus.now }
    requires own { IsOwn port.old }
    requires active { standing_behind port.old.mine ≡ Active }
    requires room { length port.old.mine + length plan.now.routes ≤ (budget_of port.old).entries }
    ensures { HasCalled port.old port.new (subscriptions pipe plan.now.routes) }
{
    for i in 0..plan.routes() {
        let (id, limit) = plan.route(i);
        let _ = port.subscribe(bus, rt, id, pipe, limit, Scope::Global);
        port.recall();
    }
}
