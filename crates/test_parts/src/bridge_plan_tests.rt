//! A plan: its parts, and what the bridge may add on either side.
use bridge_plan::{BridgePlan, gate_number, read_plan};
use fsw_base::{AppNo, Budget};
use std::alloc::Global;
use std::test::Fail;

const PLAN: &[u8] = b"route 0x0801 4\n# the next ones have a comment\n\nroute 0x0802 0\n---\n\
    app A\nsend 0x0801 8 16\nalloc b0 40\nxmit b0\nhk\nsendraw 0801c000000110\n---\n\
    app B\ncreate p0 4 B\nsub 0x0801 p0\npend p0\napp C\n";

fn plan_of(alloc: Global, input: &[u8]) -> Option<BridgePlan> {
    read_plan(alloc, input).ok()
}

// What the bridge is on both sides, and what it may add there.
fn bridge_of(alloc: Global, input: &[u8]) -> Option<(u32, Budget, u32, Budget)> {
    let plan = plan_of(alloc, input)?;
    Some((
        plan.bridge(1).get(),
        plan.budget_on_one(),
        plan.bridge(2).get(),
        plan.budget_on_two(),
    ))
}

// The routes of an input: how many, and the last.
fn last_route_of(alloc: Global, input: &[u8]) -> Option<(u32, (u16, u32))> {
    let plan = plan_of(alloc, input)?;
    let routes = plan.routes();
    if routes == 0 {
        return None;
    }
    Some((routes, plan.route(routes - 1)))
}

// How many applications the script of each side has.
fn apps_of(alloc: Global, input: &[u8]) -> Option<(u32, u32)> {
    let plan = plan_of(alloc, input)?;
    Some((plan.script(1).apps(), plan.script(2).apps()))
}

#[test]
fn plan_is_read(rt: HostRuntime) -> Result<(), Fail> {
    assert_eq!(rt; last_route_of(rt.alloc(), PLAN), Some((2, (0x0802, 0))));
    assert_eq!(rt; apps_of(rt.alloc(), PLAN), Some((1, 2)));
    Ok(())
}

#[test]
fn bridge_has_an_entry_for_each_message_that_may_come(rt: HostRuntime) -> Result<(), Fail> {
    let one = Budget {
        entries: 14,
        bytes: 6,
        buffers: 0,
    };
    let two = Budget {
        entries: 5,
        bytes: 119,
        buffers: 0,
    };
    assert_eq!(rt; bridge_of(rt.alloc(), PLAN), Some((2, one, 3, two)));
    Ok(())
}

#[test]
fn gates_know_side_2_by_numbers_of_its_own(rt: HostRuntime) -> Result<(), Fail> {
    let app = AppNo::try_new(3);
    assert_eq!(rt;
        app.map(|app| (gate_number(1, app), gate_number(2, app))),
        Some((3, 19))
    );
    Ok(())
}
