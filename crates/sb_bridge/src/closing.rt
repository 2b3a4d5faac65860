//! A side's applications and the bridge there, once they are through.
ghost use Rattle.std.specs.Prelude.{◌≡◌, ◌⊎◌, []};
ghost use Rattle.thread_run.specs.Mains.{AreJoined, IsJoined};
ghost use Rattle.bridge_plan.specs.Plan.{script_of};
ghost use Rattle.sb_bridge.specs.Sides.{AreEnded, AreThrough, IsClosedSide, whole_on};

use crate::ends::EndedPorts;
use crate::run::parts_of;
use crate::threads::DoneSide;
use app_run::Finished;
use bridge_plan::BridgePlan;
use thread_run::{OpenServices, join_all};

/// Joins what is left of a side's applications and then of the bridge there, and closes both
/// services.
pub(crate) fn close_side<'r>(
    plan: &BridgePlan,
    side: u32,
    opened: OpenServices<'r>,
    done: DoneSide,
    ports: EndedPorts,
) -> Finished<'r>
    requires side { (side ≡ 1) ⊎ (side ≡ 2) }
    requires bus { IsJoined (whole_on plan.now side) opened.bus [] opened.bus_main }
    requires tables { AreJoined (whole_on plan.now side) opened.tables [] opened.tables_main }
    requires done { AreThrough (script_of plan.now side) (whole_on plan.now side) opened.bus
        opened.tables done }
    requires ports { AreEnded (script_of plan.now side) opened.bus opened.tables ports }
    ensures { IsClosedSide (script_of plan.now side) (whole_on plan.now side) opened.entry.bus_main
        ports result }
{
    let DoneSide {
        mut dones,
        mut receipts,
    } = done;
    let OpenServices {
        bus,
        mut bus_main,
        tables,
        mut tables_main,
    } = opened;
    join_all(
        parts_of(plan, side, &bus, &tables),
        &mut bus_main,
        &mut tables_main,
        &mut dones,
        &mut receipts,
    );
    let EndedPorts { port, tables_port } = ports;
    bus.join(&mut bus_main, port);
    tables.join(&mut tables_main, tables_port);
    Finished {
        bus: bus.close(bus_main),
        tables: tables.close(tables_main),
        receipts,
    }
}
