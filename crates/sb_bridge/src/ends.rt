//! The bridge's ends: on side 1 first, and then on side 2.
ghost use Rattle.std.specs.Prelude.{◌≡◌};
ghost use Rattle.sb_bridge.specs.Works.{EndsAs, MayEnd};

use crate::bridge::{BridgePorts, Crossing};
use bus_service::BusDone;
use std::sync::Wait;
use tbl_service::TblDone;
use thread_run::RunParts;

/// What is left of the bridge's ports of a side, finished.
#[derive(Drop)]
pub(crate) struct EndedPorts {
    /// Of the port of the bus.
    pub(crate) port: BusDone,
    /// Of that of the tables.
    pub(crate) tables_port: TblDone,
}

/// The bridge ended on side 1.
#[derive(Drop)]
pub(crate) struct EndedOnOne {
    // Private, so that only this file makes one.
    ports: EndedPorts,
}

/// What is left of the bridge. It names no lifetime, so a thread may promise it.
#[derive(Drop)]
pub(crate) struct BridgeDone {
    /// On side 1.
    pub(crate) from: EndedPorts,
    /// On side 2.
    pub(crate) to: EndedPorts,
}

/// Ends on side 1.
pub(crate) fn end_on_one<'r, R: Wait>(
    rt: &R,
    crossing: Crossing<'_, 'r>,
    ports: BridgePorts<'r>,
) -> EndedOnOne
    requires { MayEnd crossing.one ports }
    ensures { EndsAs ports.entry result.ports }
{
    EndedOnOne {
        ports: end_ports(rt, crossing.one, ports),
    }
}

/// Ends on side 2, once the bridge ended on side 1.
pub(crate) fn end_on_two<'r, R: Wait>(
    rt: &R,
    crossing: Crossing<'_, 'r>,
    ports: BridgePorts<'r>,
    first: EndedOnOne,
) -> BridgeDone
    requires { MayEnd crossing.two ports }
    ensures from { result.from ≡ first.ports }
    ensures to { EndsAs ports.entry result.to }
{
    let to = end_ports(rt, crossing.two, ports);
    BridgeDone {
        from: first.ports,
        to,
    }
}

// Ends on a side, at the tables first and then at the bus.
fn end_ports<'r, R: Wait>(
    rt: &R,
    shared: RunParts<'_, 'r>,
    mut ports: BridgePorts<'r>,
) -> EndedPorts
    requires { MayEnd shared ports }
    ensures { EndsAs ports.entry result }
{
    ports.tables_port.end(shared.tables, rt);
    ports.port.end(shared.bus, rt);
    ports.port.recall();
    EndedPorts {
        port: ports.port.finish(),
        tables_port: ports.tables_port.finish(),
    }
}
