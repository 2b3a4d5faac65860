//! The applications of a side and the bridge there, before their first calls.
ghost use Rattle.std.specs.Prelude.{◌≡◌, ◌≤◌, length, vec_capacity, IfOk};
ghost use Rattle.bridge_plan.specs.Plan.{bridge_of};
ghost use Rattle.thread_run.specs.Mains.{AreOpen, IsOpen};
ghost use Rattle.thread_run.specs.Whole.{whole};
ghost use Rattle.sb_bridge.specs.Openings.{AreNew};
ghost use Rattle.sb_bridge.specs.Sides.{HasBridge, MayBegin};

use crate::bridge::BridgePorts;
use crate::opening::open_ports;
use bus_service::BusMain;
use bus_words::ReceiptList;
use fsw_base::AppNo;
use std::alloc::{AllocError, Global};
use tbl_service::TblMain;
use thread_run::{Lists, RunParts, Work, open_works};

/// The applications of a side, and the bridge there, each before its first call.
#[derive(Drop)]
pub(crate) struct Crew<'e, 'r> {
    /// The script's applications.
    pub(crate) side: ScriptSide<'e, 'r>,
    /// The bridge's ports.
    pub(crate) ports: BridgePorts<'r>,
}

/// The applications of a side's script, before their first calls, and the room for what becomes of
/// them.
#[derive(Drop)]
pub(crate) struct ScriptSide<'e, 'r> {
    /// What they share.
    pub(crate) shared: RunParts<'e, 'r>,
    /// What each takes along, in order of number.
    pub(crate) works: Vec<Work<'e, 'r>>,
    /// Those that were begun and that are through.
    pub(crate) lists: Lists<'e, 'r>,
    /// Room for the receipts of each.
    pub(crate) receipts: Vec<ReceiptList>,
}

/// Takes the memory of a side's applications and of the bridge there.
pub(crate) fn crew_of<'e, 'r>(
    alloc: Global,
    shared: RunParts<'e, 'r>,
    bridge: AppNo,
    bus_main: &mut BusMain,
    tables_main: &mut TblMain,
) -> Result<Crew<'e, 'r>, AllocError>
    requires beside { HasBridge shared }
    requires number { bridge ≡ bridge_of shared.script.now }
    requires bus { IsOpen (whole shared) shared.bus.now 0 bus_main.old }
    requires tables { AreOpen (whole shared) shared.tables.now 0 tables_main.old }
    ensures bus { IfOk result (λ _. IsOpen (whole shared.entry) shared.entry.bus.now
        (length (whole shared.entry).apps) bus_main.new) }
    ensures tables { IfOk result (λ _. AreOpen (whole shared.entry) shared.entry.tables.now
        (length (whole shared.entry).apps) tables_main.new) }
    ensures shared { IfOk result (λ crew. crew.side.shared ≡ shared.entry) }
    ensures side { IfOk result (λ crew. MayBegin crew.side) }
    ensures room { IfOk result
        (λ crew. length crew.side.works.items ≤ vec_capacity crew.side.works) }
    ensures ports { IfOk result (λ crew. AreNew shared.entry crew.ports) }
{
    let works = open_works(alloc, shared, bus_main, tables_main)?;
    let lists = Lists::new(alloc, works.len())?;
    let receipts = Vec::with_capacity(alloc, works.len())?;
    let ports = open_ports(alloc, shared, bridge, bus_main, tables_main)?;
    Ok(Crew {
        side: ScriptSide {
            shared,
            works,
            lists,
            receipts,
        },
        ports,
    })
}
