//! Joins the ports of applications that are through, and closes both services.
ghost use Rattle.std.specs.Prelude.{◌≡◌, ◌≤◌, [], length, map, vec_capacity};
ghost use Rattle.std.specs.List.{range_with_len};
ghost use Rattle.app_run.specs.Runners.{histories_of};
ghost use Rattle.bus_service.specs.Ports.{Begins};
ghost use Rattle.sb_calls.specs.Core.{apps_of};
ghost use Rattle.script_runs.specs.Runs.{IsRunOf};
ghost use Rattle.script_runs.specs.Told.{receipts_told};
ghost use Rattle.tbl_load.specs.Core.{apps_of as table_apps_of};
ghost use Rattle.thread_run.specs.Mains.{IsOpen, AreOpen, IsJoined, AreJoined};
ghost use Rattle.thread_run.specs.Whole.{whole};
ghost use Rattle.thread_run.specs.Works.{IsDone, Numbered};

use crate::lists::take_last_done;
use crate::opening::OpenServices;
use crate::works::{Done, RunParts};
use app_run::Finished;
use app_script::Script;
use bus_service::BusMain;
use bus_words::ReceiptList;
use tbl_service::TblMain;

/// Joins what is left of all applications, and closes both services.
pub(crate) fn close_all<'r>(
    script: &Script,
    opened: OpenServices<'r>,
    dones: Vec<Done>,
    receipts: Vec<ReceiptList>,
) -> Finished<'r>
    requires bus { IsOpen script.now opened.bus (length script.now.apps) opened.bus_main }
    requires tables { AreOpen script.now opened.tables (length script.now.apps)
        opened.tables_main }
    requires dones { Numbered (IsDone script.now opened.bus opened.tables) 1 dones.items }
    requires all { length dones.items ≡ length script.now.apps }
    requires empty { receipts.items ≡ [] }
    requires room { length script.now.apps ≤ vec_capacity receipts }
    ensures limits { result.bus.limits ≡ script.now.limits }
    ensures table_limits { result.tables.limits ≡ script.now.limits }
    ensures apps { apps_of result.bus ≡ length script.now.apps }
    ensures table_apps { table_apps_of result.tables ≡ length script.now.apps }
    ensures run { IsRunOf script.now (histories_of result.bus result.tables) }
    ensures receipts { map (λ list. list.receipts) result.receipts.items ≡
        map (receipts_told script.now (histories_of result.bus result.tables))
        (range_with_len 1 (length script.now.apps)) }
{
    let OpenServices {
        bus,
        mut bus_main,
        tables,
        mut tables_main,
    } = opened;
    let mut dones = dones;
    let mut receipts = receipts;
    let shared = RunParts {
        script,
        beside: None,
        bus: &bus,
        tables: &tables,
    };
    join_all(
        shared,
        &mut bus_main,
        &mut tables_main,
        &mut dones,
        &mut receipts,
    );
    Finished {
        bus: bus.close(bus_main),
        tables: tables.close(tables_main),
        receipts,
    }
}

/// Joins the ports of those that are left, in order of number, and keeps their receipts.
pub fn join_all<'r>(
    shared: RunParts<'_, 'r>,
    bus_main: &mut BusMain,
    tables_main: &mut TblMain,
    dones: &mut Vec<Done>,
    receipts: &mut Vec<ReceiptList>,
)
    requires bus { IsJoined (whole shared) shared.bus.now [] bus_main.old }
    requires tables { AreJoined (whole shared) shared.tables.now [] tables_main.old }
    requires dones { Numbered (IsDone (whole shared) shared.bus.now shared.tables.now) 1
        dones.old.items }
    requires empty { receipts.old.items ≡ [] }
    requires room { length dones.old.items ≤ vec_capacity receipts.old }
    ensures bus { IsJoined (whole shared.entry) shared.entry.bus.now dones.old.items
        bus_main.new }
    ensures tables { AreJoined (whole shared.entry) shared.entry.tables.now dones.old.items
        tables_main.new }
    ensures seen { Begins bus_main.old.seen bus_main.new.seen }
    ensures receipts { map (λ list. list.receipts) receipts.new.items ≡
        map (λ done. done.receipts.receipts) dones.old.items }
    ensures count { length receipts.new.items ≡ length dones.old.items }
    ensures room { vec_capacity receipts.new ≡ vec_capacity receipts.old }
{
    let Some(done) = take_last_done(dones, shared) else {
        return;
    };
    join_all(shared, bus_main, tables_main, dones, receipts);
    let Done {
        port,
        tables_port,
        receipts: its_own,
    } = done;
    shared.bus.join(bus_main, port);
    shared.tables.join(tables_main, tables_port);
    receipts.push_reserved(its_own);
}
