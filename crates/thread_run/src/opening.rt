//! Opens both services for a script, and makes the ports of its applications.
ghost use Rattle.std.specs.Prelude.{◌≡◌, ◌+◌, ◌-◌, ◌≤◌, [], length, IfOk, IfSome, vec_capacity};
ghost use Rattle.app_run.specs.Openings.{HaveRoom, budgets_for};
ghost use Rattle.journal_store.specs.Budgets.{AreBudgets};
ghost use Rattle.thread_run.specs.Mains.{IsOpen, AreOpen};
ghost use Rattle.thread_run.specs.Whole.{whole, whole_of, CanBeBeside};
ghost use Rattle.thread_run.specs.Works.{MayWork, Numbered};

use crate::works::{RunParts, Work};
use app_run::{Blocks, Regions, Runner, budgets_of, recall_limits};
use app_script::Script;
use bus_service::{Bus, BusMain};
use fsw_base::{AppNo, Budget};
use std::alloc::{AllocError, Global};
use tbl_service::{Tables, TblMain};

/// Both services before their first call, with their main parts.
#[derive(Drop)]
pub struct OpenServices<'r> {
    /// The software bus.
    pub bus: Bus<'r>,
    /// Its main part.
    pub bus_main: BusMain,
    /// Table Services.
    pub tables: Tables<'r>,
    /// Their main part.
    pub tables_main: TblMain,
}

/// Takes the memory of both services, for the script's applications and for the one that runs
/// beside them, if one does, with this budget and the number behind the script's last.
///
/// # Errors
/// If memory runs out.
pub fn open_services<'r>(
    alloc: Global,
    script: &Script,
    beside: Option<Budget>,
    regions: &'r mut Regions,
) -> Result<OpenServices<'r>, AllocError>
    requires room { HaveRoom regions.old script.now.limits }
    requires beside { IfSome beside CanBeBeside }
    requires budgets { AreBudgets (budgets_for (whole_of script.now beside)) }
    ensures bus { IfOk result
        (λ opened. IsOpen (whole_of script.now beside) opened.bus 0 opened.bus_main) }
    ensures tables { IfOk result
        (λ opened. AreOpen (whole_of script.now beside) opened.tables 0 opened.tables_main) }
{
    let budgets = all_budgets(alloc, script, beside)?;
    let Blocks { pool, tables, work } = regions.blocks_mut();
    let (bus, bus_main) = Bus::new(alloc, script.config(), &budgets, pool)?;
    let (tables, tables_main) = Tables::new(alloc, script.config(), &budgets, tables, work)?;
    Ok(OpenServices {
        bus,
        bus_main,
        tables,
        tables_main,
    })
}

// What each application may add to each of the two histories, that beside the script's too.
#[tactic(auto, using(crate::proofs::Wholes::budgets_beside))]
fn all_budgets(
    alloc: Global,
    script: &Script,
    beside: Option<Budget>,
) -> Result<Vec<Budget>, AllocError>
    requires { IfSome beside CanBeBeside }
    ensures { IfOk result (λ budgets. budgets.items ≡ budgets_for (whole_of script.now beside)) }
{
    let mut budgets = budgets_of(alloc, script)?;
    match beside {
        None => Ok(budgets),
        Some(budget) => {
            budgets.push(budget)?;
            Ok(budgets)
        }
    }
}

/// Takes the memory of all applications: of each its ports with their bags, its runner, and the
/// room for its receipts.
///
/// # Errors
/// If memory runs out.
pub fn open_works<'e, 'r>(
    alloc: Global,
    shared: RunParts<'e, 'r>,
    bus_main: &mut BusMain,
    tables_main: &mut TblMain,
) -> Result<Vec<Work<'e, 'r>>, AllocError>
    requires bus { IsOpen (whole shared) shared.bus.now 0 bus_main.old }
    requires tables { AreOpen (whole shared) shared.tables.now 0 tables_main.old }
    ensures bus { IfOk result (λ works. IsOpen (whole shared.entry) shared.entry.bus.now
        (length shared.entry.script.now.apps) bus_main.new) }
    ensures tables { IfOk result (λ works. AreOpen (whole shared.entry)
        shared.entry.tables.now (length shared.entry.script.now.apps) tables_main.new) }
    ensures works { IfOk result
        (λ works. Numbered (MayWork (whole shared.entry) shared.entry.bus.now
        shared.entry.tables.now) 1 works.items) }
    ensures all { IfOk result
        (λ works. length works.items ≡ length shared.entry.script.now.apps) }
    ensures room { IfOk result (λ works. length works.items ≤ vec_capacity works) }
{
    let apps = shared.script.apps();
    let mut works = Vec::with_capacity(alloc, apps as usize)?;
    open_first(alloc, shared, bus_main, tables_main, &mut works, apps)?;
    Ok(works)
}

// The first so many applications.
fn open_first<'e, 'r>(
    alloc: Global,
    shared: RunParts<'e, 'r>,
    bus_main: &mut BusMain,
    tables_main: &mut TblMain,
    works: &mut Vec<Work<'e, 'r>>,
    count: u32,
) -> Result<(), AllocError>
    requires count { count ≤ length shared.script.now.apps }
    requires few { count ≤ 16 }
    requires bus { IsOpen (whole shared) shared.bus.now 0 bus_main.old }
    requires tables { AreOpen (whole shared) shared.tables.now 0 tables_main.old }
    requires empty { works.old.items ≡ [] }
    requires room { count ≤ vec_capacity works.old }
    ensures bus { IfOk result (λ _. IsOpen (whole shared.entry) shared.entry.bus.now count
        bus_main.new) }
    ensures tables { IfOk result (λ _. AreOpen (whole shared.entry) shared.entry.tables.now
        count tables_main.new) }
    ensures works { IfOk result
        (λ _. Numbered (MayWork (whole shared.entry) shared.entry.bus.now
        shared.entry.tables.now) 1 works.new.items) }
    ensures all { IfOk result (λ _. length works.new.items ≡ count) }
    ensures room { vec_capacity works.new ≡ vec_capacity works.old }
{
    if count == 0 {
        return Ok(());
    }
    open_first(alloc, shared, bus_main, tables_main, works, count - 1)?;
    let work = open_one(alloc, shared, bus_main, tables_main, app_no(count))?;
    note_work(works, shared, work);
    Ok(())
}

// The next application, before its first line. Its ports have seen no call.
fn open_one<'e, 'r>(
    alloc: Global,
    shared: RunParts<'e, 'r>,
    bus_main: &mut BusMain,
    tables_main: &mut TblMain,
    app: AppNo,
) -> Result<Work<'e, 'r>, AllocError>
    requires some { 1 ≤ app }
    requires known { app ≤ length shared.script.now.apps }
    requires bus { IsOpen (whole shared) shared.bus.now (app - 1) bus_main.old }
    requires tables { AreOpen (whole shared) shared.tables.now (app - 1) tables_main.old }
    ensures bus { IfOk result (λ _. IsOpen (whole shared.entry) shared.entry.bus.now app
        bus_main.new) }
    ensures tables { IfOk result (λ _. AreOpen (whole shared.entry) shared.entry.tables.now app
        tables_main.new) }
    ensures work { IfOk result (λ work. MayWork (whole shared.entry) shared.entry.bus.now
        shared.entry.tables.now app work) }
{
    recall_limits(shared.script);
    let runner = Runner::new(alloc, shared.script, app)?;
    let port = shared.bus.port(alloc, bus_main, app)?;
    let tables_port = shared.tables.port(alloc, tables_main, app)?;
    // The proof learns of them that the bags are the application's.
    port.recall();
    tables_port.recall();
    Ok(Work {
        runner,
        port,
        tables_port,
    })
}

/// Puts an application behind those of smaller numbers.
pub(crate) fn note_work<'e, 'r>(
    works: &mut Vec<Work<'e, 'r>>,
    _shared: RunParts<'_, 'r>,
    work: Work<'e, 'r>,
)
    requires room { length works.old.items + 1 ≤ vec_capacity works.old }
    requires works { Numbered (MayWork (whole _shared) _shared.bus.now _shared.tables.now) 1
        works.old.items }
    requires work { MayWork (whole _shared) _shared.bus.now _shared.tables.now
        (1 + length works.old.items) work }
    ensures works { Numbered (MayWork (whole _shared.entry) _shared.entry.bus.now
        _shared.entry.tables.now) 1 works.new.items }
    ensures count { length works.new.items ≡ length works.old.items + 1 }
    ensures room { vec_capacity works.new ≡ vec_capacity works.old }
{
    works.push_reserved(work);
}

// The application of a number.
fn app_no(number: u32) -> AppNo
    requires some { 1 ≤ number }
    requires few { number ≤ 16 }
    ensures { result ≡ number }
{
    AppNo::try_new(number).unwrap()
}
