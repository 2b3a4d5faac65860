//! A whole script in strict rotation, on one thread.
ghost use Rattle.std.specs.Prelude.{◌≡◌, ◌+◌, ◌*◌, ◌<◌, ◌≤◌, ◌-◌, ◌↔◌, length, map, replicate, sum_by, All, IfOk, IsTrue, false, true, vec_len, vec_capacity, [], ◌++◌};
ghost use Rattle.std.specs.List.{range_with_len};
ghost use Rattle.sb_calls.specs.Bags.{HasBag};
ghost use Rattle.sb_calls.specs.Core.{apps_of};
ghost use Rattle.tbl_load.specs.Bags.{HasBag as HasTableBag};
ghost use Rattle.tbl_load.specs.Core.{apps_of as table_apps_of};
ghost use Rattle.script_settings.specs.Accounts.{budget_of};
ghost use Rattle.script_runs.specs.Rotation.{rotation, rotations, enough};
ghost use Rattle.script_runs.specs.Told.{receipts_told};
ghost use Rattle.app_script.specs.Script.{ScriptText};
ghost use Rattle.app_run.specs.Openings.{opened, opened_tables, empty_bags, empty_held, HaveRoom};
ghost use Rattle.app_run.specs.Turns.{so_far, IsUnderWay};
ghost use Rattle.app_run.specs.Rounds.{all_beginning, all_going, equipped, AllStand, AllTold, AllEquipped, MovesOn, Rotates, RotatesTimes};

use crate::regions::{Blocks, Regions};
use crate::runner::Runner;
use app_calls::CoreCalls;
use app_script::Script;
use buf_desc::Held;
use bus_words::ReceiptList;
use fsw_base::{AppNo, Budget};
use sb_calls::{BusCore, bags_stay};
use std::alloc::{AllocError, Global};
use std::marker::Brand;
use step_count::{Blank, Ledger, Steps};
use tbl_load::{HeldTables, TblCore, bags_stay as table_bags_stay};

/// What a run leaves: both services after all applications have ended, and the receipts of each, in
/// order of number.
#[derive(Drop)]
pub struct Finished<'r> {
    /// The bus, with every call and answer in its journal.
    pub bus: BusCore<'r>,
    /// The tables, with every call and answer in their journal.
    pub tables: TblCore<'r>,
    /// The receipts of application 1, 2, 3 and so on.
    pub receipts: Vec<ReceiptList>,
}

/// Runs a script: each application that has not ended takes a turn, in order of number, again and
/// again. A turn is its next line; or one look, while it waits; or its end, once its lines are
/// through: at the tables first, then at the bus. Messages and tables lie in the regions, which are
/// at least as large as the script's configuration says. By the code, all memory is taken before
/// the first call.
///
/// # Errors
/// If memory runs out; by the code, no application ran then.
pub fn lockstep<'r>(
    alloc: Global,
    script: &Script,
    regions: &'r mut Regions,
) -> Result<Finished<'r>, AllocError>
    requires { HaveRoom regions.old script.now.limits }
    ensures history { IfOk result
        (λ finished. finished.bus.log.entries ≡ (rotation script.now).bus) }
    ensures table_history { IfOk result
        (λ finished. finished.tables.log.entries ≡ (rotation script.now).tables) }
    ensures limits { IfOk result (λ finished. finished.bus.limits ≡ script.now.limits) }
    ensures table_limits { IfOk result (λ finished. finished.tables.limits ≡ script.now.limits) }
    ensures apps { IfOk result (λ finished. apps_of finished.bus ≡ length script.now.apps) }
    ensures table_apps { IfOk result
        (λ finished. table_apps_of finished.tables ≡ length script.now.apps) }
    ensures receipts { IfOk result
        (λ finished. map (λ list. list.receipts) finished.receipts.items ≡
        map (receipts_told script.now (rotation script.now))
        (range_with_len 1 (length script.now.apps))) }
{
    recall_limits(script);
    let apps = open_apps(alloc, script)?;
    let services = open_services(alloc, script, regions)?;
    Ok(run(script, services, apps))
}

/// Does nothing; a proof learns of it how large a script's messages and tables may be.
pub fn recall_limits(script: &Script)
    ensures small { script.now.limits.msgmax ≤ 65542 }
    ensures small_tables { script.now.limits.tablemax ≤ 65536 }
{
    let _ = script.config();
}

// Both services before their first call.
struct OpenedServices<'r> {
    bus: BusCore<'r>,
    tables: TblCore<'r>,
}

// Takes the memory of both services.
fn open_services<'r>(
    alloc: Global,
    script: &Script,
    regions: &'r mut Regions,
) -> Result<OpenedServices<'r>, AllocError>
    requires { HaveRoom regions.old script.now.limits }
    ensures bus { IfOk result (λ services. services.bus ≡ opened script.now) }
    ensures tables { IfOk result (λ services. services.tables ≡ opened_tables script.now) }
{
    script.recall_ranges();
    let budgets = budgets_of(alloc, script)?;
    let Blocks { pool, tables, work } = regions.blocks_mut();
    let tables = TblCore::new(alloc, script.config(), &budgets, tables, work)?;
    // Made last: every way out behind it lets the bus go, which is proved each time.
    let bus = BusCore::new(alloc, script.config(), &budgets, pool)?;
    Ok(OpenedServices { bus, tables })
}

// The applications before their first line, with their bags and the room for their receipts.
#[derive(Drop)]
struct OpenedApps<'s, 'r> {
    runners: Vec<Runner<'s>>,
    bags: Vec<Held<'r>>,
    held: Vec<HeldTables<'r>>,
    receipts: Vec<ReceiptList>,
}

// Takes the memory of the applications.
fn open_apps<'s, 'r>(alloc: Global, script: &'s Script) -> Result<OpenedApps<'s, 'r>, AllocError>
    ensures runners { IfOk result (λ apps. apps.runners.items ≡ all_beginning script.now) }
    ensures bags { IfOk result (λ apps. apps.bags.items ≡ empty_bags script.now) }
    ensures held { IfOk result (λ apps. apps.held.items ≡ empty_held script.now) }
    ensures receipts { IfOk result (λ apps. apps.receipts.items ≡ []) }
    ensures room { IfOk result (λ apps. length script.now.apps ≤ vec_capacity apps.receipts) }
{
    Ok(OpenedApps {
        runners: runners_of(alloc, script)?,
        bags: bags_of(alloc, script)?,
        held: held_of(alloc, script)?,
        receipts: Vec::with_capacity(alloc, script.apps() as usize)?,
    })
}

// Makes all calls of a run. It has no allocator among its parameters, and takes no memory by its
// code.
fn run<'r>(script: &Script, services: OpenedServices<'r>, apps: OpenedApps<'_, 'r>) -> Finished<'r>
    requires bus { services.bus ≡ opened script.now }
    requires tables { services.tables ≡ opened_tables script.now }
    requires runners { apps.runners.items ≡ all_beginning script.now }
    requires bags { apps.bags.items ≡ empty_bags script.now }
    requires held { apps.held.items ≡ empty_held script.now }
    requires receipts { apps.receipts.items ≡ [] }
    requires room { length script.now.apps ≤ vec_capacity apps.receipts }
    requires small { script.now.limits.msgmax ≤ 65542 }
    requires small_tables { script.now.limits.tablemax ≤ 65536 }
    ensures history { result.bus.log.entries ≡ (rotation script.now).bus }
    ensures table_history { result.tables.log.entries ≡ (rotation script.now).tables }
    ensures limits { result.bus.limits ≡ script.now.limits }
    ensures table_limits { result.tables.limits ≡ script.now.limits }
    ensures apps { apps_of result.bus ≡ length script.now.apps }
    ensures table_apps { table_apps_of result.tables ≡ length script.now.apps }
    ensures receipts { map (λ list. list.receipts) result.receipts.items ≡
        map (receipts_told script.now (rotation script.now))
        (range_with_len 1 (length script.now.apps)) }
{
    // Do nothing; the proof learns of them that new bags are the applications' own.
    bags_stay();
    table_bags_stay();
    let OpenedServices {
        mut bus,
        mut tables,
    } = services;
    let OpenedApps {
        mut runners,
        mut bags,
        mut held,
        receipts,
    } = apps;
    let turns = rotations_of(script);
    run_counted::<Brand>(
        &mut bus,
        &mut tables,
        &mut runners,
        &mut bags,
        &mut held,
        turns,
        Blank::new(1),
    );
    Finished {
        bus,
        tables,
        receipts: receipts_of(runners, receipts),
    }
}

/// What each application may add to each of the two histories of a run.
///
/// # Errors
/// If memory runs out.
pub fn budgets_of(alloc: Global, script: &Script) -> Result<Vec<Budget>, AllocError>
    ensures { IfOk result
        (λ budgets. budgets.items ≡ map (λ a. budget_of a.lines) script.now.apps) }
{
    let mut budgets = Vec::with_capacity(alloc, script.apps() as usize)?;
    for i in 0..script.apps() {
        budgets.push_reserved(script.budget(app_at(i)));
    }
    Ok(budgets)
}

// The applications, each before its first line.
fn runners_of(alloc: Global, script: &Script) -> Result<Vec<Runner<'_>>, AllocError>
    ensures { IfOk result (λ runners. runners.items ≡ all_beginning script.now) }
{
    let mut runners = Vec::with_capacity(alloc, script.apps() as usize)?;
    for i in 0..script.apps() {
        runners.push_reserved(Runner::new(alloc, script, app_at(i))?);
    }
    Ok(runners)
}

// The bag of each application, empty, with room for a view of each pipe that there may be, and for
// each buffer that it asks for.
fn bags_of<'r>(alloc: Global, script: &Script) -> Result<Vec<Held<'r>>, AllocError>
    ensures { IfOk result (λ bags. bags.items ≡ empty_bags script.now) }
{
    let mut bags = Vec::with_capacity(alloc, script.apps() as usize)?;
    for i in 0..script.apps() {
        let buffers = script.budget(app_at(i)).buffers;
        let bag: Held<'r> = Held::new(alloc, script.config().pipes, buffers)?;
        bags.push_reserved(bag);
    }
    Ok(bags)
}

// The bag of each application at the tables, empty, with room for a view of each handle that there
// may be.
fn held_of<'r>(alloc: Global, script: &Script) -> Result<Vec<HeldTables<'r>>, AllocError>
    ensures { IfOk result (λ held. held.items ≡ empty_held script.now) }
{
    let mut held = Vec::with_capacity(alloc, script.apps() as usize)?;
    for _app in 0..script.apps() {
        let bag: HeldTables<'r> = HeldTables::new(alloc, script.config().handles)?;
        held.push_reserved(bag);
    }
    Ok(held)
}

// How many rotations are enough: each application has a turn for each line, one more for each that
// waits, and one for its end.
fn rotations_of(script: &Script) -> u32
    ensures { result ≡ enough script.now }
{
    let mut rotations = 0;
    for i in 0..script.apps() {
        rotations += 2 * script.lines(app_at(i)) + 1;
    }
    rotations
}

// The application at a place; places count from 0.
fn app_at(i: u32) -> AppNo
    requires { i < 16 }
    ensures { result ≡ i + 1 }
{
    AppNo::try_new(i + 1).unwrap()
}

// So many rotations, with a count of steps of their own.
fn run_counted<'r, L: Ledger>(
    bus: &mut BusCore<'r>,
    tables: &mut TblCore<'r>,
    runners: &mut Vec<Runner<'_>>,
    bags: &mut Vec<Held<'r>>,
    held: &mut Vec<HeldTables<'r>>,
    turns: u32,
    blank: Blank,
)
    requires name { blank.name ≡ L.name }
    requires parts { blank.parts ≡ L.parts }
    requires some_part { 0 < blank.parts }
    requires stand { AllStand (record { bus = bus.old; tables = tables.old })
        (equipped runners.old.items bags.old.items held.old.items) }
    requires bags { AllEquipped (record { bus = bus.old; tables = tables.old }) bags.old.items
        held.old.items }
    requires as_many { length bags.old.items ≡ length runners.old.items }
    requires as_many_held { length held.old.items ≡ length runners.old.items }
    ensures rotates { RotatesTimes turns (record { bus = bus.old; tables = tables.old })
        (equipped runners.old.items bags.old.items held.old.items)
        (record { bus = bus.new; tables = tables.new })
        (equipped runners.new.items bags.new.items held.new.items) }
    ensures as_many { length bags.new.items ≡ length runners.new.items }
    ensures as_many_held { length held.new.items ≡ length runners.new.items }
    ensures runners { length runners.new.items ≡ length runners.old.items }
{
    let mut steps = Steps::<L>::new(blank);
    run_all(bus, tables, runners, bags, held, turns, &mut steps);
}

// So many rotations; those in which no application is left to take a turn change nothing, and are
// left out.
fn run_all<'r, L: Ledger>(
    bus: &mut BusCore<'r>,
    tables: &mut TblCore<'r>,
    runners: &mut Vec<Runner<'_>>,
    bags: &mut Vec<Held<'r>>,
    held: &mut Vec<HeldTables<'r>>,
    turns: u32,
    steps: &mut Steps<L>,
)
    requires stand { AllStand (record { bus = bus.old; tables = tables.old })
        (equipped runners.old.items bags.old.items held.old.items) }
    requires bags { AllEquipped (record { bus = bus.old; tables = tables.old }) bags.old.items
        held.old.items }
    requires as_many { length bags.old.items ≡ length runners.old.items }
    requires as_many_held { length held.old.items ≡ length runners.old.items }
    ensures rotates { RotatesTimes turns (record { bus = bus.old; tables = tables.old })
        (equipped runners.old.items bags.old.items held.old.items)
        (record { bus = bus.new; tables = tables.new })
        (equipped runners.new.items bags.new.items held.new.items) }
    ensures as_many { length bags.new.items ≡ length runners.new.items }
    ensures as_many_held { length held.new.items ≡ length runners.new.items }
    ensures runners { length runners.new.items ≡ length runners.old.items }
{
    for _round in 0..turns {
        if have_ended(runners) {
            return;
        }
        rotate(bus, tables, runners, bags, held, steps);
    }
}

// Whether all applications have ended.
fn have_ended(runners: &[Runner<'_>]) -> bool
    ensures { IsTrue result ↔ All (λ runner. runner.ended ≡ true) runners.now }
{
    runners.iter().all(|runner| runner.has_ended())
}

// One rotation: a turn of each application that has not ended, in order of number.
fn rotate<'r, L: Ledger>(
    bus: &mut BusCore<'r>,
    tables: &mut TblCore<'r>,
    runners: &mut Vec<Runner<'_>>,
    bags: &mut Vec<Held<'r>>,
    held: &mut Vec<HeldTables<'r>>,
    steps: &mut Steps<L>,
)
    requires stand { AllStand (record { bus = bus.old; tables = tables.old })
        (equipped runners.old.items bags.old.items held.old.items) }
    requires bags { AllEquipped (record { bus = bus.old; tables = tables.old }) bags.old.items
        held.old.items }
    requires as_many { length bags.old.items ≡ length runners.old.items }
    requires as_many_held { length held.old.items ≡ length runners.old.items }
    ensures rotates { Rotates (record { bus = bus.old; tables = tables.old })
        (equipped runners.old.items bags.old.items held.old.items)
        (record { bus = bus.new; tables = tables.new })
        (equipped runners.new.items bags.new.items held.new.items) }
    ensures bags { AllEquipped (record { bus = bus.new; tables = tables.new }) bags.new.items
        held.new.items }
    ensures as_many { length bags.new.items ≡ length runners.new.items }
    ensures as_many_held { length held.new.items ≡ length runners.new.items }
    ensures runners { length runners.new.items ≡ length runners.old.items }
{
    // Do nothing; the proof learns of them that the others' bags stay theirs.
    bags_stay();
    table_bags_stay();
    for i in 0..runners.len() {
        take_turn(
            bus,
            tables,
            &mut runners[i],
            &mut bags[i],
            &mut held[i],
            steps,
        );
    }
}

// A turn of the application, if it has not ended.
fn take_turn<'r, L: Ledger>(
    bus: &mut BusCore<'r>,
    tables: &mut TblCore<'r>,
    runner: &mut Runner<'_>,
    bag: &mut Held<'r>,
    held: &mut HeldTables<'r>,
    steps: &mut Steps<L>,
)
    requires way { IsUnderWay (record { progress = runner.old; bag = bag.old; held = held.old })
        (record { bus = bus.old; tables = tables.old }) }
    requires bag { HasBag bus.old runner.old.running.app bag.old }
    requires held { HasTableBag tables.old runner.old.running.app held.old }
    ensures moves { MovesOn (record { progress = runner.old; bag = bag.old; held = held.old })
        (record { progress = runner.new; bag = bag.new; held = held.new })
        (record { bus = bus.old; tables = tables.old })
        (record { bus = bus.new; tables = tables.new }) }
    ensures bag { HasBag bus.new runner.old.running.app bag.new }
    ensures held { HasTableBag tables.new runner.old.running.app held.new }
{
    if !runner.has_ended() {
        let app = runner.app();
        // Made in place and not by `new`: so the proof knows what the services and the bags are
        // after it.
        let mut calls = CoreCalls {
            core: bus,
            tables,
            app,
            held: bag,
            held_tables: held,
            steps,
        };
        let _ = runner.turn(&mut calls);
    }
}

// The receipts of each application.
fn receipts_of(runners: Vec<Runner<'_>>, room: Vec<ReceiptList>) -> Vec<ReceiptList>
    requires ended { All (λ runner. runner.ended ≡ true) runners.items }
    requires empty { room.items ≡ [] }
    requires room { length runners.items ≤ vec_capacity room }
    ensures { map (λ list. list.receipts) result.items ≡
        map (λ runner. runner.receipts) runners.entry.items }
{
    let mut receipts = room;
    for runner in runners {
        receipts.push_reserved(runner.finish());
    }
    receipts
}
