//! One application's run on its thread.
ghost use Rattle.std.specs.Prelude.{◌≡◌, length, true};
ghost use Rattle.bus_words.specs.Bus.{has_ended, standing_of};
ghost use Rattle.sb_calls.specs.Core.{state_of};
ghost use Rattle.tbl_words.specs.Tables.{has_ended as has_ended_at_tables};
ghost use Rattle.tbl_load.specs.Core.{state_of as tables_of};
ghost use Rattle.script_runs.specs.TableTrace.{own_table_entries};
ghost use Rattle.bus_words.specs.Runs.{own_entries};
ghost use Rattle.app_calls.specs.Callers.{SameServices};
ghost use Rattle.app_run.specs.Turns.{MayTurn, TakesTurnBy};
ghost use Rattle.thread_run.specs.Whole.{whole};
ghost use Rattle.thread_run.specs.Works.{MayWork, IsDone};

use crate::starts::OfRun;
use app_calls::Calls;
use app_run::{Runner, Turned};
use app_script::Script;
use bus_service::{Bus, BusDone, BusPort};
use bus_words::ReceiptList;
use fsw_base::{AppNo, Budget, Gate};
use port_calls::{Locks, PortCalls};
use sb_calls::bags_stay;
use std::marker::Brand;
use std::sync::Wait;
use std::thread::Promise;
use tbl_load::bags_stay as table_bags_stay;
use tbl_service::{Tables, TblDone, TblPort};

/// What all applications of a run share: the script, and both services.
#[derive(Clone, Copy)]
pub struct RunParts<'e, 'r> {
    /// The script.
    pub script: &'e Script,
    /// What a bridge beside the script's applications may add to each journal; None if there is no
    /// bridge. It has the number behind the script's last.
    pub beside: Option<Budget>,
    /// The software bus.
    pub bus: &'e Bus<'r>,
    /// Table Services.
    pub tables: &'e Tables<'r>,
}

impl RunParts<'_, '_> {
    /// How many applications the run has, with the one beside.
    pub fn apps(self) -> u32
        ensures { result ≡ length (whole self.entry).apps }
    {
        match self.beside {
            None => self.script.apps(),
            Some(_) => self.script.apps() + 1,
        }
    }
}

/// What an application takes along to its thread.
#[derive(Drop)]
pub struct Work<'s, 'r> {
    /// How far it has come.
    pub runner: Runner<'s>,
    /// Its port of the bus.
    pub port: BusPort<'r>,
    /// Its port of the tables.
    pub tables_port: TblPort<'r>,
}

/// What is left of an application that is through. It names no lifetime, so a thread may promise
/// it.
#[derive(Drop)]
pub struct Done {
    /// Its port of the bus, finished.
    pub port: BusDone,
    /// Its port of the tables, finished.
    pub tables_port: TblDone,
    /// Its receipts.
    pub receipts: ReceiptList,
}

/// A thread's promise: the application ends, and its entries and receipts are those of its lines.
#[derive(Clone, Copy)]
pub struct Ends<'e, 'r> {
    /// What it shares with the others.
    pub shared: RunParts<'e, 'r>,
    /// The application.
    pub app: AppNo,
}

impl<'e, 'r> Promise<Done> for Ends<'e, 'r> {
    ghost use Rattle.thread_run.specs.Kept.{KeptBy};

    ghost kept_by = { KeptBy };
}

impl<'e, 'r> OfRun for Ends<'e, 'r> {
    ghost use Rattle.std.specs.Prelude.{length};
    ghost use Rattle.thread_run.specs.Whole.{whole};

    ghost run_apps = { λ ends. length (whole ends.shared).apps };

    fn apps(&self) -> u32 {
        self.shared.apps()
    }
}

/// An application's run, as its thread is given it: in one value, which the thread's closure moves
/// whole.
#[derive(Drop)]
pub(crate) struct Job<'e, 'r> {
    /// What it shares with the others.
    pub(crate) shared: RunParts<'e, 'r>,
    /// What it takes along.
    pub(crate) work: Work<'e, 'r>,
}

/// Runs an application to its end, on the thread that calls this. It may wait for others' turns and
/// for their messages.
pub(crate) fn run_one<'e, 'r, R: Wait, G: Gate>(rt: &R, gate: &G, job: Job<'e, 'r>) -> Done
    requires { MayWork (whole job.shared) job.shared.bus.now job.shared.tables.now
        job.work.runner.running.app job.work }
    ensures { IsDone (whole job.entry.shared) job.entry.shared.bus.now
        job.entry.shared.tables.now job.entry.work.runner.running.app result }
{
    let Job { shared, work } = job;
    run_by::<Brand, _, _>(rt, gate, shared, work)
}

// The same, by calls of ports whose locks are `L`'s.
fn run_by<'r, L: Locks, R: Wait, G: Gate>(
    rt: &R,
    gate: &G,
    shared: RunParts<'_, 'r>,
    work: Work<'_, 'r>,
) -> Done
    requires bus { shared.bus.now ≡ L.bus }
    requires tables { shared.tables.now ≡ L.tables }
    requires may { MayWork (whole shared) shared.bus.now shared.tables.now
        work.runner.running.app work }
    ensures { IsDone (whole shared.entry) shared.entry.bus.now shared.entry.tables.now
        work.entry.runner.running.app result }
{
    let Work {
        mut runner,
        port,
        tables_port,
    } = work;
    // Do nothing; the proof learns of them that the bags stay the application's, whatever others
    // do.
    bags_stay();
    table_bags_stay();
    let mut calls = PortCalls::<_, L>::new(port, shared.bus, tables_port, shared.tables, rt);
    for _ in rt.forever() {
        take_turn(gate, &mut runner, &mut calls);
        if runner.has_ended() {
            let (port, tables_port) = calls.into_ports();
            return let_go(runner, port, tables_port);
        }
    }
    unreachable!()
}

// One turn, and the gate's calls round a line: before its turn, and once it is answered, which for
// a line that waits is a later turn. No lock is held at either.
fn take_turn<C: Calls, G: Gate>(gate: &G, runner: &mut Runner<'_>, calls: &mut C)
    requires { MayTurn runner.old (C.caller calls.old) }
    ensures turn { TakesTurnBy runner.old runner.new (C.caller calls.old) (C.caller calls.new) }
    ensures same { SameServices (C.caller calls.old) (C.caller calls.new) }
{
    let app = runner.app().get();
    if runner.begins_line() {
        gate.before(app, runner.lines_begun() + 1);
    }
    if let Turned::Went = runner.turn(calls) {
        gate.after(app, runner.lines_begun());
    }
}

// What is left of an application that has ended.
fn let_go<'r>(runner: Runner<'_>, port: BusPort<'r>, tables_port: TblPort<'r>) -> Done
    requires ended { runner.ended ≡ true }
    requires at_bus { has_ended (standing_of (state_of port.seen) port.app) ≡ true }
    requires at_tables { has_ended_at_tables (tables_of tables_port.seen) tables_port.app ≡ true }
    ensures port { result.port ≡
        record {
          lock = port.entry.lock;
          app = port.entry.app;
          seen = port.entry.seen;
          mine = own_entries port.entry.app port.entry.seen.log.entries;
        } }
    ensures tables_port { result.tables_port ≡
        record {
          lock = tables_port.entry.lock;
          app = tables_port.entry.app;
          seen = tables_port.entry.seen;
          mine = own_table_entries tables_port.entry.app tables_port.entry.seen.log.entries;
        } }
    ensures receipts { result.receipts.receipts ≡ runner.entry.receipts }
{
    port.recall();
    tables_port.recall();
    Done {
        port: port.finish(),
        tables_port: tables_port.finish(),
        receipts: runner.finish(),
    }
}
