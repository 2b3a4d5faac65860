//! A whole script, each application on a thread of its own.
ghost use Rattle.std.specs.Prelude.{◌≡◌, length, map, IfOk};
ghost use Rattle.std.specs.List.{range_with_len};
ghost use Rattle.app_run.specs.Openings.{HaveRoom};
ghost use Rattle.app_run.specs.Runners.{histories_of};
ghost use Rattle.sb_calls.specs.Core.{apps_of};
ghost use Rattle.script_runs.specs.Runs.{IsRunOf, Guarantees};
ghost use Rattle.script_runs.specs.Told.{receipts_told};
ghost use Rattle.tbl_load.specs.Core.{apps_of as table_apps_of};

use crate::joining::close_all;
use crate::opening::{OpenServices, open_services, open_works};
use crate::starting::{Lists, run_all};
use crate::works::RunParts;
use app_run::{Finished, Regions};
use app_script::Script;
use fsw_base::Gate;
use script_runs::runs_guarantee;
use std::alloc::{AllocError, Global};
use std::sync::Wait;
use std::thread::Threads;

/// Runs a script: each application on a thread of its own, which runs its lines and makes its end,
/// at the tables first and then at the bus. Messages and tables lie in the regions, which are at
/// least as large as the script's configuration says. The gate's calls stand round each line,
/// outside every lock. All memory is taken before the first call, but for what each thread takes
/// when it is started: what runs the applications has no allocator.
///
/// The call may wait, and returns once all applications have ended. If an application's thread
/// can't be started the caller runs the application, once all others were started; one that waits
/// there for a later one of these waits for ever.
///
/// # Errors
/// If memory runs out; by the code, no application ran then.
pub fn run_threads<'r, R: Threads + Wait + Sync, G: Gate>(
    rt: &R,
    alloc: Global,
    script: &Script,
    regions: &'r mut Regions,
    gate: &G,
) -> Result<Finished<'r>, AllocError>
    requires { HaveRoom regions.old script.now.limits }

    // Whatever the interleaving: the histories merge the applications' calls, each once and in
    // script order, each answered as the machines answer it.
    ensures run { IfOk result
        (λ finished. IsRunOf script.now (histories_of finished.bus finished.tables)) }
    ensures guarantees { IfOk result
        (λ finished. Guarantees script.now (histories_of finished.bus finished.tables)) }
    ensures receipts { IfOk result
        (λ finished. map (λ list. list.receipts) finished.receipts.items ≡
        map (receipts_told script.now (histories_of finished.bus finished.tables))
        (range_with_len 1 (length script.now.apps))) }

    // Of which services these are.
    ensures limits { IfOk result (λ finished. finished.bus.limits ≡ script.now.limits) }
    ensures table_limits { IfOk result (λ finished. finished.tables.limits ≡ script.now.limits) }
    ensures apps { IfOk result (λ finished. apps_of finished.bus ≡ length script.now.apps) }
    ensures table_apps { IfOk result
        (λ finished. table_apps_of finished.tables ≡ length script.now.apps) }
{
    // These do nothing; the proof learns of them what histories of a run guarantee, and that the
    // budgets are in their ranges.
    runs_guarantee();
    script.recall_ranges();
    let OpenServices {
        bus,
        mut bus_main,
        tables,
        mut tables_main,
    } = open_services(alloc, script, None, regions)?;
    let receipts = Vec::with_capacity(alloc, script.apps() as usize)?;
    let shared = RunParts {
        script,
        beside: None,
        bus: &bus,
        tables: &tables,
    };
    let works = open_works(alloc, shared, &mut bus_main, &mut tables_main)?;
    let lists = Lists::new(alloc, works.len())?;
    // From here on nothing has an allocator.
    let dones = run_all(rt, gate, shared, works, lists);
    let opened = OpenServices {
        bus,
        bus_main,
        tables,
        tables_main,
    };
    Ok(close_all(script, opened, dones, receipts))
}
