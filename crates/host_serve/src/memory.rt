//! The memory that the program takes.
ghost use Rattle.std.specs.Prelude.{◌≡◌, [], false, true, length, map, replicate, vec_capacity, IfOk, IfSome};
ghost use Rattle.std.specs.List.{range_with_len};
ghost use Rattle.std.specs.Option.{is_none};
ghost use Rattle.std.specs.Result.{result_ok};
ghost use Rattle.app_run.specs.Openings.{HaveRoom};
ghost use Rattle.app_run.specs.Runners.{histories_of};
ghost use Rattle.app_script.specs.Grammar.{grammar};
ghost use Rattle.bridge_plan.specs.Grammar.{plan_of};
ghost use Rattle.bridge_runs.specs.Bridged.{IsBridged};
ghost use Rattle.fsw_base.specs.Limits.{limits_of};
ghost use Rattle.run_check.specs.Checks.{IsAnswer};
ghost use Rattle.sb_bridge.specs.Left.{LeavesSide};
ghost use Rattle.sb_calls.specs.Core.{apps_of};
ghost use Rattle.script_text.specs.Generated.{generated};
ghost use Rattle.script_runs.specs.Told.{receipts_told};
ghost use Rattle.tbl_load.specs.Core.{apps_of as table_apps_of};
ghost use Rattle.host_serve.specs.Serve.{IsLeftBy, OnThreads, Rotating};

use app_run::{Finished, Regions, lockstep};
use app_script::{ReadFail, Script, read_script};
use bridge_plan::{BridgePlan, PlanFail, PlanFault, read_plan};
use fsw_base::{Config, Gate, ScriptFault};
use report_check::check;
use run_check::Judgement;
use sb_bridge::{Bridged, run_bridge};
use script_text::generate;
use std::alloc::{AllocError, Global};
use std::marker::Model;
use std::sync::Wait;
use std::thread::Threads;
use thread_run::run_threads;

/// That a request for memory was refused. Only [`Memory::refusal`] makes one.
#[derive(Clone, Copy, Debug, PartialEq, Eq)]
pub struct MemoryRefusal {
    // Private, so that no other file makes one.
    _refused: (),
}

/// The memory of one call of the program, and whether the last request was refused.
///
/// It has the only allocator below the top call. A run consumes it, so nothing asks for memory
/// after a run. By the code, a call returns None or a refusal only if the allocator refused.
#[derive(Drop)]
pub struct Memory {
    // Gives memory; private, so that no other file asks it.
    alloc: Global,
    // Whether the newest request was refused.
    refused: bool,
}

impl Model for Memory {
    ghost use Rattle.host_serve.specs.Memory.{Requests};

    ghost Value = { Requests };

    ghost view = { λ m. record { refused = m.refused } };
}

impl Memory {
    /// Memory of which none was asked for yet.
    pub fn new(alloc: Global) -> Memory
        ensures { result.refused ≡ false }
    {
        Memory {
            alloc,
            refused: false,
        }
    }

    /// The evidence that the newest request was refused.
    pub fn refusal(&self) -> MemoryRefusal
        requires { self.now.refused ≡ true }
    {
        MemoryRefusal { _refused: () }
    }

    /// A list with room for so many bytes.
    pub fn room(&mut self, bytes: usize) -> Option<Vec<u8>>
        ensures empty { IfSome result (λ v. v.items ≡ []) }
        ensures room { IfSome result (λ v. vec_capacity v ≡ bytes) }
        ensures refused { self.new.refused ≡ is_none result }
    {
        let taken = Vec::with_capacity(self.alloc, bytes);
        self.note(taken)
    }

    /// A list of so many zeros.
    pub fn zeros(&mut self, bytes: usize) -> Option<Vec<u8>>
        ensures zeros { IfSome result (λ v. v.items ≡ replicate bytes 0) }
        ensures refused { self.new.refused ≡ is_none result }
    {
        let taken = vec![in self.alloc; 0; bytes];
        self.note(taken)
    }

    /// The text as a script, or what is wrong with it.
    pub fn script(&mut self, text: &[u8]) -> Option<Result<Script, ScriptFault>>
        ensures script { IfSome result (λ read. read ≡ grammar text.now) }
        ensures refused { self.new.refused ≡ is_none result }
    {
        let read = match read_script(self.alloc, text) {
            Ok(script) => Some(Ok(script)),
            Err(ReadFail::Fault(fault)) => Some(Err(fault)),
            Err(ReadFail::Memory(_)) => None,
        };
        self.refused = read.is_none();
        read
    }

    /// The text as a plan of two buses and a bridge, or what is wrong with it.
    pub fn plan(&mut self, text: &[u8]) -> Option<Result<BridgePlan, PlanFault>>
        ensures plan { IfSome result (λ read. read ≡ plan_of text.now) }
        ensures refused { self.new.refused ≡ is_none result }
    {
        let read = match read_plan(self.alloc, text) {
            Ok(plan) => Some(Ok(plan)),
            Err(PlanFail::Fault(fault)) => Some(Err(fault)),
            Err(PlanFail::Memory(_)) => None,
        };
        self.refused = read.is_none();
        read
    }

    /// Whether a text is the report of a run of the script.
    pub fn verdict(&mut self, script: &Script, report: &[u8]) -> Option<Judgement>
        ensures answer { IfSome result (λ verdict. IsAnswer script.now report.now verdict) }
        ensures refused { self.new.refused ≡ is_none result }
    {
        let taken = check(self.alloc, script, report);
        self.note(taken)
    }

    /// The generated script of a number.
    pub fn generated_script(&mut self, number: u32) -> Option<Script>
        ensures script { IfSome result (λ script. script ≡ generated number) }
        ensures refused { self.new.refused ≡ is_none result }
    {
        let taken = generate(self.alloc, number);
        self.note(taken)
    }

    /// The memory in which the messages and the tables of a run lie.
    pub fn regions(&mut self, cfg: &Config) -> Option<Regions>
        ensures room { IfSome result (λ regions. HaveRoom regions (limits_of cfg.now)) }
        ensures refused { self.new.refused ≡ is_none result }
    {
        let taken = Regions::new(self.alloc, cfg);
        self.note(taken)
    }

    /// Both services and the receipts after a run of the script in rotation. All memory is taken
    /// before the run's first call.
    ///
    /// # Errors
    /// If memory was refused; by the code, no application ran then.
    pub fn run_in_rotation<'r>(
        mut self,
        script: &Script,
        regions: &'r mut Regions,
    ) -> Result<Finished<'r>, MemoryRefusal>
        requires { HaveRoom regions.old script.now.limits }
        ensures left { IfOk result
            (λ finished. IsLeftBy Rotating script.now (histories_of finished.bus finished.tables)) }
        ensures limits { IfOk result (λ finished. finished.bus.limits ≡ script.now.limits) }
        ensures table_limits { IfOk result
            (λ finished. finished.tables.limits ≡ script.now.limits) }
        ensures apps { IfOk result (λ finished. apps_of finished.bus ≡ length script.now.apps) }
        ensures table_apps { IfOk result
            (λ finished. table_apps_of finished.tables ≡ length script.now.apps) }
        ensures receipts { IfOk result
            (λ finished. map (λ list. list.receipts) finished.receipts.items ≡
            map (receipts_told script.now (histories_of finished.bus finished.tables))
            (range_with_len 1 (length script.now.apps))) }
    {
        match lockstep(self.alloc, script, regions) {
            Ok(finished) => Ok(finished),
            Err(AllocError) => {
                self.refused = true;
                Err(self.refusal())
            }
        }
    }

    /// The same after a run on threads, with the gate's calls round each line. It may wait.
    ///
    /// # Errors
    /// If memory was refused; by the code, no application ran then.
    pub fn run_on_threads<'r, R: Threads + Wait + Sync, G: Gate>(
        mut self,
        rt: &R,
        script: &Script,
        regions: &'r mut Regions,
        gate: &G,
    ) -> Result<Finished<'r>, MemoryRefusal>
        requires { HaveRoom regions.old script.now.limits }
        ensures left { IfOk result
            (λ finished. IsLeftBy OnThreads script.now
            (histories_of finished.bus finished.tables)) }
        ensures limits { IfOk result (λ finished. finished.bus.limits ≡ script.now.limits) }
        ensures table_limits { IfOk result
            (λ finished. finished.tables.limits ≡ script.now.limits) }
        ensures apps { IfOk result (λ finished. apps_of finished.bus ≡ length script.now.apps) }
        ensures table_apps { IfOk result
            (λ finished. table_apps_of finished.tables ≡ length script.now.apps) }
        ensures receipts { IfOk result
            (λ finished. map (λ list. list.receipts) finished.receipts.items ≡
            map (receipts_told script.now (histories_of finished.bus finished.tables))
            (range_with_len 1 (length script.now.apps))) }
    {
        match run_threads(rt, self.alloc, script, regions, gate) {
            Ok(finished) => Ok(finished),
            Err(AllocError) => {
                self.refused = true;
                Err(self.refusal())
            }
        }
    }

    /// Both services and the receipts of both sides after a run of the plan: each application on a
    /// thread of its own, with the gate's calls round each line, and a bridge between the sides. It
    /// may wait.
    ///
    /// # Errors
    /// If memory was refused; by the code, no application ran then.
    pub fn run_bridge<'r, R: Threads + Wait + Sync, G: Gate>(
        mut self,
        rt: &R,
        plan: &BridgePlan,
        one: &'r mut Regions,
        two: &'r mut Regions,
        gate: &G,
    ) -> Result<Bridged<'r>, MemoryRefusal>
        requires one { HaveRoom one.old plan.now.one.limits }
        requires two { HaveRoom two.old plan.now.two.limits }
        ensures bridged { IfOk result
            (λ left. IsBridged plan.now (histories_of left.one.bus left.one.tables)
            (histories_of left.two.bus left.two.tables)) }
        ensures one { IfOk result (λ left. LeavesSide plan.now 1 left.one) }
        ensures two { IfOk result (λ left. LeavesSide plan.now 2 left.two) }
    {
        match run_bridge(rt, self.alloc, plan, one, two, gate) {
            Ok(bridged) => Ok(bridged),
            Err(AllocError) => {
                self.refused = true;
                Err(self.refusal())
            }
        }
    }

    // What was taken, or None if the request was refused; notes which.
    fn note<T>(&mut self, taken: Result<T, AllocError>) -> Option<T>
        ensures value { result ≡ result_ok taken }
        ensures refused { self.new.refused ≡ is_none result }
    {
        self.refused = taken.is_err();
        taken.ok()
    }
}
