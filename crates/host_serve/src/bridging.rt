//! The word `bridge`: two buses and a bridge between them.
ghost use Rattle.std.specs.Prelude.{◌≡◌, false, true, Ok, IfOk, IfErr};
ghost use Rattle.app_run.specs.Openings.{HaveRoom};
ghost use Rattle.app_run.specs.Runners.{histories_of};
ghost use Rattle.bridge_plan.specs.Grammar.{plan_of};
ghost use Rattle.host_report.specs.Audit.{GuardedAudit};
ghost use Rattle.host_report.specs.Parts.{both_shown};
ghost use Rattle.host_serve.specs.Serve.{Bridges, EndsBoth, EndsNoPlan, EndsPlan, EndsPlanInput, IsPlanRead, fed_through, made_through};
ghost use Rattle.host_serve.specs.Status.{is_read_fault, is_write_fault};

use crate::fault_line::{TOO_LARGE, refuse, tell_missing};
use crate::memory::Memory;
use crate::reading::{Reading, read_all};
use crate::serving::ByThreads;
use crate::status::HostStatus;
use app_run::{Finished, Regions};
use bridge_plan::{BridgePlan, MAX_PLAN_BYTES, PlanFault};
use fsw_base::{Gate, Sink, SinkGuard, Source, SourceGuard, WriteFault};
use host_report::{Audit, AuditGuard, write_both};
use sb_bridge::Bridged;
use std::sync::Wait;
use std::thread::Threads;

/// Runs the plan that the source gives, each application of both sides on a thread of its own,
/// shows the services of side 1 and then those of side 2 to the audit, and writes the reports of
/// both. It may wait.
///
/// - `Script`, if the input is longer than 2,097,152 bytes, or a line of it is faulty, or a side
///   has no application; the line of the first fault is written. At most one byte more than these
///   is read.
/// - `MissingPart`, if fewer than two lines are `---`; the line `script:0:MissingPart` is
///   written.
/// - `ReadFault`, `WriteFault` and `NoMemory` as in `serve`.
pub(crate) fn serve_bridge<R: Threads + Wait + Sync, G: Gate, S: Source, K: Sink, A: Audit>(
    threads: &ByThreads<'_, R, G>,
    mut memory: Memory,
    source: &mut SourceGuard<'_, S>,
    sink: &mut SinkGuard<'_, K>,
    audit: &mut AuditGuard<'_, A>,
) -> HostStatus
    requires no_read_failed { source.old.failed ≡ false }
    requires no_write_failed { sink.old.failed ≡ false }
    requires untouched { sink.old.untouched ≡ true }
    ensures end { Bridges result (fed_through source.old) (fed_through source.new)
        (made_through sink.old audit.old) (made_through sink.new audit.new) }
    ensures read_failed { source.new.failed ≡ is_read_fault result }
    ensures write_failed { sink.new.failed ≡ is_write_fault result }
    ensures same_source { source.new.source ≡ source.old.source }
    ensures same_sink { sink.new.sink ≡ sink.old.sink }
    ensures same_audit { audit.new.audit ≡ audit.old.audit }
{
    match read_plan_input(&mut memory, source, sink) {
        Ok(plan) => serve_plan(threads, memory, &plan, sink, audit),
        Err(status) => status,
    }
}

// Reads the source to its end. If it gives no plan, the answer is how the program ends, once the
// fault was written.
fn read_plan_input<S: Source, K: Sink>(
    memory: &mut Memory,
    source: &mut SourceGuard<'_, S>,
    sink: &mut SinkGuard<'_, K>,
) -> Result<BridgePlan, HostStatus>
    requires no_read_failed { source.old.failed ≡ false }
    requires no_write_failed { sink.old.failed ≡ false }
    ensures plan { IfOk result (λ plan. IsPlanRead plan source.old.left source.new.left) }
    ensures none_written { IfOk result (λ plan. sink.new ≡ sink.old) }
    ensures not_failed { IfOk result (λ plan. source.new.failed ≡ false) }
    ensures end { IfErr result (λ status. (audit : GuardedAudit) →
        Bridges status (fed_through source.old) (fed_through source.new)
        (made_through sink.old audit) (made_through sink.new audit)) }
    ensures read_failed { IfErr result (λ status. source.new.failed ≡ is_read_fault status) }
    ensures write_failed { IfErr result (λ status. sink.new.failed ≡ is_write_fault status) }
    ensures same_source { source.new.source ≡ source.old.source }
    ensures same_sink { sink.new.sink ≡ sink.old.sink }
{
    let Some(room) = memory.room(MAX_PLAN_BYTES + 1) else {
        return Err(HostStatus::NoMemory(memory.refusal()));
    };
    match read_all(room, MAX_PLAN_BYTES, source) {
        Reading::Whole(text) => plan_of(memory, &text, sink),
        Reading::TooLarge => Err(refuse(sink, TOO_LARGE)),
        Reading::Fault => Err(HostStatus::ReadFault),
    }
}

// The text as a plan; if it is none, how the program ends once the fault was written.
fn plan_of<K: Sink>(
    memory: &mut Memory,
    text: &[u8],
    sink: &mut SinkGuard<'_, K>,
) -> Result<BridgePlan, HostStatus>
    requires { sink.old.failed ≡ false }
    ensures plan { IfOk result (λ plan. plan_of text.now ≡ Ok plan) }
    ensures none_written { IfOk result (λ plan. sink.new ≡ sink.old) }
    ensures end { IfErr result (λ status. (audit : GuardedAudit) →
        EndsPlanInput status (plan_of text.now) (made_through sink.old audit)
        (made_through sink.new audit)) }
    ensures failed { IfErr result (λ status. sink.new.failed ≡ is_write_fault status) }
    ensures no_read_fault { IfErr result (λ status. is_read_fault status ≡ false) }
    ensures same_sink { sink.new.sink ≡ sink.old.sink }
{
    match memory.plan(text) {
        Some(Ok(plan)) => Ok(plan),
        Some(Err(fault)) => Err(refuse_plan(sink, fault)),
        None => Err(HostStatus::NoMemory(memory.refusal())),
    }
}

// Writes what is wrong with an input that is no plan.
fn refuse_plan<K: Sink>(sink: &mut SinkGuard<'_, K>, fault: PlanFault) -> HostStatus
    requires { sink.old.failed ≡ false }
    ensures end { (audit : GuardedAudit) →
        EndsNoPlan result fault (made_through sink.old audit) (made_through sink.new audit) }
    ensures failed { sink.new.failed ≡ is_write_fault result }
    ensures no_read_fault { is_read_fault result ≡ false }
    ensures same_sink { sink.new.sink ≡ sink.old.sink }
{
    match fault {
        PlanFault::MissingPart => tell_missing(sink),
        PlanFault::Script(fault) => refuse(sink, fault),
    }
}

// Runs the plan, shows the services of both sides to the audit, and writes both reports. Side 1's
// memory is taken here, side 2's below: the borrow checker's part of the proof has one of them in a
// function.
fn serve_plan<R: Threads + Wait + Sync, G: Gate, K: Sink, A: Audit>(
    threads: &ByThreads<'_, R, G>,
    mut memory: Memory,
    plan: &BridgePlan,
    sink: &mut SinkGuard<'_, K>,
    audit: &mut AuditGuard<'_, A>,
) -> HostStatus
    requires none_failed { sink.old.failed ≡ false }
    requires untouched { sink.old.untouched ≡ true }
    ensures end { EndsPlan result plan.now (made_through sink.old audit.old)
        (made_through sink.new audit.new) }
    ensures failed { sink.new.failed ≡ is_write_fault result }
    ensures no_read_fault { is_read_fault result ≡ false }
    ensures same_sink { sink.new.sink ≡ sink.old.sink }
    ensures same_audit { audit.new.audit ≡ audit.old.audit }
{
    let Some(mut one) = memory.regions(plan.script(1).config()) else {
        return HostStatus::NoMemory(memory.refusal());
    };
    serve_beside(threads, memory, plan, &mut one, sink, audit)
}

// The same, once side 1 has its memory.
fn serve_beside<R: Threads + Wait + Sync, G: Gate, K: Sink, A: Audit>(
    threads: &ByThreads<'_, R, G>,
    mut memory: Memory,
    plan: &BridgePlan,
    one: &mut Regions,
    sink: &mut SinkGuard<'_, K>,
    audit: &mut AuditGuard<'_, A>,
) -> HostStatus
    requires room { HaveRoom one.old plan.now.one.limits }
    requires none_failed { sink.old.failed ≡ false }
    requires untouched { sink.old.untouched ≡ true }
    ensures end { EndsPlan result plan.now (made_through sink.old audit.old)
        (made_through sink.new audit.new) }
    ensures failed { sink.new.failed ≡ is_write_fault result }
    ensures no_read_fault { is_read_fault result ≡ false }
    ensures same_sink { sink.new.sink ≡ sink.old.sink }
    ensures same_audit { audit.new.audit ≡ audit.old.audit }
{
    let Some(mut two) = memory.regions(plan.script(2).config()) else {
        return HostStatus::NoMemory(memory.refusal());
    };
    serve_in(threads, memory, plan, one, &mut two, sink, audit)
}

// The same, once both sides have theirs.
fn serve_in<R: Threads + Wait + Sync, G: Gate, K: Sink, A: Audit>(
    threads: &ByThreads<'_, R, G>,
    memory: Memory,
    plan: &BridgePlan,
    one: &mut Regions,
    two: &mut Regions,
    sink: &mut SinkGuard<'_, K>,
    audit: &mut AuditGuard<'_, A>,
) -> HostStatus
    requires room { HaveRoom one.old plan.now.one.limits }
    requires room_beside { HaveRoom two.old plan.now.two.limits }
    requires none_failed { sink.old.failed ≡ false }
    requires untouched { sink.old.untouched ≡ true }
    ensures end { EndsPlan result plan.now (made_through sink.old audit.old)
        (made_through sink.new audit.new) }
    ensures failed { sink.new.failed ≡ is_write_fault result }
    ensures no_read_fault { is_read_fault result ≡ false }
    ensures same_sink { sink.new.sink ≡ sink.old.sink }
    ensures same_audit { audit.new.audit ≡ audit.old.audit }
{
    match memory.run_bridge(threads.rt, plan, one, two, threads.gate) {
        Ok(bridged) => tell_both(bridged, sink, audit),
        Err(refusal) => HostStatus::NoMemory(refusal),
    }
}

// Shows the services of both sides to the audit, writes their reports, and lets them go.
fn tell_both<K: Sink, A: Audit>(
    bridged: Bridged<'_>,
    sink: &mut SinkGuard<'_, K>,
    audit: &mut AuditGuard<'_, A>,
) -> HostStatus
    requires none_failed { sink.old.failed ≡ false }
    requires untouched { sink.old.untouched ≡ true }
    ensures end { EndsBoth result
        (histories_of bridged.entry.one.bus bridged.entry.one.tables)
        (histories_of bridged.entry.two.bus bridged.entry.two.tables)
        (both_shown bridged.entry.one bridged.entry.two)
        (made_through sink.old audit.old) (made_through sink.new audit.new) }
    ensures failed { sink.new.failed ≡ is_write_fault result }
    ensures no_read_fault { is_read_fault result ≡ false }
    ensures same_sink { sink.new.sink ≡ sink.old.sink }
    ensures same_audit { audit.new.audit ≡ audit.old.audit }
{
    let Bridged { one, two } = bridged;
    let status = tell_sides(&one, &two, sink, audit);
    let_go(one);
    let_go(two);
    status
}

// Shows the services of both sides to the audit, side 1 first, and writes their reports. The run
// took the memory, so nothing can be refused any more.
fn tell_sides<K: Sink, A: Audit>(
    one: &Finished<'_>,
    two: &Finished<'_>,
    sink: &mut SinkGuard<'_, K>,
    audit: &mut AuditGuard<'_, A>,
) -> HostStatus
    requires none_failed { sink.old.failed ≡ false }
    requires untouched { sink.old.untouched ≡ true }
    ensures end { EndsBoth result (histories_of one.now.bus one.now.tables)
        (histories_of two.now.bus two.now.tables) (both_shown one.now two.now)
        (made_through sink.old audit.old) (made_through sink.new audit.new) }
    ensures failed { sink.new.failed ≡ is_write_fault result }
    ensures no_read_fault { is_read_fault result ≡ false }
    ensures same_sink { sink.new.sink ≡ sink.old.sink }
    ensures same_audit { audit.new.audit ≡ audit.old.audit }
{
    audit.closed(&one.bus, &one.tables, sink);
    audit.closed(&two.bus, &two.tables, sink);
    match write_both(one, two, sink) {
        Ok(()) => HostStatus::Done,
        Err(WriteFault) => HostStatus::WriteFault,
    }
}

// Lets a side's services go, part by part: the borrow checker's part of the proof takes these one
// at a time.
fn let_go(side: Finished<'_>) {
    let Finished {
        bus: _bus,
        tables: _tables,
        receipts: _receipts,
    } = side;
}
