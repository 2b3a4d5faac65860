//! The top call: all that the program does.
ghost use Rattle.std.specs.Prelude.{◌≡◌, Ok, true, false, IfOk, IfErr};
ghost use Rattle.app_run.specs.Runners.{histories_of};
ghost use Rattle.app_script.specs.Grammar.{grammar};
ghost use Rattle.script_text.specs.Generated.{generated};
ghost use Rattle.script_text.specs.ScriptSpelling.{spelled_script};
ghost use Rattle.host_report.specs.Audit.{GuardedAudit};
ghost use Rattle.host_report.specs.Parts.{part_shown};
ghost use Rattle.host_serve.specs.Serve.{Served, Serves, Runs, MakesNothing, fed_by, made_by, fed_through, made_through, outside, EndsInput, EndsScript, EndsRun, EndsText, EndsUsage, IsRead, OnThreads, Rotating, Way};
ghost use Rattle.host_serve.specs.Status.{is_read_fault, is_write_fault};
ghost use Rattle.host_serve.specs.Words.{needs_threads, task_of};

use crate::bridging::serve_bridge;
use crate::checking::check_input;
use crate::fault_line::{TOO_LARGE, refuse};
use crate::images::{pack, show_image};
use crate::memory::Memory;
use crate::reading::{Reading, read_all};
use crate::status::HostStatus;
use crate::words::{Task, Words};
use app_run::Finished;
use app_script::Script;
use bus_words::ReceiptList;
use fsw_base::{Gate, MAX_SCRIPT_BYTES, Sink, SinkGuard, Source, SourceGuard, WriteFault};
use host_report::{Audit, AuditGuard, Part, write_part};
use sb_calls::BusCore;
use script_text::print_script;
use std::alloc::Global;
use std::sync::Wait;
use std::thread::Threads;
use table_images::Head;
use tbl_load::TblCore;
use text_page::write_text;

// Which words the program knows: each of their forms, as `Words::task` reads them.
const USAGE: &[u8] =
    b"usage: run | lockstep | gen N | soak N | check | image | pack NAME OFFSET SUB | bridge\n";

/// By what applications run on threads.
#[derive(Drop)]
pub(crate) struct ByThreads<'a, R, G> {
    /// The runtime.
    pub(crate) rt: &'a R,
    /// The gate round their lines.
    pub(crate) gate: &'a G,
}

/// Does what the words say. On `run` it reads a script from the source to its end, runs each of its
/// applications on a thread of its own, with the gate's calls round each line, shows the bus and
/// its tables to the audit, and writes the report to the sink; this may wait, for messages that the
/// applications send to each other. On `lockstep` it does the same in strict rotation, without
/// threads and without the gate. On `gen N` it reads nothing, and writes the generated script of
/// number N. On `soak N` it reads nothing, runs that script as `lockstep` would, shows both to the
/// audit, and writes the end of the report, from its line `counters` on. N is in decimal, with no
/// needless 0 before it, at most 4294967295. On `image` it reads a table image to its end, and
/// writes `name=NAME offset=N size=N sum=N sub=N`. On `pack NAME OFFSET SUB` it reads a table's
/// bytes, and writes the image of them with this name, of 1 to 39 visible ASCII characters, and
/// with these numbers, which are spelled like N. On `check` it reads a script, a line `---` and a
/// report to the end, and writes `legal` if the report is that of a run of the script, else
/// `illegal:N`, N being the first line up to which it is no run's. On `bridge` it reads a plan of
/// two buses to the end, runs the applications of both on threads with a bridge between them, shows
/// the services of side 1 and then those of side 2 to the audit, and writes `side 1`, the report of
/// side 1, `side 2` and the report of side 2; this may wait, as on `run`.
///
/// - `Usage`, on all other words: nothing is read, and the usage line is written.
/// - `Script`, if the input is no script, on `bridge` no plan, or is longer than 1,048,576
///   bytes, on `bridge` than 2,097,152, on `check` than 33,554,432; at most one byte more than that
///   is read. The line of the first fault is written; by the code, no application ran.
/// - `ReadFault`, only if the source's count of faults rose, or stands at its last value:
///   nothing is written.
/// - `WriteFault`, only if the sink's count of faults rose, or stands at its last value: a front
///   of the text due is written.
/// - `NoMemory`, never on other words, and only after a request for memory was refused: nothing is
///   written; by the code, no application ran.
/// - `MissingPart`, on `check` if no line is `---`, and on `bridge` if fewer than two are;
///   the line `script:0:MissingPart` is written.
/// - `Illegal`, on `check` if the report is no run's.
/// - `Image`, on `image` if the input is no table image, and on `pack` if it has no byte; on
///   both if it has more than 1,048,576 bytes of a table. The line of the fault is written.
///
/// On all words but `run` and `bridge` it is [`serve_alone`], which returns. On `gen N` and
/// `soak N` no answer but `Done`, `WriteFault` and `NoMemory` comes.
pub fn serve<R: Threads + Wait + Sync, S: Source, K: Sink, G: Gate, A: Audit>(
    rt: &R,
    alloc: Global,
    words: &Words,
    source: &mut S,
    sink: &mut K,
    gate: &G,
    audit: &mut A,
) -> HostStatus
    // Whatever the interleaving, the report prints one history for each service that merges the
    // applications' calls, each once and in script order, and what follows of it (`headline_on_run`
    // and `headline`). The other fields say what was read, written and shown, by how it ended, and
    // why it ended so.
    ensures { let before = outside S.left S.faults K.written K.faults A.shown
        source.old sink.old audit.old in
        let after = outside S.left S.faults K.written K.faults A.shown
        source.new sink.new audit.new in
        Served (task_of words.now) result before after }
{
    if !words.need_threads() {
        return serve_alone(alloc, words, source, sink, audit);
    }
    let threads = ByThreads { rt, gate };
    serve_guarded(&threads, Memory::new(alloc), words, source, sink, audit)
}

/// [`serve`], on all words but `run` and `bridge`. It has neither a runtime nor a gate, so it waits
/// for nothing, and returns.
pub fn serve_alone<S: Source, K: Sink, A: Audit>(
    alloc: Global,
    words: &Words,
    source: &mut S,
    sink: &mut K,
    audit: &mut A,
) -> HostStatus
    requires { needs_threads (task_of words.now) ≡ false }
    ensures { let before = outside S.left S.faults K.written K.faults A.shown
        source.old sink.old audit.old in
        let after = outside S.left S.faults K.written K.faults A.shown
        source.new sink.new audit.new in
        Served (task_of words.now) result before after }
{
    serve_guarded_alone(Memory::new(alloc), words, source, sink, audit)
}

// Does what `run` and `bridge` say, with the source, the sink and the audit behind guards: below
// here they are reached in no other way.
fn serve_guarded<R: Threads + Wait + Sync, G: Gate, S: Source, K: Sink, A: Audit>(
    threads: &ByThreads<'_, R, G>,
    memory: Memory,
    words: &Words,
    source: &mut S,
    sink: &mut K,
    audit: &mut A,
) -> HostStatus
    requires { needs_threads (task_of words.now) ≡ true }
    ensures { Serves (task_of words.now) result
        (fed_by S.left S.faults source.old) (fed_by S.left S.faults source.new)
        (made_by K.written K.faults A.shown sink.old audit.old)
        (made_by K.written K.faults A.shown sink.new audit.new) }
{
    let mut source = SourceGuard::new(source);
    let mut sink = SinkGuard::new(sink);
    let mut audit = AuditGuard::new(audit);
    let status = serve_words(threads, memory, words, &mut source, &mut sink, &mut audit);
    let _source = source.into_inner();
    let _sink = sink.into_inner();
    let _audit = audit.into_inner();
    status
}

// The same for all other words.
fn serve_guarded_alone<S: Source, K: Sink, A: Audit>(
    memory: Memory,
    words: &Words,
    source: &mut S,
    sink: &mut K,
    audit: &mut A,
) -> HostStatus
    requires { needs_threads (task_of words.now) ≡ false }
    ensures { Serves (task_of words.now) result
        (fed_by S.left S.faults source.old) (fed_by S.left S.faults source.new)
        (made_by K.written K.faults A.shown sink.old audit.old)
        (made_by K.written K.faults A.shown sink.new audit.new) }
{
    let mut source = SourceGuard::new(source);
    let mut sink = SinkGuard::new(sink);
    let mut audit = AuditGuard::new(audit);
    let status = serve_words_alone(memory, words, &mut source, &mut sink, &mut audit);
    let _source = source.into_inner();
    let _sink = sink.into_inner();
    let _audit = audit.into_inner();
    status
}

// Does what `run` and `bridge` say.
fn serve_words<R: Threads + Wait + Sync, G: Gate, S: Source, K: Sink, A: Audit>(
    threads: &ByThreads<'_, R, G>,
    memory: Memory,
    words: &Words,
    source: &mut SourceGuard<'_, S>,
    sink: &mut SinkGuard<'_, K>,
    audit: &mut AuditGuard<'_, A>,
) -> HostStatus
    requires threads { needs_threads (task_of words.now) ≡ true }
    requires no_read_failed { source.old.failed ≡ false }
    requires no_write_failed { sink.old.failed ≡ false }
    requires untouched { sink.old.untouched ≡ true }
    ensures serves { Serves (task_of words.now) result
        (fed_through source.old) (fed_through source.new)
        (made_through sink.old audit.old) (made_through sink.new audit.new) }
    ensures read_failed { source.new.failed ≡ is_read_fault result }
    ensures write_failed { sink.new.failed ≡ is_write_fault result }
    ensures same_source { source.new.source ≡ source.old.source }
    ensures same_sink { sink.new.sink ≡ sink.old.sink }
    ensures same_audit { audit.new.audit ≡ audit.old.audit }
{
    match words.task() {
        Some(Task::Run) => serve_on_threads(threads, memory, source, sink, audit),
        Some(Task::Bridge) => serve_bridge(threads, memory, source, sink, audit),
        _ => unreachable!(),
    }
}

// Runs the script that the source gives, each application on a thread.
fn serve_on_threads<R: Threads + Wait + Sync, G: Gate, S: Source, K: Sink, A: Audit>(
    threads: &ByThreads<'_, R, G>,
    mut memory: Memory,
    source: &mut SourceGuard<'_, S>,
    sink: &mut SinkGuard<'_, K>,
    audit: &mut AuditGuard<'_, A>,
) -> HostStatus
    requires no_read_failed { source.old.failed ≡ false }
    requires no_write_failed { sink.old.failed ≡ false }
    requires untouched { sink.old.untouched ≡ true }
    ensures end { Runs OnThreads result (fed_through source.old) (fed_through source.new)
        (made_through sink.old audit.old) (made_through sink.new audit.new) }
    ensures read_failed { source.new.failed ≡ is_read_fault result }
    ensures write_failed { sink.new.failed ≡ is_write_fault result }
    ensures same_source { source.new.source ≡ source.old.source }
    ensures same_sink { sink.new.sink ≡ sink.old.sink }
    ensures same_audit { audit.new.audit ≡ audit.old.audit }
{
    match read_input(&mut memory, source, sink) {
        Ok(script) => serve_script_on_threads(threads, memory, &script, sink, audit),
        Err(status) => status,
    }
}

// Does what all words but `run` and `bridge` say.
fn serve_words_alone<S: Source, K: Sink, A: Audit>(
    mut memory: Memory,
    words: &Words,
    source: &mut SourceGuard<'_, S>,
    sink: &mut SinkGuard<'_, K>,
    audit: &mut AuditGuard<'_, A>,
) -> HostStatus
    requires alone { needs_threads (task_of words.now) ≡ false }
    requires no_read_failed { source.old.failed ≡ false }
    requires no_write_failed { sink.old.failed ≡ false }
    requires untouched { sink.old.untouched ≡ true }
    ensures serves { Serves (task_of words.now) result
        (fed_through source.old) (fed_through source.new)
        (made_through sink.old audit.old) (made_through sink.new audit.new) }
    ensures read_failed { source.new.failed ≡ is_read_fault result }
    ensures write_failed { sink.new.failed ≡ is_write_fault result }
    ensures same_source { source.new.source ≡ source.old.source }
    ensures same_sink { sink.new.sink ≡ sink.old.sink }
    ensures same_audit { audit.new.audit ≡ audit.old.audit }
{
    match words.task() {
        Some(Task::Lockstep) => rotate(memory, source, sink, audit),
        Some(Task::Generate(number)) => write_generated(&mut memory, number, sink),
        Some(Task::Soak(number)) => soak(memory, number, sink, audit),
        Some(Task::Check) => check_input(&mut memory, source, sink),
        Some(Task::ShowImage) => show_image(&mut memory, source, sink),
        Some(Task::Pack { name, offset, sub }) => {
            let head = Head {
                name: name.as_slice(),
                offset,
                sub,
            };
            pack(&mut memory, &head, source, sink)
        }
        None => tell_usage(sink),
        Some(Task::Run | Task::Bridge) => unreachable!(),
    }
}

// Runs the script that the source gives in rotation.
fn rotate<S: Source, K: Sink, A: Audit>(
    mut memory: Memory,
    source: &mut SourceGuard<'_, S>,
    sink: &mut SinkGuard<'_, K>,
    audit: &mut AuditGuard<'_, A>,
) -> HostStatus
    requires no_read_failed { source.old.failed ≡ false }
    requires no_write_failed { sink.old.failed ≡ false }
    requires untouched { sink.old.untouched ≡ true }
    ensures end { Runs Rotating result (fed_through source.old) (fed_through source.new)
        (made_through sink.old audit.old) (made_through sink.new audit.new) }
    ensures read_failed { source.new.failed ≡ is_read_fault result }
    ensures write_failed { sink.new.failed ≡ is_write_fault result }
    ensures same_source { source.new.source ≡ source.old.source }
    ensures same_sink { sink.new.sink ≡ sink.old.sink }
    ensures same_audit { audit.new.audit ≡ audit.old.audit }
{
    match read_input(&mut memory, source, sink) {
        Ok(script) => rotate_script(memory, &script, Part::Whole, sink, audit),
        Err(status) => status,
    }
}

// Reads the source to its end. If it gives no script, the answer is how the program ends, once
// the fault was written.
fn read_input<S: Source, K: Sink>(
    memory: &mut Memory,
    source: &mut SourceGuard<'_, S>,
    sink: &mut SinkGuard<'_, K>,
) -> Result<Script, HostStatus>
    requires no_read_failed { source.old.failed ≡ false }
    requires no_write_failed { sink.old.failed ≡ false }
    ensures script { IfOk result (λ script. IsRead script source.old.left source.new.left) }
    ensures none_written { IfOk result (λ script. sink.new ≡ sink.old) }
    ensures not_failed { IfOk result (λ script. source.new.failed ≡ false) }
    ensures end { IfErr result (λ status. (how : Way) (audit : GuardedAudit) →
        Runs how status (fed_through source.old) (fed_through source.new)
        (made_through sink.old audit) (made_through sink.new audit)) }
    ensures read_failed { IfErr result (λ status. source.new.failed ≡ is_read_fault status) }
    ensures write_failed { IfErr result (λ status. sink.new.failed ≡ is_write_fault status) }
    ensures same_source { source.new.source ≡ source.old.source }
    ensures same_sink { sink.new.sink ≡ sink.old.sink }
{
    let Some(room) = memory.room(MAX_SCRIPT_BYTES + 1) else {
        return Err(HostStatus::NoMemory(memory.refusal()));
    };
    match read_all(room, MAX_SCRIPT_BYTES, source) {
        Reading::Whole(text) => script_of(memory, &text, sink),
        Reading::TooLarge => Err(refuse(sink, TOO_LARGE)),
        Reading::Fault => Err(HostStatus::ReadFault),
    }
}

// The text as a script; if it is none, how the program ends once the fault was written.
fn script_of<K: Sink>(
    memory: &mut Memory,
    text: &[u8],
    sink: &mut SinkGuard<'_, K>,
) -> Result<Script, HostStatus>
    requires { sink.old.failed ≡ false }
    ensures script { IfOk result (λ script. grammar text.now ≡ Ok script) }
    ensures none_written { IfOk result (λ script. sink.new ≡ sink.old) }
    ensures end { IfErr result (λ status. (how : Way) (audit : GuardedAudit) →
        EndsInput status how (grammar text.now) (made_through sink.old audit)
        (made_through sink.new audit)) }
    ensures failed { IfErr result (λ status. sink.new.failed ≡ is_write_fault status) }
    ensures no_read_fault { IfErr result (λ status. is_read_fault status ≡ false) }
    ensures same_sink { sink.new.sink ≡ sink.old.sink }
{
    match memory.script(text) {
        Some(Ok(script)) => Ok(script),
        Some(Err(fault)) => Err(refuse(sink, fault)),
        None => Err(HostStatus::NoMemory(memory.refusal())),
    }
}

// Writes the generated script of a number.
fn write_generated<K: Sink>(
    memory: &mut Memory,
    number: u32,
    sink: &mut SinkGuard<'_, K>,
) -> HostStatus
    requires { sink.old.failed ≡ false }
    ensures end { (audit : GuardedAudit) →
        EndsText HostStatus.Done result (spelled_script (generated number))
        (MakesNothing (made_through sink.old audit) (made_through sink.new audit))
        (made_through sink.old audit) (made_through sink.new audit) }
    ensures failed { sink.new.failed ≡ is_write_fault result }
    ensures no_read_fault { is_read_fault result ≡ false }
    ensures same_sink { sink.new.sink ≡ sink.old.sink }
{
    let Some(script) = memory.generated_script(number) else {
        return HostStatus::NoMemory(memory.refusal());
    };
    match print_script(&script, sink) {
        Ok(()) => HostStatus::Done,
        Err(WriteFault) => HostStatus::WriteFault,
    }
}

// Runs the generated script of a number in rotation, and writes the end of its report.
fn soak<K: Sink, A: Audit>(
    mut memory: Memory,
    number: u32,
    sink: &mut SinkGuard<'_, K>,
    audit: &mut AuditGuard<'_, A>,
) -> HostStatus
    requires none_failed { sink.old.failed ≡ false }
    requires untouched { sink.old.untouched ≡ true }
    ensures end { EndsScript result Rotating Part.Ending (generated number)
        (made_through sink.old audit.old) (made_through sink.new audit.new) }
    ensures failed { sink.new.failed ≡ is_write_fault result }
    ensures no_read_fault { is_read_fault result ≡ false }
    ensures same_sink { sink.new.sink ≡ sink.old.sink }
    ensures same_audit { audit.new.audit ≡ audit.old.audit }
{
    let Some(script) = memory.generated_script(number) else {
        return HostStatus::NoMemory(memory.refusal());
    };
    rotate_script(memory, &script, Part::Ending, sink, audit)
}

// Runs the script in rotation, shows both services to the audit, and writes so much of its report.
fn rotate_script<K: Sink, A: Audit>(
    mut memory: Memory,
    script: &Script,
    part: Part,
    sink: &mut SinkGuard<'_, K>,
    audit: &mut AuditGuard<'_, A>,
) -> HostStatus
    requires none_failed { sink.old.failed ≡ false }
    requires untouched { sink.old.untouched ≡ true }
    ensures end { EndsScript result Rotating part script.now (made_through sink.old audit.old)
        (made_through sink.new audit.new) }
    ensures failed { sink.new.failed ≡ is_write_fault result }
    ensures no_read_fault { is_read_fault result ≡ false }
    ensures same_sink { sink.new.sink ≡ sink.old.sink }
    ensures same_audit { audit.new.audit ≡ audit.old.audit }
{
    let Some(mut regions) = memory.regions(script.config()) else {
        return HostStatus::NoMemory(memory.refusal());
    };
    match memory.run_in_rotation(script, &mut regions) {
        Ok(
            Finished {
                bus,
                tables,
                receipts,
            },
        ) => { tell_run(&bus, &tables, receipts.as_slice(), part, sink, audit) }
        Err(refusal) => HostStatus::NoMemory(refusal),
    }
}

// Runs the script on threads, shows both services to the audit, and writes its report.
fn serve_script_on_threads<R: Threads + Wait + Sync, G: Gate, K: Sink, A: Audit>(
    threads: &ByThreads<'_, R, G>,
    mut memory: Memory,
    script: &Script,
    sink: &mut SinkGuard<'_, K>,
    audit: &mut AuditGuard<'_, A>,
) -> HostStatus
    requires none_failed { sink.old.failed ≡ false }
    requires untouched { sink.old.untouched ≡ true }
    ensures end { EndsScript result OnThreads Part.Whole script.now
        (made_through sink.old audit.old) (made_through sink.new audit.new) }
    ensures failed { sink.new.failed ≡ is_write_fault result }
    ensures no_read_fault { is_read_fault result ≡ false }
    ensures same_sink { sink.new.sink ≡ sink.old.sink }
    ensures same_audit { audit.new.audit ≡ audit.old.audit }
{
    let Some(mut regions) = memory.regions(script.config()) else {
        return HostStatus::NoMemory(memory.refusal());
    };
    match memory.run_on_threads(threads.rt, script, &mut regions, threads.gate) {
        Ok(
            Finished {
                bus,
                tables,
                receipts,
            },
        ) => { tell_run(&bus, &tables, receipts.as_slice(), Part::Whole, sink, audit) }
        Err(refusal) => HostStatus::NoMemory(refusal),
    }
}

// Shows both services to the audit, and writes so much of their report. The run took the memory, so
// nothing can be refused any more.
fn tell_run<K: Sink, A: Audit>(
    bus: &BusCore<'_>,
    tables: &TblCore<'_>,
    receipts: &[ReceiptList],
    part: Part,
    sink: &mut SinkGuard<'_, K>,
    audit: &mut AuditGuard<'_, A>,
) -> HostStatus
    requires none_failed { sink.old.failed ≡ false }
    requires untouched { sink.old.untouched ≡ true }
    ensures end { EndsRun result (histories_of bus.now tables.now)
        (part_shown part bus.now tables.now receipts.now) (made_through sink.old audit.old)
        (made_through sink.new audit.new) }
    ensures failed { sink.new.failed ≡ is_write_fault result }
    ensures no_read_fault { is_read_fault result ≡ false }
    ensures same_sink { sink.new.sink ≡ sink.old.sink }
    ensures same_audit { audit.new.audit ≡ audit.old.audit }
{
    audit.closed(bus, tables, sink);
    match write_part(bus, tables, receipts, part, sink) {
        Ok(()) => HostStatus::Done,
        Err(WriteFault) => HostStatus::WriteFault,
    }
}

// Writes which words the program knows.
fn tell_usage<K: Sink>(sink: &mut SinkGuard<'_, K>) -> HostStatus
    requires { sink.old.failed ≡ false }
    ensures end { (audit : GuardedAudit) →
        EndsUsage result (made_through sink.old audit) (made_through sink.new audit) }
    ensures failed { sink.new.failed ≡ is_write_fault result }
    ensures no_read_fault { is_read_fault result ≡ false }
    ensures same_sink { sink.new.sink ≡ sink.old.sink }
{
    match write_text(sink, USAGE) {
        Ok(()) => HostStatus::Usage,
        Err(WriteFault) => HostStatus::WriteFault,
    }
}
