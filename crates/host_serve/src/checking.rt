//! Checks of reports.
ghost use Rattle.std.specs.Prelude.{◌≡◌, ◌≤◌, false, true, Ok, length, OnOk, OnErr};
ghost use Rattle.fsw_base.specs.Outside.{Rose};
ghost use Rattle.app_script.specs.Grammar.{grammar};
ghost use Rattle.report_check.specs.Parts.{parts_in};
ghost use Rattle.text_page.specs.Pieces.{Grew, CutShort};
ghost use Rattle.host_report.specs.Audit.{GuardedAudit};
ghost use Rattle.host_serve.specs.Checking.{illegal_text, legal_text};
ghost use Rattle.host_serve.specs.Serve.{EndsChecked, EndsParts, EndsText, EndsVerdict, Judges, fed_through, made_through};
ghost use Rattle.host_serve.specs.Status.{is_read_fault, is_write_fault};

use crate::fault_line::{TOO_LARGE, refuse, tell_missing};
use crate::memory::Memory;
use crate::reading::{Reading, read_all};
use crate::status::HostStatus;
use app_script::Script;
use fsw_base::{Sink, SinkGuard, Source, SourceGuard, WriteFault};
use report_check::parts_of;
use run_check::Judgement;
use text_page::{Page, finish, put, put_number, write_text};

// The most bytes that `check` takes.
const MAX_CHECKED: usize = 33_554_432;

/// Reads a script, a line `---` and a report, of at most 33,554,432 bytes in all, and writes
/// whether the report is that of a run of the script: `legal`, or `illegal:N` with the number of
/// the first line up to which it isn't, from 1.
///
/// - `Script`, if the input is longer, or the part before the first line `---` is no script; the
///   line of the first fault is written. At most one byte more than these is read.
/// - `MissingPart`, if no line is `---`; the line `script:0:MissingPart` is written.
/// - `ReadFault`, `WriteFault` and `NoMemory` as in `serve`.
pub(crate) fn check_input<S: Source, K: Sink>(
    memory: &mut Memory,
    source: &mut SourceGuard<'_, S>,
    sink: &mut SinkGuard<'_, K>,
) -> HostStatus
    requires no_read_failed { source.old.failed ≡ false }
    requires no_write_failed { sink.old.failed ≡ false }
    ensures end { (audit : GuardedAudit) →
        Judges result (fed_through source.old) (fed_through source.new)
        (made_through sink.old audit) (made_through sink.new audit) }
    ensures read_failed { source.new.failed ≡ is_read_fault result }
    ensures write_failed { sink.new.failed ≡ is_write_fault result }
    ensures same_source { source.new.source ≡ source.old.source }
    ensures same_sink { sink.new.sink ≡ sink.old.sink }
{
    let Some(room) = memory.room(MAX_CHECKED + 1) else {
        return HostStatus::NoMemory(memory.refusal());
    };
    match read_all(room, MAX_CHECKED, source) {
        Reading::Whole(input) => check_parts(memory, &input, sink),
        Reading::TooLarge => refuse(sink, TOO_LARGE),
        Reading::Fault => HostStatus::ReadFault,
    }
}

// Judges the report in an input, or writes the fault of this.
fn check_parts<K: Sink>(
    memory: &mut Memory,
    input: &[u8],
    sink: &mut SinkGuard<'_, K>,
) -> HostStatus
    requires { sink.old.failed ≡ false }
    ensures end { (audit : GuardedAudit) →
        EndsParts result (parts_in input.now) (made_through sink.old audit)
        (made_through sink.new audit) }
    ensures failed { sink.new.failed ≡ is_write_fault result }
    ensures no_read_fault { is_read_fault result ≡ false }
    ensures same_sink { sink.new.sink ≡ sink.old.sink }
{
    match parts_of(input) {
        Some((text, report)) => check_report(memory, text, report, sink),
        None => tell_missing(sink),
    }
}

// Judges a report by the text before it, or writes why this is no script.
fn check_report<K: Sink>(
    memory: &mut Memory,
    text: &[u8],
    report: &[u8],
    sink: &mut SinkGuard<'_, K>,
) -> HostStatus
    requires { sink.old.failed ≡ false }
    ensures end { (audit : GuardedAudit) →
        EndsChecked result (grammar text.now) report.now (made_through sink.old audit)
        (made_through sink.new audit) }
    ensures failed { sink.new.failed ≡ is_write_fault result }
    ensures no_read_fault { is_read_fault result ≡ false }
    ensures same_sink { sink.new.sink ≡ sink.old.sink }
{
    match memory.script(text) {
        Some(Ok(script)) => judge(memory, &script, report, sink),
        Some(Err(fault)) => refuse(sink, fault),
        None => HostStatus::NoMemory(memory.refusal()),
    }
}

// Judges a report by its script.
fn judge<K: Sink>(
    memory: &mut Memory,
    script: &Script,
    report: &[u8],
    sink: &mut SinkGuard<'_, K>,
) -> HostStatus
    requires { sink.old.failed ≡ false }
    ensures end { (audit : GuardedAudit) →
        EndsChecked result (Ok script.now) report.now (made_through sink.old audit)
        (made_through sink.new audit) }
    ensures failed { sink.new.failed ≡ is_write_fault result }
    ensures no_read_fault { is_read_fault result ≡ false }
    ensures same_sink { sink.new.sink ≡ sink.old.sink }
{
    match memory.verdict(script, report) {
        Some(verdict) => tell_verdict(verdict, sink),
        None => HostStatus::NoMemory(memory.refusal()),
    }
}

// Writes a verdict.
fn tell_verdict<K: Sink>(verdict: Judgement, sink: &mut SinkGuard<'_, K>) -> HostStatus
    requires { sink.old.failed ≡ false }
    ensures end { (audit : GuardedAudit) →
        EndsVerdict result verdict (made_through sink.old audit) (made_through sink.new audit) }
    ensures failed { sink.new.failed ≡ is_write_fault result }
    ensures no_read_fault { is_read_fault result ≡ false }
    ensures same_sink { sink.new.sink ≡ sink.old.sink }
{
    match verdict {
        Judgement::Yes => tell_legal(sink),
        Judgement::No(line) => tell_illegal(line, sink),
    }
}

// Writes that a report is a run's.
fn tell_legal<K: Sink>(sink: &mut SinkGuard<'_, K>) -> HostStatus
    requires { sink.old.failed ≡ false }
    ensures end { (audit : GuardedAudit) →
        EndsText HostStatus.Done result legal_text ⊥ (made_through sink.old audit)
        (made_through sink.new audit) }
    ensures failed { sink.new.failed ≡ is_write_fault result }
    ensures no_read_fault { is_read_fault result ≡ false }
    ensures same_sink { sink.new.sink ≡ sink.old.sink }
{
    match write_text(sink, b"legal\n") {
        Ok(()) => HostStatus::Done,
        Err(WriteFault) => HostStatus::WriteFault,
    }
}

// Writes which line is the first wrong one.
fn tell_illegal<K: Sink>(line: u32, sink: &mut SinkGuard<'_, K>) -> HostStatus
    requires { sink.old.failed ≡ false }
    ensures end { (audit : GuardedAudit) →
        EndsText (HostStatus.Illegal line) result (illegal_text line) ⊥
        (made_through sink.old audit) (made_through sink.new audit) }
    ensures failed { sink.new.failed ≡ is_write_fault result }
    ensures no_read_fault { is_read_fault result ≡ false }
    ensures same_sink { sink.new.sink ≡ sink.old.sink }
{
    match write_illegal(sink, line) {
        Ok(()) => HostStatus::Illegal(line),
        Err(WriteFault) => HostStatus::WriteFault,
    }
}

// Writes the line of a first wrong line. No write through this guard may have failed before.
fn write_illegal<K: Sink>(sink: &mut SinkGuard<'_, K>, line: u32) -> Result<(), WriteFault>
    requires { sink.old.failed ≡ false }
    ensures ok { OnOk result (Grew sink.old.written sink.new.written (illegal_text line)) }
    ensures none_failed { OnOk result (sink.new.failed ≡ false) }
    ensures err { OnErr result (CutShort sink.old.written sink.new.written (illegal_text line)) }
    ensures failed { OnErr result (sink.new.failed ≡ true) }
    ensures cause { OnErr result (Rose sink.old.faults sink.new.faults) }
    ensures never_falls { sink.old.faults ≤ sink.new.faults }
    ensures same_sink { sink.new.sink ≡ sink.old.sink }
{
    let mut page = Page::new();
    put(sink, &mut page, b"illegal:");
    put_number(sink, &mut page, line);
    put(sink, &mut page, b"\n");
    finish(sink, &mut page)
}
