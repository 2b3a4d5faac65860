//! The line that tells what is wrong with an input of scripts.
ghost use Rattle.std.specs.Prelude.{◌≡◌, ℕ, ◌≤◌, true, false, OnOk, OnErr};
ghost use Rattle.fsw_base.specs.Outside.{Rose};
ghost use Rattle.text_page.specs.Pieces.{Grew, CutShort};
ghost use Rattle.host_report.specs.Audit.{GuardedAudit};
ghost use Rattle.host_serve.specs.Checking.{missing_text};
ghost use Rattle.host_serve.specs.Serve.{EndsRefused, EndsText, fault_text, made_through};
ghost use Rattle.host_serve.specs.Status.{is_read_fault, is_write_fault};

use crate::status::HostStatus;
use fsw_base::{FaultKind, ScriptFault, Sink, SinkGuard, WriteFault};
use text_page::{Page, finish, put, put_number, write_text};

/// The fault of an input that is longer than any of its word.
pub(crate) const TOO_LARGE: ScriptFault = ScriptFault {
    line: 0,
    kind: FaultKind::TooLarge,
};

/// Writes the line of a fault: `script:LINE:NAME`. No write through this guard may have failed
/// before.
///
/// # Errors
/// `WriteFault` only if a write failed, so that the sink's count of faults rose in this call, or
/// stands at its last value; a front of the line is then written.
pub(crate) fn write_fault<K: Sink>(
    sink: &mut SinkGuard<'_, K>,
    fault: ScriptFault,
) -> Result<(), WriteFault>
    requires { sink.old.failed ≡ false }
    ensures ok { OnOk result (Grew sink.old.written sink.new.written (fault_text fault)) }
    ensures none_failed { OnOk result (sink.new.failed ≡ false) }
    ensures err { OnErr result (CutShort sink.old.written sink.new.written (fault_text fault)) }
    ensures failed { OnErr result (sink.new.failed ≡ true) }
    ensures cause { OnErr result (Rose sink.old.faults sink.new.faults) }
    ensures never_falls { sink.old.faults ≤ sink.new.faults }
    ensures same_sink { sink.new.sink ≡ sink.old.sink }
{
    let mut page = Page::new();
    put(sink, &mut page, b"script:");
    put_number(sink, &mut page, fault.line);
    put(sink, &mut page, b":");
    put(sink, &mut page, fault.kind.name().as_bytes());
    put(sink, &mut page, b"\n");
    finish(sink, &mut page)
}

/// Writes what is wrong with the input.
pub(crate) fn refuse<K: Sink>(sink: &mut SinkGuard<'_, K>, fault: ScriptFault) -> HostStatus
    requires { sink.old.failed ≡ false }
    ensures end { (audit : GuardedAudit) →
        EndsRefused result fault (made_through sink.old audit) (made_through sink.new audit) }
    ensures failed { sink.new.failed ≡ is_write_fault result }
    ensures no_read_fault { is_read_fault result ≡ false }
    ensures same_sink { sink.new.sink ≡ sink.old.sink }
{
    match write_fault(sink, fault) {
        Ok(()) => HostStatus::Script(fault),
        Err(WriteFault) => HostStatus::WriteFault,
    }
}

/// Writes that the input lacks a part.
pub(crate) fn tell_missing<K: Sink>(sink: &mut SinkGuard<'_, K>) -> HostStatus
    requires { sink.old.failed ≡ false }
    ensures end { (audit : GuardedAudit) →
        EndsText HostStatus.MissingPart result missing_text ⊥ (made_through sink.old audit)
        (made_through sink.new audit) }
    ensures failed { sink.new.failed ≡ is_write_fault result }
    ensures no_read_fault { is_read_fault result ≡ false }
    ensures same_sink { sink.new.sink ≡ sink.old.sink }
{
    match write_text(sink, b"script:0:MissingPart\n") {
        Ok(()) => HostStatus::MissingPart,
        Err(WriteFault) => HostStatus::WriteFault,
    }
}
