//! Writing bytes whole: the one place that asks a sink to write.
ghost use Rattle.std.specs.Prelude.{◌≡◌, ℕ, ◌≤◌, false, true, length, OnOk, OnErr};
ghost use Rattle.fsw_base.specs.Outside.{Rose};
ghost use Rattle.text_page.specs.Pieces.{Grew, CutShort};

use fsw_base::{Sink, SinkGuard, WriteAnswer, WriteFault};

/// Writes the bytes in as many calls as the sink needs, and stops at the first that fails. No
/// memory is taken. No write through this guard may have failed before.
///
/// # Errors
/// `WriteFault` only if a write failed, so that the sink's count of faults rose in this call, or
/// stands at its last value; the sink then has a front of the bytes.
pub fn write_text<K: Sink>(sink: &mut SinkGuard<'_, K>, bytes: &[u8]) -> Result<(), WriteFault>
    requires { sink.old.failed ≡ false }
    ensures ok { OnOk result (Grew sink.old.written sink.new.written bytes.now) }
    ensures none_failed { OnOk result (sink.new.failed ≡ false) }
    ensures err { OnErr result (CutShort sink.old.written sink.new.written bytes.now) }
    ensures failed { OnErr result (sink.new.failed ≡ true) }
    ensures cause { OnErr result (Rose sink.old.faults sink.new.faults) }
    ensures never_falls { sink.old.faults ≤ sink.new.faults }
    ensures same_sink { sink.new.sink ≡ sink.old.sink }
{
    let mut taken = 0;
    while taken < bytes.len() {
        match sink.write(&bytes[taken..]) {
            WriteAnswer::Took(count) => taken += count,
            WriteAnswer::Failed => return Err(WriteFault),
        }
    }
    Ok(())
}
