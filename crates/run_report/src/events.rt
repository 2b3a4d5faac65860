//! The lines on the event log.
ghost use Rattle.std.specs.Prelude.{◌≡◌, ◌≤◌, false, true, OnOk, OnErr};
ghost use Rattle.fsw_base.specs.Outside.{Rose};
ghost use Rattle.evs_events.specs.Views.{line_shown};
ghost use Rattle.text_page.specs.Pieces.{CutShort, Grew, Puts};
ghost use Rattle.run_report.specs.EventText.{behind_blank, log_line_text, log_text};

use evs_events::{EventDesk, LogLine};
use fsw_base::{Sink, SinkGuard, WriteFault};
use text_page::{Page, finish, put, put_number};

/// Puts the lines of the event log, the oldest first.
pub fn put_log<K: Sink>(sink: &mut SinkGuard<'_, K>, page: &mut Page, desk: &EventDesk)
    ensures { Puts sink.old sink.new page.old page.new (log_text desk.now.log) }
{
    for i in 0..desk.log_len() {
        put_log_line(sink, page, &desk.log_at(i));
    }
}

/// Writes the line of one event.
///
/// No memory is taken. No write through this guard may have failed before.
///
/// # Errors
/// `WriteFault` as [`crate::write_report`].
pub fn write_log_line<K: Sink>(
    line: &LogLine<'_>,
    sink: &mut SinkGuard<'_, K>,
) -> Result<(), WriteFault>
    requires { sink.old.failed ≡ false }
    ensures ok { OnOk result (Grew sink.old.written sink.new.written
        (log_line_text (line_shown line.now))) }
    ensures none_failed { OnOk result (sink.new.failed ≡ false) }
    ensures err { OnErr result (CutShort sink.old.written sink.new.written
        (log_line_text (line_shown line.now))) }
    ensures failed { OnErr result (sink.new.failed ≡ true) }
    ensures cause { OnErr result (Rose sink.old.faults sink.new.faults) }
    ensures never_falls { sink.old.faults ≤ sink.new.faults }
    ensures same_sink { sink.new.sink ≡ sink.old.sink }
{
    let mut page = Page::new();
    put_log_line(sink, &mut page, line);
    finish(sink, &mut page)
}

// Puts the line of one event.
fn put_log_line<K: Sink>(sink: &mut SinkGuard<'_, K>, page: &mut Page, line: &LogLine<'_>)
    ensures { Puts sink.old sink.new page.old page.new (log_line_text (line_shown line.now)) }
{
    put(sink, page, b"a");
    put_number(sink, page, line.app);
    put(sink, page, b" ");
    put_number(sink, page, line.id);
    put(sink, page, b" ");
    put_number(sink, page, line.kind.number());
    put_behind_blank(sink, page, line.text);
    put(sink, page, b"\n");
}

// Puts a text with a blank before it; nothing if the text is empty.
fn put_behind_blank<K: Sink>(sink: &mut SinkGuard<'_, K>, page: &mut Page, text: &[u8])
    ensures { Puts sink.old sink.new page.old page.new (behind_blank text.now) }
{
    if !text.is_empty() {
        put(sink, page, b" ");
        put(sink, page, text);
    }
}
