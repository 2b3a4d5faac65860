//! The lines of events.
ghost use Rattle.std.specs.Prelude.{map};
ghost use Rattle.text_page.specs.Pieces.{Puts};
ghost use Rattle.script_lines.specs.declared.line.Line.TheVariants.{Register, SendEvent, ResetFilter, LogMode};
ghost use Rattle.script_text.specs.Spelling.{line_text, behind, filter_text, text_words};

use crate::spelled_words::{put_figure, put_filter_word, put_word};
use fsw_base::{EventKind, FilterList, Sink, SinkGuard};
use text_page::{Page, put};
/// Puts the line of `evreg`.
pub(crate) fn put_register_events<K: Sink>(
    sink: &mut SinkGuard<'_, K>,
    page: &mut Page,
    filters: &FilterList,
)
    ensures { Puts sink.old sink.new page.old page.new (line_text (Register filters.now)) }
{
    put(sink, page, b"evreg");
    put_filters(sink, page, filters);
}

// Puts filters, each behind a space.
fn put_filters<K: Sink>(sink: &mut SinkGuard<'_, K>, page: &mut Page, filters: &FilterList)
    ensures { Puts sink.old sink.new page.old page.new (behind (map filter_text filters.now)) }
{
    for i in 0..filters.count() {
        put_filter_word(sink, page, filters.at(i));
    }
}

/// Puts the line of `event`; it ends behind the type if there is no text.
pub(crate) fn put_send_event<K: Sink>(
    sink: &mut SinkGuard<'_, K>,
    page: &mut Page,
    id: u16,
    kind: EventKind,
    text: &[u8],
)
    ensures { Puts sink.old sink.new page.old page.new (line_text (SendEvent id kind text.now)) }
{
    put(sink, page, b"event");
    put_figure(sink, page, id);
    put_figure(sink, page, kind.number());
    put_event_text(sink, page, text);
}

// Puts a text behind a space, if there is one.
fn put_event_text<K: Sink>(sink: &mut SinkGuard<'_, K>, page: &mut Page, text: &[u8])
    ensures { Puts sink.old sink.new page.old page.new (behind (text_words text.now)) }
{
    if !text.is_empty() {
        put_word(sink, page, text);
    }
}

/// Puts the line of `evreset`.
pub(crate) fn put_reset_filter<K: Sink>(sink: &mut SinkGuard<'_, K>, page: &mut Page, id: u16)
    ensures { Puts sink.old sink.new page.old page.new (line_text (ResetFilter id)) }
{
    put(sink, page, b"evreset");
    put_figure(sink, page, id);
}

/// Puts the line of `logmode`.
pub(crate) fn put_log_mode<K: Sink>(sink: &mut SinkGuard<'_, K>, page: &mut Page, mode: u8)
    ensures { Puts sink.old sink.new page.old page.new (line_text (LogMode mode)) }
{
    put(sink, page, b"logmode");
    put_figure(sink, page, mode);
}
