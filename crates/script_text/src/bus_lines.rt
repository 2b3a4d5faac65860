//! The lines of pipes, subscriptions and messages.
ghost use Rattle.text_page.specs.Pieces.{Puts};
ghost use Rattle.script_lines.specs.declared.line.Line.TheVariants.{Create, SetOpts, Find, Subscribe, Unsubscribe, Send, SendRaw};
ghost use Rattle.script_text.specs.Spelling.{line_text};

use crate::spelled_words::{
    put_bytes_word, put_figure, put_id_word, put_mode_word, put_name_word, put_register,
    put_scope_word,
};
use fsw_base::{Scope, Sink, SinkGuard};
use text_page::{Page, put};
/// Puts the line of `create`.
pub(crate) fn put_create<K: Sink>(
    sink: &mut SinkGuard<'_, K>,
    page: &mut Page,
    pipe: u32,
    depth: u32,
    name: &[u8],
)
    ensures { Puts sink.old sink.new page.old page.new (line_text (Create pipe depth name.now)) }
{
    put(sink, page, b"create");
    put_register(sink, page, b'p', pipe);
    put_figure(sink, page, depth);
    put_name_word(sink, page, name);
}

/// Puts the line of `opts`.
pub(crate) fn put_opts<K: Sink>(sink: &mut SinkGuard<'_, K>, page: &mut Page, pipe: u32, bits: u8)
    ensures { Puts sink.old sink.new page.old page.new (line_text (SetOpts pipe bits)) }
{
    put(sink, page, b"opts");
    put_register(sink, page, b'p', pipe);
    put_figure(sink, page, bits);
}

/// Puts the line of `find`.
pub(crate) fn put_find<K: Sink>(
    sink: &mut SinkGuard<'_, K>,
    page: &mut Page,
    pipe: u32,
    name: &[u8],
)
    ensures { Puts sink.old sink.new page.old page.new (line_text (Find pipe name.now)) }
{
    put(sink, page, b"find");
    put_register(sink, page, b'p', pipe);
    put_name_word(sink, page, name);
}

/// Puts the line of `sub`.
pub(crate) fn put_subscribe<K: Sink>(
    sink: &mut SinkGuard<'_, K>,
    page: &mut Page,
    id: u16,
    pipe: u32,
    limit: u32,
    scope: Scope,
)
    ensures { Puts sink.old sink.new page.old page.new (line_text (Subscribe id pipe limit scope)) }
{
    put(sink, page, b"sub");
    put_id_word(sink, page, id);
    put_register(sink, page, b'p', pipe);
    put_figure(sink, page, limit);
    put_scope_word(sink, page, scope);
}

/// Puts the line of `unsub`.
pub(crate) fn put_unsubscribe<K: Sink>(
    sink: &mut SinkGuard<'_, K>,
    page: &mut Page,
    id: u16,
    pipe: u32,
)
    ensures { Puts sink.old sink.new page.old page.new (line_text (Unsubscribe id pipe)) }
{
    put(sink, page, b"unsub");
    put_id_word(sink, page, id);
    put_register(sink, page, b'p', pipe);
}

/// Puts the line of `send`.
pub(crate) fn put_send<K: Sink>(
    sink: &mut SinkGuard<'_, K>,
    page: &mut Page,
    id: u16,
    size: u32,
    fill: u8,
    inc: bool,
)
    ensures { Puts sink.old sink.new page.old page.new (line_text (Send id size fill inc)) }
{
    put(sink, page, b"send");
    put_id_word(sink, page, id);
    put_figure(sink, page, size);
    put_figure(sink, page, fill);
    put_mode_word(sink, page, inc);
}

/// Puts the line of `sendraw`.
pub(crate) fn put_send_raw<K: Sink>(
    sink: &mut SinkGuard<'_, K>,
    page: &mut Page,
    bytes: &[u8],
    inc: bool,
)
    ensures { Puts sink.old sink.new page.old page.new (line_text (SendRaw bytes.now inc)) }
{
    put(sink, page, b"sendraw");
    put_bytes_word(sink, page, bytes);
    put_mode_word(sink, page, inc);
}
