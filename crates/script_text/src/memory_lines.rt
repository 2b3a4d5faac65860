//! The lines of buffers and of memory pools.
ghost use Rattle.text_page.specs.Pieces.{Puts};
ghost use Rattle.script_lines.specs.declared.line.Line.TheVariants.{Allocate, TransmitBuffer, PoolCreate, PoolGet, PoolPut, Form, Put};
ghost use Rattle.script_text.specs.Spelling.{line_text};

use crate::spelled_words::{put_bytes_word, put_figure, put_id_word, put_mode_word, put_register};
use fsw_base::{Sink, SinkGuard};
use text_page::{Page, put};
/// Puts the line of `alloc`.
pub(crate) fn put_allocate<K: Sink>(
    sink: &mut SinkGuard<'_, K>,
    page: &mut Page,
    buf: u32,
    size: u32,
)
    ensures { Puts sink.old sink.new page.old page.new (line_text (Allocate buf size)) }
{
    put(sink, page, b"alloc");
    put_register(sink, page, b'b', buf);
    put_figure(sink, page, size);
}

/// Puts the line of `xmit`.
pub(crate) fn put_transmit_buffer<K: Sink>(
    sink: &mut SinkGuard<'_, K>,
    page: &mut Page,
    buf: u32,
    inc: bool,
)
    ensures { Puts sink.old sink.new page.old page.new (line_text (TransmitBuffer buf inc)) }
{
    put(sink, page, b"xmit");
    put_register(sink, page, b'b', buf);
    put_mode_word(sink, page, inc);
}

/// Puts the line of `pool`.
pub(crate) fn put_pool_create<K: Sink>(
    sink: &mut SinkGuard<'_, K>,
    page: &mut Page,
    pool: u32,
    bytes: u32,
)
    ensures { Puts sink.old sink.new page.old page.new (line_text (PoolCreate pool bytes)) }
{
    put(sink, page, b"pool");
    put_register(sink, page, b'q', pool);
    put_figure(sink, page, bytes);
}

/// Puts the line of `pget`.
pub(crate) fn put_pool_get<K: Sink>(
    sink: &mut SinkGuard<'_, K>,
    page: &mut Page,
    grant: u32,
    pool: u32,
    size: u32,
)
    ensures { Puts sink.old sink.new page.old page.new (line_text (PoolGet grant pool size)) }
{
    put(sink, page, b"pget");
    put_register(sink, page, b'm', grant);
    put_register(sink, page, b'q', pool);
    put_figure(sink, page, size);
}

/// Puts the line of `pput`.
pub(crate) fn put_pool_put<K: Sink>(
    sink: &mut SinkGuard<'_, K>,
    page: &mut Page,
    pool: u32,
    grant: u32,
)
    ensures { Puts sink.old sink.new page.old page.new (line_text (PoolPut pool grant)) }
{
    put(sink, page, b"pput");
    put_register(sink, page, b'q', pool);
    put_register(sink, page, b'm', grant);
}

/// Puts the line of `form`.
pub(crate) fn put_form<K: Sink>(
    sink: &mut SinkGuard<'_, K>,
    page: &mut Page,
    buf: u32,
    id: u16,
    fill: u8,
)
    ensures { Puts sink.old sink.new page.old page.new (line_text (Form buf id fill)) }
{
    put(sink, page, b"form");
    put_register(sink, page, b'b', buf);
    put_id_word(sink, page, id);
    put_figure(sink, page, fill);
}

/// Puts the line of `put`.
pub(crate) fn put_bytes<K: Sink>(
    sink: &mut SinkGuard<'_, K>,
    page: &mut Page,
    buf: u32,
    offset: u32,
    bytes: &[u8],
)
    ensures { Puts sink.old sink.new page.old page.new (line_text (Put buf offset bytes.now)) }
{
    put(sink, page, b"put");
    put_register(sink, page, b'b', buf);
    put_figure(sink, page, offset);
    put_bytes_word(sink, page, bytes);
}
