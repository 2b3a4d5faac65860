//! Putting a call line.
ghost use Rattle.text_page.specs.Pieces.{Puts};
ghost use Rattle.script_text.specs.Spelling.{line_text};

use crate::bus_lines::{
    put_create, put_find, put_opts, put_send, put_send_raw, put_subscribe, put_unsubscribe,
};
use crate::event_lines::{put_log_mode, put_register_events, put_reset_filter, put_send_event};
use crate::memory_lines::{
    put_allocate, put_bytes, put_form, put_pool_create, put_pool_get, put_pool_put,
    put_transmit_buffer,
};
use crate::spelled_words::put_alone;
use crate::table_lines::{put_load, put_table_register, put_table_share};
use fsw_base::{Sink, SinkGuard};
use script_lines::Line;
use text_page::{Page, put};

/// Puts the one spelling of a call line, without a line end: its words with a space between each
/// two, message ids and masks as `0x` and four hexadecimal digits, bytes as lower-case digits, all
/// other numbers in decimal, and limit, scope and mode even if a script may leave them out.
///
/// By the code, it takes no memory. After a failed write nothing is written any more.
pub fn print_line<K: Sink>(sink: &mut SinkGuard<'_, K>, page: &mut Page, line: &Line)
    ensures { Puts sink.old sink.new page.old page.new (line_text line.now) }
{
    match line {
        Line::Create { pipe, depth, name } => put_create(
            sink,
            page,
            *pipe,
            *depth,
            name.as_slice(),
        ),
        Line::Delete { pipe } => put_alone(sink, page, b"delete", b'p', *pipe),
        Line::SetOpts { pipe, bits } => put_opts(sink, page, *pipe, *bits),
        Line::GetOpts { pipe } => put_alone(sink, page, b"getopts", b'p', *pipe),
        Line::Find { pipe, name } => put_find(sink, page, *pipe, name.as_slice()),
        Line::PipeName { pipe } => put_alone(sink, page, b"pname", b'p', *pipe),
        Line::Subscribe {
            id,
            pipe,
            limit,
            scope,
        } => put_subscribe(sink, page, *id, *pipe, *limit, *scope),
        Line::Unsubscribe { id, pipe } => put_unsubscribe(sink, page, *id, *pipe),
        Line::Send {
            id,
            size,
            fill,
            inc,
        } => put_send(sink, page, *id, *size, *fill, *inc),
        Line::SendRaw { bytes, inc } => put_send_raw(sink, page, bytes.as_slice(), *inc),
        Line::Receive { pipe } => put_alone(sink, page, b"recv", b'p', *pipe),
        Line::Pend { pipe } => put_alone(sink, page, b"pend", b'p', *pipe),
        Line::Allocate { buf, size } => put_allocate(sink, page, *buf, *size),
        Line::TransmitBuffer { buf, inc } => put_transmit_buffer(sink, page, *buf, *inc),
        Line::Release { buf } => put_alone(sink, page, b"release", b'b', *buf),
        Line::PoolCreate { pool, bytes } => put_pool_create(sink, page, *pool, *bytes),
        Line::PoolGet { grant, pool, size } => put_pool_get(sink, page, *grant, *pool, *size),
        Line::PoolPut { pool, grant } => put_pool_put(sink, page, *pool, *grant),
        Line::PoolFigures { pool } => put_alone(sink, page, b"pstats", b'q', *pool),
        Line::Register { filters } => put_register_events(sink, page, filters),
        Line::SendEvent { id, kind, text } => put_send_event(
            sink,
            page,
            *id,
            *kind,
            text.as_slice(),
        ),
        Line::ResetFilter { id } => put_reset_filter(sink, page, *id),
        Line::LogMode { mode } => put_log_mode(sink, page, *mode),
        Line::ClearLog => put(sink, page, b"logclear"),
        Line::Housekeeping => put(sink, page, b"hk"),
        Line::Figures => put(sink, page, b"stats"),
        Line::TableRegister {
            handle,
            name,
            size,
            option,
            rules,
        } => put_table_register(
            sink,
            page,
            *handle,
            name.as_slice(),
            *size,
            *option,
            rules.list(),
        ),
        Line::TableShare { handle, name } => put_table_share(sink, page, *handle, name.as_slice()),
        Line::TableUnregister { handle } => put_alone(sink, page, b"tunreg", b't', *handle),
        Line::Stage {
            handle,
            offset,
            content,
        } => put_load(sink, page, b"tstage", *handle, *offset, content),
        Line::Validate { handle } => put_alone(sink, page, b"tval", b't', *handle),
        Line::Update { handle } => put_alone(sink, page, b"tupd", b't', *handle),
        Line::Abort { handle } => put_alone(sink, page, b"tabort", b't', *handle),
        Line::Load {
            handle,
            offset,
            content,
        } => put_load(sink, page, b"tload", *handle, *offset, content),
        Line::GetAddress { handle } => put_alone(sink, page, b"tget", b't', *handle),
        Line::ReleaseAddress { handle } => put_alone(sink, page, b"trel", b't', *handle),
        Line::Status { handle } => put_alone(sink, page, b"tstat", b't', *handle),
        Line::Form { buf, id, fill } => put_form(sink, page, *buf, *id, *fill),
        Line::Put { buf, offset, bytes } => put_bytes(sink, page, *buf, *offset, bytes.as_slice()),
        Line::ShowPipe { pipe } => put_alone(sink, page, b"show", b'p', *pipe),
        Line::ShowTable { handle } => put_alone(sink, page, b"show", b't', *handle),
    }
}
