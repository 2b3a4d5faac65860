//! The lines on the calls of the software bus.
ghost use Rattle.std.specs.Prelude.{◌≡◌, ℕ, ◌≤◌, ◌++◌, false, true, codes, decimal, OnOk, OnErr};
ghost use Rattle.fsw_base.specs.Outside.{Rose};
ghost use Rattle.bus_words.specs.declared.history.Call.TheVariants.{Create, Find, Subscribe, Unsubscribe, Transmit, TransmitBuffer, SendEvent};
ghost use Rattle.bus_words.specs.Entries.{call_of, entry_of, lent_of};
ghost use Rattle.text_page.specs.Pieces.{CutShort, Grew, Puts};
ghost use Rattle.run_report.specs.BusText.{scope_text, mode_text, call_text, figures_text, stats_text, answer_text, entry_text, entries_text};

use crate::sums::sum_of;
use bus_words::{BusAnswer, BusCall, BusEntry, BusJournal, LentEntry};
use fsw_base::{AppNo, BusStats, EventKind, PoolStats, Scope, Sink, SinkGuard, WriteFault};
use text_page::{Page, finish, put, put_hex_id, put_name, put_number};

/// Puts the lines of a journal, whose entries are numbered from 1.
pub fn put_entries<K: Sink>(sink: &mut SinkGuard<'_, K>, page: &mut Page, journal: &BusJournal)
    ensures { Puts sink.old sink.new page.old page.new (entries_text journal.now.entries) }
{
    for i in 0..journal.len() {
        put_entry(sink, page, i + 1, &journal.lent(i));
    }
}

/// Writes the line of one entry of the bus, under this number.
///
/// No memory is taken. No write through this guard may have failed before.
///
/// # Errors
/// `WriteFault` as [`crate::write_report`].
pub fn write_bus_entry<K: Sink>(
    number: u32,
    entry: &BusEntry<'_>,
    sink: &mut SinkGuard<'_, K>,
) -> Result<(), WriteFault>
    requires { sink.old.failed ≡ false }
    ensures ok { OnOk result (Grew sink.old.written sink.new.written
        (entry_text number (entry_of entry.now))) }
    ensures none_failed { OnOk result (sink.new.failed ≡ false) }
    ensures err { OnErr result (CutShort sink.old.written sink.new.written
        (entry_text number (entry_of entry.now))) }
    ensures failed { OnErr result (sink.new.failed ≡ true) }
    ensures cause { OnErr result (Rose sink.old.faults sink.new.faults) }
    ensures never_falls { sink.old.faults ≤ sink.new.faults }
    ensures same_sink { sink.new.sink ≡ sink.old.sink }
{
    let mut page = Page::new();
    put_bus_entry(sink, &mut page, number, entry);
    finish(sink, &mut page)
}

/// Puts the line of one entry of the bus, under this number.
pub fn put_bus_entry<K: Sink>(
    sink: &mut SinkGuard<'_, K>,
    page: &mut Page,
    number: u32,
    entry: &BusEntry<'_>,
)
    ensures { Puts sink.old sink.new page.old page.new (entry_text number (entry_of entry.now)) }
{
    put_line(sink, page, number, entry.app, &entry.call, &entry.answer);
}

// Puts the line of one entry of a journal.
fn put_entry<K: Sink>(
    sink: &mut SinkGuard<'_, K>,
    page: &mut Page,
    number: u32,
    entry: &LentEntry<'_>,
)
    ensures { Puts sink.old sink.new page.old page.new (entry_text number (lent_of entry.now)) }
{
    put_line(sink, page, number, entry.app, &entry.call, entry.answer);
}

// Puts the line of an application's call with its answer.
fn put_line<K: Sink>(
    sink: &mut SinkGuard<'_, K>,
    page: &mut Page,
    number: u32,
    app: AppNo,
    call: &BusCall<'_>,
    answer: &BusAnswer,
)
    ensures { Puts sink.old sink.new page.old page.new (entry_text number
        (record { app = app; call = call_of call.now; answer = answer.now })) }
{
    put_number(sink, page, number);
    put(sink, page, b" a");
    put_number(sink, page, app.get());
    put(sink, page, b" ");
    put_call(sink, page, call);
    put(sink, page, b" -> ");
    put_answer(sink, page, answer);
    put(sink, page, b"\n");
}

// Puts a call.
fn put_call<K: Sink>(sink: &mut SinkGuard<'_, K>, page: &mut Page, call: &BusCall<'_>)
    ensures { Puts sink.old sink.new page.old page.new (call_text (call_of call.now)) }
{
    match call {
        BusCall::Create { depth, name } => put_create(sink, page, *depth, name),
        BusCall::Delete { pipe } => put_numbered(sink, page, b"delete ", *pipe),
        BusCall::SetOpts { pipe, bits } => put_pair(sink, page, b"opts ", *pipe, u32::from(*bits)),
        BusCall::GetOpts { pipe } => put_numbered(sink, page, b"getopts ", *pipe),
        BusCall::Find { name } => put_find(sink, page, name),
        BusCall::PipeName { pipe } => put_numbered(sink, page, b"pname ", *pipe),
        BusCall::Subscribe {
            id,
            pipe,
            limit,
            scope,
        } => put_subscribe(sink, page, *id, *pipe, *limit, *scope),
        BusCall::Unsubscribe { id, pipe } => put_unsubscribe(sink, page, *id, *pipe),
        BusCall::Transmit { bytes, inc } => put_transmit(sink, page, bytes, *inc),
        BusCall::Receive { pipe } => put_numbered(sink, page, b"recv ", *pipe),
        BusCall::Pend { pipe } => put_numbered(sink, page, b"pend ", *pipe),
        BusCall::Look { pipe } => put_numbered(sink, page, b"look ", *pipe),
        BusCall::Allocate { size } => put_numbered(sink, page, b"alloc ", *size),
        BusCall::TransmitBuffer { buf, bytes, inc } => {
            put_transmit_buffer(sink, page, *buf, bytes, *inc)
        }
        BusCall::Release { buf } => put_numbered(sink, page, b"release ", *buf),
        BusCall::PoolCreate { bytes } => put_numbered(sink, page, b"pool ", *bytes),
        BusCall::PoolGet { pool, size } => put_pair(sink, page, b"pget ", *pool, *size),
        BusCall::PoolPut { pool, grant } => put_pair(sink, page, b"pput ", *pool, *grant),
        BusCall::PoolFigures { pool } => put_numbered(sink, page, b"pstats ", *pool),
        BusCall::Register { filters } => put_numbered(sink, page, b"evreg ", filters.count()),
        BusCall::SendEvent { id, kind, text } => put_event(sink, page, *id, *kind, text),
        BusCall::ResetFilter { id } => put_numbered(sink, page, b"evreset ", u32::from(*id)),
        BusCall::LogMode { mode } => put_numbered(sink, page, b"logmode ", u32::from(*mode)),
        BusCall::ClearLog => put(sink, page, b"logclear"),
        BusCall::Housekeeping => put(sink, page, b"hk"),
        BusCall::Figures => put(sink, page, b"stats"),
        BusCall::End => put(sink, page, b"end"),
    }
}

// Puts a word, with the blank behind it, and a number.
fn put_numbered<K: Sink>(sink: &mut SinkGuard<'_, K>, page: &mut Page, word: &[u8], number: u32)
    ensures { Puts sink.old sink.new page.old page.new (word.now ++ decimal number) }
{
    put(sink, page, word);
    put_number(sink, page, number);
}

// Puts a create.
fn put_create<K: Sink>(sink: &mut SinkGuard<'_, K>, page: &mut Page, depth: u32, name: &[u8])
    ensures { Puts sink.old sink.new page.old page.new (call_text (Create depth name.now)) }
{
    put_numbered(sink, page, b"create ", depth);
    put(sink, page, b" ");
    put_name(sink, page, name);
}

// Puts a word, with the blank behind it, and two numbers.
fn put_pair<K: Sink>(
    sink: &mut SinkGuard<'_, K>,
    page: &mut Page,
    word: &[u8],
    one: u32,
    other: u32,
)
    ensures { Puts sink.old sink.new page.old page.new
        (word.now ++ decimal one ++ codes " " ++ decimal other) }
{
    put_numbered(sink, page, word, one);
    put(sink, page, b" ");
    put_number(sink, page, other);
}

// Puts a find.
fn put_find<K: Sink>(sink: &mut SinkGuard<'_, K>, page: &mut Page, name: &[u8])
    ensures { Puts sink.old sink.new page.old page.new (call_text (Find name.now)) }
{
    put(sink, page, b"find ");
    put_name(sink, page, name);
}

// Puts a subscribe.
fn put_subscribe<K: Sink>(
    sink: &mut SinkGuard<'_, K>,
    page: &mut Page,
    id: u16,
    pipe: u32,
    limit: u32,
    scope: Scope,
)
    ensures { Puts sink.old sink.new page.old page.new (call_text (Subscribe id pipe limit scope)) }
{
    put(sink, page, b"sub ");
    put_hex_id(sink, page, id);
    put(sink, page, b" ");
    put_number(sink, page, pipe);
    put(sink, page, b" ");
    put_number(sink, page, limit);
    put(sink, page, b" ");
    put_scope(sink, page, scope);
}

// Puts an unsubscribe.
fn put_unsubscribe<K: Sink>(sink: &mut SinkGuard<'_, K>, page: &mut Page, id: u16, pipe: u32)
    ensures { Puts sink.old sink.new page.old page.new (call_text (Unsubscribe id pipe)) }
{
    put(sink, page, b"unsub ");
    put_hex_id(sink, page, id);
    put(sink, page, b" ");
    put_number(sink, page, pipe);
}

// Puts a send: its message's size and the sum of its bytes.
fn put_transmit<K: Sink>(sink: &mut SinkGuard<'_, K>, page: &mut Page, bytes: &[u8], inc: bool)
    ensures { Puts sink.old sink.new page.old page.new (call_text (Transmit bytes.now inc)) }
{
    put(sink, page, b"send ");
    put_number(sink, page, bytes.len());
    put(sink, page, b" ");
    put_number(sink, page, sum_of(bytes));
    put(sink, page, b" ");
    put_mode(sink, page, inc);
}

// Puts a send of a buffer: its number, its size and the sum of its bytes.
fn put_transmit_buffer<K: Sink>(
    sink: &mut SinkGuard<'_, K>,
    page: &mut Page,
    buf: u32,
    bytes: &[u8],
    inc: bool,
)
    ensures { Puts sink.old sink.new page.old page.new
        (call_text (TransmitBuffer buf bytes.now inc)) }
{
    put_numbered(sink, page, b"xmit ", buf);
    put(sink, page, b" ");
    put_number(sink, page, bytes.len());
    put(sink, page, b" ");
    put_number(sink, page, sum_of(bytes));
    put(sink, page, b" ");
    put_mode(sink, page, inc);
}

// Puts an event: its id, its kind and how long its text is.
fn put_event<K: Sink>(
    sink: &mut SinkGuard<'_, K>,
    page: &mut Page,
    id: u16,
    kind: EventKind,
    text: &[u8],
)
    ensures { Puts sink.old sink.new page.old page.new (call_text (SendEvent id kind text.now)) }
{
    put(sink, page, b"event ");
    put_number(sink, page, id);
    put(sink, page, b" ");
    put_number(sink, page, kind.number());
    put(sink, page, b" ");
    put_number(sink, page, text.len());
}

// Puts a subscription's scope.
fn put_scope<K: Sink>(sink: &mut SinkGuard<'_, K>, page: &mut Page, scope: Scope)
    ensures { Puts sink.old sink.new page.old page.new (scope_text scope) }
{
    match scope {
        Scope::Global => put(sink, page, b"global"),
        Scope::Local => put(sink, page, b"local"),
    }
}

// Puts whether a send gives its message the next sequence count.
fn put_mode<K: Sink>(sink: &mut SinkGuard<'_, K>, page: &mut Page, inc: bool)
    ensures { Puts sink.old sink.new page.old page.new (mode_text inc) }
{
    if inc {
        put(sink, page, b"inc");
    } else {
        put(sink, page, b"keep");
    }
}

// Puts the figures of a memory pool.
fn put_figures<K: Sink>(sink: &mut SinkGuard<'_, K>, page: &mut Page, figures: &PoolStats)
    ensures { Puts sink.old sink.new page.old page.new (figures_text figures.now) }
{
    put_number(sink, page, figures.size);
    put(sink, page, b" ");
    put_number(sink, page, figures.requests);
    put(sink, page, b" ");
    put_number(sink, page, figures.errors);
    put(sink, page, b" ");
    put_number(sink, page, figures.free);
}

// Puts the figures of the bus.
fn put_stats<K: Sink>(sink: &mut SinkGuard<'_, K>, page: &mut Page, stats: &BusStats)
    ensures { Puts sink.old sink.new page.old page.new (stats_text stats.now) }
{
    put_number(sink, page, stats.nosub);
    put(sink, page, b" ");
    put_number(sink, page, stats.limit);
    put(sink, page, b" ");
    put_number(sink, page, stats.overflow);
    put(sink, page, b" ");
    put_number(sink, page, stats.buffers);
    put(sink, page, b" ");
    put_number(sink, page, stats.bytes);
}

// Puts an answer.
fn put_answer<K: Sink>(sink: &mut SinkGuard<'_, K>, page: &mut Page, answer: &BusAnswer)
    ensures { Puts sink.old sink.new page.old page.new (answer_text answer.now) }
{
    match answer {
        BusAnswer::Done => put(sink, page, b"CFE_SUCCESS"),
        BusAnswer::Number(number) | BusAnswer::Got(number) => {
            put_numbered(sink, page, b"CFE_SUCCESS ", *number)
        }
        BusAnswer::Name(name) => {
            put(sink, page, b"CFE_SUCCESS ");
            put(sink, page, name.as_slice());
        }
        BusAnswer::Sent { number, reached } => {
            put_numbered(sink, page, b"CFE_SUCCESS ", *number);
            put(sink, page, b" ");
            put_number(sink, page, *reached);
        }
        BusAnswer::TimeOut => put(sink, page, b"CFE_SB_TIME_OUT"),
        BusAnswer::Pending => put(sink, page, b"PENDING"),
        BusAnswer::Pool(figures) => {
            put(sink, page, b"CFE_SUCCESS ");
            put_figures(sink, page, figures);
        }
        BusAnswer::Bus(stats) => {
            put(sink, page, b"CFE_SUCCESS ");
            put_stats(sink, page, stats);
        }
        BusAnswer::Sb(status) => put(sink, page, status.name().as_bytes()),
        BusAnswer::Es(status) => put(sink, page, status.name().as_bytes()),
        BusAnswer::Evs(status) => put(sink, page, status.name().as_bytes()),
    }
}
