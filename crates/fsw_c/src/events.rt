//! Events.
ghost use Rattle.std.specs.Prelude.{◌≡◌, ◌≢◌, ◌≤◌, ◌==◌, length, take, None, IfSome, IfOk, OnErr, slice_get, if◌then◌else◌};
ghost use Rattle.bus_words.specs.declared.history.Call.TheVariants.{Register, SendEvent, ResetFilter, LogMode, ClearLog};
ghost use Rattle.evs_events.specs.Views.{line_shown};
ghost use Rattle.checked_bus.specs.Asked.{unasked, unasked_register, unasked_event, unasked_mode};
ghost use Rattle.fsw_c.specs.Args.{kind_or_debug, pairs_in};
ghost use Rattle.fsw_c.specs.BusAnswers.{BusCall, AtCores};
ghost use Rattle.fsw_c.specs.Figures.{ShowsLine, open_code, line_code, counts_shown, stays_filtered};

use crate::bus_codes::{EVS_INVALID_PARAMETER, code_of_event_call, code_of_plain};
use crate::codes::{CLOSED, SUCCESS};
use crate::handle::FswCore;
use crate::seen::FswBytes;
use arrayvec::ArrayVec;
use checked_bus::Refusal;
use evs_events::{EventDesk, LogLine};
use fsw_base::EvsStatus;
use std::alloc::Global;

// One filter more than a registration takes: of more, so many show that there are too many.
const MOST: usize = 9;

/// A filter: an event of this id passes if its count and the mask have no bit in common.
#[repr(C)]
#[derive(Clone, Copy)]
pub struct FswFilter {
    /// The event's id.
    pub id: u16,
    /// The mask.
    pub mask: u16,
}

// The first filters, at most 9.
fn first_filters(filters: &[FswFilter]) -> &[FswFilter]
    ensures front { result.now ≡ take 9 filters.now }
    ensures few { length result.now ≤ 9 }
{
    if filters.len() > MOST {
        return &filters[..MOST];
    }
    filters
}

// The filters as pairs of an event id and a mask.
fn pairs_of(filters: &[FswFilter]) -> ArrayVec<(u16, u16), MOST>
    requires { length filters.now ≤ 9 }
    ensures { result.items ≡ pairs_in filters.now }
{
    let mut pairs = ArrayVec::new();
    for i in 0..filters.len() {
        pairs.push((filters[i].id, filters[i].mask));
    }
    pairs
}

// Writes 1 if the count of events held back stayed, else 0, if the event was sent.
fn put_passed(
    passed: &mut u32,
    before: u32,
    after: u32,
    answer: &Result<Result<(), EvsStatus>, Refusal>,
)
    ensures written { IfOk answer.now
        (λ sent. IfOk sent (λ nothing. passed.new ≡ (if before == after then 1 else 0))) }
    ensures kept { IfOk answer.now (λ sent. OnErr sent (passed.new ≡ passed.old)) }
    ensures unasked { OnErr answer.now (passed.new ≡ passed.old) }
{
    if let Ok(Ok(())) = answer {
        *passed = u32::from(before == after);
    }
}

/// A line of the event log.
#[repr(C)]
#[derive(Clone, Copy)]
pub struct FswLogLine {
    /// The application, or 0 for the bus.
    pub app: u32,
    /// The event's id.
    pub id: u32,
    /// Its kind, 1 to 4.
    pub kind: u32,
    /// Its text.
    pub text: *const u8,
    /// How many bytes it has.
    pub text_len: usize,
}

impl FswLogLine {
    // This line. Its text is read where it lies.
    fn of(line: LogLine<'_>) -> FswLogLine
        ensures { ShowsLine result (line_shown line.entry) }
    {
        let text = FswBytes::of(line.text);
        FswLogLine {
            app: line.app,
            id: u32::from(line.id),
            kind: u32::from(line.kind.number()),
            text: text.at,
            text_len: text.len,
        }
    }
}

/// What became of events.
#[repr(C)]
#[derive(Clone, Copy)]
pub struct FswEventCounts {
    /// Events that passed.
    pub sent: u32,
    /// Held back by a filter.
    pub filtered: u32,
    /// Passed, with a text over 122 bytes.
    pub cut: u32,
    /// Refused calls.
    pub refused: u32,
    /// Passed, and found the log full.
    pub lost: u32,
    /// Lines that the log has now.
    pub logged: u32,
    /// What a full log drops.
    pub mode: u32,
}

impl FswEventCounts {
    // What the desk counted.
    fn of(desk: &EventDesk) -> FswEventCounts
        ensures { result ≡ counts_shown desk.now }
    {
        let counts = desk.counts();
        FswEventCounts {
            sent: counts.sent,
            filtered: counts.filtered,
            cut: counts.cut,
            refused: counts.refused,
            lost: counts.lost,
            logged: desk.log_len(),
            mode: u32::from(counts.mode),
        }
    }
}

/// Has a filter count from 0.
#[unsafe(no_mangle)]
pub extern "C" fn fsw_raw_reset_filter(alloc: Global, core: &mut FswCore, app: u32, id: u16) -> u32
    ensures call { BusCall core.old.held.value core.new.held.value app (ResetFilter id)
        (λ bus. unasked bus.core app (ResetFilter id)) result }
{
    let Some(mut it) = core.take(alloc) else {
        return CLOSED;
    };
    let answer = it.bus.reset_filter(app, id);
    *core = FswCore::open(it);
    code_of_event_call(&answer)
}

/// Says what a full log drops.
#[unsafe(no_mangle)]
pub extern "C" fn fsw_raw_set_log_mode(alloc: Global, core: &mut FswCore, app: u32, mode: u8) -> u32
    ensures call { BusCall core.old.held.value core.new.held.value app (LogMode mode)
        (λ bus. unasked_mode bus.core app mode) result }
{
    let Some(mut it) = core.take(alloc) else {
        return CLOSED;
    };
    let answer = it.bus.set_log_mode(app, mode);
    *core = FswCore::open(it);
    code_of_plain(&answer)
}

/// Empties the log.
#[unsafe(no_mangle)]
pub extern "C" fn fsw_raw_clear_log(alloc: Global, core: &mut FswCore, app: u32) -> u32
    ensures call { BusCall core.old.held.value core.new.held.value app ClearLog
        (λ bus. unasked bus.core app ClearLog) result }
{
    let Some(mut it) = core.take(alloc) else {
        return CLOSED;
    };
    let answer = it.bus.clear_log(app);
    *core = FswCore::open(it);
    code_of_plain(&answer)
}

/// Shows a line of the log by its place, from 0. Its text is read where it lies, until the log
/// changes: that the pointer is its first byte's is by reading.
#[unsafe(no_mangle)]
pub extern "C" fn fsw_raw_log_line(
    alloc: Global,
    core: &mut FswCore,
    place: u32,
    line: &mut FswLogLine,
) -> u32
    ensures status { result ≡ line_code core.old.held.value place }
    ensures same { core.new.held.value ≡ core.old.held.value }
    ensures kept { result ≢ 0 → line.new ≡ line.old }
    ensures shown { result ≡ 0 → IfSome core.old.held.value
        (λ it. IfSome (slice_get it.bus.core.whole.bus.events.log.lines place)
        (ShowsLine line.new)) }
{
    let Some(it) = core.take(alloc) else {
        return CLOSED;
    };
    let desk = it.bus.events();
    let status = if place < desk.log_len() {
        *line = FswLogLine::of(desk.log_at(place));
        SUCCESS
    } else {
        EVS_INVALID_PARAMETER
    };
    *core = FswCore::open(it);
    status
}

/// Shows what became of events.
#[unsafe(no_mangle)]
pub extern "C" fn fsw_raw_event_counts(
    alloc: Global,
    core: &mut FswCore,
    counts: &mut FswEventCounts,
) -> u32
    ensures status { result ≡ open_code core.old.held.value }
    ensures same { core.new.held.value ≡ core.old.held.value }
    ensures kept { core.old.held.value ≡ None → counts.new ≡ counts.old }
    ensures shown { IfSome core.old.held.value
        (λ it. counts.new ≡ counts_shown it.bus.core.whole.bus.events) }
{
    let Some(it) = core.take(alloc) else {
        return CLOSED;
    };
    *counts = FswEventCounts::of(it.bus.events());
    *core = FswCore::open(it);
    SUCCESS
}

/// Registers the caller for events with up to 8 filters.
#[unsafe(no_mangle)]
pub extern "C" fn fsw_raw_register(
    alloc: Global,
    core: &mut FswCore,
    app: u32,
    filters: &[FswFilter],
) -> u32
    ensures call { BusCall core.old.held.value core.new.held.value app
        (Register (pairs_in filters.now))
        (λ bus. unasked_register bus.core app (pairs_in filters.now)) result }
{
    let Some(mut it) = core.take(alloc) else {
        return CLOSED;
    };
    let pairs = pairs_of(first_filters(filters));
    let answer = it.bus.register(app, pairs.as_slice());
    *core = FswCore::open(it);
    code_of_plain(&answer)
}

/// Sends an event of a kind 1 to 4, and says whether the count of events held back by a filter
/// stayed: 1 if it did, and so the event passed.
#[unsafe(no_mangle)]
pub extern "C" fn fsw_raw_send_event(
    alloc: Global,
    core: &mut FswCore,
    app: u32,
    id: u16,
    kind: u32,
    text: &[u8],
    passed: &mut u32,
) -> u32
    ensures call { BusCall core.old.held.value core.new.held.value app
        (SendEvent id (kind_or_debug kind) text.now)
        (λ bus. unasked_event bus.core app id kind text.now) result }
    ensures kept { result ≢ 0 → passed.new ≡ passed.old }
    ensures passed { result ≡ 0 →
        AtCores core.old.held.value core.new.held.value
        (λ old new. passed.new ≡ stays_filtered old new) }
{
    let Some(mut it) = core.take(alloc) else {
        return CLOSED;
    };
    let before = it.bus.events().counts();
    let answer = it.bus.send_event(app, id, kind, text);
    let after = it.bus.events().counts();
    *core = FswCore::open(it);
    put_passed(passed, before.filtered, after.filtered, &answer);
    code_of_event_call(&answer)
}
