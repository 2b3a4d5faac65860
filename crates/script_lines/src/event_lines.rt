//! The lines of events, and of the bus's figures.
ghost use Rattle.std.specs.Prelude.{◌≡◌, ◌≤◌, length};
ghost use Rattle.script_words.specs.Readings.{Reads, Gives};
ghost use Rattle.script_words.specs.Text.{words_of};
ghost use Rattle.script_words.specs.Lists.{each};
ghost use Rattle.script_lines.specs.EventLines.{pair_word, filter_of, registered, evreg_of};
ghost use Rattle.script_lines.specs.EventLines.{two_and_text, kind_of, text_of, evented, event_of};
ghost use Rattle.script_lines.specs.EventLines.{evreset_of, logmode_of, event_line_of, event_word};

use crate::line::Line;
use arrayvec::ArrayVec;
use fsw_base::{EventKind, FaultKind, FilterList, MAX_FILTERS, MAX_TEXT_BYTES};
use script_words::counts::{few, next, none, one};
use script_words::numbers::{number, short_within, two_numbers, within};
use script_words::text::{first_word, is_same, trimmed_text};
use script_words::{ByteText, LineFail};
use std::alloc::Global;

/// The first word of a line of events or of the bus's figures.
#[derive(Clone, Copy)]
pub enum EventWord {
    /// `evreg`
    Register,
    /// `event`
    Event,
    /// `evreset`
    Reset,
    /// `logmode`
    LogMode,
    /// `logclear`
    LogClear,
    /// `hk`
    Housekeeping,
    /// `stats`
    Figures,
}

/// The word as the first one of such a line.
#[tactic(auto, unfolding(crate::specs::EventLines::event_word))]
pub(crate) fn event_word(word: &[u8]) -> Option<EventWord>
    ensures { result ≡ event_word word.now }
{
    if is_same(word, b"evreg") {
        Some(EventWord::Register)
    } else if is_same(word, b"event") {
        Some(EventWord::Event)
    } else if is_same(word, b"evreset") {
        Some(EventWord::Reset)
    } else if is_same(word, b"logmode") {
        Some(EventWord::LogMode)
    } else if is_same(word, b"logclear") {
        Some(EventWord::LogClear)
    } else if is_same(word, b"hk") {
        Some(EventWord::Housekeeping)
    } else if is_same(word, b"stats") {
        Some(EventWord::Figures)
    } else {
        None
    }
}

// A list element of an event id and a mask.
#[tactic(auto, unfolding(crate::specs::EventLines::pair_word))]
fn pair_word(word: &[u8]) -> Result<(u32, u32), FaultKind>
    ensures { Reads (λ pair. pair) result (pair_word word.now) }
{
    two_numbers(word)
}

// The list elements of a line, few enough.
fn pairs(words: &[u8]) -> Result<ArrayVec<(u32, u32), MAX_FILTERS>, FaultKind>
    requires { length (words_of words.now) ≤ 8 }
    ensures { Reads (λ pairs. pairs.items) result (each pair_word (words_of words.now)) }
{
    let mut pairs = ArrayVec::new();
    let mut rest = words;
    while let Some((word, behind)) = first_word(rest) {
        let pair = pair_word(word)?;
        pairs.push(pair);
        rest = behind;
    }
    Ok(pairs)
}

// An event id and a mask, if they are two bytes each.
#[tactic(auto, unfolding(crate::specs::EventLines::filter_of))]
fn filter(pair: (u32, u32)) -> Result<(u16, u16), FaultKind>
    ensures { Reads (λ pair. pair) result (filter_of pair) }
{
    if pair.0 <= 65535 && pair.1 <= 65535 {
        Ok((pair.0 as u16, pair.1 as u16))
    } else {
        Err(FaultKind::OutOfRange)
    }
}

// The filters of these numbers.
fn filters(pairs: &[(u32, u32)]) -> Result<ArrayVec<(u16, u16), MAX_FILTERS>, FaultKind>
    requires { length pairs.now ≤ 8 }
    ensures { Reads (λ kept. kept.items) result (each filter_of pairs.now) }
{
    let mut kept = ArrayVec::new();
    for &pair in pairs {
        let filter = filter(pair)?;
        kept.push(filter);
    }
    Ok(kept)
}

// The line that registers these filters.
#[tactic(auto, unfolding(crate::specs::EventLines::registered))]
fn register_once(filters: &[(u16, u16)]) -> Result<Line, FaultKind>
    requires { length filters.now ≤ 8 }
    ensures { Reads (λ line. line) result (registered filters.now) }
{
    match FilterList::try_new(filters) {
        Some(filters) => Ok(Line::Register { filters }),
        None => Err(FaultKind::Repeated),
    }
}

#[tactic(auto, unfolding(crate::specs::EventLines::evreg_of))]
fn evreg(rest: &[u8]) -> Result<Line, FaultKind>
    ensures { Reads (λ line. line) result (evreg_of (words_of rest.now)) }
{
    few(8, rest)?;
    let pairs = pairs(rest)?;
    let filters = filters(pairs.as_slice())?;
    register_once(filters.as_slice())
}

// The next two words, and the text behind them without the blanks round it.
#[tactic(auto, unfolding(crate::specs::EventLines::two_and_text, script_words::specs::Counts::next))]
fn two_and_text(rest: &[u8]) -> Result<(&[u8], &[u8], &[u8]), FaultKind>
    ensures { Reads (λ x. (x.0.now, x.1.now, x.2.now)) result (two_and_text rest.now) }
{
    match first_word(rest) {
        None => Err(FaultKind::WrongCount),
        Some((first, rest)) => match first_word(rest) {
            None => Err(FaultKind::WrongCount),
            Some((second, rest)) => Ok((first, second, trimmed_text(rest))),
        },
    }
}

// The type of an event, by its number.
#[tactic(auto, unfolding(crate::specs::EventLines::kind_of))]
fn kind(number: u32) -> Result<EventKind, FaultKind>
    ensures { Reads (λ kind. kind) result (kind_of number) }
{
    if number == 1 {
        Ok(EventKind::Debug)
    } else if number == 2 {
        Ok(EventKind::Information)
    } else if number == 3 {
        Ok(EventKind::Error)
    } else if number == 4 {
        Ok(EventKind::Critical)
    } else {
        Err(FaultKind::OutOfRange)
    }
}

// The text, if it is short enough.
#[tactic(auto, unfolding(crate::specs::EventLines::text_of))]
fn text_within(alloc: Global, text: &[u8]) -> Result<ByteText, LineFail>
    ensures { Gives (λ kept. kept) result (text_of text.now) }
{
    if text.len() <= MAX_TEXT_BYTES {
        Ok(ByteText::new(alloc, text)?)
    } else {
        Err(LineFail::Fault(FaultKind::OutOfRange))
    }
}

#[tactic(auto, unfolding(crate::specs::EventLines::evented))]
fn event_within(alloc: Global, id: u32, number: u32, text: &[u8]) -> Result<Line, LineFail>
    ensures { Gives (λ line. line) result (evented id number text.now) }
{
    let id = short_within(id)?;
    let kind = kind(number)?;
    let text = text_within(alloc, text)?;
    Ok(Line::SendEvent { id, kind, text })
}

#[tactic(auto, unfolding(crate::specs::EventLines::event_of))]
fn event(alloc: Global, rest: &[u8]) -> Result<Line, LineFail>
    ensures { Gives (λ line. line) result (event_of rest.now) }
{
    let (id, type_word, text) = two_and_text(rest)?;
    let id = number(id)?;
    let type_number = number(type_word)?;
    event_within(alloc, id, type_number, text)
}

#[tactic(auto, unfolding(crate::specs::EventLines::evreset_of))]
fn evreset(rest: &[u8]) -> Result<Line, FaultKind>
    ensures { Reads (λ line. line) result (evreset_of (words_of rest.now)) }
{
    let word = one(rest)?;
    let id = number(word)?;
    let id = short_within(id)?;
    Ok(Line::ResetFilter { id })
}

#[tactic(auto, unfolding(crate::specs::EventLines::logmode_of))]
fn logmode(rest: &[u8]) -> Result<Line, FaultKind>
    ensures { Reads (λ line. line) result (logmode_of (words_of rest.now)) }
{
    let word = one(rest)?;
    let mode = number(word)?;
    let mode = within(0, 1, mode)?;
    Ok(Line::LogMode { mode: mode as u8 })
}

/// The line with this first word, from the line behind it.
#[tactic(auto, unfolding(crate::specs::EventLines::event_line_of))]
pub(crate) fn event_line(alloc: Global, first: EventWord, rest: &[u8]) -> Result<Line, LineFail>
    ensures { Gives (λ line. line) result (event_line_of first rest.now) }
{
    match first {
        EventWord::Register => Ok(evreg(rest)?),
        EventWord::Event => event(alloc, rest),
        EventWord::Reset => Ok(evreset(rest)?),
        EventWord::LogMode => Ok(logmode(rest)?),
        EventWord::LogClear => {
            none(rest)?;
            Ok(Line::ClearLog)
        }
        EventWord::Housekeeping => {
            none(rest)?;
            Ok(Line::Housekeeping)
        }
        EventWord::Figures => {
            none(rest)?;
            Ok(Line::Figures)
        }
    }
}
