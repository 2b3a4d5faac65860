//! Call lines of any kind.
ghost use Rattle.std.specs.Prelude.{◌≡◌};
ghost use Rattle.script_words.specs.Readings.{Gives};
ghost use Rattle.script_lines.specs.CallLines.{table_or_show, event_or_table, memory_or_event};
ghost use Rattle.script_lines.specs.CallLines.{call_word, call_line_of};

use crate::bus_lines::{BusWord, bus_line, bus_word};
use crate::event_lines::{EventWord, event_line, event_word};
use crate::line::Line;
use crate::memory_lines::{MemoryWord, memory_line, memory_word};
use crate::table_lines::{TableWord, show, table_line, table_word};
use script_words::LineFail;
use script_words::text::is_same;
use std::alloc::Global;

/// The first word of a call line.
#[derive(Clone, Copy)]
pub enum CallWord {
    /// One of the software bus.
    Bus(BusWord),
    /// One of buffers or memory pools.
    Memory(MemoryWord),
    /// One of events or of the bus's figures.
    Event(EventWord),
    /// One of tables.
    Table(TableWord),
    /// `show`
    Show,
}

#[tactic(auto, unfolding(crate::specs::CallLines::table_or_show))]
fn table_or_show(word: &[u8]) -> Option<CallWord>
    ensures { result ≡ table_or_show word.now }
{
    match table_word(word) {
        Some(first) => Some(CallWord::Table(first)),
        None => {
            if is_same(word, b"show") {
                Some(CallWord::Show)
            } else {
                None
            }
        }
    }
}

#[tactic(auto, unfolding(crate::specs::CallLines::event_or_table))]
fn event_or_table(word: &[u8]) -> Option<CallWord>
    ensures { result ≡ event_or_table word.now }
{
    match event_word(word) {
        Some(first) => Some(CallWord::Event(first)),
        None => table_or_show(word),
    }
}

#[tactic(auto, unfolding(crate::specs::CallLines::memory_or_event))]
fn memory_or_event(word: &[u8]) -> Option<CallWord>
    ensures { result ≡ memory_or_event word.now }
{
    match memory_word(word) {
        Some(first) => Some(CallWord::Memory(first)),
        None => event_or_table(word),
    }
}

/// The word as the first one of a call line; None if no call line begins so.
#[tactic(auto, unfolding(crate::specs::CallLines::call_word))]
pub fn call_word(word: &[u8]) -> Option<CallWord>
    ensures { result ≡ call_word word.now }
{
    match bus_word(word) {
        Some(first) => Some(CallWord::Bus(first)),
        None => memory_or_event(word),
    }
}

/// The call line with this first word, from the line behind that word.
///
/// # Errors
/// The line's first fault: `WrongCount` before `BadWord` before `OutOfRange` before `Repeated`,
/// wherever in the line they stand. `Memory` if there is none for its names, texts and bytes.
#[tactic(auto, unfolding(crate::specs::CallLines::call_line_of))]
pub fn call_line(alloc: Global, first: CallWord, rest: &[u8]) -> Result<Line, LineFail>
    ensures { Gives (λ line. line) result (call_line_of first rest.now) }
{
    match first {
        CallWord::Bus(first) => bus_line(alloc, first, rest),
        CallWord::Memory(first) => memory_line(alloc, first, rest),
        CallWord::Event(first) => event_line(alloc, first, rest),
        CallWord::Table(first) => table_line(alloc, first, rest),
        CallWord::Show => Ok(show(rest)?),
    }
}
