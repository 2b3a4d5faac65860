//! The lines of the software bus: pipes, subscriptions and messages.
ghost use Rattle.std.specs.Prelude.{◌≡◌};
ghost use Rattle.std.specs.Option.{option_map};
ghost use Rattle.script_words.specs.Readings.{Reads, Gives};
ghost use Rattle.script_words.specs.Text.{words_of};

use crate::line::Line;
use fsw_base::{FaultKind, MAX_MESSAGE_BYTES, Scope};
use script_words::counts::{one, one_or_two, three, three_or_four, two, two_to_four};
use script_words::numbers::{byte_within, is_hex, number, pipe, short_within, within};
use script_words::text::is_same;
use script_words::words::{mode, name, scope};
use script_words::{ByteText, LineFail};
use std::alloc::Global;

/// The first word of a line of the software bus.
#[derive(Clone, Copy)]
pub enum BusWord {
    /// `create`
    Create,
    /// `delete`
    Delete,
    /// `opts`
    SetOpts,
    /// `getopts`
    GetOpts,
    /// `find`
    Find,
    /// `pname`
    PipeName,
    /// `sub`
    Subscribe,
    /// `unsub`
    Unsubscribe,
    /// `send`
    Send,
    /// `sendraw`
    SendRaw,
    /// `recv`
    Receive,
    /// `pend`
    Pend,
}

ghost use Rattle.script_lines.specs.BusLines.{pipe_alone, create_of, opts_of, find_of, limit_of};
ghost use Rattle.script_lines.specs.BusLines.{subscribed, sub_of, unsub_of, sent, send_of};
ghost use Rattle.script_lines.specs.BusLines.{hex_word, sendraw_of, bus_line_of, bus_word};

/// The word as the first one of such a line.
#[tactic(auto, unfolding(crate::specs::BusLines::bus_word))]
pub(crate) fn bus_word(word: &[u8]) -> Option<BusWord>
    ensures { result ≡ bus_word word.now }
{
    if is_same(word, b"create") {
        Some(BusWord::Create)
    } else if is_same(word, b"delete") {
        Some(BusWord::Delete)
    } else if is_same(word, b"opts") {
        Some(BusWord::SetOpts)
    } else if is_same(word, b"getopts") {
        Some(BusWord::GetOpts)
    } else if is_same(word, b"find") {
        Some(BusWord::Find)
    } else if is_same(word, b"pname") {
        Some(BusWord::PipeName)
    } else if is_same(word, b"sub") {
        Some(BusWord::Subscribe)
    } else if is_same(word, b"unsub") {
        Some(BusWord::Unsubscribe)
    } else if is_same(word, b"send") {
        Some(BusWord::Send)
    } else if is_same(word, b"sendraw") {
        Some(BusWord::SendRaw)
    } else if is_same(word, b"recv") {
        Some(BusWord::Receive)
    } else if is_same(word, b"pend") {
        Some(BusWord::Pend)
    } else {
        None
    }
}

// The one pipe of a line that names nothing else.
#[tactic(auto, unfolding(crate::specs::BusLines::pipe_alone))]
fn pipe_alone(rest: &[u8]) -> Result<u32, FaultKind>
    ensures { Reads (λ n. n) result (pipe_alone (words_of rest.now)) }
{
    let word = one(rest)?;
    pipe(word)
}

#[tactic(auto, unfolding(crate::specs::BusLines::create_of))]
fn create(alloc: Global, rest: &[u8]) -> Result<Line, LineFail>
    ensures { Gives (λ line. line) result (create_of (words_of rest.now)) }
{
    let (register, depth, text) = three(rest)?;
    let pipe = pipe(register)?;
    let depth = number(depth)?;
    let depth = within(0, 65535, depth)?;
    let name = name(alloc, text)?;
    Ok(Line::Create { pipe, depth, name })
}

#[tactic(auto, unfolding(crate::specs::BusLines::opts_of))]
fn opts(rest: &[u8]) -> Result<Line, FaultKind>
    ensures { Reads (λ line. line) result (opts_of (words_of rest.now)) }
{
    let (register, bits) = two(rest)?;
    let pipe = pipe(register)?;
    let bits = number(bits)?;
    let bits = byte_within(bits)?;
    Ok(Line::SetOpts { pipe, bits })
}

#[tactic(auto, unfolding(crate::specs::BusLines::find_of))]
fn find(alloc: Global, rest: &[u8]) -> Result<Line, LineFail>
    ensures { Gives (λ line. line) result (find_of (words_of rest.now)) }
{
    let (register, text) = two(rest)?;
    let pipe = pipe(register)?;
    let name = name(alloc, text)?;
    Ok(Line::Find { pipe, name })
}

#[tactic(auto, unfolding(crate::specs::BusLines::limit_of))]
fn limit(word: Option<&[u8]>) -> Result<u32, FaultKind>
    ensures { Reads (λ n. n) result (limit_of (option_map (λ w. w.now) word.entry)) }
{
    match word {
        None => Ok(4),
        Some(word) => number(word),
    }
}

#[tactic(auto, unfolding(crate::specs::BusLines::subscribed))]
fn subscribe_within(id: u32, pipe: u32, limit: u32, scope: Scope) -> Result<Line, FaultKind>
    ensures { Reads (λ line. line) result (subscribed id pipe limit scope) }
{
    let id = short_within(id)?;
    let limit = within(0, 65535, limit)?;
    Ok(Line::Subscribe {
        id,
        pipe,
        limit,
        scope,
    })
}

#[tactic(auto, unfolding(crate::specs::BusLines::sub_of))]
fn sub(rest: &[u8]) -> Result<Line, FaultKind>
    ensures { Reads (λ line. line) result (sub_of (words_of rest.now)) }
{
    let ((id, register), (waiting, reach)) = two_to_four(rest)?;
    let id = number(id)?;
    let pipe = pipe(register)?;
    let limit = limit(waiting)?;
    let scope = scope(reach)?;
    subscribe_within(id, pipe, limit, scope)
}

#[tactic(auto, unfolding(crate::specs::BusLines::unsub_of))]
fn unsub(rest: &[u8]) -> Result<Line, FaultKind>
    ensures { Reads (λ line. line) result (unsub_of (words_of rest.now)) }
{
    let (id, register) = two(rest)?;
    let id = number(id)?;
    let pipe = pipe(register)?;
    let id = short_within(id)?;
    Ok(Line::Unsubscribe { id, pipe })
}

#[tactic(auto, unfolding(crate::specs::BusLines::sent))]
fn sent(id: u32, size: u32, fill: u32, inc: bool) -> Result<Line, FaultKind>
    ensures { Reads (λ line. line) result (sent id size fill inc) }
{
    let id = short_within(id)?;
    let size = within(7, MAX_MESSAGE_BYTES, size)?;
    let fill = byte_within(fill)?;
    Ok(Line::Send {
        id,
        size,
        fill,
        inc,
    })
}

#[tactic(auto, unfolding(crate::specs::BusLines::send_of))]
fn send(rest: &[u8]) -> Result<Line, FaultKind>
    ensures { Reads (λ line. line) result (send_of (words_of rest.now)) }
{
    let ((id, size), (fill, mode_word)) = three_or_four(rest)?;
    let id = number(id)?;
    let size = number(size)?;
    let fill = number(fill)?;
    let inc = mode(mode_word)?;
    sent(id, size, fill, inc)
}

/// A word that spells bytes.
#[tactic(auto, unfolding(crate::specs::BusLines::hex_word))]
pub(crate) fn hex_word(word: &[u8]) -> Result<(), FaultKind>
    ensures { Reads (λ x. x) result (hex_word word.now) }
{
    if is_hex(word) {
        Ok(())
    } else {
        Err(FaultKind::BadWord)
    }
}

#[tactic(auto, unfolding(crate::specs::BusLines::sendraw_of))]
fn sendraw(alloc: Global, rest: &[u8]) -> Result<Line, LineFail>
    ensures { Gives (λ line. line) result (sendraw_of (words_of rest.now)) }
{
    let (word, mode_word) = one_or_two(rest)?;
    hex_word(word)?;
    let inc = mode(mode_word)?;
    let bytes = ByteText::from_hex(alloc, word)?;
    Ok(Line::SendRaw { bytes, inc })
}

/// The line with this first word, from the words behind it.
#[tactic(auto, unfolding(crate::specs::BusLines::bus_line_of))]
pub(crate) fn bus_line(alloc: Global, first: BusWord, rest: &[u8]) -> Result<Line, LineFail>
    ensures { Gives (λ line. line) result (bus_line_of first (words_of rest.now)) }
{
    match first {
        BusWord::Create => create(alloc, rest),
        BusWord::Delete => Ok(Line::Delete {
            pipe: pipe_alone(rest)?,
        }),
        BusWord::SetOpts => Ok(opts(rest)?),
        BusWord::GetOpts => Ok(Line::GetOpts {
            pipe: pipe_alone(rest)?,
        }),
        BusWord::Find => find(alloc, rest),
        BusWord::PipeName => Ok(Line::PipeName {
            pipe: pipe_alone(rest)?,
        }),
        BusWord::Subscribe => Ok(sub(rest)?),
        BusWord::Unsubscribe => Ok(unsub(rest)?),
        BusWord::Send => Ok(send(rest)?),
        BusWord::SendRaw => sendraw(alloc, rest),
        BusWord::Receive => Ok(Line::Receive {
            pipe: pipe_alone(rest)?,
        }),
        BusWord::Pend => Ok(Line::Pend {
            pipe: pipe_alone(rest)?,
        }),
    }
}
