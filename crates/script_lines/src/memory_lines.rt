//! The lines of buffers and of memory pools.
ghost use Rattle.std.specs.Prelude.{◌≡◌};
ghost use Rattle.script_words.specs.Readings.{Reads, Gives};
ghost use Rattle.script_words.specs.Text.{words_of};
ghost use Rattle.script_lines.specs.MemoryLines.{alloc_of, xmit_of, release_of, form_of, put_of};
ghost use Rattle.script_lines.specs.MemoryLines.{pool_line_of, pget_of, pput_of, pstats_of};
ghost use Rattle.script_lines.specs.MemoryLines.{memory_line_of, memory_word};

use crate::bus_lines::hex_word;
use crate::line::Line;
use fsw_base::{FaultKind, MAX_MESSAGE_BYTES};
use script_words::counts::{one, one_or_two, three, two};
use script_words::numbers::{buffer, byte_within, grant, number, pool, short_within, within};
use script_words::text::is_same;
use script_words::words::mode;
use script_words::{ByteText, LineFail};
use std::alloc::Global;

/// The first word of a line of buffers or memory pools.
#[derive(Clone, Copy)]
pub enum MemoryWord {
    /// `alloc`
    Allocate,
    /// `xmit`
    Transmit,
    /// `release`
    Release,
    /// `form`
    Form,
    /// `put`
    Put,
    /// `pool`
    PoolCreate,
    /// `pget`
    PoolGet,
    /// `pput`
    PoolPut,
    /// `pstats`
    PoolFigures,
}

/// The word as the first one of such a line.
#[tactic(auto, unfolding(crate::specs::MemoryLines::memory_word))]
pub(crate) fn memory_word(word: &[u8]) -> Option<MemoryWord>
    ensures { result ≡ memory_word word.now }
{
    if is_same(word, b"alloc") {
        Some(MemoryWord::Allocate)
    } else if is_same(word, b"xmit") {
        Some(MemoryWord::Transmit)
    } else if is_same(word, b"release") {
        Some(MemoryWord::Release)
    } else if is_same(word, b"form") {
        Some(MemoryWord::Form)
    } else if is_same(word, b"put") {
        Some(MemoryWord::Put)
    } else if is_same(word, b"pool") {
        Some(MemoryWord::PoolCreate)
    } else if is_same(word, b"pget") {
        Some(MemoryWord::PoolGet)
    } else if is_same(word, b"pput") {
        Some(MemoryWord::PoolPut)
    } else if is_same(word, b"pstats") {
        Some(MemoryWord::PoolFigures)
    } else {
        None
    }
}

#[tactic(auto, unfolding(crate::specs::MemoryLines::alloc_of))]
fn alloc_line(rest: &[u8]) -> Result<Line, FaultKind>
    ensures { Reads (λ line. line) result (alloc_of (words_of rest.now)) }
{
    let (register, size) = two(rest)?;
    let buf = buffer(register)?;
    let size = number(size)?;
    let size = within(0, MAX_MESSAGE_BYTES, size)?;
    Ok(Line::Allocate { buf, size })
}

#[tactic(auto, unfolding(crate::specs::MemoryLines::xmit_of))]
fn xmit(rest: &[u8]) -> Result<Line, FaultKind>
    ensures { Reads (λ line. line) result (xmit_of (words_of rest.now)) }
{
    let (register, mode_word) = one_or_two(rest)?;
    let buf = buffer(register)?;
    let inc = mode(mode_word)?;
    Ok(Line::TransmitBuffer { buf, inc })
}

#[tactic(auto, unfolding(crate::specs::MemoryLines::release_of))]
fn release(rest: &[u8]) -> Result<Line, FaultKind>
    ensures { Reads (λ line. line) result (release_of (words_of rest.now)) }
{
    let register = one(rest)?;
    let buf = buffer(register)?;
    Ok(Line::Release { buf })
}

#[tactic(auto, unfolding(crate::specs::MemoryLines::form_of))]
fn form(rest: &[u8]) -> Result<Line, FaultKind>
    ensures { Reads (λ line. line) result (form_of (words_of rest.now)) }
{
    let (register, id, fill) = three(rest)?;
    let buf = buffer(register)?;
    let id = number(id)?;
    let fill = number(fill)?;
    let id = short_within(id)?;
    let fill = byte_within(fill)?;
    Ok(Line::Form { buf, id, fill })
}

#[tactic(auto, unfolding(crate::specs::MemoryLines::put_of))]
fn put(alloc: Global, rest: &[u8]) -> Result<Line, LineFail>
    ensures { Gives (λ line. line) result (put_of (words_of rest.now)) }
{
    let (register, place, word) = three(rest)?;
    let buf = buffer(register)?;
    let offset = number(place)?;
    hex_word(word)?;
    let offset = within(0, 65541, offset)?;
    let bytes = ByteText::from_hex(alloc, word)?;
    Ok(Line::Put { buf, offset, bytes })
}

#[tactic(auto, unfolding(crate::specs::MemoryLines::pool_line_of))]
fn pool_create(rest: &[u8]) -> Result<Line, FaultKind>
    ensures { Reads (λ line. line) result (pool_line_of (words_of rest.now)) }
{
    let (register, bytes) = two(rest)?;
    let pool = pool(register)?;
    let bytes = number(bytes)?;
    Ok(Line::PoolCreate { pool, bytes })
}

#[tactic(auto, unfolding(crate::specs::MemoryLines::pget_of))]
fn pget(rest: &[u8]) -> Result<Line, FaultKind>
    ensures { Reads (λ line. line) result (pget_of (words_of rest.now)) }
{
    let (block, register, size) = three(rest)?;
    let grant = grant(block)?;
    let pool = pool(register)?;
    let size = number(size)?;
    Ok(Line::PoolGet { grant, pool, size })
}

#[tactic(auto, unfolding(crate::specs::MemoryLines::pput_of))]
fn pput(rest: &[u8]) -> Result<Line, FaultKind>
    ensures { Reads (λ line. line) result (pput_of (words_of rest.now)) }
{
    let (register, block) = two(rest)?;
    let pool = pool(register)?;
    let grant = grant(block)?;
    Ok(Line::PoolPut { pool, grant })
}

#[tactic(auto, unfolding(crate::specs::MemoryLines::pstats_of))]
fn pstats(rest: &[u8]) -> Result<Line, FaultKind>
    ensures { Reads (λ line. line) result (pstats_of (words_of rest.now)) }
{
    let register = one(rest)?;
    let pool = pool(register)?;
    Ok(Line::PoolFigures { pool })
}

/// The line with this first word, from the words behind it.
#[tactic(auto, unfolding(crate::specs::MemoryLines::memory_line_of))]
pub(crate) fn memory_line(alloc: Global, first: MemoryWord, rest: &[u8]) -> Result<Line, LineFail>
    ensures { Gives (λ line. line) result (memory_line_of first (words_of rest.now)) }
{
    match first {
        MemoryWord::Allocate => Ok(alloc_line(rest)?),
        MemoryWord::Transmit => Ok(xmit(rest)?),
        MemoryWord::Release => Ok(release(rest)?),
        MemoryWord::Form => Ok(form(rest)?),
        MemoryWord::Put => put(alloc, rest),
        MemoryWord::PoolCreate => Ok(pool_create(rest)?),
        MemoryWord::PoolGet => Ok(pget(rest)?),
        MemoryWord::PoolPut => Ok(pput(rest)?),
        MemoryWord::PoolFigures => Ok(pstats(rest)?),
    }
}
