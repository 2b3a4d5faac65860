//! What single words of a line stand for.
ghost use Rattle.std.specs.Prelude.{◌≡◌, IsTrue};
ghost use Rattle.std.specs.Option.{option_map};
ghost use Rattle.script_words.specs.Readings.{Reads, Gives};
ghost use Rattle.script_words.specs.Content.{name_of, mode_word, mode_of, scope_word, scope_of};
ghost use Rattle.script_words.specs.Content.{filling_of, content_of};

use crate::content::{ByteText, Content};
use crate::fail::LineFail;
use crate::numbers::{is_hex, two_numbers, within};
use crate::text::is_same;
use fsw_base::{FaultKind, MAX_NAME_BYTES, MAX_TABLE_BYTES, Scope};
use std::alloc::Global;

/// The name that a word gives; a hyphen alone is the empty name.
///
/// # Errors
/// `OutOfRange` past 64 bytes; `Memory` if there is no memory for it.
#[tactic(auto, unfolding(crate::specs::Content::name_of))]
pub fn name(alloc: Global, word: &[u8]) -> Result<ByteText, LineFail>
    ensures { Gives (λ name. name) result (name_of word.now) }
{
    if is_same(word, b"-") {
        return Ok(ByteText::new(alloc, &[])?);
    }
    if word.len() <= MAX_NAME_BYTES {
        Ok(ByteText::new(alloc, word)?)
    } else {
        Err(LineFail::Fault(FaultKind::OutOfRange))
    }
}

#[tactic(auto, unfolding(crate::specs::Content::mode_word))]
fn mode_word(word: &[u8]) -> Result<bool, FaultKind>
    ensures { Reads (λ inc. inc) result (mode_word word.now) }
{
    if is_same(word, b"inc") {
        Ok(true)
    } else if is_same(word, b"keep") {
        Ok(false)
    } else {
        Err(FaultKind::BadWord)
    }
}

/// Whether a send counts on: `inc` or `keep`, and `inc` if the word is left out.
///
/// # Errors
/// `BadWord` if it is another word.
#[tactic(auto, unfolding(crate::specs::Content::mode_of))]
pub fn mode(word: Option<&[u8]>) -> Result<bool, FaultKind>
    ensures { Reads (λ inc. inc) result (mode_of (option_map (λ w. w.now) word.entry)) }
{
    match word {
        None => Ok(true),
        Some(word) => mode_word(word),
    }
}

#[tactic(auto, unfolding(crate::specs::Content::scope_word))]
fn scope_word(word: &[u8]) -> Result<Scope, FaultKind>
    ensures { Reads (λ scope. scope) result (scope_word word.now) }
{
    if is_same(word, b"global") {
        Ok(Scope::Global)
    } else if is_same(word, b"local") {
        Ok(Scope::Local)
    } else {
        Err(FaultKind::BadWord)
    }
}

/// How far a subscription reaches: `global` or `local`, and `global` if the word is left out.
///
/// # Errors
/// `BadWord` if it is another word.
#[tactic(auto, unfolding(crate::specs::Content::scope_of))]
pub fn scope(word: Option<&[u8]>) -> Result<Scope, FaultKind>
    ensures { Reads (λ scope. scope) result (scope_of (option_map (λ w. w.now) word.entry)) }
{
    match word {
        None => Ok(Scope::Global),
        Some(word) => scope_word(word),
    }
}

/// The numbers of a filling `fill:LEN:BYTE`, in any range; None if the word spells its bytes
/// out.
///
/// # Errors
/// `BadWord` if it is neither.
#[tactic(auto, unfolding(crate::specs::Content::filling_of))]
pub fn filling(word: &[u8]) -> Result<Option<(u32, u32)>, FaultKind>
    ensures { Reads (λ fill. fill) result (filling_of word.now) }
{
    if word.starts_with(b"fill:") {
        let (_, numbers) = word.split_at(5);
        let fill = two_numbers(numbers)?;
        return Ok(Some(fill));
    }
    if is_hex(word) {
        Ok(None)
    } else {
        Err(FaultKind::BadWord)
    }
}

/// The content that a word spells, whose filling these numbers are.
///
/// # Errors
/// `OutOfRange` if a filling has no byte, more than 65536, or a first byte past 255; `Memory`
/// if there is no memory for it.
#[tactic(auto, unfolding(crate::specs::Content::content_of))]
pub fn content(alloc: Global, word: &[u8], filling: Option<(u32, u32)>) -> Result<Content, LineFail>
    ensures { Gives (λ content. content) result (content_of word.now filling) }
{
    match filling {
        None => {
            let bytes = ByteText::from_hex(alloc, word)?;
            Ok(Content::Hex(bytes))
        }
        Some((len, byte)) => {
            let len = within(1, MAX_TABLE_BYTES, len)?;
            let byte = within(0, 255, byte)?;
            Ok(Content::Fill {
                len,
                byte: byte as u8,
            })
        }
    }
}
