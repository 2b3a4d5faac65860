//! The lines of tables.
ghost use Rattle.std.specs.Prelude.{◌≡◌, ◌≤◌, length, IfOk};
ghost use Rattle.script_words.specs.Readings.{Reads, Gives};
ghost use Rattle.script_words.specs.Text.{words_of};
ghost use Rattle.script_words.specs.Lists.{each};
ghost use Rattle.script_lines.specs.TableLines.{table_alone, triple_word, rule_of, table_words};
ghost use Rattle.script_lines.specs.TableLines.{described, treg_of, tshare_of, placed, load_of};
ghost use Rattle.script_lines.specs.TableLines.{table_line_of, table_word, shown, show_of};

use crate::line::{BoxedRules, Line};
use arrayvec::ArrayVec;
use fsw_base::{FaultKind, MAX_TABLE_BYTES};
use script_words::counts::{few, next_two, one, three, two};
use script_words::numbers::{number, pipe, table, three_numbers, within};
use script_words::text::{first_word, is_same};
use script_words::words::{content, filling, name};
use script_words::{Content, LineFail};
use std::alloc::Global;
use tbl_rules::{MAX_RULES, Rule, RuleList};

/// The first word of a line of tables.
#[derive(Clone, Copy)]
pub enum TableWord {
    /// `treg`
    Register,
    /// `tshare`
    Share,
    /// `tunreg`
    Unregister,
    /// `tstage`
    Stage,
    /// `tval`
    Validate,
    /// `tupd`
    Update,
    /// `tabort`
    Abort,
    /// `tload`
    Load,
    /// `tget`
    GetAddress,
    /// `trel`
    ReleaseAddress,
    /// `tstat`
    Status,
}

/// The word as the first one of such a line.
#[tactic(auto, unfolding(crate::specs::TableLines::table_word))]
pub(crate) fn table_word(word: &[u8]) -> Option<TableWord>
    ensures { result ≡ table_word word.now }
{
    if is_same(word, b"treg") {
        Some(TableWord::Register)
    } else if is_same(word, b"tshare") {
        Some(TableWord::Share)
    } else if is_same(word, b"tunreg") {
        Some(TableWord::Unregister)
    } else if is_same(word, b"tstage") {
        Some(TableWord::Stage)
    } else if is_same(word, b"tval") {
        Some(TableWord::Validate)
    } else if is_same(word, b"tupd") {
        Some(TableWord::Update)
    } else if is_same(word, b"tabort") {
        Some(TableWord::Abort)
    } else if is_same(word, b"tload") {
        Some(TableWord::Load)
    } else if is_same(word, b"tget") {
        Some(TableWord::GetAddress)
    } else if is_same(word, b"trel") {
        Some(TableWord::ReleaseAddress)
    } else if is_same(word, b"tstat") {
        Some(TableWord::Status)
    } else {
        None
    }
}

// The one handle of a line that names nothing else.
#[tactic(auto, unfolding(crate::specs::TableLines::table_alone))]
fn table_alone(rest: &[u8]) -> Result<u32, FaultKind>
    ensures { Reads (λ n. n) result (table_alone (words_of rest.now)) }
{
    let word = one(rest)?;
    table(word)
}

// A list element of a place, a least and a greatest value.
#[tactic(auto, unfolding(crate::specs::TableLines::triple_word))]
fn triple_word(word: &[u8]) -> Result<(u32, u32, u32), FaultKind>
    ensures { Reads (λ triple. triple) result (triple_word word.now) }
{
    three_numbers(word)
}

// The list elements of a line, few enough.
fn triples(words: &[u8]) -> Result<ArrayVec<(u32, u32, u32), MAX_RULES>, FaultKind>
    requires { length (words_of words.now) ≤ 8 }
    ensures { Reads (λ triples. triples.items) result (each triple_word (words_of words.now)) }
{
    let mut triples = ArrayVec::new();
    let mut rest = words;
    while let Some((word, behind)) = first_word(rest) {
        let triple = triple_word(word)?;
        triples.push(triple);
        rest = behind;
    }
    Ok(triples)
}

// The rule of these numbers, if they are in range.
#[tactic(auto, unfolding(crate::specs::TableLines::rule_of))]
fn rule(triple: (u32, u32, u32)) -> Result<Rule, FaultKind>
    ensures { Reads (λ rule. rule) result (rule_of triple) }
{
    if triple.0 <= 65535 && triple.1 <= 255 && triple.2 <= 255 {
        Ok(Rule {
            offset: triple.0,
            low: triple.1 as u8,
            high: triple.2 as u8,
        })
    } else {
        Err(FaultKind::OutOfRange)
    }
}

// The rules of these numbers.
fn rules(triples: &[(u32, u32, u32)]) -> Result<ArrayVec<Rule, MAX_RULES>, FaultKind>
    requires { length triples.now ≤ 8 }
    ensures { Reads (λ kept. kept.items) result (each rule_of triples.now) }
{
    let mut kept = ArrayVec::new();
    for &triple in triples {
        let rule = rule(triple)?;
        kept.push(rule);
    }
    Ok(kept)
}

// The register, the name, the size, the options, and what follows: at most eight rules.
#[tactic(auto, unfolding(crate::specs::TableLines::table_words))]
fn table_words(rest: &[u8]) -> Result<((&[u8], &[u8]), (&[u8], &[u8], &[u8])), FaultKind>
    ensures words { Reads
        (λ x. ((x.0.0.now, x.0.1.now), (x.1.0.now, x.1.1.now, words_of x.1.2.now)))
        result (table_words (words_of rest.now)) }
    ensures few { IfOk result (λ x. length (words_of x.1.2.now) ≤ 8) }
{
    let (register, name, rest) = next_two(rest)?;
    let (size, option, rest) = next_two(rest)?;
    few(8, rest)?;
    Ok(((register, name), (size, option, rest)))
}

#[tactic(auto, unfolding(crate::specs::TableLines::described))]
fn register_within(
    alloc: Global,
    handle: u32,
    word: &[u8],
    figures: (u32, u32),
    triples: &[(u32, u32, u32)],
) -> Result<Line, LineFail>
    requires { length triples.now ≤ 8 }
    ensures { Gives (λ line. line) result (described handle word.now figures triples.now) }
{
    let name = name(alloc, word)?;
    let size = within(0, 1_000_000, figures.0)?;
    let option = within(0, 7, figures.1)?;
    let rules = rule_list(alloc, triples)?;
    Ok(Line::TableRegister {
        handle,
        name,
        size,
        option,
        rules,
    })
}

// The rules of these numbers, as a line has them.
fn rule_list(alloc: Global, triples: &[(u32, u32, u32)]) -> Result<BoxedRules, LineFail>
    requires { length triples.now ≤ 8 }
    ensures { Gives (λ rules. rules) result (each rule_of triples.now) }
{
    let rules = rules(triples)?;
    match RuleList::try_new(rules.as_slice()) {
        Some(rules) => Ok(BoxedRules::new(alloc, rules)?),
        None => Err(LineFail::Fault(FaultKind::WrongCount)),
    }
}

#[tactic(auto, unfolding(crate::specs::TableLines::treg_of))]
fn treg(alloc: Global, rest: &[u8]) -> Result<Line, LineFail>
    ensures { Gives (λ line. line) result (treg_of (words_of rest.now)) }
{
    let ((register, name), (size, option, rest)) = table_words(rest)?;
    let handle = table(register)?;
    let size = number(size)?;
    let option = number(option)?;
    let triples = triples(rest)?;
    register_within(alloc, handle, name, (size, option), triples.as_slice())
}

#[tactic(auto, unfolding(crate::specs::TableLines::tshare_of))]
fn tshare(alloc: Global, rest: &[u8]) -> Result<Line, LineFail>
    ensures { Gives (λ line. line) result (tshare_of (words_of rest.now)) }
{
    let (register, text) = two(rest)?;
    let handle = table(register)?;
    let name = name(alloc, text)?;
    Ok(Line::TableShare { handle, name })
}

#[tactic(auto, unfolding(crate::specs::TableLines::placed))]
fn load_within(
    alloc: Global,
    handle: u32,
    place: u32,
    word: &[u8],
    filling: Option<(u32, u32)>,
) -> Result<(u32, u32, Content), LineFail>
    ensures { Gives (λ x. x) result (placed handle place word.now filling) }
{
    let offset = within(0, MAX_TABLE_BYTES, place)?;
    let content = content(alloc, word, filling)?;
    Ok((handle, offset, content))
}

// The handle, the place and the content of tstage and tload.
#[tactic(auto, unfolding(crate::specs::TableLines::load_of))]
fn load(alloc: Global, rest: &[u8]) -> Result<(u32, u32, Content), LineFail>
    ensures { Gives (λ x. x) result (load_of (words_of rest.now)) }
{
    let (register, place, word) = three(rest)?;
    let handle = table(register)?;
    let place = number(place)?;
    let filling = filling(word)?;
    load_within(alloc, handle, place, word, filling)
}

/// The line with this first word, from the words behind it.
#[tactic(auto, unfolding(crate::specs::TableLines::table_line_of))]
pub(crate) fn table_line(alloc: Global, first: TableWord, rest: &[u8]) -> Result<Line, LineFail>
    ensures { Gives (λ line. line) result (table_line_of first (words_of rest.now)) }
{
    match first {
        TableWord::Register => treg(alloc, rest),
        TableWord::Share => tshare(alloc, rest),
        TableWord::Unregister => Ok(Line::TableUnregister {
            handle: table_alone(rest)?,
        }),
        TableWord::Stage => {
            let (handle, offset, content) = load(alloc, rest)?;
            Ok(Line::Stage {
                handle,
                offset,
                content,
            })
        }
        TableWord::Validate => Ok(Line::Validate {
            handle: table_alone(rest)?,
        }),
        TableWord::Update => Ok(Line::Update {
            handle: table_alone(rest)?,
        }),
        TableWord::Abort => Ok(Line::Abort {
            handle: table_alone(rest)?,
        }),
        TableWord::Load => {
            let (handle, offset, content) = load(alloc, rest)?;
            Ok(Line::Load {
                handle,
                offset,
                content,
            })
        }
        TableWord::GetAddress => Ok(Line::GetAddress {
            handle: table_alone(rest)?,
        }),
        TableWord::ReleaseAddress => Ok(Line::ReleaseAddress {
            handle: table_alone(rest)?,
        }),
        TableWord::Status => Ok(Line::Status {
            handle: table_alone(rest)?,
        }),
    }
}

// The pipe or the table that a word names.
#[tactic(auto, unfolding(crate::specs::TableLines::shown))]
fn shown(word: &[u8]) -> Result<Line, FaultKind>
    ensures { Reads (λ line. line) result (shown word.now) }
{
    if word.starts_with(b"p") {
        let pipe = pipe(word)?;
        Ok(Line::ShowPipe { pipe })
    } else {
        let handle = table(word)?;
        Ok(Line::ShowTable { handle })
    }
}

/// The line that shows a pipe or a table.
#[tactic(auto, unfolding(crate::specs::TableLines::show_of))]
pub(crate) fn show(rest: &[u8]) -> Result<Line, FaultKind>
    ensures { Reads (λ line. line) result (show_of (words_of rest.now)) }
{
    let word = one(rest)?;
    shown(word)
}
