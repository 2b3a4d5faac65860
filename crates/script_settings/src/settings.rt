//! The lines that configure a run. Each reader takes the line behind the first word.
ghost use Rattle.std.specs.Prelude.{◌≡◌, ◌≤◌, length, IfOk, IsTrue};
ghost use Rattle.std.specs.List.{list_all};
ghost use Rattle.fsw_base.specs.Limits.{limits_of};
ghost use Rattle.script_words.specs.Readings.{Reads};
ghost use Rattle.script_words.specs.Text.{words_of};
ghost use Rattle.script_words.specs.Lists.{each};
ghost use Rattle.script_words.specs.Numbers.{number_of};
ghost use Rattle.script_settings.specs.Settings.{limit_name, limit_number, least, greatest};
ghost use Rattle.script_settings.specs.Settings.{with_limit, is_among, limit_named, set_of};
ghost use Rattle.script_settings.specs.Settings.{some_words, sizes_within, sizes_of, seq_of};
ghost use Rattle.script_settings.specs.Settings.{is_name_byte, is_app_name, app_of, script_of};

use arrayvec::ArrayVec;
use fsw_base::{BlockSizes, Config, FaultKind, MAX_BLOCK_SIZES};
use script_words::counts::{few, one, two};
use script_words::numbers::{number, within};
use script_words::text::{first_word, is_same};

/// The name of a limit of a run.
#[derive(Clone, Copy)]
pub enum LimitName {
    /// `msgids`: how many message ids may have a route, 1 to 1024.
    MsgIds,
    /// `pipes`: how many pipes may be live at once, 1 to 256.
    Pipes,
    /// `dests`: how many subscriptions a message id may have, 1 to 64.
    Dests,
    /// `depth`: the greatest depth of a pipe, 1 to 1024 messages.
    Depth,
    /// `msgmax`: the largest message, 7 to 65542 bytes.
    MsgMax,
    /// `pool`: the bus's memory pool, 24 to 16777216 bytes.
    Pool,
    /// `apppool`: the largest memory pool of an application, 24 to 1048576 bytes.
    AppPool,
    /// `tables`: how many tables may be registered, 1 to 256.
    Tables,
    /// `handles`: how many table handles may be live at once, 1 to 1024.
    Handles,
    /// `tablemax`: the largest table, 1 to 65536 bytes.
    TableMax,
    /// `tablepool`: the memory pool of the tables, 24 to 16777216 bytes.
    TablePool,
}

impl LimitName {
    // The name's place in the list of limits.
    fn number(self) -> u8
        ensures { result ≡ limit_number self }
    {
        match self {
            LimitName::MsgIds => 0,
            LimitName::Pipes => 1,
            LimitName::Dests => 2,
            LimitName::Depth => 3,
            LimitName::MsgMax => 4,
            LimitName::Pool => 5,
            LimitName::AppPool => 6,
            LimitName::Tables => 7,
            LimitName::Handles => 8,
            LimitName::TableMax => 9,
            LimitName::TablePool => 10,
        }
    }

    // The least value.
    fn least(self) -> u32
        ensures { result ≡ least self }
    {
        match self {
            LimitName::MsgIds => 1,
            LimitName::Pipes => 1,
            LimitName::Dests => 1,
            LimitName::Depth => 1,
            LimitName::MsgMax => 7,
            LimitName::Pool => 24,
            LimitName::AppPool => 24,
            LimitName::Tables => 1,
            LimitName::Handles => 1,
            LimitName::TableMax => 1,
            LimitName::TablePool => 24,
        }
    }

    // The greatest value.
    fn greatest(self) -> u32
        ensures { result ≡ greatest self }
    {
        match self {
            LimitName::MsgIds => 1024,
            LimitName::Pipes => 256,
            LimitName::Dests => 64,
            LimitName::Depth => 1024,
            LimitName::MsgMax => 65542,
            LimitName::Pool => 16_777_216,
            LimitName::AppPool => 1_048_576,
            LimitName::Tables => 256,
            LimitName::Handles => 1024,
            LimitName::TableMax => 65536,
            LimitName::TablePool => 16_777_216,
        }
    }
}

/// Whether this limit is among those named.
pub fn is_among(name: LimitName, names: &[LimitName]) -> bool
    ensures { result ≡ is_among name names.now }
{
    names.iter().any(|other| other.number() == name.number())
}

// The limit that a word names.
#[tactic(auto, unfolding(crate::specs::Settings::limit_name))]
fn limit_name(word: &[u8]) -> Option<LimitName>
    ensures { result ≡ limit_name word.now }
{
    if is_same(word, b"msgids") {
        Some(LimitName::MsgIds)
    } else if is_same(word, b"pipes") {
        Some(LimitName::Pipes)
    } else if is_same(word, b"dests") {
        Some(LimitName::Dests)
    } else if is_same(word, b"depth") {
        Some(LimitName::Depth)
    } else if is_same(word, b"msgmax") {
        Some(LimitName::MsgMax)
    } else if is_same(word, b"pool") {
        Some(LimitName::Pool)
    } else if is_same(word, b"apppool") {
        Some(LimitName::AppPool)
    } else if is_same(word, b"tables") {
        Some(LimitName::Tables)
    } else if is_same(word, b"handles") {
        Some(LimitName::Handles)
    } else if is_same(word, b"tablemax") {
        Some(LimitName::TableMax)
    } else if is_same(word, b"tablepool") {
        Some(LimitName::TablePool)
    } else {
        None
    }
}

#[tactic(auto, unfolding(crate::specs::Settings::limit_named))]
fn limit_named(word: &[u8]) -> Result<LimitName, FaultKind>
    ensures { Reads (λ name. name) result (limit_named word.now) }
{
    match limit_name(word) {
        Some(name) => Ok(name),
        None => Err(FaultKind::BadWord),
    }
}

/// The limit that a `set` line names, and its value, which is in the limit's range.
///
/// # Errors
/// `WrongCount` unless there are two words; else `BadWord` if the first names no limit or the
/// second is no number; else `OutOfRange` if the value is outside the limit's range.
#[tactic(auto, unfolding(crate::specs::Settings::set_of))]
pub fn set(rest: &[u8]) -> Result<(LimitName, u32), FaultKind>
    ensures line { Reads (λ x. x) result (set_of (words_of rest.now)) }
    ensures range { IfOk result (λ x. (least x.0 ≤ x.1) × (x.1 ≤ greatest x.0)) }
{
    let (word, value) = two(rest)?;
    let name = limit_named(word)?;
    let value = number(value)?;
    let value = within(name.least(), name.greatest(), value)?;
    Ok((name, value))
}

/// Gives a limit its value, which is in the limit's range; all else of the configuration stays.
pub fn put_limit(config: &mut Config, name: LimitName, value: u32)
    requires low { least name ≤ value }
    requires high { value ≤ greatest name }
    ensures { limits_of config.new ≡ with_limit (limits_of config.old) name value }
{
    match name {
        LimitName::MsgIds => config.msgids = value,
        LimitName::Pipes => config.pipes = value,
        LimitName::Dests => config.dests = value,
        LimitName::Depth => config.depth = value,
        LimitName::MsgMax => config.msgmax = value,
        LimitName::Pool => config.pool = value,
        LimitName::AppPool => config.apppool = value,
        LimitName::Tables => config.tables = value,
        LimitName::Handles => config.handles = value,
        LimitName::TableMax => config.tablemax = value,
        LimitName::TablePool => config.tablepool = value,
    }
}

// One word at least.
#[tactic(auto, unfolding(crate::specs::Settings::some_words))]
fn some_words(rest: &[u8]) -> Result<(), FaultKind>
    ensures { Reads (λ x. x) result (some_words (words_of rest.now)) }
{
    match first_word(rest) {
        Some(_) => Ok(()),
        None => Err(FaultKind::WrongCount),
    }
}

// The numbers of a line, few enough.
fn numbers(words: &[u8]) -> Result<ArrayVec<u32, MAX_BLOCK_SIZES>, FaultKind>
    requires { length (words_of words.now) ≤ 17 }
    ensures { Reads (λ numbers. numbers.items) result (each number_of (words_of words.now)) }
{
    let mut numbers = ArrayVec::new();
    let mut rest = words;
    while let Some((word, behind)) = first_word(rest) {
        let n = number(word)?;
        numbers.push(n);
        rest = behind;
    }
    Ok(numbers)
}

// The numbers as block sizes, if they are such.
#[tactic(auto, unfolding(crate::specs::Settings::sizes_within))]
fn sizes_within(sizes: &[u32]) -> Result<BlockSizes, FaultKind>
    ensures { Reads (λ sizes. sizes) result (sizes_within sizes.now) }
{
    match BlockSizes::try_new(sizes) {
        Some(sizes) => Ok(sizes),
        None => Err(FaultKind::OutOfRange),
    }
}

/// The block sizes of a `sizes` line, in bytes: 1 to 17 multiples of 8 that rise, at most 80000.
///
/// # Errors
/// `WrongCount` if there is no word or an eighteenth; else `BadWord` if a word is no number;
/// else `OutOfRange` if the numbers aren't such sizes.
#[tactic(auto, unfolding(crate::specs::Settings::sizes_of))]
pub fn sizes(rest: &[u8]) -> Result<BlockSizes, FaultKind>
    ensures { Reads (λ sizes. sizes) result (sizes_of (words_of rest.now)) }
{
    some_words(rest)?;
    few(17, rest)?;
    let sizes = numbers(rest)?;
    sizes_within(sizes.as_slice())
}

/// The message id of a `seq` line, 1 to 8191, and the sequence count at which it starts, 0 to
/// 16383.
///
/// # Errors
/// `WrongCount` unless there are two words; else `BadWord` if one is no number; else
/// `OutOfRange` if the id or the count is outside its range.
#[tactic(auto, unfolding(crate::specs::Settings::seq_of))]
pub fn seq(rest: &[u8]) -> Result<(u16, u16), FaultKind>
    ensures line { Reads (λ x. x) result (seq_of (words_of rest.now)) }
    ensures range { IfOk result (λ x. (1 ≤ x.0) × (x.0 ≤ 8191) × (x.1 ≤ 16383)) }
{
    let (id, count) = two(rest)?;
    let id = number(id)?;
    let count = number(count)?;
    let id = within(1, 8191, id)?;
    let count = within(0, 16383, count)?;
    Ok((id as u16, count as u16))
}

fn is_name_byte(byte: u8) -> bool
    ensures { result ≡ is_name_byte byte }
{
    (48 <= byte && byte <= 57)
        || (65 <= byte && byte <= 90)
        || (97 <= byte && byte <= 122)
        || byte == b'_'
}

fn are_name_bytes(word: &[u8]) -> bool
    ensures { result ≡ list_all is_name_byte word.now }
{
    word.iter().all(|&byte| is_name_byte(byte))
}

// Whether an application may have this name.
#[tactic(auto, unfolding(crate::specs::Settings::is_app_name))]
fn is_app_name(word: &[u8]) -> bool
    ensures { result ≡ is_app_name word.now }
{
    1 <= word.len() && word.len() <= 19 && are_name_bytes(word)
}

/// The application's name that an `app` line gives: 1 to 19 letters, digits or underscores.
///
/// # Errors
/// `WrongCount` unless there is one word; else `BadWord` if it is no such name.
#[tactic(auto, unfolding(crate::specs::Settings::app_of))]
pub fn app(rest: &[u8]) -> Result<&[u8], FaultKind>
    ensures { Reads (λ word. word.now) result (app_of (words_of rest.now)) }
{
    let word = one(rest)?;
    if is_app_name(word) {
        Ok(word)
    } else {
        Err(FaultKind::BadWord)
    }
}

/// The version of the language that a `script` line names, 1 or 2.
///
/// # Errors
/// `WrongCount` unless there is one word; else `BadWord` if it is no number; else `OutOfRange`
/// if it is another version.
#[tactic(auto, unfolding(crate::specs::Settings::script_of))]
pub fn version(rest: &[u8]) -> Result<u32, FaultKind>
    ensures line { Reads (λ version. version) result (script_of (words_of rest.now)) }
    ensures range { IfOk result (λ version. (1 ≤ version) × (version ≤ 2)) }
{
    let word = one(rest)?;
    let version = number(word)?;
    within(1, 2, version)
}
