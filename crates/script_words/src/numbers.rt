//! Numbers, registers and bytes as a script spells them.
ghost use Rattle.std.specs.Prelude.{◌≡◌, ◌+◌, ◌*◌, ◌^◌, ◌≤◌, ◌<◌, ◌∷◌, [], ◌++◌, min, length};
ghost use Rattle.std.specs.Prelude.{MatchOption, IfSome, IfOk, position};
ghost use Rattle.std.specs.List.{list_all};
ghost use Rattle.script_words.specs.Readings.{Reads};
ghost use Rattle.script_words.specs.Numbers.{is_digit, is_hex_digit, digit_value, value_in};
ghost use Rattle.script_words.specs.Numbers.{is_decimal, is_hexadecimal, number_of, register_of};
ghost use Rattle.script_words.specs.Numbers.{within, is_hex, is_colon, parts_of, numbers_2};
ghost use Rattle.script_words.specs.Numbers.{number_and_2, numbers_3, small, pipe_of, buffer_of};
ghost use Rattle.script_words.specs.Numbers.{pool_of, grant_of, table_of};
ghost use Rattle.std.specs.Prelude.{if◌then◌else◌, Err, true, false};
ghost use Rattle.fsw_base.specs.declared.script_faults.FaultKind.TheVariants.{BadWord};

use fsw_base::FaultKind;

/// How many registers there are of a kind, except of memory pools: `p0` to `p63` and so on.
pub const REGISTERS: usize = 64;

// Where a value stops growing: past all numbers of a script.
const CAP: u64 = 4_294_967_296;

fn is_digit(byte: u8) -> bool
    ensures { result ≡ is_digit byte }
{
    48 <= byte && byte <= 57
}

fn is_hex_digit(byte: u8) -> bool
    ensures { result ≡ is_hex_digit byte }
{
    (48 <= byte && byte <= 57) || (65 <= byte && byte <= 70) || (97 <= byte && byte <= 102)
}

/// What a hexadecimal digit stands for.
#[tactic(auto, unfolding(crate::specs::Numbers::digit_value))]
pub(crate) fn digit_value(byte: u8) -> u8
    ensures value { result ≡ digit_value byte }
    ensures small { result ≤ 15 }
{
    if 48 <= byte && byte <= 57 {
        byte - 48
    } else if 65 <= byte && byte <= 70 {
        byte - 55
    } else if 97 <= byte && byte <= 102 {
        byte - 87
    } else {
        0
    }
}

// The number that digits spell, as far as it is below the cap.
fn value_in(base: u64, digits: &[u8]) -> u64
    requires low { 1 ≤ base }
    requires high { base ≤ 16 }
    ensures { result ≡ min (value_in base digits.now) CAP }
{
    let mut value = 0;
    for &digit in digits {
        value = (value * base + digit_value(digit) as u64).min(CAP);
    }
    value
}

// The number that decimal digits spell, as far as it is below the cap; None if one is no digit.
#[tactic(auto, using(std::proofs::lemmas::List::Folds::list_all_at, std::proofs::lemmas::List::Folds::list_all_more))]
fn digits_value(digits: &[u8]) -> Option<u64>
    ensures { MatchOption result (list_all is_digit digits.now ≡ false)
        (λ n. (list_all is_digit digits.now ≡ true) × (n ≡ min (value_in 10 digits.now) CAP)) }
{
    let mut value = 0;
    for &digit in digits {
        if !is_digit(digit) {
            return None;
        }
        value = (value * 10 + digit_value(digit) as u64).min(CAP);
    }
    Some(value)
}

fn are_hex_digits(word: &[u8]) -> bool
    ensures { result ≡ list_all is_hex_digit word.now }
{
    word.iter().all(|&byte| is_hex_digit(byte))
}

// The number that these decimal digits spell, as far as it is below the cap; None if they aren't
// such digits, or have a needless 0 at the front.
#[tactic(auto, unfolding(crate::specs::Numbers::is_decimal))]
fn decimal_value(word: &[u8]) -> Option<u64>
    ensures { MatchOption result (is_decimal word.now ≡ false)
        (λ n. (is_decimal word.now ≡ true) × (n ≡ min (value_in 10 word.now) CAP)) }
{
    match word {
        [] => None,
        [first, digits @ ..] => {
            if *first == 48 && !digits.is_empty() {
                None
            } else {
                digits_value(word)
            }
        }
    }
}

// The value, if it is a number of a script.
fn small(value: u64) -> Result<u32, FaultKind>
    ensures { Reads (λ n. n) result (small value) }
{
    if value <= 4_294_967_295 {
        Ok(value as u32)
    } else {
        Err(FaultKind::BadWord)
    }
}

fn hexadecimal(digits: &[u8]) -> Result<u32, FaultKind>
    ensures { Reads (λ n. n) result
        (if is_hexadecimal digits.now then small (value_in 16 digits.now) else Err BadWord) }
{
    if 1 <= digits.len() && digits.len() <= 8 && are_hex_digits(digits) {
        small(value_in(16, digits))
    } else {
        Err(FaultKind::BadWord)
    }
}

fn decimal(digits: &[u8]) -> Result<u32, FaultKind>
    ensures { Reads (λ n. n) result
        (if is_decimal digits.now then small (value_in 10 digits.now) else Err BadWord) }
{
    match decimal_value(digits) {
        Some(value) => small(value),
        None => Err(FaultKind::BadWord),
    }
}

/// The number that a word spells: decimal digits without a needless 0 at the front, or `0x` and one
/// to eight hexadecimal digits.
///
/// # Errors
/// `BadWord` if it spells none up to 4294967295.
#[tactic(auto, unfolding(crate::specs::Numbers::number_of))]
pub fn number(word: &[u8]) -> Result<u32, FaultKind>
    ensures { Reads (λ n. n) result (number_of word.now) }
{
    if word.starts_with(b"0x") {
        let (_, digits) = word.split_at(2);
        hexadecimal(digits)
    } else {
        decimal(word)
    }
}

// The register that a word names, of so many with this letter.
#[tactic(auto, unfolding(crate::specs::Numbers::register_of))]
fn register(letter: u8, count: u32, word: &[u8]) -> Result<u32, FaultKind>
    ensures { Reads (λ n. n) result (register_of letter count word.now) }
{
    match word {
        [] => Err(FaultKind::BadWord),
        [first, digits @ ..] => {
            if *first != letter {
                return Err(FaultKind::BadWord);
            }
            match decimal_value(digits) {
                Some(number) if number < count as u64 => Ok(number as u32),
                _ => Err(FaultKind::BadWord),
            }
        }
    }
}

/// The number, if it is from `low` to `high`.
///
/// # Errors
/// `OutOfRange` if it isn't.
#[tactic(auto, unfolding(crate::specs::Numbers::within))]
pub fn within(low: u32, high: u32, number: u32) -> Result<u32, FaultKind>
    ensures range { Reads (λ n. n) result (within low high number) }
    ensures same { IfOk result (λ n. (low ≤ n) × (n ≤ high)) }
{
    if low <= number && number <= high {
        Ok(number)
    } else {
        Err(FaultKind::OutOfRange)
    }
}

/// Whether a word spells bytes: an even number of hexadecimal digits, 2 to 512.
#[tactic(auto, unfolding(crate::specs::Numbers::is_hex))]
pub fn is_hex(word: &[u8]) -> bool
    ensures { result ≡ is_hex word.now }
{
    word.len() % 2 == 0 && 2 <= word.len() && word.len() <= 512 && are_hex_digits(word)
}

// The place of the first colon.
fn colon_in(word: &[u8]) -> Option<usize>
    ensures { result ≡ position is_colon word.now }
{
    word.iter().position(|&byte| byte == b':')
}

// What stands before the first colon and what follows it; None if no colon is there.
fn first_part(word: &[u8]) -> Option<(&[u8], &[u8])>
    ensures { MatchOption result (parts_of word.now ≡ word.now ∷ [])
        (λ cut. parts_of word.now ≡ cut.0.now ∷ parts_of cut.1.now) }
{
    match colon_in(word) {
        Some(end) => {
            let (part, _) = word.split_at(end);
            let (_, behind) = word.split_at(end + 1);
            Some((part, behind))
        }
        None => None,
    }
}

/// Two numbers with a colon between.
///
/// # Errors
/// `BadWord` if the word isn't that.
#[tactic(auto, unfolding(crate::specs::Numbers::numbers_2))]
pub fn two_numbers(word: &[u8]) -> Result<(u32, u32), FaultKind>
    ensures { Reads (λ x. x) result (numbers_2 (parts_of word.now)) }
{
    match first_part(word) {
        None => Err(FaultKind::BadWord),
        Some((first, second)) => match first_part(second) {
            Some(_) => Err(FaultKind::BadWord),
            None => {
                let first = number(first)?;
                let second = number(second)?;
                Ok((first, second))
            }
        },
    }
}

// A number, and two with a colon between.
#[tactic(auto, unfolding(crate::specs::Numbers::number_and_2))]
fn number_and_two(first: &[u8], others: &[u8]) -> Result<(u32, u32, u32), FaultKind>
    ensures { Reads (λ x. x) result (number_and_2 first.now (parts_of others.now)) }
{
    let first = number(first)?;
    let (second, third) = two_numbers(others)?;
    Ok((first, second, third))
}

/// Three numbers with colons between.
///
/// # Errors
/// `BadWord` if the word isn't that.
#[tactic(auto, unfolding(crate::specs::Numbers::numbers_3))]
pub fn three_numbers(word: &[u8]) -> Result<(u32, u32, u32), FaultKind>
    ensures { Reads (λ x. x) result (numbers_3 (parts_of word.now)) }
{
    match first_part(word) {
        None => Err(FaultKind::BadWord),
        Some((first, others)) => number_and_two(first, others),
    }
}

/// The number of a pipe's register, `p0` to `p63`.
///
/// # Errors
/// `BadWord` if the word names none.
#[tactic(auto, unfolding(crate::specs::Numbers::pipe_of))]
pub fn pipe(word: &[u8]) -> Result<u32, FaultKind>
    ensures { Reads (λ n. n) result (pipe_of word.now) }
{
    register(b'p', REGISTERS as u32, word)
}

/// The number of a buffer's register, `b0` to `b63`.
///
/// # Errors
/// `BadWord` if the word names none.
#[tactic(auto, unfolding(crate::specs::Numbers::buffer_of))]
pub fn buffer(word: &[u8]) -> Result<u32, FaultKind>
    ensures { Reads (λ n. n) result (buffer_of word.now) }
{
    register(b'b', REGISTERS as u32, word)
}

/// The number of a memory pool's register, `q0` to `q7`.
///
/// # Errors
/// `BadWord` if the word names none.
#[tactic(auto, unfolding(crate::specs::Numbers::pool_of))]
pub fn pool(word: &[u8]) -> Result<u32, FaultKind>
    ensures { Reads (λ n. n) result (pool_of word.now) }
{
    register(b'q', 8, word)
}

/// The number of a grant's register, `m0` to `m63`.
///
/// # Errors
/// `BadWord` if the word names none.
#[tactic(auto, unfolding(crate::specs::Numbers::grant_of))]
pub fn grant(word: &[u8]) -> Result<u32, FaultKind>
    ensures { Reads (λ n. n) result (grant_of word.now) }
{
    register(b'm', REGISTERS as u32, word)
}

/// The number of a table handle's register, `t0` to `t63`.
///
/// # Errors
/// `BadWord` if the word names none.
#[tactic(auto, unfolding(crate::specs::Numbers::table_of))]
pub fn table(word: &[u8]) -> Result<u32, FaultKind>
    ensures { Reads (λ n. n) result (table_of word.now) }
{
    register(b't', REGISTERS as u32, word)
}

/// The number as a byte, if it is at most 255.
///
/// # Errors
/// `OutOfRange` if it is greater.
pub fn byte_within(number: u32) -> Result<u8, FaultKind>
    ensures { Reads (λ n. n) result (within 0 255 number) }
{
    let number = within(0, 255, number)?;
    Ok(number as u8)
}

/// The number as one of two bytes, if it is at most 65535.
///
/// # Errors
/// `OutOfRange` if it is greater.
pub fn short_within(number: u32) -> Result<u16, FaultKind>
    ensures { Reads (λ n. n) result (within 0 65535 number) }
{
    let number = within(0, 65535, number)?;
    Ok(number as u16)
}
