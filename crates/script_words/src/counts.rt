//! How many words follow a line's first word.
ghost use Rattle.std.specs.Prelude.{◌≡◌, ◌≤◌, length, OnOk};
ghost use Rattle.std.specs.Option.{option_map};
ghost use Rattle.script_words.specs.Readings.{Reads};
ghost use Rattle.script_words.specs.Text.{words_of};
ghost use Rattle.script_words.specs.Counts.{next, none, one, two, three, optional, one_or_two};
ghost use Rattle.script_words.specs.Counts.{two_optional, next_two, two_to_four, three_or_four};
ghost use Rattle.script_words.specs.Counts.{few};

use crate::text::first_word;
use fsw_base::FaultKind;

/// The next word, and the line behind it.
///
/// # Errors
/// `WrongCount` if no word is left.
#[tactic(auto, unfolding(crate::specs::Counts::next))]
pub fn next(rest: &[u8]) -> Result<(&[u8], &[u8]), FaultKind>
    ensures { Reads (λ x. (x.0.now, words_of x.1.now)) result (next (words_of rest.now)) }
{
    match first_word(rest) {
        Some(cut) => Ok(cut),
        None => Err(FaultKind::WrongCount),
    }
}

/// Nothing, if no word is left.
///
/// # Errors
/// `WrongCount` if there is one.
#[tactic(auto, unfolding(crate::specs::Counts::none))]
pub fn none(rest: &[u8]) -> Result<(), FaultKind>
    ensures { Reads (λ x. x) result (none (words_of rest.now)) }
{
    match first_word(rest) {
        Some(_) => Err(FaultKind::WrongCount),
        None => Ok(()),
    }
}

/// The only word.
///
/// # Errors
/// `WrongCount` if there is none or another one.
#[tactic(auto, unfolding(crate::specs::Counts::one))]
pub fn one(rest: &[u8]) -> Result<&[u8], FaultKind>
    ensures { Reads (λ x. x.now) result (one (words_of rest.now)) }
{
    let (first, rest) = next(rest)?;
    none(rest)?;
    Ok(first)
}

/// The only two words.
///
/// # Errors
/// `WrongCount` if there are fewer or more.
#[tactic(auto, unfolding(crate::specs::Counts::two))]
pub fn two(rest: &[u8]) -> Result<(&[u8], &[u8]), FaultKind>
    ensures { Reads (λ x. (x.0.now, x.1.now)) result (two (words_of rest.now)) }
{
    let (first, rest) = next(rest)?;
    let second = one(rest)?;
    Ok((first, second))
}

/// The only three words.
///
/// # Errors
/// `WrongCount` if there are fewer or more.
#[tactic(auto, unfolding(crate::specs::Counts::three))]
pub fn three(rest: &[u8]) -> Result<(&[u8], &[u8], &[u8]), FaultKind>
    ensures { Reads (λ x. (x.0.now, x.1.now, x.2.now)) result (three (words_of rest.now)) }
{
    let (first, rest) = next(rest)?;
    let (second, third) = two(rest)?;
    Ok((first, second, third))
}

/// The only word, or none.
///
/// # Errors
/// `WrongCount` if there are more.
#[tactic(auto, unfolding(crate::specs::Counts::optional))]
pub fn optional(rest: &[u8]) -> Result<Option<&[u8]>, FaultKind>
    ensures { Reads (λ x. option_map (λ word. word.now) x) result (optional (words_of rest.now)) }
{
    match first_word(rest) {
        Some((first, rest)) => {
            none(rest)?;
            Ok(Some(first))
        }
        None => Ok(None),
    }
}

/// One word, and one that may be left out.
///
/// # Errors
/// `WrongCount` if there is none or a third.
#[tactic(auto, unfolding(crate::specs::Counts::one_or_two))]
pub fn one_or_two(rest: &[u8]) -> Result<(&[u8], Option<&[u8]>), FaultKind>
    ensures { Reads (λ x. (x.0.now, option_map (λ word. word.now) x.1)) result
        (one_or_two (words_of rest.now)) }
{
    let (first, rest) = next(rest)?;
    let second = optional(rest)?;
    Ok((first, second))
}

/// Two words that may be left out from the end.
///
/// # Errors
/// `WrongCount` if there are more.
#[tactic(auto, unfolding(crate::specs::Counts::two_optional))]
pub fn two_optional(rest: &[u8]) -> Result<(Option<&[u8]>, Option<&[u8]>), FaultKind>
    ensures { Reads (λ x. (option_map (λ word. word.now) x.0, option_map (λ word. word.now) x.1))
        result (two_optional (words_of rest.now)) }
{
    match first_word(rest) {
        Some((first, rest)) => {
            let second = optional(rest)?;
            Ok((Some(first), second))
        }
        None => Ok((None, None)),
    }
}

/// Two words, and the line behind them.
///
/// # Errors
/// `WrongCount` if there are fewer.
#[tactic(auto, unfolding(crate::specs::Counts::next_two))]
pub fn next_two(rest: &[u8]) -> Result<(&[u8], &[u8], &[u8]), FaultKind>
    ensures { Reads (λ x. (x.0.now, x.1.now, words_of x.2.now)) result
        (next_two (words_of rest.now)) }
{
    let (first, rest) = next(rest)?;
    let (second, rest) = next(rest)?;
    Ok((first, second, rest))
}

/// Two words, and two that may be left out from the end.
///
/// # Errors
/// `WrongCount` if there are fewer than two or more than four.
#[tactic(auto, unfolding(crate::specs::Counts::two_to_four))]
pub fn two_to_four(
    rest: &[u8],
) -> Result<((&[u8], &[u8]), (Option<&[u8]>, Option<&[u8]>)), FaultKind>
    ensures { Reads
        (λ x. (
          (x.0.0.now, x.0.1.now),
          (option_map (λ word. word.now) x.1.0, option_map (λ word. word.now) x.1.1),
        ))
        result (two_to_four (words_of rest.now)) }
{
    let (first, second, rest) = next_two(rest)?;
    let others = two_optional(rest)?;
    Ok(((first, second), others))
}

/// Three words, and one that may be left out.
///
/// # Errors
/// `WrongCount` if there are fewer than three or more than four.
#[tactic(auto, unfolding(crate::specs::Counts::three_or_four))]
pub fn three_or_four(rest: &[u8]) -> Result<((&[u8], &[u8]), (&[u8], Option<&[u8]>)), FaultKind>
    ensures { Reads
        (λ x. ((x.0.0.now, x.0.1.now), (x.1.0.now, option_map (λ word. word.now) x.1.1)))
        result (three_or_four (words_of rest.now)) }
{
    let (first, second, rest) = next_two(rest)?;
    let others = one_or_two(rest)?;
    Ok(((first, second), others))
}

// How many words there are.
fn count(words: &[u8]) -> usize
    ensures { result ≡ length (words_of words.now) }
{
    let mut count = 0;
    let mut rest = words;
    while let Some((_, behind)) = first_word(rest) {
        count += 1;
        rest = behind;
    }
    count
}

/// Nothing, if at most so many words are left.
///
/// # Errors
/// `WrongCount` if there are more.
#[tactic(auto, unfolding(crate::specs::Counts::few))]
pub fn few(most: usize, rest: &[u8]) -> Result<(), FaultKind>
    ensures words { Reads (λ x. x) result (few most (words_of rest.now)) }
    ensures count { OnOk result (length (words_of rest.now) ≤ most) }
{
    if count(rest) <= most {
        Ok(())
    } else {
        Err(FaultKind::WrongCount)
    }
}
