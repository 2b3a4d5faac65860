//! Lines of an input as the list spells them.
ghost use Rattle.std.specs.Prelude.{◌≤◌};

use script_words::numbers::number;
use std::alloc::AllocError;

/// Adds the lines that a line of the list spells: how often, if not once, `|`, and the text.
///
/// # Errors
/// `AllocError` if memory runs out.
pub fn add_lines(input: &mut Vec<u8>, line: &[u8]) -> Result<(), AllocError> {
    let (count, text) = cut_at(line, b'|');
    for _ in 0..number(count).unwrap_or(1) {
        add_text(input, text)?;
        if !text.ends_with(b"\\") {
            input.push(b'\n')?;
        }
    }
    Ok(())
}

// What stands before the first of these bytes, and what stands behind it.
fn cut_at(text: &[u8], end: u8) -> (&[u8], &[u8]) {
    match text.iter().position(|&byte| byte == end) {
        Some(place) => {
            let (front, rest) = text.split_at(place);
            (front, rest.strip_prefix(&[end]).unwrap_or(rest))
        }
        None => (text, &[]),
    }
}

// Adds a text, in which a backslash spells something with what follows it, and nothing at the end.
fn add_text(input: &mut Vec<u8>, text: &[u8]) -> Result<(), AllocError> {
    let mut plain = true;
    for part in text.split(|&byte| byte == b'\\') {
        if plain {
            input.extend_from_slice(part)?;
        } else {
            add_spelled(input, part)?;
        }
        plain = false;
    }
    Ok(())
}

// Adds what the part's front spells, and the rest of the part.
fn add_spelled(input: &mut Vec<u8>, part: &[u8]) -> Result<(), AllocError> {
    match part {
        [b'r', rest @ ..] => add_byte(input, b'\r', rest),
        [b't', rest @ ..] => add_byte(input, b'\t', rest),
        [b'x', high, low, rest @ ..] => add_byte(input, 16 * digit(*high) + digit(*low), rest),
        [b'{', rest @ ..] => add_repeated(input, rest),
        _ => Ok(()),
    }
}

fn add_byte(input: &mut Vec<u8>, byte: u8, rest: &[u8]) -> Result<(), AllocError> {
    input.push(byte)?;
    input.extend_from_slice(rest)
}

// Adds the text between `:` and `}` as often as the number before it says, and what is behind it.
fn add_repeated(input: &mut Vec<u8>, part: &[u8]) -> Result<(), AllocError> {
    let (count, rest) = cut_at(part, b':');
    let (text, rest) = cut_at(rest, b'}');
    for _ in 0..number(count).unwrap_or(0) {
        input.extend_from_slice(text)?;
    }
    input.extend_from_slice(rest)
}

// What a hexadecimal digit stands for; 0 if it is none.
fn digit(byte: u8) -> u8
    ensures { result ≤ 15 }
{
    match byte {
        b'0'..=b'9' => byte - b'0',
        b'a'..=b'f' => byte - b'a' + 10,
        _ => 0,
    }
}
