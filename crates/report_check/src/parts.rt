//! The two parts of an input that is checked.
ghost use Rattle.std.specs.Prelude.{◌≡◌, ◌+◌, ◌≤◌, drop, length};
ghost use Rattle.std.specs.List.{position_or_len};
ghost use Rattle.std.specs.Option.{option_map};
ghost use Rattle.script_words.specs.Text.{is_feed};
ghost use Rattle.report_check.specs.Parts.{is_mark, parts_in};

use memchr::memchr;

/// The bytes before the first line that is `---`, and those behind this line; None if no line
/// is. A carriage return before the line's feed is no part of it, and the last line may have no
/// feed.
pub fn parts_of<'a>(input: &'a [u8]) -> Option<(&'a [u8], &'a [u8])>
    ensures { option_map (λ parts. (parts.0.now, parts.1.now)) result ≡
        parts_in input.entry.now }
{
    let mut start = 0;
    while start < input.len() {
        let rest = &input[start..];
        let line = line_len(rest);
        if is_mark(&rest[..line]) {
            return Some((&input[..start], behind(rest, line)));
        }
        start += line + 1;
    }
    None
}

// How long the first line is, without its feed.
fn line_len(text: &[u8]) -> usize
    ensures value { result ≡ position_or_len is_feed text.now }
    ensures within { result ≤ length text.now }
{
    match memchr(b'\n', text) {
        Some(len) => len,
        None => text.len(),
    }
}

// Whether a line stands between the two parts.
fn is_mark(line: &[u8]) -> bool
    ensures { result ≡ is_mark line.now }
{
    line == b"---".as_slice() || line == b"---\r".as_slice()
}

// What is behind a line so long, and behind its feed if it has one.
fn behind<'a>(text: &'a [u8], line: usize) -> &'a [u8]
    ensures { result.now ≡ drop (line + 1) text.entry.now }
{
    if line < text.len() {
        &text[line + 1..]
    } else {
        &[]
    }
}
