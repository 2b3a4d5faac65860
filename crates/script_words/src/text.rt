//! Lines and words.
ghost use Rattle.std.specs.Prelude.{◌≡◌, ◌<◌, ◌∷◌, [], length, MatchOption, IfSome, position};
ghost use Rattle.std.specs.Prelude.{reverse, ◌≤◌, ◌||◌, IsTrue};
ghost use Rattle.std.specs.List.{list_all, position_or_len};
ghost use Rattle.script_words.specs.Text.{is_feed, is_blank, is_no_blank, is_text, is_same};
ghost use Rattle.script_words.specs.Text.{without_return, lines_of, words_of, from_word};
ghost use Rattle.script_words.specs.Text.{behind_word, without_blanks_behind, trimmed};

use memchr::memchr;

/// The first line of bytes that aren't empty, without its line feed and one carriage return before
/// that, and what follows the line feed.
pub fn first_line(bytes: &[u8]) -> (&[u8], &[u8])
    requires { 0 < length bytes.now }
    ensures lines { lines_of bytes.now ≡ result.0.now ∷ lines_of result.1.now }
    ensures shorter { length result.1.now < length bytes.now }
{
    match feed_in(bytes) {
        Some(end) => {
            let (line, _) = bytes.split_at(end);
            let (_, behind) = bytes.split_at(end + 1);
            (without_return(line), behind)
        }
        None => {
            let (_, behind) = bytes.split_at(bytes.len());
            (without_return(bytes), behind)
        }
    }
}

// The place of the first line feed.
fn feed_in(bytes: &[u8]) -> Option<usize>
    ensures { result ≡ position is_feed bytes.now }
{
    memchr(b'\n', bytes)
}

// The line without one carriage return at its end.
fn without_return(line: &[u8]) -> &[u8]
    ensures { result.now ≡ without_return line.now }
{
    if line.ends_with(b"\r") {
        &line[..line.len() - 1]
    } else {
        line
    }
}

/// Whether two words are the same, byte by byte.
#[tactic(auto, using(crate::proofs::TextLemmas::differ_by_length, crate::proofs::TextLemmas::same_more, crate::proofs::TextLemmas::same_not, crate::proofs::TextLemmas::same_end))]
pub fn is_same(word: &[u8], other: &[u8]) -> bool
    ensures { result ≡ is_same word.now other.now }
{
    if word.len() != other.len() {
        return false;
    }
    // For words of a few bytes, one of them known, this is far less code than `==` of slices runs.
    for i in 0..other.len() {
        if word[i] != other[i] {
            return false;
        }
    }
    true
}

/// Whether each byte is printable ASCII (0x20 to 0x7E) or a tab.
pub fn is_text(line: &[u8]) -> bool
    ensures { result ≡ list_all is_text line.now }
{
    line.iter()
        .all(|&byte| (32 <= byte && byte <= 126) || byte == b'\t')
}

// Whether a byte is text or a line feed.
fn is_plain_byte(byte: u8) -> bool
    ensures { result ≡ (is_text byte || is_feed byte) }
{
    (32 <= byte && byte <= 126) || byte == b'\t' || byte == b'\n'
}

// The same of all bytes. The loop never ends early, so that many bytes are taken at a time.
fn are_plain_bytes(bytes: &[u8]) -> bool
    ensures { result ≡ list_all (λ byte. is_text byte || is_feed byte) bytes.now }
{
    let mut plain = true;
    for &byte in bytes {
        plain &= is_plain_byte(byte);
    }
    plain
}

/// Whether each byte is text or a line feed; if so, each line is text.
pub fn are_plain(bytes: &[u8]) -> bool
    ensures bytes { result ≡ list_all (λ byte. is_text byte || is_feed byte) bytes.now }
    ensures lines { IsTrue result → IsTrue (list_all (list_all is_text) (lines_of bytes.now)) }
{
    are_plain_bytes(bytes)
}

fn is_blank(byte: u8) -> bool
    ensures { result ≡ is_blank byte }
{
    byte == b' ' || byte == b'\t'
}

// The place of the first byte that is no blank.
fn word_in(line: &[u8]) -> Option<usize>
    ensures { result ≡ position is_no_blank line.now }
{
    line.iter().position(|&byte| !is_blank(byte))
}

// The place of the first blank.
fn blank_in(line: &[u8]) -> Option<usize>
    ensures { result ≡ position is_blank line.now }
{
    line.iter().position(|&byte| is_blank(byte))
}

// How many bytes stand before the first word.
fn blanks_before(line: &[u8]) -> usize
    ensures count { result ≡ position_or_len is_no_blank line.now }
    ensures within { result ≤ length line.now }
{
    match word_in(line) {
        Some(start) => start,
        None => line.len(),
    }
}

// How many bytes stand before the first blank.
fn word_len(line: &[u8]) -> usize
    ensures count { result ≡ position_or_len is_blank line.now }
    ensures within { result ≤ length line.now }
{
    match blank_in(line) {
        Some(end) => end,
        None => line.len(),
    }
}

// The line from its first word on.
fn from_word(line: &[u8]) -> &[u8]
    ensures { result.now ≡ from_word line.now }
{
    let (_, rest) = line.split_at(blanks_before(line));
    rest
}

/// The first word of a line and the line behind it; None if and only if no word is left.
pub fn first_word(line: &[u8]) -> Option<(&[u8], &[u8])>
    ensures words { MatchOption result (words_of line.now ≡ [])
        (λ cut. words_of line.now ≡ cut.0.now ∷ words_of cut.1.now) }
    ensures behind { IfSome result (λ cut. cut.1.now ≡ behind_word line.now) }
    ensures shorter { IfSome result (λ cut. length cut.1.now < length line.now) }
{
    let line = from_word(line);
    if line.is_empty() {
        return None;
    }
    Some(line.split_at(word_len(line)))
}

// The place of the last byte that is no blank, counted from the end.
fn word_from_end(text: &[u8]) -> Option<usize>
    ensures { result ≡ position is_no_blank (reverse text.now) }
{
    text.iter().rev().position(|&byte| !is_blank(byte))
}

// How many blanks stand at the end.
fn blanks_behind(text: &[u8]) -> usize
    ensures count { result ≡ position_or_len is_no_blank (reverse text.now) }
    ensures within { result ≤ length text.now }
{
    match word_from_end(text) {
        Some(count) => count,
        None => text.len(),
    }
}

/// The text without the spaces and tabs round it.
pub fn trimmed_text(text: &[u8]) -> &[u8]
    ensures { result.now ≡ trimmed text.now }
{
    let text = from_word(text);
    let (kept, _) = text.split_at(text.len() - blanks_behind(text));
    kept
}
