//! The lines that separate the parts of a plan.
ghost use Rattle.std.specs.Prelude.{◌≡◌, nat_le};
ghost use Rattle.script_words.specs.Text.{lines_of};
ghost use Rattle.bridge_plan.specs.Parts.{is_mark, marks_in};

use script_words::text::{first_line, is_same};

// How many lines separate the three parts.
const MARKS: usize = 2;

/// Whether a line stands between two parts: `---`, with nothing round it.
pub(crate) fn is_mark(line: &[u8]) -> bool
    ensures { result ≡ is_mark line.now }
{
    is_same(line, b"---")
}

// How many lines do.
fn count_marks(bytes: &[u8]) -> usize
    ensures { result ≡ marks_in (lines_of bytes.now) }
{
    let mut marks = 0;
    let mut rest = bytes;
    while !rest.is_empty() {
        let (line, behind) = first_line(rest);
        if is_mark(line) {
            marks += 1;
        }
        rest = behind;
    }
    marks
}

/// Whether a text has all three parts: two lines at least are `---`.
pub(crate) fn has_parts(bytes: &[u8]) -> bool
    ensures { result ≡ nat_le 2 (marks_in (lines_of bytes.now)) }
{
    count_marks(bytes) >= MARKS
}
