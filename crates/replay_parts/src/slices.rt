//! Fronts of texts, and their lines.
ghost use Rattle.std.specs.Prelude.{◌≡◌, ◌≤◌, ◌++◌, length, take, MatchOption};
ghost use Rattle.run_check.specs.Fronts.{alike, line_ends};
ghost use Rattle.run_check.specs.Judged.{Begins};

// How many bytes a piece has. The compiler looks at a vector's bytes at once.
const PIECE: usize = 64;

/// What is behind a front of the text; None if the text doesn't begin with it.
pub(crate) fn behind<'a>(text: &'a [u8], front: &[u8]) -> Option<&'a [u8]>
    ensures { MatchOption result (¬ Begins text.entry.now front.now)
        (λ rest. text.entry.now ≡ front.now ++ rest.now) }
{
    text.strip_prefix(front)
}

/// How many lines end in a text.
pub(crate) fn line_ends(text: &[u8]) -> usize
    ensures count { result ≡ line_ends text.now }
    ensures few { result ≤ length text.now }
{
    let (pieces, rest) = text.as_chunks::<PIECE>();
    let mut total = 0;
    for piece in pieces {
        total += usize::from(ends_in_piece(piece));
    }
    total + usize::from(ends_in_piece(rest))
}

// How many lines end in a piece, or in the bytes that are left, which 8 bits hold.
fn ends_in_piece(piece: &[u8]) -> u8
    requires { length piece.now ≤ 64 }
    ensures count { result ≡ line_ends piece.now }
    ensures few { result ≤ length piece.now }
{
    let mut total = 0;
    for byte in piece {
        if *byte == b'\n' {
            total += 1;
        }
    }
    total
}

/// How many bytes two texts have in common at their fronts.
pub(crate) fn alike_len(one: &[u8], other: &[u8]) -> usize
    ensures text { take result one.now ≡ alike one.now other.now }
    ensures within { result ≤ length one.now }
{
    let shorter = one.len().min(other.len());
    for i in 0..shorter {
        if one[i] != other[i] {
            return i;
        }
    }
    shorter
}
