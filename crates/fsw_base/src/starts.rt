//! The sequence counts at which message ids start.
ghost use Rattle.std.specs.Prelude.{◌≡◌, ℕ, ◌<◌, ◌≤◌, ◌↔◌, List, [], length, slice_index, slice_get, IsTrue, IsSome, IfSome, Some, ◌==◌};
ghost use Rattle.std.specs.List.{list_any, list_all};
ghost use Rattle.fsw_base.specs.Starts.{are_distinct_ids, are_count_starts, is_start, start_of};
ghost use Rattle.fsw_base.specs.declared.starts.TheConstants.{MAX_STARTS, MAX_COUNT};

use arrayvec::ArrayVec;
use std::marker::Model;

/// How many ids may have a start of their own.
pub const MAX_STARTS: usize = 16;

/// The largest valid message id: packet version 0, type, secondary header flag and application
/// process id (CCSDS 133.0-B, 4.1.3.2 and 4.1.3.3).
pub const MAX_ID: u16 = 0x1fff;

/// The largest packet sequence count, 14 bits of ones (CCSDS 133.0-B, 4.1.3.4.3).
pub const MAX_COUNT: u16 = 16383;

/// Up to [`MAX_STARTS`] pairs of a message id, 1 to [`MAX_ID`], and the sequence count at which it
/// starts, at most [`MAX_COUNT`]; each id once.
#[derive(Drop)]
pub struct CountStarts {
    pairs: ArrayVec<(u16, u16), MAX_STARTS>,
}

impl Model for CountStarts {
    ghost Value = { List (ℕ × ℕ) };

    ghost view = { λ c. c.pairs.items };

    ghost invariant = { λ c. IsTrue (are_count_starts c.pairs.items) };
}

impl CountStarts {
    /// No id has a start of its own.
    pub fn none() -> CountStarts
        ensures { result ≡ [] }
    {
        CountStarts {
            pairs: ArrayVec::new(),
        }
    }

    /// These starts; None if and only if there are too many, an id is invalid or stands twice, or a
    /// count is past [`MAX_COUNT`].
    pub fn try_new(pairs: &[(u16, u16)]) -> Option<CountStarts>
        ensures valid { IsSome result ↔ IsTrue (are_count_starts pairs.now) }
        ensures value { IfSome result (λ kept. kept ≡ pairs.now) }
    {
        if !are_count_starts(pairs) {
            return None;
        }
        let mut kept = ArrayVec::new();
        let _ = kept.try_extend_from_slice(pairs);
        Some(CountStarts { pairs: kept })
    }

    /// The same starts once more.
    pub fn again(&self) -> CountStarts
        ensures { result ≡ self.now }
    {
        let mut kept = ArrayVec::new();
        let _ = kept.try_extend_from_slice(self.pairs.as_slice());
        CountStarts { pairs: kept }
    }

    /// How many pairs there are.
    pub fn count(&self) -> u32
        ensures count { result ≡ length self.now }
        ensures few { result ≤ MAX_STARTS }
    {
        self.pairs.len() as u32
    }

    /// The pair at a place, in the order given; places count from 0.
    pub fn at(&self, i: u32) -> (u16, u16)
        requires { i < length self.now }
        ensures { slice_get self.now i ≡ Some result }
    {
        self.pairs.as_slice()[i as usize]
    }

    /// The count at which this id starts: its pair's, else 0.
    pub fn start_of(&self, id: u16) -> u16
        ensures start { result ≡ start_of self.now id }
        ensures valid { result ≤ MAX_COUNT }
    {
        for pair in self.pairs.as_slice() {
            if pair.0 == id {
                return pair.1;
            }
        }
        0
    }
}

// Whether these are starts.
fn are_count_starts(pairs: &[(u16, u16)]) -> bool
    ensures { result ≡ are_count_starts pairs.now }
{
    pairs.len() <= MAX_STARTS && are_starts(pairs) && are_distinct_ids(pairs)
}

// Whether each is a valid id with a count that its 14 bits hold.
fn are_starts(pairs: &[(u16, u16)]) -> bool
    ensures { result ≡ list_all is_start pairs.now }
{
    for &(id, count) in pairs {
        if id < 1 || id > MAX_ID || count > MAX_COUNT {
            return false;
        }
    }
    true
}

/// Whether no first part stands twice.
pub(crate) fn are_distinct_ids(pairs: &[(u16, u16)]) -> bool
    ensures { result ≡ are_distinct_ids pairs.now }
{
    for (i, pair) in pairs.iter().enumerate() {
        if has_id(&pairs[i + 1..], pair.0) {
            return false;
        }
    }
    true
}

// Whether a pair has this first part.
fn has_id(pairs: &[(u16, u16)], id: u16) -> bool
    ensures { result ≡ list_any (λ pair. pair.0 == id) pairs.now }
{
    pairs.iter().any(|pair| pair.0 == id)
}
