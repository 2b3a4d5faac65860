//! What an event is, and which events an application wants filtered (cFE Event Services).
ghost use Rattle.std.specs.Prelude.{◌≡◌, ℕ, ◌<◌, ◌≤◌, ◌↔◌, List, [], length, slice_get, IsTrue, IsSome, IfSome, Some};
ghost use Rattle.fsw_base.specs.Events.{kind_number, are_filters};
ghost use Rattle.fsw_base.specs.declared.events.TheConstants.{MAX_FILTERS};

use crate::starts::are_distinct_ids;
use arrayvec::ArrayVec;
use std::marker::Model;

/// How many filters an application may register.
pub const MAX_FILTERS: usize = 8;

/// What an event tells of, as cFE's event types.
#[derive(Clone, Copy, Debug, PartialEq, Eq)]
pub enum EventKind {
    /// For developers alone.
    Debug,
    /// What was expected.
    Information,
    /// What went wrong and was handled.
    Error,
    /// What went wrong and wasn't handled.
    Critical,
}

impl EventKind {
    /// The kind's number, 1 to 4, as scripts and reports have it.
    pub fn number(self) -> u8
        ensures number { result ≡ kind_number self }
        ensures first { 1 ≤ result }
        ensures last { result ≤ 4 }
    {
        match self {
            EventKind::Debug => 1,
            EventKind::Information => 2,
            EventKind::Error => 3,
            EventKind::Critical => 4,
        }
    }

    /// The kind of this number; None if and only if the number isn't 1 to 4.
    pub fn try_new(number: u32) -> Option<EventKind>
        ensures valid { IsSome result ↔ ((1 ≤ number) × (number ≤ 4)) }
        ensures kind { IfSome result (λ kind. kind_number kind ≡ number) }
    {
        match number {
            1 => Some(EventKind::Debug),
            2 => Some(EventKind::Information),
            3 => Some(EventKind::Error),
            4 => Some(EventKind::Critical),
            _ => None,
        }
    }
}

/// Up to [`MAX_FILTERS`] pairs of an event id and a mask, each id once.
#[derive(Debug, Drop)]
pub struct FilterList {
    pairs: ArrayVec<(u16, u16), MAX_FILTERS>,
}

impl Model for FilterList {
    ghost Value = { List (ℕ × ℕ) };

    ghost view = { λ f. f.pairs.items };

    ghost invariant = { λ f. IsTrue (are_filters f.pairs.items) };
}

impl FilterList {
    /// These filters; None if and only if there are too many or an id stands twice.
    pub fn try_new(pairs: &[(u16, u16)]) -> Option<FilterList>
        ensures valid { IsSome result ↔ IsTrue (are_filters pairs.now) }
        ensures value { IfSome result (λ kept. kept ≡ pairs.now) }
    {
        if pairs.len() > MAX_FILTERS || !are_distinct_ids(pairs) {
            return None;
        }
        let mut kept = ArrayVec::new();
        let _ = kept.try_extend_from_slice(pairs);
        Some(FilterList { pairs: kept })
    }

    /// The same filters once more.
    pub fn again(&self) -> FilterList
        ensures { result ≡ self.now }
    {
        let mut kept = ArrayVec::new();
        let _ = kept.try_extend_from_slice(self.pairs.as_slice());
        FilterList { pairs: kept }
    }

    /// How many filters there are, at most [`MAX_FILTERS`].
    pub fn count(&self) -> u32
        ensures count { result ≡ length self.now }
        ensures few { result ≤ MAX_FILTERS }
        ensures distinct { IsTrue (are_filters self.now) }
    {
        self.pairs.len() as u32
    }

    /// The event id and the mask at a place, in the order given; places count from 0.
    pub fn at(&self, i: u32) -> (u16, u16)
        requires { i < length self.now }
        ensures { slice_get self.now i ≡ Some result }
    {
        self.pairs.as_slice()[i as usize]
    }
}
