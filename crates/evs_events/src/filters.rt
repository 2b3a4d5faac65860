//! The filters with which an application registered (cFE Event Services, event filtering).
ghost use Rattle.std.specs.Prelude.{◌≡◌, ◌-◌};
ghost use Rattle.fsw_base.specs.EventFilters.{fresh_filters, is_open, has_filter, passes, after_event, all_after_event, after_reset, restarted};

use arrayvec::ArrayVec;
use fsw_base::{FilterList, MAX_FILTERS};
use std::marker::Model;

/// A filter for one event id: an event passes if the count AND the mask is 0.
#[derive(Clone, Copy, Default)]
pub struct Filter {
    // The event id.
    id: u16,
    // Ones if the count must have zeros for an event to pass.
    mask: u16,
    // The events of this id since the registration or the last reset, passed or not; stops at
    // 65535.
    count: u16,
}

impl Model for Filter {
    ghost use Rattle.fsw_base.specs.EventFilters.{EventFilter};

    ghost Value = { EventFilter };

    ghost view = { λ f. record { id = f.id; mask = f.mask; count = f.count } };

    ghost inverse = { λ f. record { id = f.id; mask = f.mask; count = f.count } };
}

impl Filter {
    // Whether the filter lets an event through.
    fn is_open(&self) -> bool
        ensures { result ≡ is_open self.now }
    {
        self.count & self.mask == 0
    }

    // Counts an event of this id, if the filter is for it.
    fn count_event(&mut self, id: u16)
        ensures { self.new ≡ after_event id self.old }
    {
        if self.id == id {
            self.count = self.count.saturating_add(1);
        }
    }

    // Counts from 0 again, if the filter is for this id.
    fn reset(&mut self, id: u16)
        ensures { self.new ≡ after_reset id self.old }
    {
        if self.id == id {
            self.count = 0;
        }
    }
}

/// The filters of one application, each event id once.
#[derive(Drop)]
pub struct Registration {
    // In the order given.
    filters: ArrayVec<Filter, MAX_FILTERS>,
}

impl Model for Registration {
    ghost use Rattle.std.specs.Prelude.{List};
    ghost use Rattle.fsw_base.specs.EventFilters.{EventFilter};

    ghost Value = { List EventFilter };

    ghost view = { λ r. r.filters.items };
}

impl Registration {
    /// A registration with these pairs of an event id and a mask; no event was seen yet.
    pub fn new(pairs: &FilterList) -> Registration
        ensures { result ≡ fresh_filters pairs.now }
    {
        let mut filters = ArrayVec::new();
        for i in 0..pairs.count() {
            let (id, mask) = pairs.at(i);
            filters.push(Filter { id, mask, count: 0 });
        }
        Registration { filters }
    }

    /// Whether an event of this id passes.
    pub fn passes(&self, id: u16) -> bool
        ensures { result ≡ passes self.now id }
    {
        let filters = self.filters.as_slice();
        filters
            .iter()
            .all(|filter| filter.id != id || filter.is_open())
    }

    /// Whether a filter is for this event id.
    pub fn has_filter(&self, id: u16) -> bool
        ensures { result ≡ has_filter self.now id }
    {
        self.filters.as_slice().iter().any(|filter| filter.id == id)
    }

    /// The filter for this event id counts one event more.
    pub fn count(&mut self, id: u16)
        ensures { self.new ≡ all_after_event self.old id }
    {
        count_events(self.filters.as_mut_slice(), id);
    }

    /// The filter for this event id counts from 0 again.
    pub fn restart(&mut self, id: u16)
        ensures { self.new ≡ restarted self.old id }
    {
        restart_counts(self.filters.as_mut_slice(), id);
    }
}

// The filter for this event id counts one event more.
fn count_events(filters: &mut [Filter], id: u16)
    ensures { filters.new ≡ all_after_event filters.old id }
{
    for filter in filters {
        filter.count_event(id);
    }
}

// The filter for this event id counts from 0 again.
fn restart_counts(filters: &mut [Filter], id: u16)
    ensures { filters.new ≡ restarted filters.old id }
{
    for filter in filters {
        filter.reset(id);
    }
}
