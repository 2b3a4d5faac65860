//! The next sequence count of each id that has a route.
ghost use Rattle.std.specs.Prelude.{◌≡◌, ◌<◌, ◌≤◌, ◌%◌, ◌+◌, ◌==◌, ◌∷◌, ◌++◌, [], map, if◌then◌else◌};
ghost use Rattle.std.specs.Result.{OnOk};
ghost use Rattle.bus_words.specs.Acts.{NextCount, next_in, has_next, moved_on};

use fsw_base::MAX_COUNT;
use std::alloc::{AllocError, Global};
use std::marker::Model;

// An id, and the count that its next send gets (CCSDS 133.0-B, 4.1.3.4.3).
#[derive(Clone, Copy)]
struct ListNext {
    // The id.
    id: u16,
    // The count.
    next: u16,
}

impl Model for ListNext {
    ghost use Rattle.std.specs.Prelude.{◌<◌};
    ghost use Rattle.bus_words.specs.Acts.{NextCount};

    ghost Value = { NextCount };

    ghost view = { λ n. record { id = n.id; next = n.next } };

    ghost invariant = { λ n. n.next < 16384 };

    ghost inverse = { λ n. record { id = n.id; next = n.next } };
}

impl ListNext {
    // The count goes up by one, in 14 bits, if it is this id's.
    fn move_if(&mut self, id: u16)
        ensures { self.new ≡ moved_on id self.old }
    {
        if self.id == id {
            self.next = (self.next + 1) % (MAX_COUNT + 1);
        }
    }
}

/// The next counts, in order of routes.
pub struct ListNexts {
    // Each with its id.
    nexts: Vec<ListNext>,
}

impl Drop for ListNexts {
    fn drop(self) {
        let ListNexts { nexts: _nexts } = self;
    }
}

impl Model for ListNexts {
    ghost use Rattle.std.specs.Prelude.{List};
    ghost use Rattle.bus_words.specs.Acts.{NextCount};

    ghost Value = { List NextCount };

    ghost view = { λ n. n.nexts.items };
}

impl ListNexts {
    /// No id has a route.
    pub fn new(alloc: Global) -> ListNexts
        ensures { result ≡ [] }
    {
        ListNexts {
            nexts: Vec::new(alloc),
        }
    }

    /// An id's next count; 0 if it has none.
    pub fn next_of(&self, id: u16) -> u16
        ensures count { result ≡ next_in self.now id }
        ensures within { result < 16384 }
    {
        next_in(&self.nexts, id)
    }

    /// Whether an id has a next count.
    pub fn has_next(&self, id: u16) -> bool
        ensures { result ≡ has_next self.now id }
    {
        self.nexts.iter().any(|next| next.id == id)
    }

    /// An id has a next count, one more than this start, if it had none.
    ///
    /// # Errors
    /// `AllocError` if memory runs out. The counts are unspecified then.
    pub fn start(&mut self, id: u16, start: u16) -> Result<(), AllocError>
        requires { start < 16384 }
        ensures { OnOk result
            (self.new ≡
            (if has_next self.old id then self.old
            else self.old ++ record { id = id; next = (start + 1) % 16384 } ∷ [])) }
    {
        if !self.has_next(id) {
            let next = (start + 1) % (MAX_COUNT + 1);
            self.nexts.push(ListNext { id, next })?;
        }
        Ok(())
    }

    /// An id's count goes up by one, in 14 bits.
    pub fn move_on(&mut self, id: u16)
        ensures { self.new ≡ map (moved_on id) self.old }
    {
        move_on(self.nexts.as_mut_slice(), id);
    }
}

// The next count of an id among these.
fn next_in(nexts: &[ListNext], id: u16) -> u16
    ensures count { result ≡ next_in nexts.now id }
    ensures within { result < 16384 }
{
    for next in nexts {
        if next.id == id {
            return next.next;
        }
    }
    0
}

// An id's count goes up by one.
fn move_on(nexts: &mut [ListNext], id: u16)
    ensures { nexts.new ≡ map (moved_on id) nexts.old }
{
    for next in nexts {
        next.move_if(id);
    }
}
