//! The pipes at which a message is missed.
ghost use Rattle.std.specs.Prelude.{◌≡◌, ◌<◌, ◌++◌, ◌∷◌, [], length, IfOk};
ghost use Rattle.std.specs.Option.{option_to_list};
ghost use Rattle.bus_routes.specs.Missed.{Missed};

use crate::tables::ItemRow;
use bus_words::{Miss, MissCause};
use std::alloc::{AllocError, Global};
use std::marker::Model;

/// What the message sent last left to be told and done: the pipes that missed it, or dropped their
/// oldest message for it, in the order of its destinations; and those oldest messages. Contracts
/// see both lists, and how many pipes there is room for.
pub struct Misses {
    // The pipes, with room for as many as a message can have destinations.
    items: Vec<Miss>,
    // The messages that were dropped: at most one for each of the pipes, and room for as many.
    dropped: Vec<ItemRow>,
}

impl Drop for Misses {
    fn drop(self) {
        let Misses {
            items: _items,
            dropped: _dropped,
        } = self;
    }
}

impl Model for Misses {
    ghost use Rattle.std.specs.Prelude.{◌≤◌, length, vec_capacity};
    ghost use Rattle.bus_routes.specs.Missed.{Missed};

    ghost Value = { Missed };

    ghost view = { λ m. record {
      items = m.items.items;
      dropped = m.dropped.items;
      room = vec_capacity m.items;
    } };

    ghost invariant = { λ m. (length m.dropped.items ≤ length m.items.items) ×
        (vec_capacity m.items ≤ vec_capacity m.dropped) };
}

impl Misses {
    /// None yet, with room for so many: as many as a message can have destinations. By the code, no
    /// later call takes memory.
    ///
    /// # Errors
    /// If memory runs out.
    pub fn new(alloc: Global, room: u32) -> Result<Misses, AllocError>
        ensures { IfOk result
            (λ misses. misses ≡ record { items = []; dropped = []; room = room }) }
    {
        Ok(Misses {
            items: Vec::with_capacity(alloc, room as usize)?,
            dropped: Vec::with_capacity(alloc, room as usize)?,
        })
    }

    /// The pipes, in the order of the destinations.
    pub fn as_slice(&self) -> &[Miss]
        ensures { result.now ≡ self.now.items }
    {
        &self.items
    }

    /// The messages that pipes dropped, in the order of the destinations. A caller that shares
    /// messages among pipes lets each of them go.
    pub fn dropped_messages(&self) -> &[ItemRow]
        ensures { result.now ≡ self.now.dropped }
    {
        &self.dropped
    }

    /// Forgets what an earlier message left.
    pub(crate) fn clear(&mut self)
        ensures { self.new ≡ record self.old { items = []; dropped = [] } }
    {
        self.items.clear();
        self.dropped.clear();
    }

    /// Adds a pipe that missed the message.
    pub(crate) fn push(&mut self, pipe: u32, cause: MissCause)
        requires { length self.old.items < self.old.room }
        ensures { self.new ≡ record self.old {
          items = self.old.items ++ record { pipe = pipe; cause = cause } ∷ [];
        } }
    {
        self.items.push_reserved(Miss { pipe, cause });
    }

    /// Adds a pipe that dropped its oldest message, and that message.
    pub(crate) fn push_drop(&mut self, pipe: u32, oldest: Option<ItemRow>)
        requires { length self.old.items < self.old.room }
        ensures { self.new ≡ record self.old {
          items = self.old.items ++ record { pipe = pipe; cause = MissCause.Oldest } ∷ [];
          dropped = self.old.dropped ++ option_to_list oldest;
        } }
    {
        self.items.push_reserved(Miss {
            pipe,
            cause: MissCause::Oldest,
        });
        if let Some(oldest) = oldest {
            self.dropped.push_reserved(oldest);
        }
    }
}
