//! The map.
ghost use Rattle.std.specs.Prelude.{◌≡◌, ℕ, ◌+◌, ◌-◌, ◌<◌, ◌≤◌, None, IfOk};
ghost use Rattle.std.specs.FinMap as map;
ghost use Rattle.msgid_map.specs.declared.map.TheConstants.{MAX_ID};
ghost use Rattle.msgid_map.specs.Inside.{route_at};
ghost use Rattle.msgid_map.specs.Map.{IdRoutes};

use std::alloc::{AllocError, Global};
use std::marker::Model;

/// The largest valid message id: packet version 0, type, secondary header flag and application
/// process id (CCSDS 133.0-B, 4.1.3.2 and 4.1.3.3). The least is 1.
pub const MAX_ID: u16 = 0x1fff;

// How many places the table has: one for each id, and one for 0, which is none.
const PLACES: usize = 0x2000;

/// A route for each of some message ids. Contracts see the finite map from ids to routes, how many
/// ids have one, and how many ids more there is room for.
pub struct IdMap {
    // At each id, its route and one more; 0 if it has none. There are [`PLACES`] of them.
    places: Vec<u16>,
    // How many ids more may be inserted.
    room: u32,
}

impl Drop for IdMap {
    fn drop(self) {
        let IdMap {
            places: _places,
            room: _room,
        } = self;
    }
}

impl Model for IdMap {
    ghost use Rattle.msgid_map.specs.Map.{IdRoutes, routes_code};

    ghost Value = { IdRoutes };

    ghost coded = { routes_code };

    ghost use Rattle.msgid_map.specs.Inside.{routes_from, table_of, ids_with_route, ArePlaces};

    ghost view = { λ m.
        record {
          routes = routes_from 0 (table_of m.places.items);
          count = ids_with_route m.places.items;
          room = m.room;
        } };

    ghost invariant = { λ m. ArePlaces m.places.items };
}

impl IdMap {
    /// No id has a route, and there is room for `room` ids. By the code, no later call takes
    /// memory.
    ///
    /// # Errors
    /// `AllocError` if there is no memory for the table.
    pub fn new(alloc: Global, room: u32) -> Result<IdMap, AllocError>
        ensures { IfOk result
            (λ made. made ≡ record { routes = map.empty; count = 0; room = room }) }
    {
        let mut places = Vec::new(alloc);
        places.resize(PLACES, 0)?;
        Ok(IdMap { places, room })
    }

    /// The route that was inserted for this id; None if and only if none was, so for each invalid
    /// id too.
    pub fn get(&self, id: u16) -> Option<u32>
        ensures { result ≡ map.get self.now.routes id }
    {
        match self.places.get(id as usize) {
            Some(place) => route_at(*place),
            None => None,
        }
    }

    /// Gives an id its route, which is numbered by how many ids have one. Routes of other ids stay.
    pub fn insert(&mut self, id: u16, route: u32)
        requires first { 1 ≤ id }
        requires last { id ≤ MAX_ID }
        requires fresh { map.get self.old.routes id ≡ None }
        requires next { route ≡ self.old.count }
        requires room { 0 < self.old.room }
        ensures routes { self.new.routes ≡ map.insert self.old.routes id route }
        ensures count { self.new.count ≡ self.old.count + 1 }
        ensures room { self.new.room ≡ self.old.room - 1 }
    {
        self.room -= 1;
        self.places[id as usize] = (route + 1) as u16;
    }
}

// The route that a place means.
fn route_at(place: u16) -> Option<u32>
    ensures { result ≡ route_at place }
{
    if place == 0 {
        return None;
    }
    Some(u32::from(place) - 1)
}
