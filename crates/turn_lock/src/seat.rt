//! The token that a thread takes its turns with.
ghost use Rattle.std.specs.Prelude.{◌≡◌, ◌||◌, true, false, [], ◌∷◌, IfNone};
ghost use Rattle.atomic_table.specs.Seated.{TableId};
ghost use Rattle.turn_lock.specs.Seats.{IsOut, view_of};
ghost use Rattle.turn_lock.specs.Inside.{known, is_idle, IsOf};
ghost use Rattle.turn_lock.specs.declared.view.Stage.TheVariants.{Main, Away};

use crate::board::{Rang, Slept};
use crate::view::View;
use atomic_table::{Badge, Seat as Place};
use std::marker::{Brand, Model};
use std::mem;

/// A token that may go from thread to thread. The main seat comes with the lock and takes no turns;
/// each application's seat is split off from it, and is joined to it in the end.
///
/// Contracts see which lock it is of, what it knows, which is nothing while its turn is out, and
/// whether it left its last turn to sleep and hasn't slept since: it has to, or was kept awake. The
/// type names neither the lock's value nor a lifetime.
pub struct Seat<F, E> {
    // The seat of the lock's table, which has no bytes.
    badge: Badge<View<F, E>>,
    // Whether it has to sleep before its next turn.
    rest: Rest,
}

impl<F, E> Drop for Seat<F, E> {
    fn drop(self) {
        let Seat {
            badge: _badge,
            rest: _rest,
        } = self;
    }
}

/// Whether a seat has to sleep before its next turn.
#[derive(Clone, Copy)]
pub(crate) enum Rest {
    /// It didn't leave its last turn to sleep, or has slept since.
    Over,
    /// It left its last turn to sleep, and had heard the bell so often in it.
    Due(Rang),
    /// The same, and it was kept awake.
    Skipped(Rang),
}

impl<F, E> Model for Seat<F, E> {
    ghost use Rattle.std.specs.Prelude.{◌≡◌, true, map, All};
    ghost use Rattle.turn_lock.specs.Seats.{SeatView};
    ghost use Rattle.turn_lock.specs.Inside.{known, is_idle, is_due, is_skipped, Recalls};

    ghost Value = { SeatView F E };

    ghost view = { λ s. record {
      lock = s.badge.table_id;
      knows = map known s.badge.views;
      rests = is_due s.rest;
      kept_awake = is_skipped s.rest;
    } };

    ghost invariant = { λ s. All (λ v. is_idle v.stage ≡ true) s.badge.views
        × All (λ v. Recalls s.rest v.heard) s.badge.views };
}

impl<F, E> Seat<F, E> {
    /// The seat of a place of the table that has no turn.
    pub(crate) fn of<S>(place: Place<S, View<F, E>>) -> Seat<F, E>
        requires empty { place.me.1 ≡ [] }
        requires idle { is_idle place.me.0.stage ≡ true }
        ensures { result ≡
            record {
              lock = place.table_id;
              knows = known place.me.0 ∷ [];
              rests = false;
              kept_awake = false;
            } }
    {
        Seat {
            badge: place.into_badge(),
            rest: Rest::Over,
        }
    }

    /// The same, of a seat that sleeps next, until the bell rings again. It heard it in its turn.
    pub(crate) fn sleeper<S>(place: Place<S, View<F, E>>, rang: Rang) -> Seat<F, E>
        requires empty { place.me.1 ≡ [] }
        requires idle { is_idle place.me.0.stage ≡ true }
        requires heard { IsOf rang place.me.0.heard }
        ensures { result ≡
            record {
              lock = place.table_id;
              knows = known place.me.0 ∷ [];
              rests = true;
              kept_awake = false;
            } }
    {
        Seat {
            badge: place.into_badge(),
            rest: Rest::Due(rang),
        }
    }

    /// How often the bell had rung in the turn that it left to sleep; None if it has no sleep due.
    pub(crate) fn rang(&self) -> Option<Rang>
        ensures { IfNone result
            ((self.now.rests ≡ false) × (self.now.kept_awake ≡ false)) }
    {
        match self.rest {
            Rest::Over => None,
            Rest::Due(rang) => Some(rang),
            Rest::Skipped(rang) => Some(rang),
        }
    }

    /// The seat's thread slept, so it may begin a turn.
    pub(crate) fn take_rest(&mut self, _slept: Slept)
        ensures { self.new ≡ record self.old { rests = false; kept_awake = false } }
    {
        self.rest = Rest::Over;
    }

    /// Lets it begin a turn without sleeping, which is noted.
    pub(crate) fn skip_rest(&mut self)
        ensures { self.new ≡
            record self.old { rests = false; kept_awake = self.old.rests || self.old.kept_awake } }
    {
        if let Rest::Due(rang) = self.rest {
            self.rest = Rest::Skipped(rang);
        }
    }

    /// The place of this seat, which is out until it is put back.
    pub(crate) fn take_place<S>(&mut self) -> Place<S, View<F, E>>
        requires { self.old.knows ≡ view_of self.old ∷ [] }
        ensures lock { result.table_id ≡ self.old.lock }
        ensures knows { known result.me.0 ≡ view_of self.old }
        ensures empty { result.me.1 ≡ [] }
        ensures out { IsOut self.new }
        ensures kept_awake { self.new.kept_awake ≡ self.old.kept_awake }
        ensures main { (view_of self.old).main ≡ true → result.me.0.stage ≡ Main }
        ensures away { (view_of self.old).main ≡ false → result.me.0.stage ≡ Away }
    {
        mem::replace(&mut self.badge, Badge::blank()).into_seat()
    }

    /// The place of a seat that ends.
    pub(crate) fn into_place<S>(self) -> Place<S, View<F, E>>
        requires { self.knows ≡ view_of self ∷ [] }
        ensures lock { result.table_id ≡ self.lock }
        ensures knows { known result.me.0 ≡ view_of self }
        ensures empty { result.me.1 ≡ [] }
        ensures main { (view_of self).main ≡ true → result.me.0.stage ≡ Main }
        ensures away { (view_of self).main ≡ false → result.me.0.stage ≡ Away }
    {
        let Seat { badge, rest: _ } = self;
        badge.into_seat()
    }
}

/// Which lock it is, as a type parameter. A function whose closures go to threads is generic in
/// one, since what such a closure says can name no captured lock; its caller passes `Brand` and
/// picks the lock's name in a proof file.
pub trait LockName {
    ghost name: { TableId };
}

impl LockName for Brand {
    ghost name = { record {
      words = 0;
      slots = 0;
      views_name = 0;
      atom = 0;
      block = 0;
      offset = 0;
      slot_names = [];
    } };
}
