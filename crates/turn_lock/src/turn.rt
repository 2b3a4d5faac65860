//! A turn: the value, out of the lock and with one application.
ghost use Rattle.std.specs.Prelude.{◌≡◌};
ghost use Rattle.std.specs.Borrow.{sem};

use crate::historied::Historied;
use crate::view::View;
use atomic_table::Seat as Place;
use std::marker::Model;
use std::snapshot::Snapshot;

/// The value of the lock while one seat has its turn. A turn can't be dropped, only left.
///
/// Contracts see which lock it is of, what the turn's seat knows, with the history seen at entry,
/// the value as the turn found it, and as it is now.
pub struct Turn<T: Historied> {
    /// The place of the turn's seat, which the slot is out with.
    pub(crate) place: Place<Option<T>, View<T::Fixed, T::Event>>,
    /// The value.
    pub(crate) value: T,
    /// What the value was at entry, for the proof.
    pub(crate) found: Snapshot<T>,
    /// How often the seat looked until the turn came.
    pub(crate) looks: u32,
}

impl<T: Historied> Model for Turn<T> {
    ghost use Rattle.turn_lock.specs.Seats.{TurnView};
    ghost use Rattle.turn_lock.specs.Inside.{known};
    ghost use Rattle.std.specs.Prelude.{◌≡◌, [], ◌∷◌, None};
    ghost use Rattle.turn_lock.specs.declared.view.Stage.TheVariants.{Has};

    ghost Value = { TurnView T T.Fixed T.Event };

    ghost view = { λ t. record {
      lock = t.place.table_id;
      view = known t.place.me.0;
      found = t.found.value;
      value = t.value;
    } };

    ghost invariant = { λ t. (t.place.me.0.stage ≡ Has) × (t.place.me.1 ≡ (0, None) ∷ [])
        × (t.place.me.0.noted ≡ T.awaited t.found.value) };
}

impl<T: Historied> Turn<T> {
    ghost use Rattle.turn_lock.specs.Lending.{LendsValue};

    /// How often the seat looked until this turn came, for tests and for tuning: a seat that waits
    /// long sleeps, and then looks no oftener than it is woken. Nothing is claimed of it.
    pub fn looks(&self) -> u32 {
        self.looks
    }

    /// The value, to be looked at.
    pub fn value(&self) -> &T
        ensures { result.now ≡ self.now.value }
    {
        &self.value
    }

    /// The value, to be changed.
    pub fn value_mut(&mut self) -> &mut T
        ensures* writes_back { sem 𝓛 (LendsValue T.row T.Fixed.row T.Event.row T.fixed T.history
            T.awaited T.news self.entry result) }
        ensures value { result.now ≡ self.old.value }
    {
        &mut self.value
    }
}
