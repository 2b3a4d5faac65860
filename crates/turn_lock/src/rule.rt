//! The rule that the lock's table keeps, and what each kind of atomic step tells.
ghost use Rattle.std.specs.Prelude.{ℕ, List, []};
ghost use Rattle.turn_lock.specs.declared.rule.Way.{Way};
ghost use Rattle.turn_lock.specs.declared.rule.Way.TheVariants.{AsFound};

use crate::historied::Historied;
use crate::view::View;
use atomic_table::{Join, Play, Split, TableRule};
use std::marker::{Brand, PhantomData};
use std::snapshot::Snapshot;

/// The rule of a lock over values of this type. The table's key is the value at the opening.
pub struct Turns<T> {
    of: PhantomData<T>,
}

impl<T: Historied> TableRule<Option<T>, View<T::Fixed, T::Event>, Snapshot<T>> for Turns<T> {
    ghost use Rattle.turn_lock.specs.Rule.{Kept};
    ghost use Rattle.turn_lock.specs.Views.{main_place};

    ghost holds = { λ key s. Kept T.fixed T.history T.awaited (T.fixed key.value) s };

    ghost first = { λ key. main_place (T.fixed key.value) (T.history key.value) };
}

/// The turn's word is read, and changed. If it was free the seat takes the slot.
pub(crate) struct Seize;

impl<T: Historied> Play<Option<T>, View<T::Fixed, T::Event>> for Seize {
    ghost use Rattle.turn_lock.specs.Steps.{Seizes};

    ghost then = { λ _ before found now. Seizes T.fixed T.history T.awaited before found now };
}

/// How a turn is left. No value of it is made.
pub enum Way {
    /// The value notes sleepers if and only if it did at entry.
    AsFound,
    /// The seat heard the bell in its turn and sleeps next, and the value notes sleepers.
    ToSleep,
    /// The seat rings the bell next.
    ToRing,
}

/// The history with which a turn is passed on, and how it is left. Each call picks them.
pub(crate) trait TurnEnd<E> {
    ghost log: { List (ℕ × E) };

    ghost way: { Way };
}

impl<E> TurnEnd<E> for Brand {
    ghost log = { [] };

    ghost way = { AsFound };
}

/// The turn is free, the slot goes home, and its history is that of the lock.
pub(crate) struct Pass<N> {
    of: PhantomData<N>,
}

impl<T: Historied, N: TurnEnd<T::Event>> Play<Option<T>, View<T::Fixed, T::Event>> for Pass<N> {
    ghost use Rattle.turn_lock.specs.Steps.{Passes};

    ghost then = { λ _ before _ now. Passes N.log N.way before now };
}

/// The bell's word is read in a turn.
pub(crate) struct Hear;

impl<T: Historied> Play<Option<T>, View<T::Fixed, T::Event>> for Hear {
    ghost use Rattle.turn_lock.specs.Steps.{Hears};

    ghost then = { λ _ before found now. Hears before found now };
}

/// The bell's word is one more, and the seat owes no ring.
pub(crate) struct Ring;

impl<T: Historied> Play<Option<T>, View<T::Fixed, T::Event>> for Ring {
    ghost use Rattle.turn_lock.specs.Steps.{Rings};

    ghost then = { λ _ before _ now. Rings before now };
}

/// Which application a seat is split off for. Each call picks it.
pub(crate) trait NamedApp {
    ghost app: { ℕ };
}

impl NamedApp for Brand {
    ghost app = { 0 };
}

/// A seat for an application is split off the main one.
pub(crate) struct Cut<N: NamedApp> {
    of: PhantomData<N>,
}

impl<F, E, N: NamedApp> Split<View<F, E>> for Cut<N> {
    ghost use Rattle.turn_lock.specs.Views.{with_seat, seat_place};

    ghost left = { λ v. with_seat v N.app };

    ghost right = { λ v. seat_place v N.app };
}

/// The main seat takes in an ended seat.
pub(crate) struct Glue;

impl<F, E> Join<View<F, E>> for Glue {
    ghost use Rattle.turn_lock.specs.Views.{joined_place, spent_place};

    ghost both = { joined_place };

    ghost spent = { spent_place };
}

/// The ended seat that the main seat took in last comes back, as it was.
pub(crate) struct Resume;

impl<F, E> Split<View<F, E>> for Resume {
    ghost use Rattle.turn_lock.specs.Views.{without_ended, ended_place};

    ghost left = { without_ended };

    ghost right = { ended_place };
}

/// The main seat keeps the longer of what it and the ended seat had seen.
pub(crate) struct Meet;

impl<T: Historied> Play<Option<T>, View<T::Fixed, T::Event>> for Meet {
    ghost use Rattle.turn_lock.specs.Steps.{Meets};

    ghost then = { λ _ before _ now. Meets before now };
}
