//! The lock's two words and its slot, and a method for each kind of atomic step.
ghost use Rattle.std.specs.Prelude.{◌≡◌, ℕ, ◌<◌, List, [], ◌∷◌, length, Contains};
ghost use Rattle.std.specs.Prelude.{IfOk, IfSome, IfNone, Some, None};
ghost use Rattle.turn_lock.specs.Views.{main_place, seat_place, with_seat, joined_place, AreAllJoined};
ghost use Rattle.turn_lock.specs.Views.{without_ended, ended_place};
ghost use Rattle.turn_lock.specs.Steps.{Seizes, IsServed, MayLeave, Passes, Rings, Meets, Grows};
ghost use Rattle.turn_lock.specs.Steps.{Stays, Closes};
ghost use Rattle.turn_lock.specs.Inside.{IsOf};
ghost use Rattle.turn_lock.specs.declared.view.Stage.TheVariants.{Main, Away, Has, Owes};

use crate::historied::Historied;
use crate::rule::{Cut, Glue, Hear, Meet, NamedApp, Pass, Resume, Ring, Seize, TurnEnd, Turns};
use crate::view::View;
use atomic_table::{Seat, Table};
use std::alloc::{AllocError, Global};
use std::hint;
use std::snapshot::Snapshot;
use std::sync::Wait;

/// The place in the table with which a seat makes its steps.
pub(crate) type Place<T> = Seat<Option<T>, View<<T as Historied>::Fixed, <T as Historied>::Event>>;

// The turn: `FREE`, `TAKEN`, or `AWAITED` if it is taken and a seat may sleep until it is free.
const TURN: usize = 0;

// The bell: how often it rang, modulo 2^64.
const BELL: usize = 1;

// How many numbers the half of a word has that a sleep compares.
const HALF: u64 = 4294967296;

// No turn is out, and the slot is at home.
const FREE: u64 = 0;

// A turn is out.
const TAKEN: u64 = 1;

// A turn is out, and the seat that leaves it wakes one that sleeps.
const AWAITED: u64 = 2;

// The slot, which has the value while no turn is out.
const VALUE: usize = 0;

/// How often a thread looks for a turn before it sleeps. A turn is short, so that most waits end
/// before.
pub const LOOKS: u32 = 100;

/// The table of the lock: two words and one slot.
#[derive(Drop)]
pub(crate) struct Board<T: Historied> {
    // The words and the slot.
    table: Table<Option<T>, View<T::Fixed, T::Event>, Snapshot<T>, Turns<T>, Global>,
    ghost two: { table.shared.table_id.words ≡ 2 },
    ghost one: { table.shared.table_id.slots ≡ 1 },
}

/// The place of a seat that has passed its turn on, and whether another may sleep until the turn
/// is free. Only `Board::wake` gives the place back; this can't be dropped, so each seat that
/// passes its turn on then wakes one that sleeps, if there may be one.
pub(crate) struct PassedTurn<T: Historied> {
    // The seat's place, which waking gives back.
    place: Place<T>,
    // What the turn's word was.
    found: u64,
}

// The place of a seat that has struck the bell. Only `Board::wake_sleepers` gives the place back;
// this can't be dropped, so each seat that strikes it then wakes all that sleep at it.
struct Struck<T: Historied> {
    // The seat's place, which waking gives back.
    place: Place<T>,
}

/// How often the bell had rung, modulo 2^32, when a seat heard it in its turn. Only `Board::hear`
/// makes one, and nobody counts on from it.
#[derive(Clone, Copy)]
pub(crate) struct Rang {
    // The number.
    count: u32,
}

/// That a thread slept at the bell, or found that it had rung. Only `Board::sleep_at_bell` makes
/// one.
#[derive(Drop)]
pub(crate) struct Slept {
    // What it slept at.
    _rang: Rang,
}

impl<T: Historied> Board<T> {
    /// A table with this value, and the place of the main seat.
    pub(crate) fn new(alloc: Global, value: T) -> Result<(Board<T>, Place<T>), AllocError>
    where
        T: Drop,
        requires { T.history value ≡ [] }
        ensures { IfOk result
            (λ r. (r.1.table_id ≡ r.0.table.shared.table_id)
            × (r.1.me ≡ (main_place (T.fixed value) [], []))) }
    {
        let about = Snapshot::of(&value);
        let mut slots: Vec<Option<T>> = Vec::new(alloc);
        slots.push(Some(value))?;
        match Table::new(alloc, &[0, 0], slots, &about) {
            Ok((table, place)) => Ok((Board { table }, place)),
            Err(_) => Err(AllocError),
        }
    }

    /// Splits a place for an application off the main one.
    pub(crate) fn split<N: NamedApp>(&self, main: &mut Place<T>, app: u32) -> Place<T>
        requires app { app ≡ N.app }
        requires table { main.old.table_id ≡ self.now.table.shared.table_id }
        requires main { (main.old.me.0.stage ≡ Main) × (length main.old.me.0.apps < 16)
            × ¬ (Contains main.old.me.0.apps N.app) }
        ensures place { Stays main.old main.new }
        ensures main { main.new.me ≡ (with_seat main.old.me.0 N.app, main.old.me.1) }
        ensures new { (result.table_id ≡ main.old.table_id)
            × (result.me ≡ (seat_place main.old.me.0 N.app, [])) }
    {
        self.table.shared.split_seat::<Cut<N>>(main)
    }

    // Takes the turn if it is free, and answers what the word was.
    fn seize(&self, place: &mut Place<T>) -> u64
        requires table { place.old.table_id ≡ self.now.table.shared.table_id }
        requires away { (place.old.me.0.stage ≡ Away) × (place.old.me.1 ≡ []) }
        ensures place { Stays place.old place.new }
        ensures seized { Seizes T.fixed T.history T.awaited place.old.me result place.new.me }
    {
        self.table
            .shared
            .compare_exchange::<Seize>(place, TURN, FREE, TAKEN)
    }

    // Takes the turn if it is free. Otherwise notes that it is awaited, so that the seat that
    // leaves it wakes one that sleeps. Answers what the word was.
    fn seize_or_await(&self, place: &mut Place<T>) -> u64
        requires table { place.old.table_id ≡ self.now.table.shared.table_id }
        requires away { (place.old.me.0.stage ≡ Away) × (place.old.me.1 ≡ []) }
        ensures place { Stays place.old place.new }
        ensures seized { Seizes T.fixed T.history T.awaited place.old.me result place.new.me }
    {
        self.table.shared.swap::<Seize>(place, TURN, AWAITED)
    }

    /// Waits until the turn is free and takes it, and answers how often it looked. After enough
    /// looks it sleeps until it is woken, and then looks once more.
    pub(crate) fn wait<R: Wait>(&self, rt: &R, place: &mut Place<T>) -> u32
        requires table { place.old.table_id ≡ self.now.table.shared.table_id }
        requires away { (place.old.me.0.stage ≡ Away) × (place.old.me.1 ≡ []) }
        ensures place { Stays place.old place.new }
        ensures served { IsServed T.fixed T.history T.awaited place.old.me place.new.me }
    {
        if self.seize(place) == FREE {
            return 1;
        }
        match self.spin(place) {
            Some(looks) => looks,
            None => self.wait_asleep(rt, place),
        }
    }

    // Looks until the turn is free and takes it, and answers how often it looked; None after enough
    // looks. It only reads the word while the turn is out.
    fn spin(&self, place: &mut Place<T>) -> Option<u32>
        requires table { place.old.table_id ≡ self.now.table.shared.table_id }
        requires away { (place.old.me.0.stage ≡ Away) × (place.old.me.1 ≡ []) }
        ensures place { Stays place.old place.new }
        ensures served { IfSome result
            (λ _. IsServed T.fixed T.history T.awaited place.old.me place.new.me) }
        ensures waits { IfNone result (place.new.me ≡ place.old.me) }
    {
        for looks in 2..LOOKS {
            hint::spin_loop();
            if self.table.shared.peek(TURN) == FREE && self.seize(place) == FREE {
                return Some(looks);
            }
        }
        None
    }

    // Sleeps until the turn is free and takes it, and answers how often it looked.
    fn wait_asleep<R: Wait>(&self, rt: &R, place: &mut Place<T>) -> u32
        requires table { place.old.table_id ≡ self.now.table.shared.table_id }
        requires away { (place.old.me.0.stage ≡ Away) × (place.old.me.1 ≡ []) }
        ensures place { Stays place.old place.new }
        ensures served { IsServed T.fixed T.history T.awaited place.old.me place.new.me }
    {
        let mut looks = LOOKS - 1;
        for _ in rt.forever() {
            looks = looks.saturating_add(1);
            if self.seize_or_await(place) == FREE {
                return looks;
            }
            self.table.shared.park(rt, TURN, AWAITED as u32);
        }
        unreachable!()
    }

    /// Takes the value out of the slot.
    pub(crate) fn take(&self, place: &mut Place<T>) -> T
        requires table { place.old.table_id ≡ self.now.table.shared.table_id }
        requires full { (x : T) × (place.old.me.1 ≡ (0, Some x) ∷ []) }
        ensures place { Stays place.old place.new }
        ensures taken { (place.old.me.1 ≡ (0, Some result) ∷ [])
            × (place.new.me ≡ (place.old.me.0, (0, None) ∷ [])) }
    {
        match self.table.shared.exchange(place, VALUE, None) {
            Some(value) => value,
            None => unreachable!(),
        }
    }

    /// Puts the value into the slot.
    pub(crate) fn give(&self, place: &mut Place<T>, value: T)
        requires table { place.old.table_id ≡ self.now.table.shared.table_id }
        requires empty { place.old.me.1 ≡ (0, None) ∷ [] }
        ensures place { Stays place.old place.new }
        ensures given { place.new.me ≡ (place.old.me.0, (0, Some value) ∷ []) }
    {
        match self.table.shared.exchange(place, VALUE, Some(value)) {
            None => {}
            Some(_) => unreachable!(),
        }
    }

    // Frees the turn, with the slot home again, and answers what the word was.
    fn free<N: TurnEnd<T::Event>>(&self, place: &mut Place<T>) -> u64
        requires table { place.old.table_id ≡ self.now.table.shared.table_id }
        requires served { place.old.me.0.stage ≡ Has }
        requires full { (x : T) × (place.old.me.1 ≡ (0, Some x) ∷ []) × (T.history x ≡ N.log)
            × (Some (T.fixed x) ≡ place.old.me.0.fixed)
            × MayLeave N.way (T.awaited x) place.old.me.0 }
        requires grows { Grows place.old.me.0 N.log }
        ensures place { Stays place.old place.new }
        ensures passed { Passes N.log N.way place.old.me place.new.me }
    {
        self.table.shared.swap::<Pass<N>>(place, TURN, FREE)
    }

    /// Passes the turn on, with the slot home again and its history published, which has at most
    /// entries of the seat's application more than the place has seen. Nobody is woken yet.
    pub(crate) fn pass<N: TurnEnd<T::Event>>(&self, mut place: Place<T>) -> PassedTurn<T>
        requires table { place.table_id ≡ self.now.table.shared.table_id }
        requires served { place.me.0.stage ≡ Has }
        requires full { (x : T) × (place.me.1 ≡ (0, Some x) ∷ []) × (T.history x ≡ N.log)
            × (Some (T.fixed x) ≡ place.me.0.fixed) × MayLeave N.way (T.awaited x) place.me.0 }
        requires grows { Grows place.me.0 N.log }
        ensures place { Stays place result.place }
        ensures passed { Passes N.log N.way place.me result.place.me }
    {
        let found = self.free::<N>(&mut place);
        PassedTurn { place, found }
    }

    /// Wakes a seat that sleeps until the turn is free, if there may be one, and gives back the
    /// place that passed its turn on. No clause sees the waking.
    pub(crate) fn wake(&self, passed: PassedTurn<T>) -> Place<T>
        ensures { result ≡ passed.place }
    {
        let PassedTurn { place, found } = passed;
        if found == AWAITED {
            self.table.shared.wake_one(TURN);
        }
        place
    }

    /// How often the bell rang so far, modulo 2^32, as a seat hears it that sleeps after its turn.
    pub(crate) fn hear(&self, place: &mut Place<T>) -> Rang
        requires table { place.old.table_id ≡ self.now.table.shared.table_id }
        requires served { place.old.me.0.stage ≡ Has }
        ensures place { Stays place.old place.new }
        ensures me { place.new.me ≡
            (record place.old.me.0 { heard = place.new.me.0.heard }, place.old.me.1) }
        ensures heard { IsOf result place.new.me.0.heard }
    {
        let found = self.table.shared.load::<Hear>(place, BELL);
        Rang {
            count: (found % HALF) as u32,
        }
    }

    /// Sleeps until the bell rings, if it hasn't since it was heard. It may return early. No clause
    /// sees that the thread parks.
    pub(crate) fn sleep_at_bell<R: Wait>(&self, rt: &R, rang: Rang) -> Slept {
        self.table.shared.park(rt, BELL, rang.count);
        Slept { _rang: rang }
    }

    /// Rings the bell, which wakes all seats that sleep at it.
    pub(crate) fn ring(&self, place: Place<T>) -> Place<T>
        requires table { place.table_id ≡ self.now.table.shared.table_id }
        requires owes { place.me.0.stage ≡ Owes }
        ensures place { Stays place result }
        ensures rung { Rings place.me result.me }
    {
        self.wake_sleepers(self.strike(place))
    }

    // Counts one ring more. Nobody is woken yet.
    fn strike(&self, mut place: Place<T>) -> Struck<T>
        requires table { place.table_id ≡ self.now.table.shared.table_id }
        requires owes { place.me.0.stage ≡ Owes }
        ensures place { Stays place result.place }
        ensures rung { Rings place.me result.place.me }
    {
        self.table.shared.fetch_add::<Ring>(&mut place, BELL, 1);
        Struck { place }
    }

    // Wakes all seats that sleep at the bell, and gives back the place that struck it. No clause
    // sees the waking.
    fn wake_sleepers(&self, struck: Struck<T>) -> Place<T>
        ensures { result ≡ struck.place }
    {
        self.table.shared.wake_all(BELL);
        let Struck { place } = struck;
        place
    }

    /// Takes an ended place into the main one, with what it made and had seen.
    pub(crate) fn glue(&self, main: &mut Place<T>, other: Place<T>)
        requires table { (main.old.table_id ≡ self.now.table.shared.table_id)
            × (other.table_id ≡ self.now.table.shared.table_id) }
        requires main { main.old.me.0.stage ≡ Main }
        requires other { (other.me.0.stage ≡ Away) × (other.me.1 ≡ []) }
        ensures place { Stays main.old main.new }
        ensures glued { main.new.me ≡ (joined_place main.old.me.0 other.me.0, main.old.me.1) }
    {
        self.table.shared.join_seat::<Glue>(main, other)
    }

    /// Compares what the main place has seen with what the place that ended last had seen.
    pub(crate) fn meet(&self, main: &mut Place<T>)
        requires table { main.old.table_id ≡ self.now.table.shared.table_id }
        requires main { main.old.me.0.stage ≡ Main }
        ensures place { Stays main.old main.new }
        ensures met { Meets main.old.me main.new.me }
    {
        self.table.shared.load::<Meet>(main, TURN);
    }

    /// Splits the ended place off the main one again, as it was.
    pub(crate) fn resume(&self, main: &mut Place<T>) -> Place<T>
        requires table { main.old.table_id ≡ self.now.table.shared.table_id }
        requires main { main.old.me.0.stage ≡ Main }
        requires one { length main.old.me.0.ended ≡ 1 }
        ensures place { Stays main.old main.new }
        ensures main { main.new.me ≡ (without_ended main.old.me.0, main.old.me.1) }
        ensures new { (result.table_id ≡ main.old.table_id)
            × (result.me ≡ (ended_place main.old.me.0, [])) }
    {
        self.table.shared.split_seat::<Resume>(main)
    }

    /// Ends the table, and answers the value.
    pub(crate) fn close(self, main: Place<T>) -> T
        requires table { main.table_id ≡ self.table.shared.table_id }
        requires main { (main.me.0.stage ≡ Main) × (main.me.1 ≡ []) }
        requires joined { AreAllJoined main.me.0 }
        ensures { Closes T.fixed T.history main.me.0 result }
    {
        let Board { table } = self;
        let mut closed = table.close_with(main);
        let value = closed.take(VALUE);
        closed.free();
        match value {
            Some(value) => value,
            None => unreachable!(),
        }
    }
}
