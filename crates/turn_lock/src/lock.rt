//! The lock: a value that goes from seat to seat.
ghost use Rattle.std.specs.Prelude.{◌≡◌, ◌||◌, ℕ, ◌≤◌, ◌<◌, ◌++◌, [], ◌∷◌, length, true, false, All};
ghost use Rattle.std.specs.Prelude.{Contains, IfOk, Some, None};
ghost use mathlib.Core.List.{IsPrefix};
ghost use Rattle.turn_lock.specs.Views.{entries_of};
ghost use Rattle.turn_lock.specs.Seats.{main_view, seat_view, with_app, entered_view, left_view, again_view};
ghost use Rattle.turn_lock.specs.Seats.{view_of, IsOut, IsMain, IsIn, IsReady, AddsOwn};
ghost use Rattle.turn_lock.specs.Seats.{KeepsLonger, AreAllJoined};
ghost use Rattle.turn_lock.specs.Inside.{known};
ghost use Rattle.turn_lock.specs.Views.{passed_place};
ghost use Rattle.turn_lock.specs.Steps.{MayLeave};
ghost use Rattle.turn_lock.specs.declared.view.Stage.TheVariants.{Has};

use crate::board::{Board, Place};
use crate::historied::Historied;
use crate::rule::TurnEnd;
use crate::seat::Seat;
use crate::turn::Turn;
use fsw_base::AppNo;
use std::alloc::{AllocError, Global};
use std::marker::{Brand, Model};
use std::snapshot::Snapshot;
use std::sync::Wait;

/// The most seats that can be split off one lock.
pub const MOST_SEATS: u32 = 16;

/// A value that one seat at a time has, in no promised order. It can be shared by threads if the
/// value may move between them, and lives no longer than what the value borrows. If the value
/// can be dropped the lock can be let go with it, at any time, and nothing is learnt then of the
/// history; closing gives the value and its history.
///
/// Contracts see which lock it is and how many seats can be split off.
#[derive(Drop)]
pub struct TurnLock<T: Historied> {
    // The words and the slot.
    board: Board<T>,
    // How many seats can be split off.
    seats: u32,
}

impl<T: Historied> Model for TurnLock<T> {
    ghost use Rattle.std.specs.Prelude.{◌≤◌};
    ghost use Rattle.turn_lock.specs.declared.lock.TheConstants.{MOST_SEATS};
    ghost use Rattle.turn_lock.specs.Seats.{LockView};

    ghost Value = { LockView };

    ghost view = { λ l. record { name = l.board.table.shared.table_id; seats = l.seats } };

    ghost invariant = { λ l. l.seats ≤ MOST_SEATS };
}

impl<T: Historied> TurnLock<T> {
    /// A lock that holds this value, whose history is empty, and its main seat. At most `seats`
    /// seats can be split off, 1 to [`MOST_SEATS`]. By the code, it is the one call that takes
    /// memory.
    ///
    /// # Errors
    /// `AllocError` if there is no memory; the value is dropped then.
    pub fn new(
        alloc: Global,
        value: T,
        seats: u32,
    ) -> Result<(TurnLock<T>, Seat<T::Fixed, T::Event>), AllocError>
    where
        T: Drop,
        requires empty { T.history value ≡ [] }
        requires seats { (1 ≤ seats) × (seats ≤ MOST_SEATS) }
        ensures seats { IfOk result (λ r. r.0.seats ≡ seats) }
        ensures main { IfOk result (λ r. IsMain r.1 r.0.name) }
        ensures view { IfOk result (λ r. view_of r.1 ≡ main_view (T.fixed value) []) }
    {
        let (board, place) = Board::new(alloc, value)?;
        Ok((TurnLock { board, seats }, Seat::of(place)))
    }

    /// A seat for an application that has none yet. It has seen what the main seat has, and has
    /// made no entry.
    pub fn split(&self, main: &mut Seat<T::Fixed, T::Event>, app: AppNo) -> Seat<T::Fixed, T::Event>
        requires main { IsMain main.old self.now.name }
        requires room { length (view_of main.old).apps < self.now.seats }
        requires new { ¬ (Contains (view_of main.old).apps app) }
        ensures main { IsMain main.new self.now.name }
        ensures apps { view_of main.new ≡ with_app (view_of main.old) app }
        ensures seat { IsReady result self.now.name }
        ensures rested { result.kept_awake ≡ false }
        ensures view { view_of result ≡ seat_view (view_of main.old) app }
    {
        let mut place = main.take_place();
        let new = self.board.split::<Brand>(&mut place, app.get());
        *main = Seat::of(place);
        Seat::of(new)
    }

    /// Waits until no other seat has a turn, and answers one with the value. The value's history
    /// extends all that the seat had seen, and of the seat's application it has just the seat's
    /// own entries, in order. A seat that left its last turn to sleep calls
    /// [`TurnLock::sleep`] or [`TurnLock::stay_awake`] first.
    pub fn enter<R: Wait>(&self, rt: &R, seat: &mut Seat<T::Fixed, T::Event>) -> Turn<T>
        requires ready { IsReady seat.old self.now.name }
        ensures out { IsOut seat.new }
        ensures kept_awake { seat.new.kept_awake ≡ seat.old.kept_awake }
        ensures lock { result.lock ≡ self.now.name }
        ensures found { result.found ≡ result.value }
        ensures opening { Some (T.fixed result.value) ≡ (view_of seat.old).fixed }
        ensures extends { IsPrefix (view_of seat.old).seen (T.history result.value) }
        ensures mine { entries_of (view_of seat.old).app (T.history result.value)
            ≡ (view_of seat.old).mine }
        ensures view { result.view ≡ entered_view (view_of seat.old) (T.history result.value) }
    {
        let mut place = seat.take_place();
        let looks = self.board.wait(rt, &mut place);
        let value = self.board.take(&mut place);
        let found = Snapshot::of(&value);
        Turn {
            place,
            value,
            found,
            looks,
        }
    }

    /// Ends the turn of this seat. The value has the fixed part that it had at entry, its history
    /// is the one found with entries of the seat's application behind it, or none, and it notes
    /// sleepers if and only if it did at entry. If it does, it has no news. What is left is
    /// published with the turn.
    pub fn leave(&self, seat: &mut Seat<T::Fixed, T::Event>, turn: Turn<T>)
        requires out { IsOut seat.old }
        requires lock { turn.lock ≡ self.now.name }
        requires opening { Some (T.fixed turn.value) ≡ turn.view.fixed }
        requires own { AddsOwn turn.view (T.history turn.value) }
        requires awaited { T.awaited turn.value ≡ T.awaited turn.found }
        requires no_news { T.awaited turn.value ≡ true → T.news turn.value ≡ false }
        ensures ready { IsReady seat.new self.now.name }
        ensures rested { seat.new.kept_awake ≡ false }
        ensures view { view_of seat.new ≡ left_view turn.view (T.history turn.value) }
    {
        let Turn {
            place,
            value,
            found: _,
            looks: _,
        } = turn;
        *seat = Seat::of(self.give_back::<Brand>(place, value));
    }

    /// Ends the turn of a seat that sleeps next, by [`TurnLock::sleep`], until another seat leaves
    /// its turn by [`TurnLock::leave_and_wake`]. The value notes that there are sleepers. The turn
    /// was not begun by a seat that was kept awake: who looks in vain twice slept in between.
    pub fn leave_to_sleep(&self, seat: &mut Seat<T::Fixed, T::Event>, turn: Turn<T>)
        requires out { IsOut seat.old }
        requires lock { turn.lock ≡ self.now.name }
        requires opening { Some (T.fixed turn.value) ≡ turn.view.fixed }
        requires own { AddsOwn turn.view (T.history turn.value) }
        requires awaited { T.awaited turn.value ≡ true }
        requires slept { seat.old.kept_awake ≡ false }
        ensures seat { IsIn seat.new self.now.name }
        ensures rests { seat.new.rests ≡ true }
        ensures view { view_of seat.new ≡ left_view turn.view (T.history turn.value) }
    {
        let Turn {
            mut place,
            value,
            found: _,
            looks: _,
        } = turn;
        let rang = self.board.hear(&mut place);
        *seat = Seat::sleeper(self.give_back::<Brand>(place, value), rang);
    }

    /// Ends the turn of this seat, and then wakes all seats that left theirs to sleep. At entry the
    /// value noted that there were sleepers; now it doesn't any more, and it has news.
    pub fn leave_and_wake(&self, seat: &mut Seat<T::Fixed, T::Event>, turn: Turn<T>)
        requires out { IsOut seat.old }
        requires lock { turn.lock ≡ self.now.name }
        requires opening { Some (T.fixed turn.value) ≡ turn.view.fixed }
        requires own { AddsOwn turn.view (T.history turn.value) }
        requires slept { T.awaited turn.found ≡ true }
        requires awaited { T.awaited turn.value ≡ false }
        requires news { T.news turn.value ≡ true }
        ensures ready { IsReady seat.new self.now.name }
        ensures rested { seat.new.kept_awake ≡ false }
        ensures view { view_of seat.new ≡ left_view turn.view (T.history turn.value) }
    {
        let Turn {
            place,
            value,
            found: _,
            looks: _,
        } = turn;
        let place = self.give_back::<Brand>(place, value);
        *seat = Seat::of(self.board.ring(place));
    }

    // Gives the value back and passes the turn on, which publishes the history, and then wakes a
    // seat that waits for a turn.
    fn give_back<N: TurnEnd<T::Event>>(&self, mut place: Place<T>, value: T) -> Place<T>
        requires lock { place.table_id ≡ self.now.name }
        requires served { (place.me.0.stage ≡ Has) × (place.me.1 ≡ (0, None) ∷ []) }
        requires log { T.history value ≡ N.log }
        requires opening { Some (T.fixed value) ≡ place.me.0.fixed }
        requires own { AddsOwn (known place.me.0) N.log }
        requires way { MayLeave N.way (T.awaited value) place.me.0 }
        ensures lock { result.table_id ≡ self.now.name }
        ensures passed { result.me ≡ (passed_place place.me.0 N.log N.way, []) }
    {
        self.board.give(&mut place, value);
        self.board.wake(self.board.pass::<N>(place))
    }

    /// Sleeps if the seat left its last turn to sleep, until another seat leaves its turn by
    /// [`TurnLock::leave_and_wake`], and returns at once if one did since. It may return early, and
    /// nothing is claimed of how long it sleeps. From then on the seat may begin a turn.
    pub fn sleep<R: Wait>(&self, rt: &R, seat: &mut Seat<T::Fixed, T::Event>)
        requires seat { IsIn seat.old self.now.name }
        ensures ready { IsReady seat.new self.now.name }
        ensures rested { seat.new.kept_awake ≡ false }
        ensures view { view_of seat.new ≡ view_of seat.old }
    {
        if let Some(rang) = seat.rang() {
            seat.take_rest(self.board.sleep_at_bell(rt, rang));
        }
    }

    /// Lets a seat that left its last turn to sleep begin a turn without sleeping: for a call that
    /// isn't a further look, as an application's last one. This turn can't be left to sleep.
    pub fn stay_awake(&self, seat: &mut Seat<T::Fixed, T::Event>)
        requires seat { IsIn seat.old self.now.name }
        ensures ready { IsReady seat.new self.now.name }
        ensures kept_awake { seat.new.kept_awake ≡ (seat.old.rests || seat.old.kept_awake) }
        ensures view { view_of seat.new ≡ view_of seat.old }
    {
        seat.skip_rest();
    }

    /// Takes a seat that ends into the main one, which keeps its entries and the longer of what
    /// the two had seen; the shorter one begins it. What it has seen then has no entries but those
    /// of applications that were split off.
    pub fn join(&self, main: &mut Seat<T::Fixed, T::Event>, seat: Seat<T::Fixed, T::Event>)
        requires main { IsMain main.old self.now.name }
        requires seat { IsIn seat self.now.name }
        ensures main { IsMain main.new self.now.name }
        ensures seen { KeepsLonger (view_of main.old).seen (view_of seat).seen
            (view_of main.new).seen }
        ensures ended { (view_of main.new).ended ≡ (view_of main.old).ended
            ++ ((view_of seat).app, (view_of seat).mine) ∷ [] }
        ensures apps { (view_of main.new).apps ≡ (view_of main.old).apps }
        ensures others { (app : ℕ) → ¬ (Contains (view_of main.new).apps app)
            → entries_of app (view_of main.new).seen ≡ [] }
        ensures opening { (view_of main.new).fixed ≡ (view_of main.old).fixed }
    {
        let mut place = main.take_place();
        self.board.glue(&mut place, seat.into_place());
        self.board.meet(&mut place);
        *main = Seat::of(place);
    }

    /// Has the main seat, to which no seat was joined, see what a seat has seen. It keeps the
    /// longer of the two histories. That one has entries of applications that were split off
    /// alone, and of the seat's application only those that the seat made. The seat knows what it
    /// knew, and the fixed part by the main seat. It has no sleep behind it that it skipped.
    pub fn meet(&self, main: &mut Seat<T::Fixed, T::Event>, seat: &mut Seat<T::Fixed, T::Event>)
        requires main { IsMain main.old self.now.name }
        requires none { (view_of main.old).ended ≡ [] }
        requires seat { IsReady seat.old self.now.name }
        requires awake { seat.old.kept_awake ≡ false }
        ensures main { IsMain main.new self.now.name }
        ensures seen { KeepsLonger (view_of main.old).seen (view_of seat.old).seen
            (view_of main.new).seen }
        ensures same { view_of main.new ≡
            record (view_of main.old) { seen = (view_of main.new).seen } }
        ensures others { (app : ℕ) → ¬ (Contains (view_of main.new).apps app)
            → entries_of app (view_of main.new).seen ≡ [] }
        ensures own { IsPrefix
            (entries_of (view_of seat.old).app (view_of main.new).seen)
            (view_of seat.old).mine }
        ensures seat { IsReady seat.new self.now.name }
        ensures stays { view_of seat.new ≡ again_view (view_of main.old) (view_of seat.old) }
        ensures kept_awake { seat.new.kept_awake ≡ false }
    {
        let mut home = main.take_place();
        let other = seat.take_place();
        self.board.glue(&mut home, other);
        self.board.meet(&mut home);
        *seat = Seat::of(self.board.resume(&mut home));
        *main = Seat::of(home);
    }

    /// Ends the lock, whose seats have all been joined, and answers its value. The value has the
    /// fixed part of the opening. Its history extends all that the main seat has seen, has of each
    /// application just the entries of its ended seat, in order, and has no others.
    pub fn close(self, main: Seat<T::Fixed, T::Event>) -> T
        requires main { IsMain main self.name }
        requires joined { AreAllJoined (view_of main) }
        ensures opening { Some (T.fixed result) ≡ (view_of main).fixed }
        ensures extends { IsPrefix (view_of main).seen (T.history result) }
        ensures ended { All (λ e. entries_of e.0 (T.history result) ≡ e.1) (view_of main).ended }
        ensures others { (app : ℕ) → ¬ (Contains (view_of main).apps app)
            → entries_of app (T.history result) ≡ [] }
    {
        let TurnLock { board, seats: _ } = self;
        board.close(main.into_place())
    }
}
