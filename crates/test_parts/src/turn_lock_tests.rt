//! Two threads share one value through the lock.
ghost use Rattle.std.specs.Prelude.{◌≡◌, ◌≤◌, ◌&&◌, ℕ, ◌++◌, List, [], ◌∷◌, true, false, Some};
ghost use Rattle.std.specs.Prelude.{if◌then◌else◌};
ghost use Rattle.turn_lock.specs.Seats.{view_of, left_view, IsOut, IsReady, AddsOwn};

mod sleeping;

use fsw_base::AppNo;
use std::alloc::{AllocError, Global};
use std::marker::{Brand, Model};
use std::rt::HostRuntime;
use std::sync::Wait;
use std::thread;
use std::thread::{Threads, join};
use turn_lock::{Historied, LockName, Seat, Turn, TurnLock};

const PAIRS: usize = 10;

/// Pairs of an application and a number, beside a borrowed slice that has each pair's number at
/// the pair's place. Contracts see the pairs, how many bytes the slice has, whether a seat sleeps
/// until there is a pair, and whether there is one.
#[derive(Drop)]
struct Pad<'r> {
    pairs: Vec<(u32, u8)>,
    bytes: &'r mut [u8],
    awaited: bool,
    grown: bool,
}

impl<'r> Model for Pad<'r> {
    ghost use Rattle.std.specs.Prelude.{ℕ, Bool, List, length};

    ghost Value = { List (ℕ × ℕ) × ℕ × Bool × Bool };

    ghost view = { λ p. (p.pairs.items, length p.bytes.now, p.awaited, p.grown) };
}

impl<'r> Historied for Pad<'r> {
    type Fixed = usize;

    type Event = u8;

    ghost fixed = { λ p. p.1 };

    ghost history = { λ p. p.0 };

    ghost awaited = { λ p. p.2 };

    ghost news = { λ p. p.3 };
}

impl<'r> Pad<'r> {
    /// Adds a pair and answers true; false, and nothing is added, if there is no room.
    fn add(&mut self, app: u32, number: u8) -> bool
        ensures { self.new
            ≡ (
              self.old.0 ++ (if result then (app, number) ∷ [] else []),
              self.old.1,
              self.old.2,
              if result then true else self.old.3,
            ) }
    {
        let at = self.pairs.len();
        if at >= self.bytes.len() || at >= self.pairs.capacity() {
            return false;
        }
        self.bytes[at] = number;
        self.pairs.push_reserved((app, number));
        self.grown = true;
        true
    }

    /// Notes that a seat is about to sleep until there is a pair.
    fn note_sleeper(&mut self)
        ensures { self.new ≡ (self.old.0, self.old.1, true, self.old.3) }
    {
        self.awaited = true;
    }

    /// Whether there are sleepers and a pair; the sleepers are woken then, and nobody sleeps any
    /// more.
    fn take_sleepers(&mut self) -> bool
        ensures told { result ≡ self.old.2 && self.old.3 }
        ensures taken { self.new
            ≡ (self.old.0, self.old.1, if result then false else self.old.2, self.old.3) }
    {
        if !self.awaited || !self.grown {
            return false;
        }
        self.awaited = false;
        true
    }
}

/// Leaves a turn, and wakes the sleepers if there is a pair.
fn finish<'r>(lock: &TurnLock<Pad<'r>>, seat: &mut Seat<usize, u8>, mut turn: Turn<Pad<'r>>)
    requires out { IsOut seat.old }
    requires lock { turn.lock ≡ lock.now.name }
    requires opening { Some turn.value.1 ≡ turn.view.fixed }
    requires own { AddsOwn turn.view turn.value.0 }
    requires awaited { turn.value.2 ≡ turn.found.2 }
    ensures ready { IsReady seat.new lock.now.name }
    ensures view { view_of seat.new ≡ left_view turn.entry.view turn.entry.value.0 }
{
    if turn.value_mut().take_sleepers() {
        lock.leave_and_wake(seat, turn);
    } else {
        lock.leave(seat, turn);
    }
}

/// Lets other threads run for so long that a seat that waits for a turn goes to sleep.
fn dawdle() {
    for _ in 0..200_u32 {
        thread::yield_now();
    }
}

/// Takes a turn and adds one pair in it.
fn add_one<'r, R: Wait>(
    rt: &R,
    lock: &TurnLock<Pad<'r>>,
    seat: &mut Seat<usize, u8>,
    app: u32,
    number: u8,
) -> bool
    requires seat { IsReady seat.old lock.now.name }
    requires app { (view_of seat.old).app ≡ app }
    ensures seat { IsReady seat.new lock.now.name }
    ensures app { (view_of seat.new).app ≡ app }
    ensures mine { (view_of seat.new).mine ≡ (view_of seat.old).mine
        ++ (if result then (app, number) ∷ [] else []) }
{
    let mut turn = lock.enter(rt, seat);
    dawdle();
    let added = turn.value_mut().add(app, number);
    finish(lock, seat, turn);
    added
}

/// Adds five pairs, one in each turn.
fn add_five<'r, B: LockName, R: Wait>(
    rt: &R,
    lock: &TurnLock<Pad<'r>>,
    mut seat: Seat<usize, u8>,
    app: u32,
    first: u8,
) -> Seat<usize, u8>
    requires first { first ≤ 250 }
    requires lock { lock.now.name ≡ B.name }
    requires seat { IsReady seat B.name }
    requires app { (view_of seat).app ≡ app }
    ensures seat { IsReady result B.name }
    ensures app { (view_of result).app ≡ app }
{
    for i in 0..5_u8 {
        add_one(rt, lock, &mut seat, app, first + i);
    }
    seat
}

/// Two threads add five pairs each, as applications 1 and 2.
fn add_in_two_threads<'r, B: LockName + Send + Sync, R: Threads + Wait + Sync>(
    rt: &R,
    lock: &TurnLock<Pad<'r>>,
    one: Seat<usize, u8>,
    two: Seat<usize, u8>,
) -> (Seat<usize, u8>, Seat<usize, u8>)
    requires lock { lock.now.name ≡ B.name }
    requires one { IsReady one B.name × ((view_of one).app ≡ 1) }
    requires two { IsReady two B.name × ((view_of two).app ≡ 2) }
    ensures one { IsReady result.0 B.name × ((view_of result.0).app ≡ 1) }
    ensures two { IsReady result.1 B.name × ((view_of result.1).app ≡ 2) }
{
    join(
        rt,
        move || -> Seat<usize, u8>
            requires { (lock.now.name ≡ B.name) × IsReady one B.name × ((view_of one).app ≡ 1) }
            ensures { IsReady result B.name × ((view_of result).app ≡ 1) }
        { add_five::<B, _>(rt, lock, one, 1, 10) },
        move || -> Seat<usize, u8>
            requires { (lock.now.name ≡ B.name) × IsReady two B.name × ((view_of two).app ≡ 2) }
            ensures { IsReady result B.name × ((view_of result).app ≡ 2) }
        { add_five::<B, _>(rt, lock, two, 2, 200) },
    )
}

/// Opens a lock over these bytes, shares it with two threads, closes it, and answers the pairs.
fn pairs_of_two_threads<'r, R: Threads + Wait + Sync>(
    rt: &R,
    alloc: Global,
    bytes: &'r mut [u8],
) -> Result<Vec<(u32, u8)>, AllocError> {
    let pad = Pad {
        pairs: Vec::with_capacity(alloc, PAIRS)?,
        bytes,
        awaited: false,
        grown: false,
    };
    let (lock, mut main) = TurnLock::new(alloc, pad, 2)?;
    let one = lock.split(&mut main, AppNo::try_new(1).unwrap());
    let two = lock.split(&mut main, AppNo::try_new(2).unwrap());
    let (one, two) = add_in_two_threads::<Brand, _>(rt, &lock, one, two);
    lock.join(&mut main, one);
    lock.join(&mut main, two);
    let Pad {
        pairs,
        bytes: _,
        awaited: _,
        grown: _,
    } = lock.close(main);
    Ok(pairs)
}

/// Whether the numbers of application 1 are 10 to 14 and those of 2 are 200 to 204, each in order.
fn are_in_order(pairs: &[(u32, u8)]) -> bool {
    let mut one = 10_u8;
    let mut two = 200_u8;
    for &(app, number) in pairs {
        let next = if app == 1 { &mut one } else { &mut two };
        if number != *next {
            return false;
        }
        *next = number.wrapping_add(1);
    }
    one == 15 && two == 205
}

#[test]
fn ten_pairs_stand_in_the_list_and_in_the_bytes(rt: HostRuntime) -> Result<(), AllocError> {
    for _ in 0..100_u32 {
        let mut bytes = [0; PAIRS];
        let pairs = pairs_of_two_threads(&rt, rt.alloc(), &mut bytes)?;
        assert!(rt; are_in_order(&pairs));
        assert_eq!(rt; pairs.len(), PAIRS);
        for (pair, byte) in pairs.iter().zip(bytes.iter()) {
            assert_eq!(rt; pair.1, *byte);
        }
    }
    Ok(())
}
