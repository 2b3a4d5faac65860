//! Threads that must sleep: until their turn comes, and until there is a pair.
ghost use Rattle.std.specs.Prelude.{◌≡◌, false, IfOk};
ghost use Rattle.turn_lock.specs.Seats.{view_of, IsIn, IsReady};

use super::{PAIRS, Pad, add_one, finish};
use fsw_base::AppNo;
use std::alloc::{AllocError, Global};
use std::marker::Brand;
use std::rt::HostRuntime;
use std::sync::Wait;
use std::thread;
use std::thread::{Threads, join};
use std::time::{Clock, Duration};
use turn_lock::{LOOKS, LockName, Seat, TurnLock};

// How many turns each of two threads takes.
const TURNS: u32 = 4000;

// A lock and two seats.
type Opened<'r> = (TurnLock<Pad<'r>>, Seat<usize, u8>, Seat<usize, u8>);

// A lock over no pairs, and seats for applications 1 and 2.
fn open<'r>(alloc: Global, bytes: &'r mut [u8]) -> Result<Opened<'r>, AllocError>
    ensures one { IfOk result (λ r. IsReady r.1 r.0.name × ((view_of r.1).app ≡ 1)) }
    ensures rested { IfOk result (λ r. r.1.kept_awake ≡ false) }
    ensures two { IfOk result (λ r. IsReady r.2 r.0.name × ((view_of r.2).app ≡ 2)) }
{
    let pad = Pad {
        pairs: Vec::with_capacity(alloc, PAIRS)?,
        bytes,
        awaited: false,
        grown: false,
    };
    let (lock, mut main) = TurnLock::new(alloc, pad, 2)?;
    let one = lock.split(&mut main, AppNo::try_new(1).unwrap());
    let two = lock.split(&mut main, AppNo::try_new(2).unwrap());
    Ok((lock, one, two))
}

// Takes a turn, lets others run so many times in it, and answers how often it looked before.
fn take_turn<'r, R: Wait>(
    rt: &R,
    lock: &TurnLock<Pad<'r>>,
    seat: &mut Seat<usize, u8>,
    pauses: u32,
) -> u32
    requires seat { IsReady seat.old lock.now.name }
    ensures seat { IsReady seat.new lock.now.name }
{
    let turn = lock.enter(rt, seat);
    let looks = turn.looks();
    for _ in 0..pauses {
        thread::yield_now();
    }
    finish(lock, seat, turn);
    looks
}

// Takes turns of all lengths around that at which another thread goes to sleep.
fn take_turns<'r, B: LockName, R: Wait>(rt: &R, lock: &TurnLock<Pad<'r>>, mut seat: Seat<usize, u8>)
    requires lock { lock.now.name ≡ B.name }
    requires seat { IsReady seat B.name }
{
    for i in 0..TURNS {
        take_turn(rt, lock, &mut seat, i % (2 * LOOKS));
    }
}

// Two threads take turns of all lengths.
fn take_turns_in_two_threads<'r, B: LockName + Send + Sync, R: Threads + Wait + Sync>(
    rt: &R,
    lock: &TurnLock<Pad<'r>>,
    one: Seat<usize, u8>,
    two: Seat<usize, u8>,
)
    requires lock { lock.now.name ≡ B.name }
    requires one { IsReady one B.name }
    requires two { IsReady two B.name }
{
    join(
        rt,
        move ||
            requires { (lock.now.name ≡ B.name) × IsReady one B.name }
        { take_turns::<B, _>(rt, lock, one) },
        move ||
            requires { (lock.now.name ≡ B.name) × IsReady two B.name }
        { take_turns::<B, _>(rt, lock, two) },
    );
}

// Takes a turn of five milliseconds.
fn linger<'r, B: LockName, R: Wait + Clock>(
    rt: &R,
    lock: &TurnLock<Pad<'r>>,
    mut seat: Seat<usize, u8>,
)
    requires lock { lock.now.name ≡ B.name }
    requires seat { IsReady seat B.name }
{
    let turn = lock.enter(rt, &mut seat);
    thread::sleep(rt, Duration::from_millis(5));
    finish(lock, &mut seat, turn);
}

// Asks for a turn a little later, and answers how often it looked until the turn came.
fn looks_behind<'r, B: LockName, R: Wait + Clock>(
    rt: &R,
    lock: &TurnLock<Pad<'r>>,
    mut seat: Seat<usize, u8>,
) -> u32
    requires lock { lock.now.name ≡ B.name }
    requires seat { IsReady seat B.name }
{
    thread::sleep(rt, Duration::from_millis(1));
    take_turn(rt, lock, &mut seat, 0)
}

// One thread has a long turn, and another waits for its own meanwhile: how often it looked.
fn looks_in_a_long_turn<'r, B: LockName + Send + Sync, R: Threads + Wait + Clock + Sync>(
    rt: &R,
    lock: &TurnLock<Pad<'r>>,
    one: Seat<usize, u8>,
    two: Seat<usize, u8>,
) -> u32
    requires lock { lock.now.name ≡ B.name }
    requires one { IsReady one B.name }
    requires two { IsReady two B.name }
{
    let (_, looks) = join(
        rt,
        move ||
            requires { (lock.now.name ≡ B.name) × IsReady one B.name }
        { linger::<B, _>(rt, lock, one) },
        move || -> u32
            requires { (lock.now.name ≡ B.name) × IsReady two B.name }
        { looks_behind::<B, _>(rt, lock, two) },
    );
    looks
}

// Takes turns until the history has an entry, and sleeps in between; answers how many turns.
fn turns_until_an_entry<'r, B: LockName, R: Wait>(
    rt: &R,
    lock: &TurnLock<Pad<'r>>,
    mut seat: Seat<usize, u8>,
) -> u32
    requires lock { lock.now.name ≡ B.name }
    requires seat { IsReady seat B.name }
    requires rested { seat.kept_awake ≡ false }
{
    let mut turns = 0_u32;
    for _ in rt.forever() {
        turns = turns.saturating_add(1);
        if finds_an_entry(rt, lock, &mut seat) {
            return turns;
        }
        lock.sleep(rt, &mut seat);
    }
    unreachable!()
}

// Takes a turn, and answers whether the history has an entry; if it has none the seat sleeps
// next.
fn finds_an_entry<'r, R: Wait>(rt: &R, lock: &TurnLock<Pad<'r>>, seat: &mut Seat<usize, u8>) -> bool
    requires seat { IsReady seat.old lock.now.name }
    requires slept { seat.old.kept_awake ≡ false }
    ensures seat { IsIn seat.new lock.now.name }
{
    let mut turn = lock.enter(rt, seat);
    if !turn.value().pairs.is_empty() {
        finish(lock, seat, turn);
        return true;
    }
    turn.value_mut().note_sleeper();
    lock.leave_to_sleep(seat, turn);
    false
}

// Adds a pair a little later, which wakes the sleepers.
fn add_later<'r, B: LockName, R: Wait + Clock>(
    rt: &R,
    lock: &TurnLock<Pad<'r>>,
    mut seat: Seat<usize, u8>,
    app: u32,
)
    requires lock { lock.now.name ≡ B.name }
    requires seat { IsReady seat B.name }
    requires app { (view_of seat).app ≡ app }
{
    thread::sleep(rt, Duration::from_millis(5));
    add_one(rt, lock, &mut seat, app, 7);
}

// One thread sleeps until the history has an entry, which another makes: how many turns it took.
fn turns_beside_an_entry<'r, B: LockName + Send + Sync, R: Threads + Wait + Clock + Sync>(
    rt: &R,
    lock: &TurnLock<Pad<'r>>,
    one: Seat<usize, u8>,
    two: Seat<usize, u8>,
) -> u32
    requires lock { lock.now.name ≡ B.name }
    requires one { IsReady one B.name × (one.kept_awake ≡ false) }
    requires two { IsReady two B.name × ((view_of two).app ≡ 2) }
{
    let (turns, _) = join(
        rt,
        move || -> u32
            requires { (lock.now.name ≡ B.name) × IsReady one B.name × (one.kept_awake ≡ false) }
        { turns_until_an_entry::<B, _>(rt, lock, one) },
        move ||
            requires { (lock.now.name ≡ B.name) × IsReady two B.name × ((view_of two).app ≡ 2) }
        { add_later::<B, _>(rt, lock, two, 2) },
    );
    turns
}

#[test]
fn every_sleeper_is_woken(rt: HostRuntime) -> Result<(), AllocError> {
    let mut bytes = [0; PAIRS];
    let (lock, one, two) = open(rt.alloc(), &mut bytes)?;
    take_turns_in_two_threads::<Brand, _>(&rt, &lock, one, two);
    Ok(())
}

#[test]
fn a_seat_that_waits_for_long_sleeps(rt: HostRuntime) -> Result<(), AllocError> {
    for _ in 0..20_u32 {
        let mut bytes = [0; PAIRS];
        let (lock, one, two) = open(rt.alloc(), &mut bytes)?;
        let looks = looks_in_a_long_turn::<Brand, _>(&rt, &lock, one, two);
        assert!(rt; looks < LOOKS + 10);
    }
    Ok(())
}

#[test]
fn an_entry_wakes_who_sleeps_until_one_is_made(rt: HostRuntime) -> Result<(), AllocError> {
    for _ in 0..20_u32 {
        let mut bytes = [0; PAIRS];
        let (lock, one, two) = open(rt.alloc(), &mut bytes)?;
        let turns = turns_beside_an_entry::<Brand, _>(&rt, &lock, one, two);
        assert!(rt; turns < 10);
    }
    Ok(())
}
