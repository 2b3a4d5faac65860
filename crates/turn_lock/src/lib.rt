//! A lock that gives its value to one application at a time, in no promised order. The value has a
//! history of entries. Each application has a seat, which remembers in the proof what it has seen
//! of the history and which entries it made.
//!
//! There is one history. At its turn an application finds a history that extends all that its seat
//! had seen and has of its application just the seat's own entries, in order. The closed lock's
//! history extends what every seat saw and has no others' entries.
//!
//! ```text
//! /// What applications noted, in order: a value of a lock. Its history is `noted` (`Historied`).
//! struct Visits {
//!     noted: Vec<(u32, u64)>,                                     // an application, and a number
//!     awaited: bool,                                              // whether an application sleeps
//! }
//!
//! /// A value gets an entry at its application's turn, and none at the next.
//! fn two_turns<R: Wait>(alloc: Global, rt: &R, value: Visits, app: AppNo) -> Option<()> {
//!     let (lock, mut main) = TurnLock::new(alloc, value, 1).ok()?; // the one that takes memory
//!     let mut seat = lock.split(&mut main, app); // a seat may go to another thread
//!     let mut turn = lock.enter(rt, &mut seat);                   // waits until no turn is out
//!     turn.value_mut().noted.push_reserved((app.get(), 7));       // the value gets an entry
//!     lock.leave(&mut seat, turn);                                // and is the next one's
//!     let turn = lock.enter(rt, &mut seat);
//!     let entries = turn.value().noted.len();
//!     lock.leave(&mut seat, turn);
//!     lock.join(&mut main, seat);
//!     let value = lock.close(main);
//!     Some(())
//! }
//! ```
//!
//! An application that waits for news of the value leaves its turn to sleep, and one that brings
//! news wakes all sleepers. The value notes whether there are any:
//!
//! ```text
//! /// Application 1 waits for an entry. It is on a thread of its own, and so is application 2.
//! fn wait_for_news<R: Wait>(rt: &R, lock: &TurnLock<Visits>, one: &mut Seat<usize, u64>) {
//!     let mut turn = lock.enter(rt, one);
//!     turn.value_mut().awaited = true;
//!     lock.leave_to_sleep(one, turn);
//!     lock.sleep(rt, one);                                        // no turn begins before this
//! }
//!
//! /// Application 2 makes the entry, if application 1 waits for it.
//! fn bring_news<R: Wait>(rt: &R, lock: &TurnLock<Visits>, two: &mut Seat<usize, u64>) {
//!     let mut turn = lock.enter(rt, two);
//!     if !turn.value().awaited {
//!         return lock.leave(two, turn);
//!     }
//!     turn.value_mut().noted.push_reserved((2, 7));
//!     turn.value_mut().awaited = false;
//!     lock.leave_and_wake(two, turn);
//! }
//! ```
//!
//! # Implementation
//!
//! Two words and a slot. The first word is the turn: free, taken, or taken and awaited, as in the
//! mutex of Drepper, "Futexes Are Tricky", 2011. The seat that finds it free has the turn, and the
//! slot with it. It looks a hundred times before it sleeps at the word; all looks but the first
//! and the last only read while a turn is out. The second word is the bell, at which seats sleep
//! that wait for news.
//!
//! ```text
//! turn word   0 free         compare and exchange by 1: if it was 0 the slot is out with the seat
//!             1 taken        exchange by 2: the same, and otherwise the seat sleeps while it is 2
//!             2 and awaited  exchange by 0, with the value back in the slot: the history is
//!                            published, and one sleeper is woken if the word was 2
//! bell word   rings so far   heard in the turn that is left to sleep; the sleep lasts while the
//!                            word is unchanged; + 1 once a turn was passed on that wakes, and then
//!                            all are woken
//! slot        the value      taken after the turn word, and given back before it
//! ```
//!
//! # Proved
//!
//! At `enter` the history extends all that the seat had seen, and has of its application just the
//! seat's own entries, in order. `leave` takes a history that is the one found with entries of the
//! seat's application behind it. `join` keeps the longer of two histories, in which only
//! applications that were split off have entries. `close` gives a history that has of each
//! application just its seat's entries, in order, and no others (`specs/Rule.antt`). `meet` has the
//! main seat see what a seat has seen; of the seat's application there is nothing there but the
//! seat's own entries, so who meets all seats knows which have made none.
//!
//! A seat that left its turn to sleep begins no turn before it slept or said that it stays awake,
//! and a turn that it begins awake can't be left to sleep again. It sleeps at the count of rings
//! that it heard in its turn. A turn that isn't left to sleep ends by `leave_and_wake` if and only
//! if there are sleepers and the value has news, and this can't end before the bell was struck. So
//! no sleeper is forgotten: until the bell rings after a seat heard it and left, the value notes
//! sleepers, or a ring is due (`AreRemembered`).
//!
//! No clause sees that `park` sleeps, or that `wake_one` and `wake_all` wake. `board` calls `park`
//! at the end of a wait, and wakes in one function for each word.
//!
//! Tested: two threads get through turns of all lengths around the one at which the other goes to
//! sleep; a thread that waits for long sleeps; news wakes the sleepers, and they sleep until
//! there is some; a lock can be dropped. Not claimed: progress, that a turn comes, that a sleeper
//! wakes or how long it sleeps, fairness, order in time between callers that never met.
#![tactic(auto)]

mod board;
mod historied;
mod lock;
mod rule;
mod seat;
mod turn;
mod view;

pub use board::LOOKS;
pub use historied::Historied;
pub use lock::{MOST_SEATS, TurnLock};
pub use seat::{LockName, Seat};
pub use turn::Turn;
pub use view::{Stage, View};
