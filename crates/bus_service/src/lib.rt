//! The software bus on threads (cFE Software Bus): one core of the bus behind a turn lock, and a
//! port for each application. A port's call waits for the application's turn, makes the core's
//! call, and passes the turn on.
//!
//! Each call answers what the bus of the definitions answers after a history that extends all that
//! the port has seen by entries of others only. The port's own entries are those of its own calls,
//! in order. The last message of each of the application's pipes is read from the port, without the
//! lock.
//!
//! ```text
//! /// One application on a port of its own. Each call is behind a test that it may be made
//! /// (`may_make`), which is left out here.
//! fn one_port<R: Threads + Wait>(alloc: Global, rt: &R, region: &mut [u8]) -> Option<()> {
//!     let app = AppNo::try_new(1)?;
//!     let budgets = [Budget { entries: 8, bytes: 64, buffers: 1 }];
//!     let (bus, mut main) = Bus::new(alloc, &Config::usual(), &budgets, region).ok()?;
//!     let mut port = bus.port(alloc, &mut main, app).ok()?;       // may go to another thread
//!     let pipe = port.create_pipe(&bus, rt, 4, b"TLM");           // Ok(1), at its turn
//!     let done = port.subscribe(&bus, rt, 0x0801, 1, 4, Scope::Global);
//!     let first = port.pend(&bus, rt, 1);                         // Ok(Pending) if none waits
//!     while port.may_look() {
//!         let news = port.look(&bus, rt);                         // sleeps until there is news
//!     }
//!     let bytes = port.last(1);                                   // the message, with no lock
//!     port.end(&bus, rt);
//!     bus.join(&mut main, port.finish());
//!     let core = bus.close(main);
//!     Some(())
//! }
//! ```
//!
//! # Proved
//!
//! - Each call of a port is made if the core as last seen allows it (`MayCall`; `may_make` tests
//!   it, and `may_look` for a look, without the lock) and, if it asks for a buffer, if the bag
//!   has room. It answers and leaves what the bus's `step` says after the entries of others. The
//!   history seen then ends with this entry and is legal (`Answers`). A look that answers Pending
//!   adds no entry, and the bus answers Pending at the history seen (`AnswersLook`).
//! - After each call the port's bag is its application's: a view of the last message of each of its
//!   pipes, and its unsent buffers, with the bytes that they had (clauses `bag`, `buffers`). A
//!   refused call of buffers and a call on another's pipe leave the whole bag (`bag_refused`), and
//!   so does a look that answers Pending (`still`). A receive that finds no message takes the
//!   pipe's view away.
//! - Each pipe gives what it gives alone, and pipes whose last messages are of one send have one
//!   loan (`Answers`, fields `alone` and `loans`).
//! - `last` reads a pipe's last message. `buffer` lends the bytes of an unsent buffer exactly if
//!   the history seen has one of this number for the application, and its clause says what the port
//!   is after the writing. `bytes_of_mut` does so if `holds_buffer` answers yes, and `write_buffer`
//!   has a visitor write. None of these takes the lock or the runtime.
//! - `entries_left` and `bytes_left` are what the port's own entries leave of its budget. A new
//!   port has seen what the main part has, has made no call and holds nothing; one that memory was
//!   too short for can be made later. `finish` keeps a port's application, history and entries;
//!   `join` keeps the longer of two histories; `close` gives the core, whose history is legal,
//!   extends what the main part has seen, and has exactly the entries of each application's port,
//!   in order.
//!
//! By reading: only [`Bus::new`] and [`Bus::port`] take memory; a turn moves a pointer and no core;
//! an application that looked in vain sleeps before its next look until a waiting application has
//! news; a call after which no waiting application has news wakes nobody. The lock counts no steps.
//!
//! Tested: two applications on two threads receive one send and read its bytes at once; sixteen
//! applications on sixteen threads make 10,000 calls each, and the closed bus has the entries of
//! each, in order; fifteen wait for a message of one that works, with at most 40 looks each while
//! 146 entries are made; fifteen wait in vain and get their time-outs once the last one ends.
//!
//! Not claimed: progress, waking, fairness, order in time between ports that never met, and that a
//! port goes to another thread (`Send`, `Sync`): who starts a thread shows it by the lemmas of
//! `Threads`. A caller of `buffer` doesn't learn what the port becomes, since this kit passes on
//! no such clause through an `Option` of a slice; by `bytes_of_mut` it does.
//!
//! # Implementation
//!
//! An application that looks in vain notes in the core's box, in that turn, that somebody sleeps,
//! and reads the lock's bell. Its next look sleeps first, until the bell rings; another call, as
//! its end, doesn't. A call that leaves a waiting application with news finds the note in its turn,
//! takes it away, and rings once the turn was passed on. So no waking is lost.
#![tactic(auto)]

mod buffers;
mod bus;
mod calls;
mod counters;
mod events;
mod kind;
mod leaving;
mod meeting;
mod permits;
mod pipes;
mod pools;
mod ports;
mod receiving;
mod sending;
mod subscribing;
mod unsent;

pub use bus::{Bus, BusMain};
pub use kind::{BusKind, SeenBus};
pub use permits::Permits;
pub use ports::{BusDone, BusPort, PortOf};
pub use unsent::{MessageView, Writer};
