//! Table Services on threads (cFE Table Services): one core of tables behind a turn lock, and a
//! port for each application. A port's call waits for the application's turn, makes the core's
//! call, and passes the turn on.
//!
//! Each call answers what the tables of the definitions answer after a history that extends all
//! that the port has seen by entries of others only. The port's own entries are those of its own
//! calls, in order. What the application holds is read from the port, without the lock.
//!
//! ```text
//! /// One application on a port of its own. Each call is behind a test that it may be made
//! /// (`may_make`), which is left out here.
//! fn one_port<R: Threads + Wait>(
//!     alloc: Global,
//!     rt: &R,
//!     region: &mut [u8],
//!     work: &mut [u8],
//!     rules: &RuleList,
//! ) -> Option<()> {
//!     let app = AppNo::try_new(1)?;
//!     let budgets = [Budget { entries: 8, bytes: 64, buffers: 0 }];
//!     let (tables, mut main) = Tables::new(alloc, &Config::usual(), &budgets, region, work).ok()?;
//!     let mut port = tables.port(alloc, &mut main, app).ok()?;    // may go to another thread
//!     let owner = port.register(&tables, rt, b"LIMITS", 4, 1, rules);  // Ok(New(1)), at its turn
//!     let done = port.load(&tables, rt, 1, 0, &[1, 2, 3, 4]);     // Ok(()): version 1
//!     let address = port.get_address(&tables, rt, 1);             // Ok: version 1, updated
//!     let bytes = port.held(1); // Some: 1, 2, 3, 4, with no lock
//!     port.end(&tables, rt);
//!     tables.join(&mut main, port.finish());
//!     let core = tables.close(main);
//!     Some(())
//! }
//! ```
//!
//! Proved: what `bus_service` proves of the bus and its `step` holds here of the tables and their
//! machine's `step`: for each call of a port (`MayCall`, `may_make`, `Answers`), `entries_left`,
//! `bytes_left`, a new port, `finish`, `join` and `close`. There are no looks and no buffers. After
//! each call the port's bag has just the views of what the application's handles hold; those for
//! other handles stay (`others`), and so does its room (`room`); the last call leaves no view
//! (`empty`). Handles that hold one version of one table have one loan noted, so two ports that
//! hold it read one block (`Answers`, field `loans`). `held` reads what a handle holds, by the
//! history seen, and takes neither the lock nor the runtime.
//!
//! By reading: only [`Tables::new`] and [`Tables::port`] take memory; a turn moves a pointer and no
//! core.
//!
//! Tested: what two applications hold of one version is read on two threads at once, while a third
//! loads the next one; then all three end, and their ports are joined. Not claimed: progress,
//! fairness, order in time between ports that never met, and that a port goes to another thread.
#![tactic(auto)]

mod calls;
mod holding;
mod kind;
mod leaving;
mod loading;
mod permits;
mod ports;
mod registering;
mod tables;

pub use kind::{SeenTables, TblKind};
pub use permits::Permits;
pub use ports::{TblDone, TblPort};
pub use tables::{Tables, TblMain};
