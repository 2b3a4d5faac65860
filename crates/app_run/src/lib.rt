//! Runs what a script's applications do with the software bus and with Table Services: each
//! application by a [`Runner`], and all of them by [`lockstep`], round-robin on one thread over one
//! bus and its tables.
//!
//! The histories of both services are those of the script's rotation, each application's receipts
//! are those of its lines in these histories, and the run ends.
//!
//! ```text
//! /// Runs a script of one application that sends itself a message.
//! fn run_one(alloc: Global) -> Option<()> {
//!     let text = b"app A\ncreate p0 4 A\nsub 0x0801 p0\nsend 0x0801 7 1\nrecv p0\n";
//!     let script = read_script(alloc, text).ok()?;
//!     let mut regions = Regions::new(alloc, script.config()).ok()?;
//!     let finished = lockstep(alloc, &script, &mut regions).ok()?;
//!     let entries = finished.bus.journal().len();      // 5: an entry a call, and one for the end
//!     let receipts = finished.receipts[0].len();       // 1: the message received
//!     Some(())
//! }
//! ```
//!
//! # Proved
//!
//! - `lockstep`: both histories, their limits and number of applications, and the receipts (clauses
//!   `history`, `table_history`, `limits`, `table_limits`, `apps`, `table_apps`, `receipts`).
//!   Messages and tables are in the caller's `Regions`, three blocks at least as large as the
//!   script's limits ask (`HaveRoom`, a condition).
//! - `Runner::turn`, over any calls of one application, with others' calls between them or not: it
//!   takes the turn that rotation gives it, and its bags are still its own (`Turns`). Each receipt
//!   is made from the bytes that the bags show. `begins_line` and `lines_begun` answer if its next
//!   turn begins a line, and how many it has begun.
//! - What a script's lines write into unsent buffers is what the bag has of them. The lines of
//!   events and of the bus's figures set no register and make no receipt.
//!
//! By reading: `Regions::new` and `open` take all memory before the first call, and `run`, which
//! makes the calls, has no allocator.
//!
//! Tested by `test_run`, by what scripts print.
#![tactic(auto)]

mod answers;
mod line_calls;
mod receipts;
mod regions;
mod rotating;
mod runner;
mod table_calls;

pub use app_calls::{Calls, CoreCalls};
pub use regions::{Blocks, Regions};
pub use rotating::{Finished, budgets_of, lockstep, recall_limits};
pub use runner::{Runner, Turned};
