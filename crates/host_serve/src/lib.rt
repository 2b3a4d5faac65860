//! All that the program does, over any source, sink, gate and audit: [`serve`], and [`serve_alone`]
//! for the words that need no threads.
//!
//! It reads a script, runs its applications on the software bus and on Table Services, each on a
//! thread of its own or all in rotation, and writes a report. It also runs two buses with a bridge
//! between them, checks reports, looks at table images and packs them. The program `host_run` calls
//! these with the words of the command line, standard input and standard output.
//!
//! ```text
//! /// How a script of one application ends in rotation: with 0, and with its report in the sink.
//! fn run_one<R: Threads + Wait + Sync>(rt: &R, alloc: Global) -> Option<u8> {
//!     let mut words = Words::new();
//!     words.add("lockstep");
//!     let mut source = MemSource::new(b"app A\ncreate p0 4 A\n", 1000, &[]);
//!     let mut sink = MemSink::new(alloc, 4096, 1000, &[]).ok()?;
//!     let status = serve(rt, alloc, &words, &mut source, &mut sink, &OpenGate, &mut NoAudit);
//!     Some(status.exit_status())
//! }
//! ```
//!
//! # Proved
//!
//! - `serve` and `serve_alone`: what they read, write and show the audit, by how they end, and why
//!   they end so (`Served`). If `run`, `lockstep` or `bridge` ends done, the report is that of
//!   histories that a run of the script may leave (`headline_on_run`, `headline`,
//!   `headline_on_bridge`).
//! - `Words::task` answers what the words ask for (`task_of`), `HostStatus::exit_status` the number
//!   with which the program ends.
//!
//! By reading: all memory is taken by `Memory`, before the first call of an application.
//!
//! Tested by `test_run`: sources and sinks that fail at each call in turn, threads at a gate.
#![tactic(auto)]

mod bridging;
mod checking;
mod fault_line;
mod images;
mod memory;
mod reading;
mod serving;
mod status;
mod words;

pub use host_report::{Audit, MemAudit, NoAudit};
pub use memory::MemoryRefusal;
pub use serving::{serve, serve_alone};
pub use status::{HostStatus, NO_MEMORY};
pub use words::{Task, Word, Words};
