//! Runs what a script's applications do with the software bus and with Table Services, each
//! application on a thread of its own: [`run_threads`].
//!
//! For any order of the threads' turns, both services are left with histories that they can have
//! and that merge the applications' calls, each once and in the order of its lines, and each
//! application's receipts are those of its lines in these histories.
//!
//! ```text
//! /// Two applications, of which one waits for what the other sends.
//! fn run_two<R: Threads + Wait + Sync>(rt: &R, alloc: Global) -> Option<()> {
//!     let text = b"app A\nsend 0x0801 7 1\napp B\ncreate p0 4 B\nsub 0x0801 p0\npend p0\n";
//!     let script = read_script(alloc, text).ok()?;
//!     let mut regions = Regions::new(alloc, script.config()).ok()?;
//!     let finished = run_threads(rt, alloc, &script, &mut regions, &OpenGate).ok()?;
//!     let entries = finished.bus.journal().len();  // 6 or 7: the send before B waits, or after it
//!     // 1 if the send came after the subscription, or 0
//!     let receipts = finished.receipts[1].len();
//!     Some(())
//! }
//! ```
//!
//! # Proved
//!
//! If `run_threads` returns and memory didn't run out, for any order in which the threads came:
//!
//! - the two histories are ones that a run of the script may leave (`IsRunOf`, clause `run`), with
//!   what follows (`Guarantees`, clause `guarantees`), under the script's limits, for as many
//!   applications as it has (`limits`, `table_limits`, `apps`, `table_apps`);
//! - each application's receipts are those of its lines (`receipts`).
//!
//! The caller's `Regions` are at least as large as the script's limits ask (`HaveRoom`, a
//! condition). A thread's start promises what it returns (`KeptBy`): the application has made all
//! its calls, and its receipts are right whatever others do later. An application whose thread
//! can't be started is run by the caller, under the same promise.
//!
//! By reading: all memory of both services and of the lists of applications is taken before the
//! first thread is started; the gate's calls are outside both locks; an application that waits for
//! a message sleeps.
//!
//! Tested by `test_run`: two applications at a gate that one thread alone can't pass; scripts on
//! threads, with reports judged by an executable model. Not claimed: time, or that a run ends.
//!
//! # Implementation
//!
//! Each application takes its runner and its two ports to a thread of a scope. All threads are
//! started before one is waited for. Then the caller runs the applications without a thread, in
//! order of number. Behind the scope the ports are joined, in order of number, and both services
//! closed.
#![tactic(auto)]

mod joining;
mod lists;
mod meeting;
mod opening;
mod run;
mod starting;
mod starts;
mod works;

pub use joining::join_all;
pub use meeting::meet_works;
pub use opening::{OpenServices, open_services, open_works};
pub use run::run_threads;
pub use starting::{Lists, begin_all, end_all};
pub use starts::{Begun, OfRun, Start, Starts, start_one};
pub use works::{Done, Ends, RunParts, Work};
