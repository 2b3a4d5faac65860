//! Two buses and a bridge: chosen messages of the first bus go to the second, each once and in the
//! order in which they came, by [`run_bridge`].
//!
//! Each bus has tables of its own and the applications of its own script, each on a thread of its
//! own. The bridge is on either side the application after the script's last. Before any other
//! application of side 1 starts it creates the pipe `BRIDGE` there and subscribes it to the ids of
//! its routes. Then it waits for messages, and sends each on side 2 with the count that it came
//! with. At the first time-out it ends, on side 1 and then on side 2: what is sent on side 1
//! afterwards is not forwarded.
//!
//! ```text
//! /// A message of id 0x0801 goes from side 1 to side 2, if B waits for it.
//! fn forward_one<R: Threads + Wait + Sync>(rt: &R, alloc: Global) -> Option<()> {
//!     let text = b"route 0x0801 4\n---\napp A\nsend 0x0801 8 16\n---\n\
//!         app B\ncreate p0 4 B\nsub 0x0801 p0\npend p0\n";
//!     let plan = read_plan(alloc, text).ok()?;
//!     let mut one = Regions::new(alloc, plan.script(1).config()).ok()?;
//!     let mut two = Regions::new(alloc, plan.script(2).config()).ok()?;
//!     let bridged = run_bridge(rt, alloc, &plan, &mut one, &mut two, &OpenGate).ok()?;
//!     let entries = bridged.two.bus.journal().len();   // 6 or 7: B waits, or the message does
//!     Some(())
//! }
//! ```
#![tactic(auto)]

mod bridge;
mod closing;
mod crews;
mod ends;
mod gates;
mod opening;
mod run;
mod threads;

pub use bridge_plan::read_plan;
pub use run::{Bridged, run_bridge};
