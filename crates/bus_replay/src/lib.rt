//! The part of a report on the bus, played again by a machine of plain lists: each line is judged
//! by the entries before it, and by the script.
//!
//! Which application a line names says which call it must be of, and the machine what that call is
//! answered. So the line is known, and compared with the report's.
//!
//! ```
//! /// Whether the lines on the bus are those of a run of the script, all there.
//! fn is_bus_whole(alloc: Global, script: &Script, lines: &[u8]) -> Result<bool, AllocError> {
//!     let mut text = ComparedText::new(lines);
//!     match replay_bus(alloc, script, &mut text)? {
//!         BusReplayed::Whole(_) => Ok(text.is_at_end()),
//!         BusReplayed::Wrong(_) => Ok(false),
//!     }
//! }
//! ```
//!
//! # Proved
//!
//! - `BusReplay` is behind a history that a run of the script may have so far (`IsReplayed`): its
//!   bus, and where each application is among its lines, are those after it.
//! - `step` goes past the line of the next entry, and past no other. `replay_bus` answers the
//!   number of the first line at which a report of these lines can't be a run's.
#![tactic(auto)]

mod all_lines;
mod calls;
mod place;
mod receipts;
mod replay;

pub use all_lines::{BusReplayed, replay_bus};
pub use replay::{BusReplay, BusStep};
