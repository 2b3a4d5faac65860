//! The part of a report on the tables, played again by a machine of plain lists: each line is
//! judged by the entries before it, and by the script.
//!
//! Which application a line names says which call it must be of, and the machine what that call is
//! answered. So the line is known, and compared with the report's.
//!
//! ```
//! /// Whether the lines on the tables are those of a run of the script, all there.
//! fn are_tables_whole(
//!     alloc: Global,
//!     script: &Script,
//!     lines: &[u8],
//! ) -> Result<bool, AllocError> {
//!     let mut text = ComparedText::new(lines);
//!     match replay_tables(alloc, script, &mut text)? {
//!         TablesReplayed::Whole(_) => Ok(text.is_at_end()),
//!         TablesReplayed::Wrong(_) => Ok(false),
//!     }
//! }
//! ```
//!
//! # Proved
//!
//! - `TableReplay` is behind a history that a run of the script may have so far (`IsReplayed`): its
//!   tables, their peak, and where each application is among its lines are those after it.
//! - `step` goes past the line of the next entry, and past no other. `replay_tables` answers the
//!   number of the first line at which a report of these lines can't be a run's.
#![tactic(auto)]

mod all_lines;
mod place;
mod receipts;
mod replay;

pub use all_lines::{TablesReplayed, replay_tables};
pub use replay::{TableReplay, TableStep};
