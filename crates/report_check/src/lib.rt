//! A check of reports: whether a text is the report of a run of a script, and if not, at which line
//! it first can't be.
//!
//! It plays the script's calls again, in the order in which the report has them, on machines of
//! plain lists. They share no pool, no buffer and no core with the services that make a report.
//!
//! ```
//! /// Whether a text is the report of a run of a script.
//! fn is_legal(alloc: Global, script: &Script, report: &[u8]) -> Result<bool, AllocError> {
//!     Ok(check(alloc, script, report)? == Judgement::Yes)
//! }
//! ```
//!
//! # Proved
//!
//! - `check` answers Yes if and only if the text is the report of a run of the script, and else the
//!   number of the first line up to which it is no run's (`IsAnswer`).
//! - `parts_of` cuts an input at its first line `---`, into a script and a report.
#![tactic(auto)]

mod accounts;
mod merged;
mod parts;
mod reports;
mod tail;

pub use parts::parts_of;
pub use reports::check;
