//! What the replays of the bus and of the tables share, for the check of reports: a report that is
//! compared, from its front, with what has to be there, text that is kept in memory, the latest
//! entry's line, and receipts with the places of the lines that made them.
//!
//! A text is past what it was compared with, and tells the line in which it isn't another text.
//!
//! ```
//! /// Whether a report has its first line; its number is 1.
//! fn begins(report: &[u8]) -> bool
//!     ensures { IsTrue result ↔ Begins report.now (codes "fsw 1\n") }
//! {
//!     ComparedText::new(report).take(b"fsw 1\n")
//! }
//! ```
//!
//! # Proved
//!
//! - `ComparedText`: `take` goes past a text that is there, and past nothing else; `caller` is the
//!   one application with whose number an entry's line begins; `wrong_line` is the number, from 1,
//!   of the line in which the report isn't a text.
//! - `KeptText` is a sink that fails only if memory runs out.
//! - `EntryLine` keeps the line of one entry, of either service (`HasLine`), and nothing else.
#![tactic(auto)]

mod compared;
mod kept;
mod lines;
mod numbers;
mod receipts;
mod slices;

pub use compared::ComparedText;
pub use kept::KeptText;
pub use lines::{EntryLine, HasLine};
pub use numbers::one_more;
pub use receipts::MadeReceipt;
