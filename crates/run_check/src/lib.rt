//! Checks of reports: whether a report is that of a run of a script, whoever made it.
//!
//! It promises that a script and the report of a run of it determine both histories of the run, and
//! that an application's place among its lines, which is kept at each service by itself, says what
//! it has still to make and which receipts it has.
//!
//! ```text
//! /// The first line of a report that is wrong, counted from 1.
//! fn wrong_line(judgement: Judgement) -> Option<u32> {
//!     match judgement {
//!         Judgement::Yes => None,               // it is the report of a run of the script
//!         Judgement::No(line) => Some(line),
//!     }
//! }
//!
//! /// A function whose proof needs a law calls it. The call does nothing.
//! fn runs_are_told()
//!     ensures { ReportsTellRuns }             // of `specs/Determined.antt`
//! {
//!     reports_tell_runs();
//! }
//! ```
#![tactic(auto)]

mod judgement;
mod laws;

pub use judgement::Judgement;
pub use laws::{
    judged_reports_are_answered, next_calls_are_known, next_table_calls_are_known, places_go_on,
    receipts_are_merged, reports_tell_runs, table_places_go_on, wrong_lines_are_first,
};
