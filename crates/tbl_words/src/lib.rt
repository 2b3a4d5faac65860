//! The words of Table Services: its calls, its answers, the journal that keeps them, and the
//! definitions of what each call does, in `specs/`.
//!
//! A journal is a list: a push adds one entry at the end, and reading gives each entry back as it
//! was.
//!
//! ```text
//! /// One entry of a journal.
//! fn one_entry(alloc: Global, app: AppNo) -> Result<(), AllocError> {
//!     let mut journal = TblJournal::new(alloc, &[Budget { entries: 8, bytes: 200, buffers: 0 }])?;
//!     let call = TblCall::Load { handle: 1, offset: 0, bytes: &[1, 2, 3, 4] };
//!     journal.push(&TblEntry { app, call, answer: TblAnswer::Done });
//!     let same = journal.get(0);                       // the same entry
//!     Ok(())
//! }
//! ```
//!
//! # Proved
//!
//! - What an application may still add to a journal (`left`) is its budget less its entries
//!   (`left_of`). `TableReceipt::new` has the size, the sum and the first bytes of what is held.
//! - `histories_are_runs`: a legal history is the run of its calls, each answered by the machine's
//!   step, and goes on by any further step.
//! - `held_tables_stay`: no call changes what a handle holds but those by which its own application
//!   moves it, and an address gives the table's present version.
//! - `handles_have_tables`: the table of a live handle is there, each table has a handle, and a
//!   table is registered if and only if its owner's handle is live. `handles_are_numbered`: no
//!   number of a handle is given twice, and live handles are in order of number.
//! - `applications_stay`: no call changes how many applications there are.
//! - `leaves_add_up`: handles that leave one after another leave the same as at once.
//!   `ends_leave_nothing`: if all have ended, no handle is live, no table is left and no byte of
//!   the pool is in use.
//! - `blocks_go_by_tables`: a new table draws its blocks, and a table that leaves gives them back.
//!   `numbers_go_by_entries`: there are no more handles, and no more versions of a table, than
//!   entries. `peaks_are_greatest`: what was in use after any beginning of a history is within its
//!   peak.
//! - `worked_examples`: a double-buffered table, a single-buffered one and one that two
//!   applications share, call by call.
//!
//! Tested: it can be opened; each kind of call is read back as it prints.
#![tactic(auto)]

mod calls;
mod history;
mod journal;
mod laws;
mod receipts;
mod statuses;
mod uses;

pub use calls::{Address, Registered, TblAnswer, TblCall, TblEntry, TblState, Told};
pub use history::{Call, Entry};
pub use journal::TblJournal;
pub use journal_store::Allowance;
pub use laws::{
    applications_stay, blocks_go_by_tables, ends_leave_nothing, handles_are_numbered,
    handles_have_tables, held_tables_stay, histories_are_runs, leaves_add_up,
    numbers_go_by_entries, peaks_are_greatest, worked_examples,
};
pub use receipts::{HEAD_BYTES, TableReceipt};
pub use statuses::TblStatus;
pub use tbl_rules::{Rule, RuleList};
pub use uses::TblUse;
