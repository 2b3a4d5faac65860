//! The words of the software bus: its calls, its answers, the journal that keeps them, and the
//! definitions of what each call does, in `specs/`.
//!
//! A journal is a list: a push adds one entry at the end, and reading gives each entry back as it
//! was.
//!
//! ```text
//! /// One entry of a journal.
//! fn one_entry(alloc: Global, app: AppNo) -> Result<(), AllocError> {
//!     let mut journal = BusJournal::new(alloc, &[Budget { entries: 8, bytes: 200, buffers: 0 }])?;
//!     let call = BusCall::Create { depth: 4, name: b"TLM" };
//!     journal.push(&BusEntry { app, call, answer: BusAnswer::Number(1) });
//!     let same = journal.get(0);                       // the same entry
//!     Ok(())
//! }
//! ```
//!
//! # Proved
//!
//! - The journal's budgets never change. `get` gives each entry back, `lent` one with its answer in
//!   place, `set_answer` replaces the last entry's answer. What an application may still add
//!   (`left`) is its budget less its entries (`left_of`).
//! - `histories_are_runs`: a legal history is the run of its calls, each answered by the machine's
//!   step. It goes on by any step that its application may make, with the bytes that the call
//!   brings (`brings`), if it makes an entry; a look that still waits makes none.
//! - `pipes_stand_alone`: in every legal history each pipe gives its owner just the messages that a
//!   pipe alone gives, a list machine that knows no other pipes, and of the bus only the accepted
//!   sends.
//! - `own_entries_decide`: what the bus asks of an application before a call follows from its own
//!   entries and its budget.
//! - `states_are_enough`: the bus with the next count of each routed id is enough without the
//!   history.
//! - `pools_are_counted`, `draws_are_counted`, `bytes_are_of_sends`: the accounts of applications'
//!   pools and of the bus's pool add up after every history. `pool_counts_are_read`: a pool's
//!   requests and errors are counted off the history.
//! - `applications_stay`: no call changes how many applications there are.
//! - `ends_leave_nothing`: an application that has ended owns no live pipe; if all have ended, no
//!   send is held and every block is back.
//! - `events_are_told`, `statistics_are_counted`: the event desk, counters and peaks are those of
//!   the history (`desk_after`, `statistics_after`), and nothing in use is above its peak.
//!   `event_refusals_are_read`: refused events and resets are counted off the history.
//!   `housekeeping_is_a_send`: it answers and leaves what a send of its packet does.
//!
//! What a pipe is, and what happens to a message there, is defined once, for items of any kind
//! (`specs/Pipes.antt`).
//!
//! Tested: it can be opened; each kind of call is read back as it prints.
#![tactic(auto)]

mod app_laws;
mod calls;
mod event_laws;
mod history;
mod journal;
mod laws;
mod message_receipts;
mod miss;
mod number_laws;
mod pipe_text;
mod pool_laws;
mod receipts;
mod verdict;

pub use app_laws::applications_stay;
pub use calls::{BusAnswer, BusCall, BusEntry, LentEntry};
pub use event_laws::event_refusals_are_read;
pub use history::{Call, Entry};
pub use journal::BusJournal;
pub use journal_store::Allowance;
pub use laws::{
    buffers_are_apart, bytes_are_of_sends, draws_are_counted, ends_leave_nothing, events_are_told,
    histories_are_runs, housekeeping_is_a_send, own_entries_decide, pipes_stand_alone,
    pools_are_counted, states_are_enough, statistics_are_counted,
};
pub use miss::{Miss, MissCause};
pub use number_laws::send_numbers_are_new;
pub use pipe_text::{NAME_BYTES, PipeText};
pub use pool_laws::pool_counts_are_read;
pub use receipts::{HEAD_BYTES, Head, Receipt, ReceiptList};
pub use verdict::Verdict;
