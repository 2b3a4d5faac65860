//! What a software bus logs and counts of its calls: its event desk (cFE Event Services), its
//! counters, and the peaks of what was in use. A bus has one of it.
//!
//! Each call leaves exactly what the definitions of `Records.antt` say. Lemmas say what the records
//! are after each shape of call of the bus.
//!
//! The caller below is proved, in the crate `test_parts`.
//!
//! ```
//! /// Tells that a pipe was subscribed to an id already; what is in use stays.
//! fn note_duplicate(records: &mut Records, id: u16, pipe: u32)
//!     ensures { records.new ≡
//!         told_event records.old (ServiceEvent.DuplicateSubscription id pipe) }
//! {
//!     records.tell(ServiceEvent::DuplicateSubscription { id, pipe });
//! }
//! ```
//!
//! # Proved
//!
//! - `tell` sends the desk an event of the bus and raises the event's counter, if it has one.
//!   `tell_misses` does so for each pipe that missed a message or dropped its oldest one for it, in
//!   order. `count` raises one counter, and `see` each peak that is exceeded.
//! - `register`, `unregister`, `send_event`, `reset_filter`, `set_log_mode` and `clear_log` change
//!   the desk by its definitions and leave the counters. `packet` writes the housekeeping packet.
//! - `proofs/Leaves.antt`: for each shape of call the machine leaves what these calls leave.
//!   `proofs/Misses.antt`: the events of a send are those of its misses.
//!
//! By reading: a log that drops the line makes no text, and only `new` takes memory.
//!
//! Tested: it can be opened; the misses of a send in order, each with its counter; a full log, of
//! which no count is lost.
#![tactic(auto)]

mod records;

pub use records::Records;
