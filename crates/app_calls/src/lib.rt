//! The calls that one application makes of the software bus and of Table Services: a trait,
//! [`Calls`], and its implementation on both cores, [`CoreCalls`], with the application's bags.
//!
//! Each call gets the answer of its service, and leaves the other service unchanged. The bags are
//! the application's afterwards, with the buffers that the answer leaves and the bytes that were
//! written.
//!
//! ```text
//! /// A buffer is written and sent to nobody, and a table that isn't there is asked for.
//! fn calls_of_one<L: Ledger>(
//!     core: &mut BusCore<'_>,
//!     tables: &mut TblCore<'_>,
//!     app: AppNo,
//!     bag: &mut Held<'_>,
//!     held_tables: &mut HeldTables<'_>,
//!     steps: &mut Steps<L>,
//! ) {
//!     let mut calls = CoreCalls::new(core, tables, app, bag, held_tables, steps);
//!     let pipe = calls.create_pipe(4, b"TLM");     // Ok(1): pipe 1, an entry of the journal
//!     let buffer = calls.allocate(64);             // Ok(1): buffer 1, 64 zeros in the bag
//!     calls.form_buffer(1, 0x0801, 7); // buffer 1 is a message now; no call of the bus
//!     let sent = calls.transmit_buffer(1, true);   // Ok(Sent { number: 0, reached: 0 })
//!     let hold = calls.table_call(TblCall::GetAddress { handle: 1 });  // ErrInvalidHandle
//! }
//! ```
//!
//! # Proved
//!
//! - Each of the 27 calls of the bus and the 12 calls of the tables: the answer is the one that the
//!   service's definitions give after the core's history, the entry is the last, the bag is the
//!   application's, and the other service and its bag are unchanged (`Answers`, `AnswersLook`,
//!   `TablesAnswer`). The end at the bus has the end at the tables as a condition.
//! - `form_buffer` and `put_bytes` write into unsent buffers in place (`Writes`). A sent buffer has
//!   these bytes in its entry, and every call leaves the bytes of the other buffers
//!   (`LeavesBuffers`).
//! - `last` shows the bytes of a pipe's last message, `held` those that a handle holds.
//!
//! Calls that aren't alone with their services are those of `port_calls`. `test_run` runs these
//! calls through scripts.
#![tactic(auto)]

mod app_calls;
mod buffers;
mod calls;
mod messages;
mod table_calls;

pub use app_calls::CoreCalls;
pub use calls::Calls;
pub use messages::{fill_payload, make_message};
