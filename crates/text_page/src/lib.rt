//! Text for a sink, put together on a page of 4096 bytes: numbers, ids, names and bytes in the
//! forms in which reports and scripts have them.
//!
//! It promises that the sink is given the pieces in order and nothing else, and after a failed
//! write nothing more.
//!
//! ```text
//! /// Writes id=0x0801.
//! fn write_id<K: Sink>(sink: &mut SinkGuard<'_, K>) -> Result<(), WriteFault> {
//!     let mut page = Page::new();
//!     put(sink, &mut page, b"id=");
//!     put_hex_id(sink, &mut page, 0x0801);
//!     finish(sink, &mut page)
//! }
//! ```
//!
//! Proved: `put` and the calls for numbers, ids, names and bytes put their text behind what is on
//! the page, and leave the sink unchanged after a failed write (`Puts`). `finish` answers an error
//! if and only if a write through the guard has failed; the call in which it failed says that the
//! count of faults rose, or is at its last value. `write_text` writes all, or a front of it if the
//! sink fails. No call follows a failed one (the condition of `SinkGuard::write`).
#![tactic(auto)]

mod numbers;
mod pages;
mod pieces;
mod writes;

pub use numbers::{Number, put_number};
pub use pages::{Page, finish, put};
pub use pieces::{hex_id, put_hex_bytes, put_hex_id, put_name};
pub use writes::write_text;
