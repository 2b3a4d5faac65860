//! The messages of a software bus as plain lists, for the check of reports: pipes with what waits
//! on them, unsent buffers, and of each send number how often it is named, which is what the
//! account of the bus's pool is counted by.
//!
//! Each call answers and leaves exactly what the definitions of `bus_words` say: the pipes and the
//! buffers are theirs, and the account is `account_of`, by the numbers that are held. There are no
//! blocks and no links.
//!
//! ```
//! /// Takes a buffer and gives it back.
//! fn taken_and_released(
//!     messages: &mut ListMessages,
//!     alloc: Global,
//!     app: AppNo,
//! ) -> Result<(), AllocError>
//!     requires kept { IsKept messages.old }
//!     requires room { IsTrue (has_room (account_in messages.old.part) 64) }
//! {
//!     let number = messages.allocate(app, 64)?;
//!     messages.release(alloc, app, number)
//! }
//! ```
//!
//! # Proved
//!
//! - `create`, `delete`, `set_bits`, `receive`, `allocate`, `release`, `send`, `send_buffer` and
//!   `end` of `ListMessages` leave what the bus of the definitions has then.
//! - Its account is that of the numbers held (`account_in`), counted as names come and go: each
//!   call keeps that numbers are named as pipes and buffers name them (`IsKept`).
//!
//! Not claimed: what is left if memory runs out, or if a number of 32 bits is spent; speed.
#![tactic(auto)]

mod blocks;
mod buffers;
mod delivery;
mod messages;
mod numbers;
mod sends;

pub use delivery::Delivery;
pub use messages::ListMessages;
