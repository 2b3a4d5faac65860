//! The software bus with the bags of its applications as one value, which any caller may call: each
//! call takes an application's number and plain arguments, and tests all that the bus requires of
//! its callers.
//!
//! A call answers what the bus answered, or why the bus wasn't asked ([`Refusal`]). If the bus
//! wasn't asked, nothing changed, and nothing was counted.
//!
//! ```text
//! /// One application sends itself a packet and reads it.
//! fn one_message(bus: &mut SbBox<'_>, packet: &[u8]) -> Option<usize> {
//!     let pipe = bus.create_pipe(1, 4, b"TLM").ok()?.ok()?;   // 1: pipes are numbered from 1
//!     bus.subscribe::<Brand>(1, 0x0801, pipe, 4, 1, Blank::new(1)).ok()?.ok()?;
//!     bus.transmit::<Brand>(1, packet, true, Blank::new(1)).ok()?.ok()?;
//!     let message = bus.receive::<Brand>(1, pipe, Blank::new(1)).ok()?.ok()?; // its number is 1
//!     Some(message.len)
//! }
//! ```
//!
//! # Proved
//!
//! - Each call is asked of the bus, or refused for the first reason that `specs/Asked.antt` has
//!   (`unasked`). If the bus was asked, it took one step of its machine (`Acts` of `bus_core`), and
//!   the bags of all other applications are unchanged (`others`, `bags`). If it wasn't, nothing
//!   changed (`nothing`).
//! - Each application has its bag after every call (`recall_bags`). So no call has a condition on
//!   the bus: only `blank`, for the count of steps, has one.
//! - `message` shows the message that the application received last on the pipe (`last_message`);
//!   a receive answers how long it is (`shown`). A receive on a pipe, or its deletion, leaves the
//!   loans of all other pipes' messages (`loans`).
#![tactic(auto)]

mod asking;
mod boxed;
mod buffers;
mod counters;
mod events;
mod leaving;
mod lent_bag;
mod lent_buffer;
mod messages;
mod pipes;
mod pools;
mod received_message;
mod refusal;
mod subscribing;
mod waits;

pub use boxed::SbBox;
pub use lent_buffer::LentBuffer;
pub use received_message::{ReceivedMessage, first_of};
pub use refusal::Refusal;
pub use waits::LookAnswer;
