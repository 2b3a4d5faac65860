//! The message core for programs in C, as a static library: each export takes the core out of its
//! handle, makes one call of it, and puts it back. Statuses are 32-bit numbers, which are cFE's
//! if cFE has one.
//!
//! ```text
//! /* One application sends itself a packet. Answers how many bytes it received, 0 if refused. */
//! static size_t one_message(struct fsw_core *core, const uint8_t *packet, size_t size)
//! {
//!     struct fsw_limits limits = FSW_USUAL_LIMITS;
//!     struct fsw_message message;
//!     uint32_t pipe; /* 1: pipes are numbered from 1 */
//!     bool done = fsw_open(core, &limits) == FSW_SUCCESS &&
//!                 fsw_create_pipe(core, 1, 4, "TLM", 3, &pipe) == FSW_SUCCESS &&
//!                 fsw_subscribe(core, 1, 0x0801, pipe, 4, FSW_GLOBAL) == FSW_SUCCESS &&
//!                 fsw_transmit(core, 1, packet, size, true, NULL) == FSW_SUCCESS &&
//!                 fsw_receive(core, 1, pipe, &message) == FSW_SUCCESS;
//!     return done ? message.len : 0;
//! }
//! ```
//!
//! # Proved
//!
//! - A call of the bus (`BusCall`): a closed handle stays closed; or the bus isn't asked, for the
//!   first reason that its box has, and nothing changes; or it takes one step of its machine, and
//!   the status is the number of its answer. The tables are unchanged. A call of the tables
//!   (`TableCall`) is the same of the tables, and leaves the bus.
//! - What an export writes is the answer's own value. One that is refused writes nothing (`kept`).
//! - The length and the number of a received message are those of the application's last message on
//!   the pipe (`shown`, `number`). A receive has its pointer of a `ReceivedMessage`, which is made
//!   of no other bytes than that message's (`of` of `checked_bus`). That the export hands it on is
//!   to be read there; elsewhere `FswBytes::of` takes pointer and length from one slice.
//! - An opening answers that there isn't as much memory of a `MemoryRefusal` alone (`FswOpened`).
//! - A buffer that C writes in place is sent as C left it (`written_in`), under its number; if the
//!   call is refused, C keeps it with what it wrote (`stays`).
//! - A handle and a buffer may go to another thread (`Send`).
#![tactic(auto)]

mod buffer;
mod buffers;
mod bus_codes;
mod bytes;
mod codes;
mod counters;
mod ending;
mod events;
mod handle;
mod held;
mod holding;
mod lent;
mod limits;
mod messages;
mod opened;
mod opening;
mod parts;
mod pipes;
mod pools;
mod reading;
mod registering;
mod seen;
mod subscribing;
mod table_codes;
mod tables;
