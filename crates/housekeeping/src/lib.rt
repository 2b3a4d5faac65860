//! The housekeeping of a software bus: eleven counters, ten of them as cFE has them and in the
//! packet, the peaks of what was in use, and the packet with these ten and what is in use now. It
//! knows nothing of the bus but its arguments.
//!
//! Each counter shows how often it was ticked, up to 4294967295, each peak is the greatest number
//! seen, and the packet has exactly the bytes of `housekeeping_packet`.
//!
//! The caller below is proved, in the crate `test_parts`.
//!
//! ```
//! /// Counts a subscription that stood already, and looks at what is in use.
//! fn note_duplicate(counters: &mut Counters, now: InUse)
//!     ensures counts { counters.new.counts ≡ ticked counters.old.counts CounterName.Dup }
//!     ensures peak { counters.new.peak ≡ greater counters.old.peak now }
//! {
//!     counters.tick(CounterName::Dup);
//!     counters.seen(now);
//! }
//! ```
//!
//! Proved: `tick` raises one counter by one, up to 4294967295, and leaves the others; `seen` raises
//! each peak that is exceeded; `at` and `peak` read them. `packet` writes the 64 bytes of
//! `housekeeping_packet`: header, ten counters, four numbers in use, two zeros, all big-endian.
//! `recall_statistics`: each counter shows how often its name is among all events so far, and each
//! peak is the greatest of its number. `recall_packets`: every such packet is a message of 64 bytes
//! with the one header. By reading: no call takes memory.
//!
//! Tested: a packet with the bytes that an executable model gives; peaks of a small run.
#![tactic(auto)]

mod counters;
mod in_use;
mod laws;
mod names;

pub use counters::{Counters, PACKET_BYTES};
pub use in_use::InUse;
pub use laws::{recall_packets, recall_statistics};
pub use names::CounterName;
