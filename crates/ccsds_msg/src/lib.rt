//! The primary header of space packets (CCSDS 133.0-B-2, section 4.1), read and written in place in
//! a slice of bytes. A packet's message id is its first 16 bits, as the cFE Software Bus uses it.
//!
//! Every reader answers the header's fields exactly, every writer changes its field alone, and
//! bytes are refused exactly if they are no message.
//!
//! The caller below is proved, in the crate `test_parts`.
//!
//! ```
//! /// Makes a telemetry packet of the whole slice, with this sequence count.
//! fn stamp(packet: &mut [u8], count: u16)
//!     requires least { 7 ≤ length packet.old }
//!     requires most { length packet.old ≤ 65542 }
//!     requires count { count < 16384 }
//!     ensures {
//!         header_of packet.new
//!             ≡ record { id = 0x0801; flags = 3; count = count; size = length packet.old }
//!     }
//! {
//!     write_header(packet, 0x0801, 0);
//!     set_count(packet, count);
//! }
//! ```
//!
//! Proved: `read_header` and `front` answer the header's fields if and only if the bytes are, or
//! begin with, a message, and otherwise the first fault. `id_of`, `size_of` and `count_of` are the
//! standard's fields. `set_count` changes the 14 count bits alone, and `write_header` writes a
//! header that reads back as given. `function_code` and `set_function_code` are the low 7 bits
//! behind the header of a command with a secondary header.
//!
//! Tested: packets written by hand, and 144 packets that tshark reads, for the layout of the
//! definitions.
#![tactic(auto)]

mod command;
mod packet;
mod reading;
mod writing;

pub use command::{function_code, set_function_code};
pub use packet::{COUNTS, Header, MsgFault};
pub use reading::{count_of, front, id_of, read_header, size_of};
pub use writing::{set_count, write_header};
