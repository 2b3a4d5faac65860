//! The message that is sent.
use ccsds_msg::write_header;

/// Its message id.
pub const ID: u16 = 0x0801;

/// A primary header and ten bytes; the bus gives it the sequence count.
pub fn message() -> [u8; 16] {
    let mut bytes = [7; 16];
    write_header(&mut bytes, ID, 0);
    bytes
}
