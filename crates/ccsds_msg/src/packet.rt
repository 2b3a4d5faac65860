//! The header of a packet, and why bytes are no packet.

/// How many sequence counts there are, 14 bits (section 4.1.3.4.3). The flags stand above them.
pub const COUNTS: u16 = 16384;

/// The largest message id: version number 0, and all other bits of the first word (section 4.1.3.2
/// and 4.1.3.3).
pub(crate) const MAX_ID: u16 = 0x1FFF;

/// The fields of a primary header (CCSDS 133.0-B-2, section 4.1.3).
#[derive(Clone, Copy, Debug, PartialEq, Eq)]
pub struct Header {
    /// The message id: version number, packet type, secondary header flag and APID, as one number.
    pub id: u16,
    /// The sequence flags, 0 to 3. A packet that is no segment of a longer one has 3.
    pub flags: u8,
    /// The sequence count, 0 to 16383.
    pub count: u16,
    /// The size of the whole packet in bytes, its header included, 7 to 65542.
    pub size: u32,
}

/// Why bytes are no message. If several apply, the first in this order is told.
#[derive(Clone, Copy, Debug, PartialEq, Eq)]
pub enum MsgFault {
    /// There are fewer than 7 bytes, the least that a packet has.
    Short,
    /// The header says another size than there are bytes; at [`front`](crate::front), a greater
    /// one.
    Length {
        /// The size in bytes that the header says.
        said: u32,
        /// The number of bytes that there are.
        given: u32,
    },
    /// The message id is not 1 to 0x1FFF.
    BadId(u16),
}
