//! Reading a packet's header.
ghost use Rattle.std.specs.Prelude.{◌≡◌, ◌<◌, ◌≤◌, ◌^◌, length};
ghost use Rattle.ccsds_msg.specs.Message.{message_id, message_flags, message_count, message_size};
ghost use Rattle.ccsds_msg.specs.Message.{header_of, header_or_fault, fault, front_fault, id_fault};

use crate::packet::{COUNTS, Header, MAX_ID, MsgFault};
use byteorder::{BigEndian, ByteOrder};

// The least size of a packet in bytes: its header and one byte of data (section 4.1.4.1).
const LEAST_SIZE: usize = 7;

/// Reads the header of bytes that are to be one whole message.
///
/// # Errors
/// `Short` for fewer than 7 bytes, `Length` if the header says another size than there are
/// bytes, `BadId` if the message id is not 1 to 0x1FFF; the first of these that applies.
#[tactic(auto, unfolding(crate::specs::Message::fault))]
pub fn read_header(bytes: &[u8]) -> Result<Header, MsgFault>
    requires { length bytes.now < 2 ^ 32 }
    ensures { result ≡ header_or_fault (fault bytes.now) (header_of bytes.now) }
{
    if bytes.len() < LEAST_SIZE {
        return Err(MsgFault::Short);
    }
    let header = fields(bytes);
    let given = bytes.len() as u32;
    if header.size != given {
        return Err(MsgFault::Length {
            said: header.size,
            given,
        });
    }
    with_valid_id(header)
}

/// Reads the header of a message that the bytes begin with; more bytes may follow it.
///
/// # Errors
/// `Short` for fewer than 7 bytes, `Length` if the header says a size greater than the number of
/// bytes, `BadId` if the message id is not 1 to 0x1FFF; the first of these that applies.
#[tactic(auto, unfolding(crate::specs::Message::front_fault))]
pub fn front(bytes: &[u8]) -> Result<Header, MsgFault>
    requires { length bytes.now < 2 ^ 32 }
    ensures { result ≡ header_or_fault (front_fault bytes.now) (header_of bytes.now) }
{
    if bytes.len() < LEAST_SIZE {
        return Err(MsgFault::Short);
    }
    let header = fields(bytes);
    let given = bytes.len() as u32;
    if header.size > given {
        return Err(MsgFault::Length {
            said: header.size,
            given,
        });
    }
    with_valid_id(header)
}

/// The message id: the first 16 bits of the header (sections 4.1.3.2 and 4.1.3.3).
pub fn id_of(bytes: &[u8]) -> u16
    requires { 6 ≤ length bytes.now }
    ensures { result ≡ message_id bytes.now }
{
    BigEndian::read_u16(bytes)
}

/// The size in bytes of the whole packet as its header says it, 7 to 65542 (section 4.1.3.5).
pub fn size_of(bytes: &[u8]) -> u32
    requires { 6 ≤ length bytes.now }
    ensures { result ≡ message_size bytes.now }
{
    BigEndian::read_u16(&bytes[4..]) as u32 + 7
}

/// The sequence count, 0 to 16383 (section 4.1.3.4.3).
pub fn count_of(bytes: &[u8]) -> u16
    requires { 6 ≤ length bytes.now }
    ensures { result ≡ message_count bytes.now }
{
    BigEndian::read_u16(&bytes[2..]) % COUNTS
}

// The sequence flags, 0 to 3 (section 4.1.3.4.2).
fn flags_of(bytes: &[u8]) -> u8
    requires { 6 ≤ length bytes.now }
    ensures { result ≡ message_flags bytes.now }
{
    (BigEndian::read_u16(&bytes[2..]) / COUNTS % 4) as u8
}

// The fields of the header, whatever they are.
fn fields(bytes: &[u8]) -> Header
    requires { 6 ≤ length bytes.now }
    ensures { result ≡ header_of bytes.now }
{
    Header {
        id: id_of(bytes),
        flags: flags_of(bytes),
        count: count_of(bytes),
        size: size_of(bytes),
    }
}

// The header, unless its id is not valid.
fn with_valid_id(header: Header) -> Result<Header, MsgFault>
    ensures { result ≡ header_or_fault (id_fault header.id) header }
{
    if header.id == 0 || header.id > MAX_ID {
        return Err(MsgFault::BadId(header.id));
    }
    Ok(header)
}
