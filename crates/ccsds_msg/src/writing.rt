//! Writing a packet's header.
ghost use Rattle.std.specs.Prelude.{◌≡◌, ◌<◌, ◌≤◌, ◌++◌, length, drop, IsTrue};
ghost use Rattle.ccsds_msg.specs.Message.{with_count, header_bytes, header_of, is_valid_id};
ghost use Rattle.ccsds_msg.specs.Message.{IsMessage};

use crate::packet::COUNTS;
use byteorder::{BigEndian, ByteOrder};

/// Replaces the sequence count (section 4.1.3.4.3), 0 to 16383. Every other bit stays.
#[tactic(auto, unfolding(crate::specs::Message::with_count))]
pub fn set_count(bytes: &mut [u8], count: u16)
    requires header { 6 ≤ length bytes.old }
    requires count { count < 16384 }
    ensures bytes { bytes.new ≡ with_count bytes.old count }
    ensures fields { header_of bytes.new ≡ record (header_of bytes.old) { count = count } }
    ensures rest { drop 6 bytes.new ≡ drop 6 bytes.old }
{
    let flags = BigEndian::read_u16(&bytes[2..]) / COUNTS % 4;
    BigEndian::write_u16(&mut bytes[2..], flags * COUNTS + count);
}

/// Writes the primary header of a packet that fills the whole slice, 7 to 65542 bytes: this message
/// id, sequence flags 3 (no segment of a longer one, section 4.1.3.4.2), this sequence count, 0 to
/// 16383, and the slice's length as the size.
#[tactic(auto, unfolding(crate::specs::Message::header_bytes, crate::specs::Message::fault))]
pub fn write_header(bytes: &mut [u8], id: u16, count: u16)
    requires least { 7 ≤ length bytes.old }
    requires most { length bytes.old ≤ 65542 }
    requires count { count < 16384 }
    ensures bytes { bytes.new ≡ header_bytes id count (length bytes.old) ++ drop 6 bytes.old }
    ensures fields { header_of bytes.new
        ≡ record { id = id; flags = 3; count = count; size = length bytes.old } }
    ensures message { IsTrue (is_valid_id id) → IsMessage bytes.new }
    ensures rest { drop 6 bytes.new ≡ drop 6 bytes.old }
{
    let data_length = (bytes.len() - 7) as u16;
    BigEndian::write_u16(bytes, id);
    BigEndian::write_u16(&mut bytes[2..], 3 * COUNTS + count);
    BigEndian::write_u16(&mut bytes[4..], data_length);
}
