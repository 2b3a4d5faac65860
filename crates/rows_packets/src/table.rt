//! The table of packets, and a packet as text.
ghost use Rattle.std.specs.Prelude.{◌≡◌, ◌<◌, ◌≤◌, length, drop};
ghost use Rattle.ccsds_msg.specs.Message.{header_of};

use ccsds_msg::{set_count, write_header};
use std::alloc::{AllocError, Global};
use std::fmt::Write;
use std::io;

/// Telemetry and commands (0x1000), each without and with a secondary header (0x0800), and each of
/// the APIDs 0, 1 and 0x7FF.
pub const IDS: [u16; 12] = [
    0x0000, 0x0001, 0x07FF, 0x0800, 0x0801, 0x0FFF, 0x1000, 0x1001, 0x17FF, 0x1800, 0x1801, 0x1FFF,
];

/// Prints the slice as a packet of this id, with each of the three counts.
///
/// # Errors
/// The fault of the first print that fails, or `OutOfMemory` if memory for a line runs out.
pub fn print_counts(rt: &impl Print, alloc: Global, id: u16, packet: &mut [u8]) -> io::Result<()>
    requires least { 7 ≤ length packet.old }
    requires most { length packet.old ≤ 65542 }
{
    make_packet(packet, id, 0);
    println!(rt; "{}", hexadecimal(alloc, packet)?)?;
    make_packet(packet, id, 1);
    println!(rt; "{}", hexadecimal(alloc, packet)?)?;
    make_packet(packet, id, 16383);
    println!(rt; "{}", hexadecimal(alloc, packet)?)
}

// Makes the slice a packet of this id and count. The header is first written with another count,
// so that both calls show in what is printed.
fn make_packet(packet: &mut [u8], id: u16, count: u16)
    requires least { 7 ≤ length packet.old }
    requires most { length packet.old ≤ 65542 }
    requires count { count < 16384 }
    ensures fields { header_of packet.new
        ≡ record { id = id; flags = 3; count = count; size = length packet.old } }
    ensures rest { drop 6 packet.new ≡ drop 6 packet.old }
{
    write_header(packet, id, 16383 - count);
    set_count(packet, count);
}

// Two lower case digits for each byte.
fn hexadecimal(alloc: Global, bytes: &[u8]) -> Result<String, AllocError> {
    let mut text = String::new(alloc);
    for byte in bytes {
        write!(text, "{byte:02x}")?;
    }
    Ok(text)
}
