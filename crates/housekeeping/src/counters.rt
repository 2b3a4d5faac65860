//! The counters, the peaks, and the packet.
ghost use Rattle.std.specs.Prelude.{◌≡◌};
ghost use Rattle.housekeeping.specs.Counters.{count_of, ticked};
ghost use Rattle.housekeeping.specs.Packet.{housekeeping_packet};
ghost use Rattle.housekeeping.specs.Peaks.{greater};
ghost use Rattle.housekeeping.specs.Statistics.{no_statistics};

use crate::in_use::InUse;
use crate::names::{COUNTERS, CounterName, PACKET_COUNTERS};
use byteorder::{BigEndian, ByteOrder};
use ccsds_msg::write_header;
use std::marker::Model;

/// The bytes of the housekeeping packet.
pub const PACKET_BYTES: usize = 64;

// The packet's message id: telemetry with the flag of a secondary header (CCSDS 133.0-B-2,
// 4.1.3.3), as cFE's telemetry has it.
const PACKET_ID: u16 = 0x0803;

/// The counters of a bus, and the peaks of its numbers in use.
#[derive(Drop)]
pub struct Counters {
    // What each counter shows, in the order of their names; each stops at 4294967295.
    counts: [u32; COUNTERS],
    // Of each number in use the greatest that was seen.
    peak: InUse,
}

impl Model for Counters {
    ghost use Rattle.housekeeping.specs.Statistics.{Statistics};
    ghost use Rattle.housekeeping.specs.Inside.{counts_in};

    ghost Value = { Statistics };

    ghost view = { λ c. record { counts = counts_in c.counts; peak = c.peak } };
}

impl Counters {
    /// Counters at 0, and peaks at 0.
    pub fn new() -> Counters
        ensures { result ≡ no_statistics }
    {
        Counters {
            counts: [0; COUNTERS],
            peak: InUse::default(),
        }
    }

    /// Counts one event more. A counter stops at 4294967295.
    pub fn tick(&mut self, which: CounterName)
        ensures { self.new ≡ record self.old { counts = ticked self.old.counts which } }
    {
        let count = &mut self.counts[which as usize];
        *count = count.saturating_add(1);
    }

    /// Raises each peak that is exceeded by what is in use now.
    pub fn seen(&mut self, use_now: InUse)
        ensures { self.new ≡ record self.old { peak = greater self.old.peak use_now } }
    {
        self.peak = self.peak.greater(use_now);
    }

    /// What a counter shows, at most 4294967295.
    pub fn at(&self, which: CounterName) -> u32
        ensures { result ≡ count_of self.now.counts which }
    {
        self.counts[which as usize]
    }

    /// Of each number in use the greatest that was seen, 0 if none was.
    pub fn peak(&self) -> InUse
        ensures { result ≡ self.now.peak }
    {
        self.peak
    }

    /// Writes the housekeeping packet: a header of 6 bytes with sequence count 0, then the first
    /// ten counts in the order of their names, and then of what is in use now the ids, pipes,
    /// subscriptions and bytes. Each number has 4 bytes, the highest first; two zeros end it.
    pub fn packet(&self, now: InUse, out: &mut [u8; PACKET_BYTES])
        ensures { out.new ≡ housekeeping_packet self.now.counts now }
    {
        write_header(out, PACKET_ID, 0);
        BigEndian::write_u32_into(&self.counts[..PACKET_COUNTERS], &mut out[6..46]);
        let uses = [now.msgids, now.pipes, now.subs, now.bytes];
        BigEndian::write_u32_into(&uses, &mut out[46..62]);
        out[62..].copy_from_slice(&[0; 2]);
    }
}
