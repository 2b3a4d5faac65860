//! What holds of every bus, whatever happened on it.
ghost use Rattle.std.specs.Prelude.{◌≡◌, ◌++◌, ◌∷◌, [], List, fold, length};
ghost use Rattle.ccsds_msg.specs.Message.{IsMessage, header_of};
ghost use Rattle.housekeeping.specs.declared.in_use.InUse.{InUse};
ghost use Rattle.housekeeping.specs.declared.names.CounterName.{CounterName};
ghost use Rattle.housekeeping.specs.Counters.{Counts, count_of, ticked, times, shown, counts_of};
ghost use Rattle.housekeeping.specs.Packet.{housekeeping_id, housekeeping_packet};
ghost use Rattle.housekeeping.specs.Peaks.{greater, peak_of};
ghost use Rattle.housekeeping.specs.Statistics.{statistics_of, no_statistics};

/// Statistics that are kept up to date, event by event, are those of all events so far: each
/// counter shows how often its name stands among them, a tick counts one more, and what is seen in
/// use raises the peaks. Does nothing.
pub fn recall_statistics()
    ensures first { statistics_of [] [] ≡ no_statistics }
    ensures counts { (events : List CounterName) (name : CounterName) →
        count_of (counts_of events) name ≡ shown (times name events) }
    ensures tick { (events : List CounterName) (event : CounterName) →
        counts_of (events ++ event ∷ []) ≡ ticked (counts_of events) event }
    ensures ticks { (events more : List CounterName) →
        counts_of (events ++ more) ≡ fold ticked (counts_of events) more }
    ensures seen { (uses : List InUse) (now : InUse) →
        peak_of (uses ++ now ∷ []) ≡ greater (peak_of uses) now }
{}

/// Whatever a housekeeping packet tells, it is a message of 64 bytes, and its header is always the
/// same. Does nothing.
pub fn recall_packets()
    ensures length { (counts : Counts) (now : InUse) →
        length (housekeeping_packet counts now) ≡ 64 }
    ensures message { (counts : Counts) (now : InUse) →
        IsMessage (housekeeping_packet counts now) }
    ensures header { (counts : Counts) (now : InUse) → header_of (housekeeping_packet counts now)
        ≡ record { id = housekeeping_id; flags = 3; count = 0; size = 64 } }
{}
