//! What is in use at one time.
ghost use Rattle.std.specs.Prelude.{◌≡◌};

/// Numbers in use on a bus, now or at their peaks (cFE Software Bus, statistics telemetry).
#[derive(Clone, Copy, Debug, Default, PartialEq, Eq)]
pub struct InUse {
    /// Message ids that have a route.
    pub msgids: u32,
    /// Live pipes.
    pub pipes: u32,
    /// Live subscriptions.
    pub subs: u32,
    /// Buffers with a message that waits on a pipe or was received last, or that are not sent yet.
    pub buffers: u32,
    /// The sum of the block sizes of these buffers, in bytes.
    pub bytes: u32,
}

impl InUse {
    ghost use Rattle.housekeeping.specs.Peaks.{greater};

    /// The greater one of both of each number.
    pub(crate) fn greater(self, other: InUse) -> InUse
        ensures { result ≡ greater self other }
    {
        InUse {
            msgids: self.msgids.max(other.msgids),
            pipes: self.pipes.max(other.pipes),
            subs: self.subs.max(other.subs),
            buffers: self.buffers.max(other.buffers),
            bytes: self.bytes.max(other.bytes),
        }
    }
}
