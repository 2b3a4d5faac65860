//! What a pipe queues, and why it doesn't.

use subscriptions::SubNo;

/// A message that waits in a pipe, or was received last.
#[derive(Clone, Copy, Debug, PartialEq, Eq)]
pub struct Item {
    /// Where the message is kept.
    pub desc: u32,
    /// The number of its send.
    pub number: u64,
    /// The subscription that queued it.
    pub sub: SubNo,
}

/// As many items wait as the pipe's depth says.
#[derive(Clone, Copy, Debug, PartialEq, Eq)]
pub struct Full;
