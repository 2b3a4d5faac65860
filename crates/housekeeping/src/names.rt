//! The names of the counters.

/// How many counters there are.
pub(crate) const COUNTERS: usize = 11;

/// How many of them the housekeeping packet has: the first ones.
pub(crate) const PACKET_COUNTERS: usize = 10;

/// A counter of the bus. The housekeeping packet has the first ten, in this order; beside each
/// stands the field of cFE's Software Bus housekeeping telemetry that it is like.
#[derive(Clone, Copy, Debug, PartialEq, Eq)]
pub enum CounterName {
    /// Messages sent to an id without a subscription (`NoSubscribersCounter`).
    Nosub,
    /// Refused sends, and refused takings and releases of a buffer (`MsgSendErrorCounter`).
    Send,
    /// Refused receives, but for those that found no message (`MsgReceiveErrorCounter`).
    Recv,
    /// Refused creations and deletions of a pipe (`CreatePipeErrorCounter`).
    Create,
    /// Refused subscriptions and refused ends of one (`SubscribeErrorCounter`).
    Sub,
    /// Refused settings and readings of a pipe's options (`PipeOptsErrorCounter`).
    Opts,
    /// Pipes not found by name, and names not found by pipe (`GetPipeIdByNameErrorCounter`).
    Find,
    /// Subscriptions that stood already (`DuplicateSubscriptionsCounter`).
    Dup,
    /// Messages that a subscription's limit kept from a pipe (`MsgLimitErrorCounter`).
    Limit,
    /// Messages that a full pipe kept out (`PipeOverflowErrorCounter`).
    Overflow,
    /// Messages for which a full pipe dropped its oldest one. cFE has no such counter.
    Oldest,
}
