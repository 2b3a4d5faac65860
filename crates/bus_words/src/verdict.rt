//! What becomes of a message at one subscription.

/// What becomes of a message at one of its subscriptions (cFE Software Bus): the first of these, in
/// this order, that applies.
#[derive(Clone, Copy, Debug, PartialEq, Eq)]
pub enum Verdict {
    /// The pipe ignores its owner's messages, and its owner sent this one.
    Skip,
    /// At least as many messages of the subscription wait on the pipe as its limit says.
    OverLimit,
    /// Fewer messages wait on the pipe than its depth says: the pipe queues it.
    In,
    /// The pipe is full and drops its oldest message for a newer one: the message that waits
    /// longest leaves, and then the pipe queues this one.
    Oldest,
    /// The pipe is full.
    Full,
}
