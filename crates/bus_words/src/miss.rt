//! A pipe at which a message is missed.

/// Why a message is missed at a pipe: the one sent, or one that waited.
#[derive(Clone, Copy, Debug, PartialEq, Eq)]
pub enum MissCause {
    /// As many messages of the subscription wait there as its limit says, or more.
    OverLimit,
    /// As many messages wait there as the pipe's depth says.
    Full,
    /// As many wait there, and the pipe dropped the one that waited longest for the one sent.
    Oldest,
}

/// A pipe at which a message is missed.
#[derive(Clone, Copy, Debug, PartialEq, Eq)]
pub struct Miss {
    /// The number of the pipe.
    pub pipe: u32,
    /// Why.
    pub cause: MissCause,
}
