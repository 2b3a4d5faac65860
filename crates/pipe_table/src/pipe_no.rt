//! What a pipe goes by.

/// What a live pipe goes by.
#[derive(Clone, Copy, Debug, PartialEq, Eq)]
pub struct PipeNo {
    /// From 1, by order of creation; never given again.
    pub number: u32,
    /// The place where it lies while it is live.
    pub place: u32,
}
