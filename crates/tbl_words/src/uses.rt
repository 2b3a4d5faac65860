//! How much of Table Services is in use.

/// Numbers in use, now or at the most so far.
#[derive(Clone, Copy, Debug, PartialEq, Eq)]
pub struct TblUse {
    /// Tables that have a handle, and so their blocks.
    pub tables: u32,
    /// Live handles.
    pub handles: u32,
    /// Bytes of the tables' blocks, by their block sizes.
    pub bytes: u32,
}
