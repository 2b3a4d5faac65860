//! The calls of a pool's user, as data.
use crate::blocks::BlockNo;

/// A call of a pool's user.
#[derive(Clone, Copy)]
pub enum PoolCall {
    /// A request for a block of this many bytes.
    Get(u32),
    /// The return of this block.
    Put(BlockNo),
}
