//! Memory pools of the Executive Services, by account: which block serves a request, and what can
//! still be drawn.
//!
//! A pool has block sizes. A request takes the smallest size that is large enough: a free block of
//! that size if there is one, otherwise one cut from the rest, which costs 16 bytes more than its
//! size. A returned block is free in its own size (cFE Executive Services, memory pools), in
//! segregated free lists (Wilson and others, "Dynamic Storage Allocation", 1995). Every answer is
//! that of an account on paper, and a draw or a return takes at most 8 steps, however many blocks
//! are out. By the code, no call but `new` takes memory.
//!
//! ```
//! /// Draws a block, gives it back and draws once more.
//! fn drawn_twice<L: Ledger>(pool: &mut Pool, steps: &mut Steps<L>) -> Result<BlockNo, EsStatus>
//!     ensures out { IfOk result (λ block. is_out pool.new block ≡ true) }
//!     ensures cost { steps.new ≤ steps.old + 24 }
//! {
//!     let block = pool.get(64, steps)?;
//!     pool.put(block, steps)?;
//!     pool.get(64, steps)
//! }
//! ```
//!
//! # Proved
//!
//! - `get` answers a block that wasn't out if and only if it fits (`fits`), of the smallest size
//!   that is large enough, a free one first. `put` gives it back in its own size, or is refused if
//!   and only if it was never cut or is free; `take_back` does the same of a block that is out,
//!   without the tests. If a block was cut, the rest sufficed (`rest_sufficed`). The figures are
//!   exact.
//! - `recall_whole`: the pool's bytes pay for what was cut, and no more blocks are cut than
//!   `most_blocks`. `draws_take_room_one_by_one`: after a draw so many blocks fit if and only if
//!   one more fitted before.
//! - `offset_of` answers where a block begins, for a caller that has memory of the pool's bytes.
//!   `blocks_lie_apart`: blocks lie within the pool's bytes, at multiples of 8, no two have a byte
//!   in common, and none ever moves.
//! - `agree`: for any calls, a pool and its account on paper give and refuse the same draws and
//!   show the same figures; a refused return is counted in both; the account moves by its own draws
//!   and returns.
//!
//! Tested: a small application pool; 100,000 calls, answered as by the account on paper.
#![tactic(auto)]

mod agreement;
mod blocks;
mod calls;
mod laws;
mod plain;
mod pool;

pub use agreement::{agree, pool_and_plain};
pub use blocks::{BlockNo, ClassStats, CutBlock, OVERHEAD};
pub use calls::PoolCall;
pub use laws::{blocks_lie_apart, draws_take_room_one_by_one};
pub use plain::PlainPool;
pub use pool::Pool;
