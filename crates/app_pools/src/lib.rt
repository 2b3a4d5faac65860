//! The memory pools that applications create (cFE Executive Services, memory pools). A pool gives
//! out grants of its blocks, numbered 1, 2, 3 and so on, takes them back, and takes back all grants
//! of an application at its end.
//!
//! Each call answers and leaves exactly what the definitions of pools in `fsw_base` say. A call
//! takes at most 8 steps, an end 8 for each grant that it takes back.
//!
//! ```
//! /// Takes a grant of the first pool and gives it back.
//! fn taken_and_returned<L: Ledger>(
//!     pools: &mut AppPools,
//!     app: AppNo,
//!     steps: &mut Steps<L>,
//! ) -> Result<(), EsStatus>
//!     requires { IsTrue (has_numbers pools.old 1) }
//!     ensures cost { steps.new ≤ steps.old + 16 }
//! {
//!     let grant = pools.get(app, 1, 64, steps)?;
//!     pools.put(1, grant, steps)
//! }
//! ```
//!
//! # Proved
//!
//! - `create`, `get`, `put`, `stats` and `end` are those of `fsw_base`. No grant number is used
//!   again. A grant that was never given, or came back already, is refused and counted.
//! - `app_pool` shows the pool itself: as many of its blocks of each size are out as grants of that
//!   size (`pool_account`). `recall_numbered`: the grants out are in order of number, each was
//!   given, and each is of a block size that there is (`IsNumbered`).
//!
//! By reading: no call but `new` takes memory; a grant is found by halves; a return moves the later
//! grants one place up; an end visits the grants that are out in each pool.
//!
//! Tested: a pool that is full and gives again, with each refusal; eight pools and no ninth.
#![tactic(auto)]

mod pool;
mod pools;

pub use pool::GrantBlock;
pub use pools::{AppPools, MAX_APP_POOLS};
