//! Memory pools as plain lists, for those who follow the bus or the tables by the definitions: of
//! each block size how many blocks were made and how many are out, and the grants that are out.
//! There are no blocks, no free lists and no links.
//!
//! Each call answers and leaves exactly what the definitions of pools in `fsw_base` say, and an
//! account is that of the same definitions.
//!
//! ```
//! /// Takes a grant of the first pool and gives it back.
//! fn taken_and_returned(
//!     pools: &mut GrantPools,
//!     app: AppNo,
//! ) -> Result<Result<(), EsStatus>, AllocError> {
//!     match pools.get(app, 1, 64)? {
//!         Ok(grant) => Ok(pools.put(1, grant)),
//!         Err(refusal) => Ok(Err(refusal)),
//!     }
//! }
//! ```
//!
//! # Proved
//!
//! - `create`, `get`, `put`, `figures` and `end` of `GrantPools` are those of `fsw_base`, in any
//!   state: nothing is asked of the pools.
//! - `account` of a `GrantPool` counts the blocks out from the grants that are out.
//! - `ListAccount` draws and gives back as `fsw_base`'s accounts do. `has_room_in` tells the same
//!   of numbers that aren't kept in an account.
//!
//! Not claimed: what is left of the pools if memory runs out; speed. A call looks at each grant
//! that is out of its pool, an end at those of all pools.
#![tactic(auto)]

mod account;
mod grants;
mod numbers;
mod pools;

pub use account::{ListAccount, has_room_in};
pub use grants::GrantPool;
pub use pools::GrantPools;
