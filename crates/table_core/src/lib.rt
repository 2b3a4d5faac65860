//! Table Services without a journal (cFE Table Services): tables are registered, shared and loaded,
//! applications hold versions of them by their addresses, and handles are given back, each alone or
//! all at an application's end.
//!
//! Each call answers and changes what the tables of the definitions do. Held bytes stay, but for
//! what the call itself gives or takes: then the caller's bag has the views of what its handles
//! hold, and no others.
//!
//! ```text
//! /// What a second application holds stays while the first one loads.
//! fn shared_table<L: Ledger>(
//!     alloc: Global,
//!     region: &mut [u8],
//!     work: &mut [u8],
//!     rules: &RuleList,
//!     held: &mut HeldTables<'_>,
//!     steps: &mut Steps<L>,
//! ) -> Option<()> {
//!     let first = AppNo::try_new(1)?;
//!     let second = AppNo::try_new(2)?;
//!     let mut core = PlainTables::new(alloc, &Config::usual(), 2, region, work).ok()?;
//!     let owner = core.register(first, b"LIMITS", 4, 1, rules, steps);   // Ok(New(1))
//!     let handle = core.share(second, b"LIMITS");                        // Ok(2)
//!     let done = core.load(first, 1, 0, &[1, 2, 3, 4]);                  // version 1
//!     let address = core.get_address(second, 2, held);                   // version 1, updated
//!     let next = core.load(first, 1, 0, &[9]);                           // version 2
//!     let bytes = held.view_of(2);                                       // still 1, 2, 3, 4
//!     core.end(second, held, steps);                                     // handle 2 has left
//!     Some(())
//! }
//! ```
//!
//! # Proved
//!
//! - Each call, by an application that may make it (`MayAct`: it hasn't ended, and what it loads
//!   is 1 to 65536 bytes from an offset of at most 65536; for `register` and `share` also
//!   `has_handle_number`; names are of any length),
//!   answers and leaves what `step` of `tbl_words` says of the state (`Acts`); a refused call
//!   changes nothing. So an update never copies over a buffer that is held, a value is never staged
//!   over a held version, a load that fails a rule leaves nothing behind, and a table's blocks go
//!   back with its last handle alone.
//! - Each call leaves what applications have in their bags (`Holds`), but for the caller's own if
//!   the call gives or takes a view: then it has just the views of what the caller's handles hold,
//!   and those for other handles are unchanged (`others`). The bag's room stays (`room`), and the
//!   last call leaves no view (`empty`).
//! - `new` opens with no table; `pool` has the blocks of the tables out and no others, and `in_use`
//!   the numbers in use. `recall_loans`: handles that hold one version of one table are lent it by
//!   one loan; `recall_apart`: two versions, and two tables, share none. A registration and a
//!   handle that is given back take at most 16 steps, an end 16 for each handle.
//! - Behind version 2^64 - 1 `update` and `load` change nothing (`spent`) and answer their refusal,
//!   or `InfoTableLocked` if there is none (`behind_last`).
//!
//! By reading: only [`PlainTables::new`] takes memory; the numbers of `in_use` are kept and not
//! counted anew. A load writes no working buffer, though it is refused if four are taken.
//!
//! Tested by `rows_runs` and `test_run`, through `tbl_load`.
#![tactic(auto)]

mod answers;
mod handles;
mod holding;
mod leaving;
mod loading;
mod plain;
mod readers;
mod registering;
mod staging;
mod validation;

pub use answers::{PlainAddress, PlainShape, PlainState};
pub use plain::PlainTables;
