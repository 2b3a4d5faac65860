//! The calls of Table Services (cFE Table Services): tables are registered, shared and loaded,
//! applications hold versions of them by their addresses, and handles are given back. Each call is
//! that of the tables without a journal, and one entry of a journal: the call with its answer.
//! Beside each entry is a note; if the call gave an address, the loan of the view that was given.
//!
//! It promises that each call answers and changes what the tables of the definitions do after the
//! journal's history; that an application's bag has, after each call, the views of what its handles
//! hold by the loans that were noted, each with the bytes that were held when its address was
//! given; and that the numbers in use, now and at the most so far, are those of the history. No
//! call but [`TblCore::new`] has an allocator, and none takes memory by its code.
//!
//! ```text
//! /// A version of a table is held while the next one is loaded.
//! fn held_through_a_load<L: Ledger>(
//!     alloc: Global,
//!     region: &mut [u8],
//!     work: &mut [u8],
//!     rules: &RuleList,
//!     steps: &mut Steps<L>,
//! ) -> Option<()> {
//!     let app = AppNo::try_new(1)?;
//!     let budgets = [Budget { entries: 8, bytes: 64, buffers: 0 }];
//!     let mut core = TblCore::new(alloc, &Config::usual(), &budgets, region, work).ok()?;
//!     let mut bag = HeldTables::new(alloc, 256).ok()?;      // room for a view of each handle
//!     let owner = core.register(app, b"LIMITS", 4, 1, rules, steps); // Ok(New(1))
//!     let done = core.load(app, 1, 0, &[1, 2, 3, 4]);       // Ok(()): version 1
//!     let address = core.get_address(app, 1, &mut bag);     // Ok: version 1, updated
//!     let next = core.load(app, 1, 0, &[9]);                // version 2
//!     let view = bag.view_of(1);                            // still 1, 2, 3, 4
//!     let note = core.note(2);                              // of entry 2, the address: its loan
//!     Some(())
//! }
//! ```
//!
//! # Proved
//!
//! - Each call, by an application that may make it (`MayCall`; `may_make` tests it), answers and
//!   leaves what the machine's `step` says at the journal's history, and adds its own entry; limits
//!   and budgets stay, and the history stays legal (`Does`; `journal`, clause `legal`). Each entry
//!   has the note that is due, a loan if it gave an address, else nothing (`journal`, clause
//!   `noted`; `note`, clause `due`).
//! - Handles that hold one version of one table have one loan noted, so their applications have
//!   views of one block (`journal`, clause `loans`).
//! - After each call the caller's bag is its own, by the history, its notes and the bag alone
//!   (`HasBag`): a view for each of its handles that hold something, with the bytes that were held
//!   then. A new bag is a bag of any application of new tables (`opens` of `bags_stay`). The bags
//!   of others stay (`KeepsOtherBags`, and `bags_stay` for any calls of others). The caller's views
//!   for other handles and the bag's room stay (`others`, `room`), and the last call leaves no view
//!   (`empty`). So held bytes stay until their own application asks for the handle's address again,
//!   releases it or gives it back.
//! - `tables_now` and `tables_peak` are the numbers in use of the history, now and at the most
//!   (`peaks_are_greatest` of `tbl_words`). `pool` has the blocks of the tables out and no others.
//!   `new` opens with an empty history.
//!
//! By reading: only [`TblCore::new`] and `HeldTables::new` take memory; the numbers in use and
//! their peaks are kept and not counted anew.
//!
//! Tested by `rows_runs`: it can be opened, and answers each refusal but `ErrNoAccess` as an
//! executable model does, this one in `c/test`; and by `test_run`.
#![tactic(auto)]

mod answers;
mod holding;
mod laws;
mod leaving;
mod loading;
mod noted;
mod opening;
mod permits;
mod registering;
mod short;
mod tables;

pub use laws::bags_stay;
pub use table_blocks::HeldTables;
pub use tables::TblCore;
pub use tbl_words::{Address, Registered, TblState, TblStatus, TblUse};
