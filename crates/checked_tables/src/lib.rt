//! Table Services with the bags of its applications as one value, which any caller may call: each
//! call takes an application's number and plain arguments, and tests all that the tables require of
//! their callers.
//!
//! A call answers what the tables answered, or why they weren't asked ([`Refusal`]). If they
//! weren't asked, nothing changed.
//!
//! ```text
//! /// One application registers a table of 4 bytes, loads it, and reads it.
//! fn one_table(tables: &mut TblBox<'_>) -> Option<usize> {
//!     let told = tables.register::<Brand>(1, b"LIMITS", 4, 0, &[], Blank::new(1));
//!     let Registered::New(handle) = told.ok()?.ok()? else {
//!         return None;                                    // it was registered before
//!     };
//!     tables.load(1, handle, 0, &[1, 2, 3, 4]).ok()?.ok()?;
//!     tables.get_address(1, handle).ok()?.ok()?;
//!     Some(tables.held(1, handle)?.len())                 // 4
//! }
//! ```
//!
//! # Proved
//!
//! - Each call is asked of the tables, or refused for just the reason that `specs/Asked.antt` says
//!   (clause `unasked`). Asked, it takes one step of the tables' machine (`Acts` of `table_core`),
//!   and the bags of all other applications stay (`others`, `bags`). Not asked, nothing changed
//!   (`nothing`).
//! - Each application has its bag after every call (`recall_bags`), so that no call has a condition
//!   on the tables, but that its `blank` is one of `L`.
//! - What a handle holds stays when its application calls for another handle, or is refused (`own`,
//!   `bag_refused`).
//! - `held` shows what a handle of the application's holds (`held_value`).
#![tactic(auto)]

mod asking;
mod boxed;
mod handles;
mod holding;
mod loading;
mod refusal;

pub use boxed::TblBox;
pub use refusal::Refusal;
