//! Table Services as plain lists, for the check of reports: the tables with their values, and the
//! handles with what they hold. There are no blocks, no registry and no links; a value is shared
//! and never changed.
//!
//! Each call answers and leaves exactly what `step` of `tbl_words` says.
//!
//! ```
//! /// Shares a table; it is None if the call is refused.
//! fn shared(
//!     alloc: Global,
//!     tables: &mut ListTables,
//!     app: AppNo,
//!     name: &[u8],
//! ) -> Result<Option<u32>, AllocError> {
//!     match tables.step(alloc, app, &TblCall::Share { name })? {
//!         TblAnswer::Number(handle) => Ok(Some(handle)),
//!         _ => Ok(None),
//!     }
//! }
//! ```
//!
//! # Proved
//!
//! - `step` is that of `tbl_words`, in any state: nothing is asked of the tables or of the call.
//! - `in_use`, `account`, `held_receipt` and `has_ended` are those of the definitions.
//!
//! Not claimed: what is left of the tables if memory runs out; speed. A registration counts the
//! blocks of all tables anew.
#![tactic(auto)]

mod access;
mod causes;
mod handles;
mod holds;
mod leaving;
mod loads;
mod machine;
mod numbers;
mod readers;
mod registering;
mod room;
mod rows;
mod tables;
mod values;

pub use machine::ListTables;
