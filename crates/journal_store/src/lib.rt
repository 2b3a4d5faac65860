//! What every journal is made of: rows of any kind, each of an application and with bytes of its
//! own, within what the applications' budgets allow.
//!
//! It promises that a row that was added stays as it is, with its bytes, and that each application
//! may add as many rows and bytes as its budget has, and no more. By the code, no call but `new`
//! takes memory.
//!
//! ```
//! /// Adds a row with its bytes, and reads them back.
//! fn added_and_read<'a>(store: &'a mut JournalStore<u32>, app: AppNo, text: &[u8]) -> &'a [u8]
//!     requires { HasRoom (left_of store.old) app (length text.now) }
//!     ensures { result.now ≡ text.now }
//! {
//!     let at = store.len();
//!     store.push(app, 7, text);
//!     store.text(at)
//! }
//! ```
//!
//! Proved: a store is a list of rows and the budgets that it was made with, which never change.
//! `push` adds one row with its bytes; `app`, `row` and `text` give them back; what an application
//! may still add (`left`) is its budget less its rows (`left_of`).
//!
//! Tested: it can be opened; a row's bytes are read back, and are taken from what its application
//! may add.
#![tactic(auto)]

mod allowance;
mod store;

pub use allowance::Allowance;
pub use store::JournalStore;
