//! The registry of Table Services (cFE Table Services, table registry): the tables, by name and by
//! key, and the live handles by which applications reach them, by number.
//!
//! Tables and handles are lists in order of number, of which each call changes what it names and
//! leaves the rest. A name finds registered tables alone, and no number of a handle is given twice.
//!
//! ```
//! /// A handle that was dropped is found no more.
//! fn look_for_dropped(registry: &mut Registry, handle: u32) -> Option<HandleRow>
//!     requires { is_live registry.old.handles handle ≡ true }
//!     ensures { result ≡ None }
//! {
//!     registry.drop_handle(handle);
//!     registry.by_handle(handle)
//! }
//! ```
//!
//! # Proved
//!
//! - `add_table` puts a table and its owner's handle last, under a key that no table has;
//!   `add_handle` puts a handle last; each new handle is numbered one more than were made.
//!   `drop_handle` takes out that handle, and answers true if and only if it was its table's last.
//!   `remove` takes out a table that has none. `hold` and `let_go` change one handle.
//! - `by_handle`, `find` and `table` answer what is kept of a handle or a table; `first_of` the
//!   application's first handle.
//! - `recall_ties`: numbers rise, none is above the count of the handles made, no two tables have
//!   one key, and the table of a handle is there under the handle's key. `recall_listed`: if a
//!   registry lists the tables and handles of a state of the table machine, it finds what the
//!   machine finds, and a registration, a share and a returned handle lead to a state that the
//!   changed registry lists.
//!
//! By reading: a handle is found by halves; `by_name` goes over the tables and not over the
//! handles; only `new` takes memory.
//!
//! Tested: it can be opened; a table registered, shared, given back by both and its name registered
//! anew.
#![tactic(auto)]

mod handles;
mod laws;
mod name;
mod registry;
mod rows;
mod shelf;

pub use laws::recall_listed;
pub use registry::Registry;
pub use rows::{Handle, HandleRow, TableRow};
