//! What the tables of Table Services contain, in blocks of a pool: the present version of each
//! table, which readers are lent, and beside it a staged value or the version before. What one
//! application holds of tables is its bag of views.
//!
//! A single-buffered table has one block, and a value is staged for it in one of four working
//! buffers; a double-buffered one has two, and stages in the inactive one. An update copies over
//! the one, while no view of it is out, and exchanges the other two (cFE Table Services). What a
//! view shows stays as it was until the view is back. By the code, no call but `TableBlocks::new`
//! and `HeldTables::new` takes memory.
//!
//! ```text
//! /// Holds a version of a new table while the next one is loaded.
//! fn held_through_a_load<L: Ledger>(
//!     tables: &mut TableBlocks<'_>,
//!     steps: &mut Steps<L>,
//! ) -> Result<u8, EsStatus>
//!     requires room { (0 < length tables.old.tables) × (2 ≤ tables.old.most) }
//!     requires new { is_open tables.old.tables 0 ≡ false }
//!     ensures { IfOk result (λ byte. byte ≡ 2) }
//! {
//!     tables.open(0, 2, 1, steps)?;
//!     tables.load(0, 0, &[1, 2]);
//!     let view = tables.view(0);
//!     tables.load(0, 1, &[9]);
//!     let held = view.bytes()[1];
//!     tables.give_back(0, 1, view);
//!     tables.close(0, steps);
//!     Ok(held)
//! }
//! ```
//!
//! # Proved
//!
//! - `open` gives a table its blocks, two if it is double buffered, both or neither, if and only if
//!   they fit; the value is zeros. `close` gives them back.
//! - A staged value starts as the present one with a range replaced, in the inactive block of a
//!   double-buffered table or in one of four working buffers; `abort` and `update` free the buffer.
//!   An update makes it the present one, a version later. A double-buffered table keeps the version
//!   before beside it; of a single-buffered one no view may be out (a condition). `load` stages and
//!   updates at once.
//! - A view shows the version that was present when it was given, until it is back. While a view of
//!   the version before is out, nothing is staged over it.
//! - `recall_table`: a table's blocks are out of the pool, and its values have its size.
//!   `recall_buffers`: four buffers are free or taken. `recall_update`: an update leaves the
//!   version before under its number. `recall_change`: a change of one table leaves every other.
//!   `recall_versions` and `recall_apart`: two versions, and two tables, share no loan.
//!   [`HeldTables`] is a finite map from handles to views. At most 16 steps a call.
//!
//! By reading: a staged value and a load write each byte once; an update exchanges the blocks of a
//! double-buffered table and copies none; only `TableBlocks::new` and `HeldTables::new` take
//! memory.
//!
//! Tested: it can be opened; a held version of a double-buffered table survives a load.
#![tactic(auto)]

mod blocks;
mod held;
mod holding;
mod laws;
mod loading;
mod memory;
mod next;
mod registering;
mod rows;
mod slot;
mod space;
mod staged;
mod table;
mod version;

pub use blocks::TableBlocks;
pub use held::HeldTables;
pub use laws::{recall_change, recall_update};
