//! The calls that the lines of a script make, as data, for the check of reports: an application's
//! registers, what it wrote into its unsent buffers, and with them the call of a line at the bus or
//! at the tables. Nothing is called here.
//!
//! ```
//! /// Writes what a line writes, unless the bus sees it.
//! fn passes(
//!     alloc: Global,
//!     registers: &Registers,
//!     buffers: &mut Buffers,
//!     line: &Line,
//! ) -> Result<bool, AllocError> {
//!     let made = made_bytes(alloc, registers, buffers, line)?;
//!     if bus_call(registers, buffers, line, &made).is_some() {
//!         return Ok(false);
//!     }
//!     buffers.write(alloc, registers, line)?;
//!     Ok(true)
//! }
//! ```
//!
//! # Proved
//!
//! - `bus_call` and `table_call` are the calls that `script_runs` defines, and `note` leaves the
//!   registers that it defines after the answer.
//! - `Buffers` has the bytes that lines wrote: after a line that no service sees (`write`), and
//!   after an answer of the bus (`settle`).
//!
//! Not claimed: what is left of the buffers if memory runs out; speed. A buffer is looked for
//! among all that the application has.
#![tactic(auto)]

mod buffers;
mod bus_calls;
mod handles;
mod made;
mod registers;
mod table_calls;

pub use buffers::Buffers;
pub use bus_calls::{bus_call, is_bus_line};
pub use handles::Handles;
pub use made::{content_made, made_bytes};
pub use registers::Registers;
pub use table_calls::{is_table_line, table_call};
