//! The report of a run: the calls of the software bus and of the tables with their answers, what
//! each application received and held, the event log, and what was counted, as text written to a
//! sink.
//!
//! The sink is given exactly the report's text, or, if it fails, a front of it.
//!
//! ```text
//! /// Writes a report: fsw 1, bus, 1 a1 create 4 ALPHA -> CFE_SUCCESS 1, and so on, a line each.
//! fn report_run<K: Sink>(
//!     bus: &BusReadings<'_>,
//!     tables: &TableReadings<'_>,
//!     receipts: &[ReceiptList],
//!     sink: &mut SinkGuard<'_, K>,
//! ) -> Result<(), WriteFault> {
//!     write_report(bus, tables, receipts, sink)
//! }
//! ```
//!
//! # Proved
//!
//! - `write_report` writes the text of `report_of`, of receipts and of what was read off both
//!   services: of the bus (`BusReadings`) its journal, event desk, counters, what is in use, its
//!   pool and those of applications; of the tables (`TableReadings`) their journal, what is in use
//!   and was at the most, and their pool. If the sink fails, it wrote a front of it, and the sink's
//!   count of faults rose, or is at its last value. `write_ending` writes the end of such a text,
//!   from the line `counters` on.
//! - `reports_tell_applications_and_answers`: histories whose reports read the same have the same
//!   applications and answers, entry by entry, at the bus and at the tables, if their entries are
//!   plain (`IsPlain`, `IsPlainAtTables`: names of visible ASCII, numbers of 32 bits, and answers
//!   that the calls can get, as in every legal history). What calls bring isn't printed whole: of
//!   messages and loads the size and the sum, of an event's text the length, of filters and rules
//!   how many.
//!
//! Tested: the texts of six small runs, one of events and figures and one of tables; the front of
//! one in which a write fails.
#![tactic(auto)]

mod counters;
mod entries;
mod events;
mod laws;
mod pools;
mod readings;
mod receipts;
mod sums;
mod table_entries;
mod writer;

pub use counters::{put_counts, put_desk, put_table_uses, put_uses};
pub use entries::{put_bus_entry, write_bus_entry};
pub use events::{put_log, write_log_line};
pub use laws::reports_tell_applications_and_answers;
pub use pools::{HasAccount, PoolName, put_account};
pub use readings::{BusReadings, TableReadings};
pub use receipts::{put_receipt, write_receipt};
pub use table_entries::{put_table_entry, write_tbl_entry};
pub use writer::{write_ending, write_report};
