//! What a run that ended shows: its report, for a reader, and its services, for an audit.
//!
//! An audit is a caller's own recorder: it is shown the bus and the tables of each run, once,
//! before the report is written. [`MemAudit`] keeps copies of their journals, [`NoAudit`] nothing.
//!
//! ```text
//! /// Shows a run that ended to an audit in memory, and writes its report.
//! fn show<K: Sink>(
//!     ended: &Finished<'_>,
//!     audit: &mut MemAudit,
//!     sink: &mut SinkGuard<'_, K>,
//! ) -> Result<(), WriteFault>
//!     requires { sink.old.failed ≡ false }
//! {
//!     audit.closed(&ended.bus, &ended.tables);
//!     write_part(&ended.bus, &ended.tables, ended.receipts.as_slice(), Part::Whole, sink)
//! }
//! ```
//!
//! # Proved
//!
//! - `write_part` and `write_both` write exactly the report of the services as they are, or a front
//!   of it if the sink fails (`part_shown`, `both_shown`).
//! - `MemAudit` keeps a copy of every run that it was shown, or shows none (`with_copy`). By the
//!   code, its memory is taken when it is made.
//! - Through an `AuditGuard` an audit is shown a run only while nothing was written.
#![tactic(auto)]

mod audit;
mod mem_audit;
mod reporting;
mod table_copies;

pub use audit::{Audit, AuditGuard, NoAudit};
pub use mem_audit::MemAudit;
pub use reporting::{Part, write_both, write_part};
