//! The event desk of a flight software core, as cFE Event Services (EVS) have it: who registered
//! for events and with which filters, a log of the latest events, and counts of what became of
//! them. Applications are numbered 1 to 16; the services' own events have number 0.
//!
//! Each call answers and leaves exactly what the definitions of `EventDesk.antt` (of `fsw_base`)
//! say. By the code, no call takes memory once the desk is made.
//!
//! The caller below is proved, in the crate `test_parts`.
//!
//! ```
//! /// Registers an application, and logs a service event that it is ready.
//! fn start(desk: &mut EventDesk, app: AppNo, filters: &FilterList)
//!     ensures {
//!         desk.new ≡
//!         served (registered desk.old app filters.now) 1 EventKind.Information (codes "ready")
//!     }
//! {
//!     desk.register(app, filters);
//!     desk.service(1, EventKind::Information, b"ready");
//! }
//! ```
//!
//! Proved: every call of [`EventDesk`] leaves and refuses what `EventDesk.antt` says;
//! `send_refusal` and `reset_refusal` answer it beforehand. `drops_next` answers if the log drops
//! the next line, and `service_dropped` then leaves what `service` would leave. Filters count each
//! event of their id, passed or not, up to 65535; texts are cut at 122 bytes; a full log drops its
//! oldest line in mode 0 and the new one in mode 1.
//!
//! Tested: it can be opened; a run of filters, of each log mode, of the refusals.
#![tactic(auto)]

mod counts;
mod desk;
mod filters;
mod line;
mod log;

pub use counts::EventCounts;
pub use desk::EventDesk;
pub use line::{LogLine, MAX_TEXT};
pub use log::LOG_LINES;
