//! The events that the software bus logs of its own calls, as cFE's Software Bus sends event
//! messages: their numbers, kinds and texts. The texts are this project's own.
//!
//! Number, kind and text of each are exactly those of `Events.antt`.
//!
//! The caller below is proved, in the crate `test_parts`.
//!
//! ```
//! /// Tells an event to the event desk.
//! fn tell(desk: &mut EventDesk, event: ServiceEvent)
//!     ensures { desk.new ≡ served_event desk.old event }
//! {
//!     let text = event.text();
//!     desk.service(event.number(), event.kind(), text.as_slice());
//! }
//! ```
//!
//! Proved: `number`, `kind` and `text` byte by byte; no text has more than 64 bytes
//! (`recall_text`). By reading: no call takes memory.
//!
//! Tested: each text once, as worked examples have it, and sent to an event desk.
#![tactic(auto)]

mod event;
mod text;

pub use event::ServiceEvent;
pub use text::{EventText, TEXT_BYTES};
