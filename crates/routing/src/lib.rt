//! The routes of the Software Bus: for each message id that has one, its destinations in order of
//! subscription, linked by index, and its sequence count (cFE Software Bus, message routing; CCSDS
//! 133.0-B, 4.1.3.4.3).
//!
//! A send finds its id's route in one look-up and goes along the destinations, at most two steps
//! each, however many routes and destinations there are; a new destination goes last, and one that
//! leaves takes no other with it. By the code, no call but `new` takes memory.
//!
//! ```
//! /// An id gets a route with one destination, and its first sequence count, which is 0 behind
//! /// 16383.
//! fn first_count<L: Ledger>(
//!     routes: &mut Routes,
//!     sub: SubNo,
//!     steps: &mut Steps<L>,
//! ) -> Result<u16, SbStatus>
//!     requires { routes.old ≡
//!         record { msgids = 1; dests = 1; starts = (2049, 16383) ∷ []; routes = [] } }
//!     ensures count { result ≡ Ok 0 }
//!     ensures cost { steps.new ≤ steps.old + 8 }
//! {
//!     let route = routes.add_route(0x0801)?;
//!     routes.add_dest(route, sub, steps)?;
//!     Ok(routes.next_count(route))
//! }
//! ```
//!
//! Proved: a route is the list of its destinations in order of subscription. `add_dest` adds one
//! last, `remove_dest` takes out that one, `first` and `next` go along them. `MaxMsgsMet` and
//! `MaxDestsMet` are answered if and only if the numbers given to `new` are reached, and then
//! nothing changes. `next_count` is the id's start, one for each count given and one more, modulo
//! 16384 (`recall_counts`). Steps: at most 8 to add, 2 to go on, one for each destination and 8
//! more to remove.
//!
//! Tested: a route whose count wraps; a walk along 64 destinations in the largest configuration.
#![tactic(auto)]

mod dests;
mod routes;

pub use routes::{Routes, recall_counts};
