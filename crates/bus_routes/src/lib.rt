//! The pipes, subscriptions and routes of a software bus (cFE Software Bus). A send goes along the
//! destinations of its id alone, with the count of waiting messages ready at each.
//!
//! Contracts see three lists: pipes and subscriptions in order of number, and routes with their
//! counts. Behind them are the table of pipes, the subscriptions and the routes, each of a crate of
//! its own, and the facts that tie them together.
//!
//! ```
//! /// A message for the one subscription of an id reaches its pipe, and waits there.
//! fn first_waiting<L: Ledger>(
//!     tables: &mut BusTables,
//!     name: &PipeText,
//!     message: &Message,
//!     misses: &mut Misses,
//!     steps: &mut Steps<L>,
//! ) -> Option<ItemRow>
//!     requires tables { tables.old ≡ opened usual_limits }
//!     requires room { usual_limits.dests ≤ misses.old.room }
//!     ensures { result ≡
//!         Some
//!         (record { number = message.now.number; desc = message.now.desc; subscription = 1 }) }
//! {
//!     let pipe = tables.create_pipe(name, message.sender, 4);
//!     tables.subscribe(0x0801, pipe, 4, Scope::Global, steps);
//!     let place = tables.route_of(0x0801).unwrap();
//!     let route = RouteNo { id: 0x0801, place };
//!     tables.deliver(route, message, misses, steps);
//!     tables.oldest(pipe)
//! }
//! ```
//!
//! # Proved
//!
//! - Each call changes what its contract says of the three lists and leaves the rest:
//!   `create_pipe`, `delete_pipe` (if no message is left in the pipe), `set_bits`, the `take`
//!   calls, `subscribe`, `unsubscribe`, `next_count`. `take` answers the message that was the
//!   pipe's last and the one that is it now; `take_if_owned` does so for the pipe's owner alone.
//! - `deliver` offers a message to the live subscriptions of the route's id in order, each by the
//!   verdict at its turn. It answers how many pipes took it, and leaves those that missed it, or
//!   dropped their oldest message for it, in a list, with the cause, in order; at most 2 counted
//!   steps for each and 2 more.
//! - `recall_uses`: a delivery adds a use of its send for each pipe that took it, and each message
//!   that a pipe dropped for it loses one. The next message of a pipe takes away one of the send
//!   received last, and a message taken out takes away one of its own send.
//! - Behind this: each subscription's count is the number of its messages that wait, each id's
//!   destinations are its live subscriptions in order, and no pair is live twice
//!   (`specs/Inside.antt`).
//!
//! By reading: a look-up by id searches nothing; one by a pipe's number looks first if the pipe
//! is while none was deleted, then by halves; only `new` takes memory.
//!
//! Tested: it can be opened; a first message, and a run of most calls.
#![tactic(auto)]

mod delivery;
mod ending;
mod making;
mod message;
mod misses;
mod pairs;
mod pipes;
mod receiving;
mod route_no;
mod sending;
mod subscribing;
mod tables;
mod uses;

pub use message::Message;
pub use misses::Misses;
pub use route_no::RouteNo;
pub use tables::{BusTables, ItemRow, LastItems};
pub use uses::recall_uses;
