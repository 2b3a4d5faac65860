//! The live pipes of the software bus (cFE Software Bus, pipe table). Each is in a place of its
//! own, is reached there with no search, and is found by its number among the live ones alone.
//! Numbers are 1, 2, 3 and so on in order of creation, none is used again, and nothing is kept of a
//! deleted pipe.
//!
//! Contracts see the pipes as a list in order of number, of which each call changes the one named
//! and leaves the others, and beside it the place of each.
//!
//! ```
//! /// A message queued on a new pipe is the one received last, once it was taken.
//! fn last_received(pipes: &mut PipeTable, name: &PipeText, app: AppNo, item: Item) -> Option<Item>
//!     requires { pipes.old ≡ record { live = []; places = []; created = 0; room = 1; depth = 4 } }
//!     ensures { result ≡ Some item }
//! {
//!     let pipe = pipes.create(name, app, 4);
//!     let _ = pipes.offer(pipe, app, false, item);
//!     pipes.take(pipe.number);
//!     pipes.last(pipe.number)
//! }
//! ```
//!
//! # Proved
//!
//! - `create` puts a pipe last, numbered one more than were created; `remove` takes out that one;
//!   `set_bits`, the `take` calls and `offer` change that one. The readers answer
//!   the pipe of a number, and none if it isn't live.
//! - `offer` answers the bus's own verdict (`verdict_over` of `bus_words`), the first that applies:
//!   Skip if the pipe ignores its owner's messages and the owner sent, OverLimit if the caller says
//!   that the limit is reached, In if fewer messages wait than the pipe's depth, Oldest if the pipe
//!   has option bit 0x02, otherwise Full. At In and Oldest the message waits last; at Oldest the
//!   one that waited longest leaves and is answered.
//! - `take` makes the oldest the last received, and answers that one and the one before;
//!   `take_if_owned` does so for the pipe's owner alone; `take_front` and `take_last` take the
//!   oldest or the last out.
//!
//! By reading: `offer` looks once at one place; a look-up by number looks first at the place of the
//! number less 1, then by halves; only `new` takes memory.
//!
//! Tested: it can be opened; one message queued and taken.
#![tactic(auto)]

mod offered;
mod pipe_no;
mod place;
mod table;

pub use offered::OfferOutcome;
pub use pipe_no::PipeNo;
pub use table::PipeTable;
