//! The rows of a software bus as plain lists, for the check of reports: pipes with the messages
//! that wait on them, subscriptions, and the sequence counts of ids.
//!
//! Each call answers and leaves exactly what the definitions of `bus_words` say, for lists of any
//! kind: no order of numbers is asked for, and no place is kept.
//!
//! ```
//! /// Whether an application has a live pipe of this number.
//! fn may_receive(pipes: &[ListPipe], app: AppNo, pipe: u32) -> bool
//!     ensures { result ≡ owns pipes.now app pipe }
//! {
//!     owns(pipes, app, pipe)
//! }
//! ```
//!
//! # Proved
//!
//! - `offer_to` queues and drops by the verdicts of `bus_words`, `take_from` is its receive; the
//!   numbers of the messages that leave are exact and in order (`specs/Leaving.antt`).
//! - `ListSubscriptions`: subscriptions, routed ids and the subscriptions of an id.
//! - `ListNexts`: the next sequence count of each id that has one.
//!
//! Not claimed: what is left if memory runs out; speed. Each look-up goes over its list.
#![tactic(auto)]

mod items;
mod nexts;
mod pipe;
mod pipes;
mod subscriptions;

pub use items::{ListItem, ListSending};
pub use nexts::ListNexts;
pub use pipe::ListPipe;
pub use pipes::{
    has_message, is_live, is_named, leave_others, leave_pipe, number_named, offer_to,
    oldest_number, owns, pipe_at, push_numbers_at, push_numbers_of, set_bits_of, take_from,
};
pub use subscriptions::{ListSubscription, ListSubscriptions};
