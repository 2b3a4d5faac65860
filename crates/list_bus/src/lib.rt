//! The software bus as a machine of plain lists, for the check of reports: pipes, subscriptions,
//! buffers, memory pools, the event desk and the counters. It has no blocks, no registry and no
//! links, and keeps no history. The event desk (`evs_events`) and the counters (`housekeeping`) are
//! those of the bus itself.
//!
//! A call answers and leaves exactly what the machine of `bus_words` says (`act`).
//!
//! ```
//! /// Ends an application.
//! fn ended(bus: &mut ListBus, alloc: Global, app: AppNo) -> Result<BusAnswer, AllocError>
//!     requires { IsPlayed bus.old }
//!     ensures { IfOk result (λ answer. Plays bus.old bus.new app End answer) }
//! {
//!     bus.step(alloc, app, &BusCall::End)
//! }
//! ```
//!
//! # Proved
//!
//! - `new` is the bus before the first call, and `step` the machine's step, of every call with a
//!   message of fewer than 2^32 bytes and a mode of 0 or 1 (`is_playable`), in any state whose send
//!   numbers are named as its pipes and buffers name them (`IsPlayed`), which each step keeps.
//! - The readers are those of the state.
//!
//! The code goes the way of the definition: why the call is refused, what it answers and changes,
//! its events, what is counted, and the next sequence counts.
//!
//! Not claimed: what is left if memory runs out, or if a number of 32 bits is spent; speed. A
//! call goes over the pipes and the subscriptions, a send over the pipes for each destination.
#![tactic(auto)]

mod bus;
mod causes;
mod decisions;
mod event_calls;
mod pipe_calls;
mod pool_calls;
mod readers;
mod receives;
mod records;
mod sends;
mod standings;

pub use bus::ListBus;
pub use standings::ListStanding;
