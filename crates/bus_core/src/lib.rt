//! The software bus without a journal (cFE Software Bus): pipes, subscriptions, and messages that
//! reach every pipe subscribed to their id; the memory pools that applications create; and the
//! events and counters, of applications and of the bus itself.
//!
//! Each call answers and changes what the bus of the definitions does by its state alone, with no
//! history. A send's steps grow with the subscriptions of its id alone. Pipes and
//! subscriptions are numbered in 32 bits, messages, buffers and grants in 64; no number is used
//! twice.
//!
//! A message is in one block of the bus's pool for all its receivers, and the block goes back once
//! no pipe names the message. An application reads its pipes' last messages by views in its bag:
//! the calls that let a message go or receive one are given the bag, and leave it with these views
//! and no others.
//!
//! An application may request a buffer, a block in its bag that it writes a message into, and send
//! it without a copy. An unsent buffer goes back to the pool at [`PlainBus::release`], or with its
//! application's last call.
//!
//! The bus counts each call that it refuses. It logs an event for a second subscription, for one
//! that wasn't there, for a message that nobody subscribes to, and for each pipe that misses one or
//! drops its oldest for it. It keeps the peaks of what is in use.
//!
//! ```text
//! /// One application sends itself a packet and reads it.
//! fn one_message<L: Ledger>(
//!     alloc: Global,
//!     region: &mut [u8],
//!     packet: &[u8],
//!     steps: &mut Steps<L>,
//! ) -> Option<()> {
//!     let app = AppNo::try_new(1)?;
//!     let mut core = PlainBus::new(alloc, &Config::usual(), 1, region).ok()?;
//!     let mut bag = core.new_bag(alloc, app, 0).ok()?;      // a view for each pipe, no buffer
//!     let pipe = core.create_pipe(app, 4, b"TLM");          // Ok(1): pipes are numbered from 1
//!     let done = core.subscribe(app, 0x0801, 1, 4, Scope::Global, steps);
//!     let sent = core.transmit(app, packet, true, steps);   // Ok(Sent { number: 1, reached: 1 })
//!     let got = core.receive(app, 1, &mut bag, steps);      // Ok(1): the number of the message
//!     let view = bag.view_of(1);                            // its bytes
//!     Some(())
//! }
//! ```
//!
//! # Proved
//!
//! - Each of the 27 calls, by an application that may make it (`MayAct`: its standing allows it,
//!   and the bounds on names, messages, texts and modes; for `create_pipe` and `subscribe` also
//!   that a number is left: `has_pipe_number`, `has_subscription_number`), answers and leaves what
//!   `act` of `bus_words` says of the state (`Acts`). The five calls that only ask have no
//!   condition. A send with a subscriber is refused with `BufAlocErr` if the pool has no block,
//!   after its other refusals (`transmit_cause`).
//! - No call has a condition on the numbers of sends, buffers and grants. Once the last is given,
//!   each further send and each request for a buffer is refused with `BufAlocErr`, each request for
//!   a grant with `ErrMemBlockSize` (`spent`). A buffer given before can still be sent.
//! - `has_news`: whether a waiting application would be answered if it looked now.
//! - The caller's bag is left with the views of its pipes' last messages, the blocks of its unsent
//!   buffers, and nothing else (`HasBag`; `bag_refused`, `bag_still`, `empty`). The bags of all
//!   others are unchanged (`other_bags`, `bags`), and each call says which loans and descriptors
//!   stay (`loans`, `descs`). If a buffer is the caller's and unsent is read off its bag. `end`
//!   deletes the caller's pipes, gives its unsent buffers and grants back, and empties its bag.
//! - Blocks of unsent buffers may be lent out of the bag, to be written in place elsewhere. The
//!   calls `.._lending` are those that take a bag, but for `end`, while some are: calls of pipes
//!   ask for the views (`HasOwnViews`), those of a buffer for its block (`HasBuffer`), `allocate`
//!   for a bag that has all once the lent blocks are put back. Each leaves a bag that has all then
//!   (`KeepsBag`, `KeepsBagBut`).
//! - The readers `pool`, `desk`, `app_pools`, `app_pool`, `pools`, `events`, `counters`, `in_use`
//!   and `recall_sends` show of the state what those of `sb_calls` show of the journal's.
//!   `recall_loans`: last messages of one send have one loan. The steps are those of `sb_calls`.
//! - Behind this: an application that waits does so on a pipe of its own that has no last message
//!   (`AreReady` of `specs/Inside.antt`).
//!
//! By reading: only [`PlainBus::new`] and [`PlainBus::new_bag`] take memory, and what is in use is
//! read in constant time. Not yet: a bound on the steps of `delete_pipe` and `end`.
//!
//! Tested by `rows_runs` and `test_run`, through `sb_calls`; `bus_example` opens it alone.
#![tactic(auto)]

mod activities;
mod buffers;
mod causes;
mod counters;
mod events;
mod leaving;
mod lending;
mod opening;
mod permits;
mod pipe_ends;
mod pipes;
mod plain;
mod pools;
mod readers;
mod receiving;
mod refused;
mod sending;
mod subscribing;
mod uses;

pub use permits::is_within;
pub use plain::PlainBus;
pub use receiving::Pended;
pub use sending::Sent;
