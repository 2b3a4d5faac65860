//! The calls of the software bus (cFE Software Bus): pipes, subscriptions, messages that reach
//! every pipe subscribed to their id, and buffers that are sent without a copy; the memory pools
//! that applications create; and the events of applications and of the bus itself, with what it
//! counts. Each call is that of the bus without a journal, and one entry of a journal: the call
//! with its answer. A note beside the entry has the loan of the view that the call gave, or the
//! descriptor of the buffer.
//!
//! Each call answers and changes what the bus of the definitions does after the journal's history.
//! A pipe gives what that pipe alone gives. An application's bag has, after each call, the views of
//! its pipes' last messages and its unsent buffers. The event desk, the counters and the peaks are
//! those of the journal. The steps of a send grow with the subscriptions of its id alone.
//!
//! ```text
//! /// One application sends itself a packet, then a buffer, and logs an event.
//! fn one_application<L: Ledger>(
//!     alloc: Global,
//!     region: &mut [u8],
//!     packet: &[u8],
//!     filters: &FilterList,
//!     steps: &mut Steps<L>,
//! ) -> Option<()> {
//!     let app = AppNo::try_new(1)?;
//!     let budgets = [Budget { entries: 16, bytes: 1000, buffers: 4 }];
//!     let mut core = BusCore::new(alloc, &Config::usual(), &budgets, region).ok()?;
//!     let mut bag = Held::new(alloc, 64, 4).ok()?; // room for a view of each pipe, 4 buffers
//!     let pipe = core.create_pipe(app, 4, b"TLM");          // Ok(1): pipes are numbered from 1
//!     let done = core.subscribe(app, 0x0801, 1, 4, Scope::Global, steps);
//!     let sent = core.transmit(app, packet, true, steps);   // Ok(Sent { number: 1, reached: 1 })
//!     let got = core.receive(app, 1, &mut bag, steps);      // Ok(1): the number of the message
//!     let view = bag.view_of(1);                            // the message is read by it
//!     let given = core.allocate(app, 64, &mut bag, steps);  // Ok(2): buffer 2, zeros in the bag
//!     let bytes = bag.buffer_mut(2);                        // Some: a message is written here
//!     let passed = core.transmit_buffer(app, 2, true, &mut bag, steps);
//!     core.evs_register(app, filters);                      // from now on it may send events
//!     let logged = core.send_event(app, 7, EventKind::Error, b"LOW BUS"); // Ok(())
//!     let line = core.events().log_at(0);                   // event 7 of the application
//!     Some(())
//! }
//! ```
//!
//! # Proved
//!
//! - Each call, by an application that may make it (`MayCall`: its standing allows it, it has an
//!   entry and the call's bytes left, a name has at most 64 bytes, a message 65542, an event's text
//!   200, and a log's mode is 0 or 1), answers and leaves what the machine's `step` says, and adds
//!   its own entry and note alone (`Does`). `look` does so if it finds a message or a time-out, and
//!   otherwise changes nothing (`Looks`); on an empty pipe it times out if and only if every other
//!   application has ended or waits on an empty pipe. `may_make` tests a call's condition, but for
//!   those on the bag.
//! - The calls that receive, let go, or take a buffer are given the caller's bag. It has a view of
//!   the last message of each of its pipes, the blocks of its unsent buffers, and nothing else,
//!   after a refused call too, and its room is unchanged (`HasBag`; clauses `bag`, `buffers`,
//!   `views`); after `end` it is empty (`empty`). A refused call of buffers and a call on another's
//!   pipe leave the whole bag (`bag_refused`), and so does a look that answers Pending
//!   (`bag_still`). A receive that finds no message takes the pipe's view away. A buffer that was
//!   given is zeros (`zeros`), and its transmission's entry has all its bytes.
//! - The bags of all others are unchanged at each call (`other_bags`, `bags`). `bags_stay`: a new
//!   bag is any application's on a new bus (`opens`); a bag shows the bytes of these messages and
//!   of no other pipe, behind any entries of others that have their notes (`CalledByOthers`;
//!   clauses `called`, `further`), whatever is written into its buffers.
//! - A message that `receive`, `pend` or `look` gives is what the bag then shows of the pipe, and
//!   the newest that this pipe alone gives (`alone`).
//! - The note of an entry that gave a message has the loan of the view, that of one that gave a
//!   buffer the descriptor of its block; every other note is nothing (`IsNoted`). Pipes whose last
//!   messages are of one send were given views of one loan (clause `loans` of `journal`).
//! - `pool` shows the bus's pool: as many blocks of each size are out as numbers are held whose
//!   block has that size (`account_of`), and its bytes in use are those of these blocks (`in_use`).
//!   `desk` shows the blocks, one for each number held and no others, lent by the loans that were
//!   noted (`AreBlocks` of `bus_messages`). `recall_sends`: each item has one of the send numbers
//!   given, and two of one number have one message. `app_pools`, `app_pool` and `pools` show the
//!   pools of applications.
//! - `has_news`: whether a waiting application would be answered if it looked now.
//!   `version_1_drops_nothing`: on a bus of version 1 a full pipe keeps its messages.
//! - `events` and `counters` are those of the machine's state and of the journal (clauses `told`:
//!   `desk_after`, `statistics_after`). None of `in_use` is above its peak (`peaks`).
//! - Steps (`cost`): a send, of bytes, of a buffer or of the housekeeping packet, takes at most 4
//!   for each subscription of its id, 8 for each message that a full pipe drops, and 32 more;
//!   `receive`, `pend`, `allocate` and `release` at most 32; `subscribe` 2 for each and 10 more;
//!   `unsubscribe` 3 for each and 10 more; `pool_get` and `pool_put` 8; `look` none.
//!
//! By reading: only [`BusCore::new`] takes memory. Not claimed: the steps of `delete_pipe` and
//! `end`, which let each waiting message go.
//!
//! Tested by `rows_runs` and `test_run`.
#![tactic(auto)]

mod answers;
mod buffers;
mod counters;
mod events;
mod journalled;
mod laws;
mod leaving;
mod noted;
mod opening;
mod permits;
mod pipes;
mod pools;
mod receiving;
mod results;
mod sending;
mod short;
mod subscribing;

pub use journalled::BusCore;
pub use laws::{bags_stay, version_1_drops_nothing};
pub use results::{Pended, Sent};
