//! The pipes of a software bus with their messages in buffers of the memory pool. A message is in
//! one block for all its receivers: each item that names it is one use of the block, and a receiver
//! reads a view of it. An application may also get a block as a buffer and write a message into it:
//! sent, the message keeps the block with nothing copied; given back, the block is the pool's
//! again.
//!
//! Contracts see pipes with copies of their messages. Each call does what the definitions of the
//! bus say of copies, a block goes back exactly when no pipe names its send any more, and each
//! application's bag has the views of its pipes' last messages, the blocks of its unsent buffers,
//! and no others.
//!
//! ```text
//!   pipe 1 (application 1)  [ send 5 | send 6 ]  last: send 4 --- view ---.
//!   pipe 2 (application 2)  [ send 6 ]           last: send 5 --- view -. |
//!                                                                       | |
//!   blocks                  send 4: 1 use, 1 view <---------------------|-'
//!                           send 5: 2 uses, 1 view <--------------------'
//!                           send 6: 2 uses, no view
//! ```
//!
//! ```text
//! /// How many bytes the next message of the application's pipe has; 0 if none waits.
//! fn next_length<'r, L: Ledger>(
//!     store: &mut BusStore<'r>,
//!     app: AppNo,
//!     pipe: u32,
//!     held: &mut Held<'r>,
//!     steps: &mut Steps<L>,
//! ) -> usize
//!     requires own { owns store.old.pipes app pipe ≡ true }
//!     requires bag { HoldsViews store.old.pipes store.old.loans store.old.room.pipes app
//!         held.old }
//!     ensures { HoldsViews store.new.pipes store.new.loans store.new.room.pipes app held.new }
//! {
//!     store.receive(app, pipe, held, steps);
//!     match held.view_of(pipe) {
//!         Some(view) => view.bytes().len(),
//!         None => 0,
//!     }
//! }
//! ```
//!
//! # Proved
//!
//! - `send` queues the message as `deliver` of the definitions does, under the next number and with
//!   the id's next count if asked, leaves the pipes that missed it or dropped a message for it, and
//!   draws one block; at most 4 counted steps for each subscription of the id, 8 for each dropped
//!   message, and 32 more. `receive` leaves the pipe as `after_receive` does and exchanges the view
//!   in the bag; no more blocks are held then; at most 8 steps. `receive_first` does so on a pipe
//!   without a last message, and takes none. `delete_pipe` lets go of all messages of a pipe.
//! - `allocate` gives a buffer of zeros under the next number, `transmit_buffer` sends the message
//!   that a buffer begins with and draws no block, `release` gives a buffer back; at most 16 steps,
//!   4 for each subscription, 8 for each dropped message and 32 more, and 16. `release_all` gives
//!   back all of an application's, at most 16 for each and 16 more.
//! - If a bag has what is due to its application and nothing else, it has so after each call
//!   (`HoldsViews`, `HoldsBuffers`; clauses `bag`, `bags`, `other_bags`). Blocks may be lent out of
//!   the bag: `transmit_buffer` and `release` ask for the buffer's own block there, `allocate` for
//!   what is due once all are put back, and the bag has what is due once they are put back.
//!   `receivers_share_views`: two applications whose pipes received one send last have the same
//!   view of it, by the same loan.
//! - As many blocks of each size are out as numbers are held whose block has that size, and nothing
//!   else of the account changes but what a draw counts (`with_held`). `desk` shows the blocks: one
//!   for each number that is held and no others, sealed with the send's message, with as many uses
//!   as pipes name it, as many views as pipes received it last, and their loan; every other is an
//!   unsent buffer's (`AreBlocks`). `pool` has the shown account, and its bytes in use are those of
//!   the blocks held (clause `in_use`). `sends_held` counts the numbers held, and `bytes_in_use`
//!   the bytes of their blocks.
//! - `recall_held`, `recall_loans`, `recall_sends`, `recall_order`: the same of any store, one loan
//!   for one send, numbers of sends, pipes in order of number.
//!
//! By reading: a send writes each byte once but for the two of the count; a transmitted buffer's
//! message stays in its block; only `new` takes memory.
//!
//! Tested by what is built on it: `rows_runs`, `bus_example`, `test_run`.
//! Not yet: a bound on the steps of `delete_pipe`.
#![tactic(auto)]

mod blocks;
mod buffers;
mod held;
mod pipes;
mod receiving;
mod sending;
mod store;
mod subscribing;

pub use buffers::recall_written;
pub use held::receivers_share_views;
pub use sending::Sent;
pub use store::BusStore;
