//! What a run of a script is: the calls of both services that an application's lines make,
//! histories that merge those of all applications, rotation, and the receipts of an application's
//! lines.
//!
//! It has definitions (`specs`) and their laws, and no code. Rotation of any script ends, in
//! histories that a run of the script may leave: the bus and the tables can have them, and they
//! have each application's calls, each once and in the order of its lines. Of any such histories it
//! is proved that each pipe gave what it gives alone, that each send number given was new, that at
//! no time more blocks of the bus's pool were out than were made, or more of its bytes in use than
//! it has, and that nothing is held at the end and no table is left.
//!
//! ```text
//! rotation script                      // the histories that lockstep makes of a script
//! Merges script histories              // each application's calls, each once and in order
//! IsRunOf script histories             // a run of the script may leave these
//! receipts_told script histories 1     // the receipts of application 1
//! ```
//!
//! Proved: `rotations_merge`: rotation ends with no application left, and its two histories merge
//! the script; at their end no pipe is live, no buffer is unsent, no send is held, every block of
//! the bus's pool is back, no handle is live, no table is left and no byte of the tables' pool is
//! in use. `rotations_are_runs`, `runs_guarantee`: rotation is a run, and what follows from one.
//! `last_messages_stay`, `held_receipts_stay`: what an application's receipts show of a pipe's last
//! message, and of what a handle holds, changes by its own calls alone.
#![tactic(auto)]

mod laws;

pub use laws::{
    held_receipts_stay, last_messages_stay, rotations_are_runs, rotations_merge, runs_guarantee,
};
