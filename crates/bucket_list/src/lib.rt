//! Lists of numbered nodes, linked by index.
//!
//! A memory pool keeps its free blocks in such lists: it takes one from the front of a list and
//! puts it back there, with no search and, by the code, no memory taken. Each call acts on the
//! front of one list and leaves the others, no node is ever in two lists, and a call takes at most
//! four steps.
//!
//! ```
//! /// Two nodes go onto a list, and the newer one comes back, in at most 12 steps.
//! fn newest<L: Ledger>(lists: &mut Lists, steps: &mut Steps<L>) -> Option<u32>
//!     requires { lists.old ≡ record { room = 2; nodes = 0; lists = [] ∷ [] } }
//!     ensures node { result ≡ Some 1 }
//!     ensures cost { steps.new ≤ steps.old + 12 }
//! {
//!     let older = lists.add_node();
//!     let newer = lists.add_node();
//!     lists.push(0, older, steps);
//!     lists.push(0, newer, steps);
//!     lists.pop(0, steps)
//! }
//! ```
//!
//! # Proved
//!
//! - Each list is its node numbers. `push` and `pop` change the front of one list and leave the
//!   others. No node is in two lists or twice in one, and each node in a list exists
//!   (`recall_apart`).
//! - At most 4 steps a call, by the count of `step_count`.
//!
//! By reading: no link is read uncounted, since `Links` alone reads links.
//!
//! Tested: a small run.
#![tactic(auto)]

mod links;
mod lists;

pub use links::Links;
pub use lists::Lists;
pub use step_count::Steps;
