//! A count of the steps that calls take. It exists in contracts alone: at run time it takes no
//! bytes and no time.
//!
//! A call that takes `steps: &mut Steps<L>` says in its contract how far it moves the number. Only
//! `tick` moves it, by one, and it can't be set back or copied.
//!
//! ```
//! /// Two steps, counted.
//! fn two_steps<L: Ledger>(steps: &mut Steps<L>)
//!     ensures { steps.new ≡ steps.old + 2 }
//! {
//!     steps.tick();
//!     steps.tick();
//! }
//! ```
//!
//! # Proved
//!
//! - `tick` counts one step, and a new count has none.
//!
//! By reading: what a step is. A crate says so by the places in which it calls `tick`.
#![tactic(auto)]

mod steps;

pub use std::sync::ledger::{Blank, Ledger};
pub use steps::Steps;
