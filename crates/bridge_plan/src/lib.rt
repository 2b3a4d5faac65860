//! The plan of two buses and a bridge: which messages go from the first bus to the second, and what
//! the applications of each do, as a text of up to 16 routes and two scripts.
//!
//! A text is read exactly if it is a plan, and then as that plan; otherwise the answer is its first
//! fault, whose line is numbered in the whole text.
//!
//! ```text
//! /// Reads a plan by which messages of id 0x0801 go over the bridge.
//! fn read_one(alloc: Global) -> Option<()> {
//!     let text = b"route 0x0801 4\n---\napp A\nsend 0x0801 8 16\n---\napp B\nhk\n";
//!     let plan = read_plan(alloc, text).ok()?;
//!     let (id, limit) = plan.route(0);                 // 0x0801 and 4
//!     let sender = plan.script(1);                     // one application, A
//!     let bridge = plan.bridge(1).get();               // 2: it comes after the script's last
//!     let entries = plan.budget_on_one().entries;      // 7: one line sends, and one route
//!     Some(())
//! }
//! ```
//!
//! # Proved
//!
//! - `read_plan` (`plan_of`), unless memory runs out. The first fault is that the text is too long,
//!   or that it has fewer than two lines `---`, or the first fault of the first faulty line, or
//!   that a script has no application; all but that of a line have line 0.
//! - Every `BridgePlan` keeps its ranges (`IsPlan`; `recall_ranges`): at most 16 routes, each of
//!   another message id, and two scripts with at most 15 applications each.
//! - `budget_on_one` and `budget_on_two` are what the bridge may add on each side (`sends_of`), and
//!   `gate_number` is what a gate calls an application.
//!
//! Tested: a plan, and the faults of the whole; 524 texts, against a model.
#![tactic(auto)]

mod budgets;
mod fail;
mod numbers;
mod parts;
mod plan;
mod reading;
mod routes;

pub use fail::{PlanFail, PlanFault};
pub use numbers::gate_number;
pub use plan::BridgePlan;
pub use reading::{MAX_PLAN_BYTES, read_plan};
pub use routes::{MAX_ROUTES, Route};
