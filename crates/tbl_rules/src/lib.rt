//! Validation rules of a table: what is asked of single bytes of its value.
//!
//! A rule names a byte, and the least and the greatest value that it may have. A list has at most
//! eight rules, in the order in which they are tried.
//!
//! ```
//! /// One rule: the first byte is from 1 to 9.
//! fn one_rule() -> RuleList
//!     ensures { result ≡ record { offset = 0; low = 1; high = 9 } ∷ [] }
//! {
//!     let mut rules = RuleList::new();
//!     rules.push(Rule { offset: 0, low: 1, high: 9 });
//!     rules
//! }
//! ```
//!
//! # Proved
//!
//! - `RuleList` has at most eight rules, in order.
//!
//! `specs/Rules.antt` defines which rule no table of a size can have (`is_misfit`), and which one a
//! value fails first (`failed_rule`).
#![tactic(auto)]

mod rules;

pub use rules::{MAX_RULES, Rule, RuleList};
