//! The lines of a script that configure a run, and what its call lines take: readers of the lines
//! `script`, `set`, `sizes`, `seq` and `app`, each from the line behind its first word, and the
//! account of an application's call lines, from which its budget comes.
//!
//! A reader answers just what the words mean, or the line's first fault; an account is just
//! the sum of the lines that were counted.
//!
//! ```
//! /// Reads the rest of a `set` line and gives the limit its value; if it is faulty all stay.
//! fn configure(config: &mut Config, rest: &[u8]) -> Result<(), FaultKind> {
//!     let (name, value) = set(rest)?;
//!     put_limit(config, name, value);
//!     Ok(())
//! }
//! ```
//!
//! Proved: `version`, `set`, `sizes`, `seq` and `app` answer what the words mean, or the line's
//! first fault (`set_of` and its like). `put_limit` changes one limit. An [`Account`] is the sum of
//! its lines: `charge`, `count` and `budget` are exact.
#![tactic(auto)]

mod account;
pub mod settings;

pub use account::Account;
pub use settings::LimitName;
