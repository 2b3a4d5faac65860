//! The script language: what up to sixteen applications do with the message core, as a text of
//! lines. A script is read whole before anything runs, and a fault is reported with its line.
//!
//! A text is read exactly if it is a script, and then as that script; otherwise the answer is its
//! first fault. A text is a script exactly if its lines, without the skipped ones, are a script's
//! in their order, ranges and numbers.
//!
//! ```text
//! /// Reads a script of two call lines.
//! fn read_one(alloc: Global) -> Option<()> {
//!     let script = read_script(alloc, b"app A\ncreate p0 4 TLM\nrecv p0\n").ok()?;
//!     let app = AppNo::try_new(1).unwrap();
//!     let lines = script.lines(app);                   // 2
//!     let second = script.line(app, 1);                // Line::Receive { pipe: 0 }
//!     let entries = script.budget(app).entries;        // 3: one a call line, and one for the end
//!     Some(())
//! }
//! ```
//!
//! # Proved
//!
//! - `read_script` (`grammar`), unless memory runs out. The first fault is that the text is too
//!   long, or the first fault of the first faulty line, or that there is no application; the first
//!   and the last have line 0.
//! - `texts_are_scripts`, in both directions: perhaps a `script` line, configuration with each
//!   setting once, and 1 to 16 applications with their call lines (`IsText`).
//!   A script of version 2 may have table files: the line of one counts as two call lines.
//! - Every `Script` keeps its ranges (`IsScript`, `IsInRange`; `recall_ranges`), and so does all
//!   that the grammar gives (`read_scripts_are_in_range`). `Script::new` and `App::of_lines` make a
//!   script of parts, for a caller who proves the ranges.
//! - `Reading` reads a script line by line, for a text of which the script is a part: each line
//!   leaves what the grammar says (`after_line`), or its first fault.
//!
//! Tested: a script, and one with a fault; many more by `rows_runs`.
#![tactic(auto)]

mod app;
mod fail;
mod forms;
mod laws;
mod reading;
mod script;

pub use app::App;
pub use fail::ReadFail;
pub use forms::Form;
pub use laws::{read_scripts_are_in_range, texts_are_scripts};
pub use reading::Reading;
pub use script::{Script, read_script};
pub use script_lines::{BoxedRules, ByteText, Content, Line, MAX_RULES, Rule, RuleList};
