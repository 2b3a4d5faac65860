//! The call lines of a script, one enum variant a form, and the readers of single lines.
//! A line names its registers by number, owns its texts, and has each word that was left out as its
//! default.
//!
//! A reader answers just the line that the words mean, or the line's first fault; and each
//! number, register, name and text of a line that is read is in its range.
//!
//! ```
//! /// The call line of a text; None if it is none.
//! fn line_of(alloc: Global, text: &[u8]) -> Option<Line> {
//!     match first_word(text) {
//!         None => None,
//!         Some((first, rest)) => match call_word(first) {
//!             None => None,
//!             Some(first) => call_line(alloc, first, rest).ok(),
//!         },
//!     }
//! }
//! ```
//!
//! Proved: `call_word`, `call_line`: a line is read if and only if its words are those of a call
//! line (`call_line_of`), and then as that line; otherwise the answer is its first fault, unless
//! memory runs out. `table_file`: the line of a table file is read as two call lines if and only if
//! its words are those of one, with an image that a script can load (`tfile_of`).
//! `read_lines_are_readable`, `read_files_are_readable`: each line that is read is one that a
//! script can have, all within its ranges (`is_readable`).
//!
//! Tested: a `Line` takes at most 64 bytes; one line read.
#![tactic(auto)]

mod bus_lines;
mod call_lines;
mod event_lines;
mod file_lines;
mod laws;
mod line;
mod memory_lines;
mod table_lines;

pub use bus_lines::BusWord;
pub use call_lines::{CallWord, call_line, call_word};
pub use event_lines::EventWord;
pub use file_lines::table_file;
pub use laws::{read_files_are_readable, read_lines_are_readable};
pub use line::{BoxedRules, Line};
pub use memory_lines::MemoryWord;
pub use script_words::numbers::REGISTERS;
pub use script_words::{ByteText, Content};
pub use table_lines::TableWord;
pub use tbl_rules::{MAX_RULES, Rule, RuleList};
