//! Scripts as text: the one spelling in which scripts and their lines are printed, and the
//! generated scripts, one for each number.
//!
//! A sink receives exactly a script's spelling, or a front of it if the sink fails. The spelling
//! reads back as the script, if it is no longer than a text may be.
//!
//! In a generated script four applications make a pipe each, subscribe to two message ids, and then
//! send and receive at random, 250 times. So the bus is busy for long, in runs that a number names
//! and repeats.
//!
//! ```text
//! /// Prints the script of number 0: app G1, create p0 8 P1, sub 0x0801 p0 4 global, and so on, a
//! /// line each.
//! fn print_first<K: Sink>(alloc: Global, sink: &mut K) -> Option<()> {
//!     let script = generate(alloc, 0).ok()?;
//!     print_script(&script, &mut SinkGuard::new(sink)).ok()
//! }
//! ```
//!
//! # Proved
//!
//! - `print_line` puts a line's spelling (`line_text`) on the page. The spelling of every line that
//!   a script can have reads as that line (`printed_lines_read_back`).
//! - `print_script` writes a script's one spelling, or a front of it if the sink fails. If it has
//!   at most 1,048,576 bytes, it reads as that script (clause `reads_back`; for the spelling of
//!   every script that a text can be, `printed_scripts_read_back`).
//! - `generate` answers exactly the script that the definition draws for the number (`generated`),
//!   unless memory runs out. Each is one that a text can be (`IsScript`), with at most 3012 call
//!   lines (`generated_scripts_are_in_range`), and its spelling reads back
//!   (`generated_scripts_read_back`).
//!
//! Tested: five printed lines; the printed texts of five numbers, by their length and a sum, and
//! the first lines of one, against a model that was written apart.
#![tactic(auto)]

mod bus_lines;
mod draws;
mod event_lines;
mod generated_laws;
mod generated_scripts;
mod line_laws;
mod line_printing;
mod memory_lines;
mod script_laws;
mod script_printing;
mod spelled_words;
mod table_lines;

pub use generated_laws::{generated_scripts_are_in_range, generated_scripts_read_back};
pub use generated_scripts::generate;
pub use line_laws::printed_lines_read_back;
pub use line_printing::print_line;
pub use script_laws::printed_scripts_read_back;
pub use script_printing::print_script;
