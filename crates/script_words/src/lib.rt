//! The words of a script: how a text falls into lines and a line into words, how many words a line
//! has, and what a word spells: a number, a register, a name, a mode, bytes.
//!
//! Each reader answers exactly what the definition of its name says, or just the fault that it
//! names.
//!
//! ```
//! /// The pipe's register that a line names behind its first word, p0 to p63, and nothing else.
//! fn pipe_alone(rest: &[u8]) -> Result<u32, FaultKind>
//!     ensures { Reads (λ n. n) result (one (words_of rest.now) >>= pipe_of) }
//! {
//!     let word = one(rest)?;
//!     pipe(word)
//! }
//! ```
//!
//! Proved: `first_line` and `first_word` cut a text into its lines and a line into its words.
//! `are_plain` answers if each byte is text or a line feed, and then each line is text. Each reader
//! of words answers what the definition of its name says, or the fault that it names, unless memory
//! runs out.
#![tactic(auto)]

mod content;
pub mod counts;
mod fail;
pub mod numbers;
pub mod text;
pub mod words;

pub use content::{ByteText, Content};
pub use fail::LineFail;
