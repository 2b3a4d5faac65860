//! What the words `image` and `pack` of the program write: the line on a table image, the line of
//! its fault, and the image of a table's bytes.
//!
//! ```text
//! /// Packs a table of one byte: a name, an offset and a sub go into the headers.
//! fn pack_one(byte: u8, file: &mut [u8])
//!     requires { length file.old ≡ 117 }
//! {
//!     let head = Head { name: b"A.T", offset: 0, sub: 8 };
//!     fill_packed(&head, &[byte], file);
//! }
//! ```
//!
//! # Proved
//!
//! - `fill_packed` fills a file with the image of these bytes (`packed_file`).
//! - `write_image_line` and `write_image_fault` write exactly the definition's text, or a front of
//!   it if the sink fails (`image_text`, `image_fault_text`).
#![tactic(auto)]

mod lines;
mod packing;

pub use lines::{write_image_fault, write_image_line};
pub use packing::{Head, fill_packed};
