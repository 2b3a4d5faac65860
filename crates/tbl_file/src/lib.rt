//! Table image files in a profile of the form of cFE's: the header of every cFE file
//! (`CFE_FS_Header`), the header of a table file (`CFE_TBL_File_Hdr`), and the bytes that are
//! loaded into the table.
//!
//! A file is read if and only if it is an image, and then each field is the file's; else its first
//! fault is told. What is written is an image with the fields that were given. By the code, no call
//! takes memory.
//!
//! ```text
//! /// If in its table an image is loaded, and what; None for an image of another table.
//! fn load_of<'a>(file: &'a [u8], table: &[u8]) -> Result<Option<(u32, &'a [u8])>, ImageFault>
//!     requires { length file.now < 2 ^ 32 }
//! {
//!     let image = read_image(file)?;              // or why the file is none
//!     if image.name != table {                    // a name such as b"A.T"
//!         return Ok(None);
//!     }
//!     Ok(Some((image.offset, image.bytes)))
//! }
//! ```
#![tactic(auto)]

mod image;
mod laws;
mod reading;
mod writing;

pub use image::{FILE_HEADER_BYTES, HEADER_BYTES, Image, ImageFault};
pub use laws::images_have_no_fault;
pub use reading::{is_table_name, read_image};
pub use writing::write_image;
