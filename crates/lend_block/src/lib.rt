//! A block of bytes that many receivers read while nobody copies it.
//!
//! The owner of a block seals it, which begins a loan of its first bytes. Each receiver gets a view
//! of these bytes, in any thread. Once every view is back, the block is open for writing again. The
//! bytes of a view are the sealed ones as long as the view exists, and no call takes memory, copies
//! a byte or refuses.
//!
//! ```text
//! pub fn hand_out(block: &mut [u8]) -> u8
//!     requires not_empty { 1 ≤ length block.old }
//!     ensures first { result ≡ slice_index block.old 0 }
//! {
//!     let mut root = Root::seal(block, 1);
//!     let view = root.view();
//!     let first = view.bytes()[0];
//!     root.give_back(view);
//!     let open_again = root.reopen();
//!     open_again[0] = 0;
//!     first
//! }
//! ```
//!
//! Proved: a view shows the sealed bytes; a block is open again only if no view is out, and then it
//! is the same borrow with its bytes; a root and its views have one name, and two roots that exist
//! at once have different ones (`Root::tell_apart`). Views may go to other threads. All raw
//! pointers are in `src/part.rt`: seven small functions, each with a proof by hand, and one for a
//! name.
//!
//! Tested: two threads that share views read the right bytes. Not claimed: that a view comes back.
#![tactic(auto)]

mod name;
mod note;
mod part;
mod root;
mod view;

pub use name::LoanName;
pub use note::Note;
pub use root::Root;
pub use view::View;
