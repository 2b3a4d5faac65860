//! The queue of one pipe of a software bus, and the item that was received last from it.
//!
//! Contracts see a list with a depth, and a last item; each call does just what that list says. By
//! the code, none but `new` takes memory.
//!
//! ```
//! /// Of three items two fit, and the older one comes out.
//! fn older_of_two(queue: &mut PipeQueue, first: Item, second: Item, third: Item) -> Option<Item>
//!     requires { queue.old ≡ record { room = 2; depth = 0; queue = []; last = None } }
//!     ensures item { result ≡ Some first }
//!     ensures left {
//!         queue.new ≡ record { room = 2; depth = 2; queue = second ∷ []; last = None } }
//! {
//!     queue.start(2);
//!     let _ = queue.try_put(first);
//!     let _ = queue.try_put(second);
//!     let _ = queue.try_put(third);
//!     queue.take_front()
//! }
//! ```
//!
//! Proved: a list with a depth and a last item. `try_put` is refused if and only if as many wait as
//! the depth, and otherwise puts the item last; `take_front`, `front` and `set_last` are exact.
//! Tested: it can be opened; three items at depth 2.
#![tactic(auto)]

mod item;
mod pipe_queue;

pub use item::{Full, Item};
pub use pipe_queue::PipeQueue;
