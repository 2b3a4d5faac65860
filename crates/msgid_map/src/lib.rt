//! A finite map from message ids to routes, for ids 1 to 0x1FFF (CCSDS 133.0-B, 4.1.3).
//!
//! The Software Bus finds in it the route of a message that is sent. A look-up answers what was
//! inserted for this id, and None exactly if nothing was. Routes are numbered in order of
//! insertion, so that two bytes hold one. By the code, a look-up reads the id's two bytes alone; no
//! call but `new` takes memory.
//!
//! ```
//! /// Two ids get a route each; one of them is looked up, and one that has none.
//! fn two_routes(map: &mut IdMap) -> (Option<u32>, Option<u32>)
//!     requires none { map.old.routes ≡ empty }
//!     requires first { map.old.count ≡ 0 }
//!     requires room { map.old.room ≡ 2 }
//!     ensures { result ≡ (Some 1, None) }
//! {
//!     map.insert(0x0801, 0);
//!     map.insert(0x1802, 1);
//!     (map.get(0x1802), map.get(0x0802))
//! }
//! ```
//!
//! Proved: `get` answers what `insert` gave an id, and none if and only if nothing was inserted;
//! `insert` leaves all other ids. Tested: two ids and a third.
#![tactic(auto)]

mod map;

pub use map::{IdMap, MAX_ID};
