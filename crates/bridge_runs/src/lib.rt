//! What a run of two buses and a bridge is: histories of both sides by which each message of a
//! route goes from the first bus to the second, once and in order.
//!
//! It has definitions (`specs`) and their laws, and no code. On each side the histories are ones
//! that the services can have, for the script's applications and the bridge, and have each
//! application's calls, each once and in the order of its lines. The bridge comes first on side 1:
//! it creates its pipe there and subscribes it to the routes of the plan. Then it waits on the
//! pipe until it first times out, sends on side 2 what the pipe gave, and ends on both.
//!
//! ```text
//! IsBridged plan one two               // a run of the plan may leave these histories
//! given_by plan.one pipe one.bus       // the messages that the bridge's pipe gave on side 1
//! messages_by bridge two.bus           // the messages that the bridge sent on side 2
//! ```
//!
//! Proved: `bridges_forward`: the messages that the bridge sent on side 2 are those that its pipe
//! gave on side 1, each once and in order, and these are those that the pipe gives alone; they are
//! no more than the sends of side 1, nor than the lines of its script that send, and have no more
//! bytes than these lines are charged for.
//! `bridges_leave_nothing`: behind both histories of both sides nothing is held, and no table is
//! left. `sb_bridge` runs a bridge so.
#![tactic(auto)]

mod laws;

pub use laws::{bridges_forward, bridges_leave_nothing};
