//! What a seat knows.
use std::collections::LinkedList;

/// What a seat knows of the lock's value. It is of the proof alone: no value of it is made.
pub struct View<F, E> {
    /// The fixed part of the value; None once the seat is spent.
    pub fixed: Option<F>,
    /// The history that the seat has seen.
    pub seen: LinkedList<(u32, E)>,
    /// The seat's application; 0 for the main seat, which has none.
    pub app: u32,
    /// The entries that the seat made, in order.
    pub mine: LinkedList<(u32, E)>,
    /// Where the seat stands in a turn.
    pub stage: Stage,
    /// Whether the value noted sleepers at the seat's last entry.
    pub noted: bool,
    /// How often the bell had rung when the seat heard it in its turn, or in its last one, which it
    /// left to sleep; None if it didn't hear it there.
    pub heard: Option<u64>,
    /// Of the main seat: the applications that were split off.
    pub apps: LinkedList<u32>,
    /// Of the main seat: the applications whose seats were joined, each with its entries.
    pub ended: LinkedList<(u32, LinkedList<(u32, E)>)>,
    /// Of the main seat: what the seat that was joined last had seen.
    pub joined: LinkedList<(u32, E)>,
}

/// Where a seat stands in a turn.
pub enum Stage {
    /// It is the main seat, which takes no turns.
    Main,
    /// It has no turn.
    Away,
    /// It has a turn, and the value is out with it.
    Has,
    /// It left a turn in which it took the sleepers from the value, and has yet to ring.
    Owes,
    /// It was joined to the main seat.
    Spent,
}
