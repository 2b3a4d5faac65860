//! Calls and entries as histories have them, with their bytes as whole lists. The definitions of
//! the bus speak of these types, and so do the histories that a lock keeps. No value of them is
//! made.

use crate::calls::BusAnswer;
use fsw_base::{AppNo, EventKind, FilterList, Scope};
use std::collections::LinkedList;

/// A call of the software bus with its bytes.
pub enum Call {
    /// Makes a pipe.
    Create {
        /// How many messages it holds at most.
        depth: u32,
        /// Its name.
        name: LinkedList<u8>,
    },
    /// Ends a pipe.
    Delete {
        /// The pipe's number.
        pipe: u32,
    },
    /// Sets a pipe's option bits.
    SetOpts {
        /// The pipe's number.
        pipe: u32,
        /// The option bits: 0x01 and, in version 2, 0x02, added up; others are refused.
        bits: u8,
    },
    /// Asks for a pipe's option bits.
    GetOpts {
        /// The pipe's number.
        pipe: u32,
    },
    /// Finds a pipe by its name.
    Find {
        /// The name looked for.
        name: LinkedList<u8>,
    },
    /// Asks for a pipe's name.
    PipeName {
        /// The pipe's number.
        pipe: u32,
    },
    /// Subscribes a pipe to a message id.
    Subscribe {
        /// The message id.
        id: u16,
        /// The pipe's number.
        pipe: u32,
        /// How many messages of the subscription may wait at once.
        limit: u32,
        /// Global or local; kept, with no other effect.
        scope: Scope,
    },
    /// Ends a pipe's subscription to a message id.
    Unsubscribe {
        /// The message id.
        id: u16,
        /// The pipe's number.
        pipe: u32,
    },
    /// Sends a message.
    Transmit {
        /// The packet, with its header.
        bytes: LinkedList<u8>,
        /// Whether it gets the id's next sequence count.
        inc: bool,
    },
    /// Receives on a pipe.
    Receive {
        /// The pipe's number.
        pipe: u32,
    },
    /// Receives on a pipe, or waits.
    Pend {
        /// The pipe's number.
        pipe: u32,
    },
    /// Looks again, while waiting on a pipe.
    Look {
        /// The pipe's number.
        pipe: u32,
    },
    /// Asks for a buffer to write a message into.
    Allocate {
        /// How many bytes it is to have.
        size: u32,
    },
    /// Sends the message that a buffer begins with.
    TransmitBuffer {
        /// The buffer's number.
        buf: u32,
        /// All bytes of the buffer; none if the application has no such buffer.
        bytes: LinkedList<u8>,
        /// Whether the message gets its id's next sequence count.
        inc: bool,
    },
    /// Gives a buffer back unsent.
    Release {
        /// The buffer's number.
        buf: u32,
    },
    /// Creates a memory pool of applications.
    PoolCreate {
        /// Its bytes.
        bytes: u32,
    },
    /// Asks for a grant of a pool's block.
    PoolGet {
        /// The pool's number.
        pool: u32,
        /// How many bytes the block must have at least.
        size: u32,
    },
    /// Gives a grant back, whichever application it was given to.
    PoolPut {
        /// The pool's number.
        pool: u32,
        /// The grant's number.
        grant: u32,
    },
    /// Asks for a pool's figures.
    PoolFigures {
        /// The pool's number.
        pool: u32,
    },
    /// Registers the application with the event services, with these filters in place of any
    /// that it had (`CFE_EVS_Register`).
    Register {
        /// The filters: up to 8 event ids, each with its mask.
        filters: FilterList,
    },
    /// Sends an event.
    SendEvent {
        /// The event's id.
        id: u16,
        /// What it tells of.
        kind: EventKind,
        /// Its text.
        text: LinkedList<u8>,
    },
    /// Has the application's filter for an event id count from 0 again.
    ResetFilter {
        /// The event's id.
        id: u16,
    },
    /// Sets what a full event log drops.
    LogMode {
        /// 0: the oldest event; 1: the new one.
        mode: u8,
    },
    /// Empties the event log.
    ClearLog,
    /// Sends the housekeeping packet.
    Housekeeping,
    /// Asks for the figures of the bus.
    Figures,
    /// Ends the application.
    End,
}

/// One call with its answer.
pub struct Entry {
    /// Who called.
    pub app: AppNo,
    /// The call.
    pub call: Call,
    /// What it was answered.
    pub answer: BusAnswer,
}
