//! Calls and entries as histories have them, with their bytes as whole lists. The definitions of
//! the tables speak of these types, and so do the histories that a lock keeps. No value of them is
//! made.

use crate::calls::TblAnswer;
use fsw_base::AppNo;
use std::collections::LinkedList;
use tbl_rules::RuleList;

/// A call of Table Services with its bytes.
pub enum Call {
    /// Registers a table.
    Register {
        /// Its name.
        name: LinkedList<u8>,
        /// Its bytes.
        size: u32,
        /// 0 single buffered, 1 double buffered, 2 single buffered and dump only.
        option: u32,
        /// What its validation asks.
        rules: RuleList,
    },
    /// Asks for a handle of a table by its name.
    Share {
        /// The name looked for.
        name: LinkedList<u8>,
    },
    /// Gives a handle back.
    Unregister {
        /// The handle's number.
        handle: u32,
    },
    /// Stages a load.
    Stage {
        /// The handle's number.
        handle: u32,
        /// The place of its first byte in the table.
        offset: u32,
        /// Its bytes.
        bytes: LinkedList<u8>,
    },
    /// Validates what is staged.
    Validate {
        /// The handle's number.
        handle: u32,
    },
    /// Makes what is staged the table's value.
    Update {
        /// The handle's number.
        handle: u32,
    },
    /// Drops what is staged.
    Abort {
        /// The handle's number.
        handle: u32,
    },
    /// Stages, validates and updates in one.
    Load {
        /// The handle's number.
        handle: u32,
        /// The place of its first byte in the table.
        offset: u32,
        /// Its bytes.
        bytes: LinkedList<u8>,
    },
    /// Takes hold of the present version.
    GetAddress {
        /// The handle's number.
        handle: u32,
    },
    /// Lets go of what the handle holds.
    ReleaseAddress {
        /// The handle's number.
        handle: u32,
    },
    /// Asks for a table's figures.
    Status {
        /// The handle's number.
        handle: u32,
    },
    /// Ends the application.
    End,
}

/// One call with its answer.
pub struct Entry {
    /// Who called.
    pub app: AppNo,
    /// The call.
    pub call: Call,
    /// What it was answered.
    pub answer: TblAnswer,
}
