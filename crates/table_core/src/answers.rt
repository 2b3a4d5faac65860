//! What the calls answer whose answers have a version. Versions have 64 bits: at a million updates
//! a second they last for 580,000 years.

use tbl_words::Told;

/// The address of a table's present version, as it is answered: the bytes are in the caller's bag.
#[derive(Clone, Copy, Debug, PartialEq, Eq)]
pub struct PlainAddress {
    /// Whether they changed.
    pub told: Told,
    /// The version, which is the number of updates that the table had.
    pub version: u64,
}

/// What a table is, from its registration to its end.
#[derive(Clone, Copy, Debug, PartialEq, Eq)]
pub struct PlainShape {
    /// Its bytes.
    pub size: u32,
    /// 0 single buffered, 1 double buffered, 2 single buffered and dump only.
    pub option: u32,
}

/// The figures of a table.
#[derive(Clone, Copy, Debug, PartialEq, Eq)]
pub struct PlainState {
    /// How often it was updated.
    pub version: u64,
    /// Whether it was ever updated.
    pub loaded: bool,
    /// 0 if nothing is staged, 1 if something is, 2 if it was validated.
    pub staged: u32,
    /// How many handles, of whichever applications, hold a version of it.
    pub holds: u32,
}
