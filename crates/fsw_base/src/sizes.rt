//! The largest sizes that several crates ask for.

/// The bytes of the longest name that a call may give.
pub const MAX_NAME_BYTES: usize = 64;

/// The bytes of the longest event text that a call may give.
pub const MAX_TEXT_BYTES: usize = 200;

/// The bytes of the largest message: a header of 6, and as many as the 16 bits of its length can
/// say (CCSDS 133.0-B, 4.1.3.5).
pub const MAX_MESSAGE_BYTES: u32 = 65542;

/// The bytes of the largest table, and of the largest content that is put into one at once.
pub const MAX_TABLE_BYTES: u32 = 65536;

/// The bytes of the largest script.
pub const MAX_SCRIPT_BYTES: usize = 1_048_576;
