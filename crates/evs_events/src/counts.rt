//! What became of events, in numbers.

/// Counts of events since the desk was made; each stops at 4294967295.
#[derive(Clone, Copy, Debug, PartialEq, Eq)]
pub struct EventCounts {
    /// Events that passed, those of services among them.
    pub sent: u32,
    /// Events that a filter held back.
    pub filtered: u32,
    /// Events that passed and whose text was cut.
    pub cut: u32,
    /// Refused calls: events of applications that aren't registered, and refused resets.
    pub refused: u32,
    /// Events that passed and found the log full, in either mode.
    pub lost: u32,
    /// The log's mode: a full log drops its oldest line in mode 0, the new one in mode 1.
    pub mode: u8,
}
