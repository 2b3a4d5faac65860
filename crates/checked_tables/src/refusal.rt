//! Why the tables weren't asked.

/// Why a call was refused before the tables were asked. Nothing changed then.
#[derive(Clone, Copy, Debug, PartialEq, Eq)]
pub enum Refusal {
    /// The tables serve no application of this number.
    NoApplication,
    /// A load of no byte or more than 65536, an offset over 65536, or more than 8 rules.
    TooLong,
    /// The application has ended.
    NotActive,
    /// No number is left for a handle.
    NoNumbers,
}
