//! What is left of a budget.

/// What an application may still add to a journal.
#[derive(Clone, Copy, Debug, PartialEq, Eq)]
pub struct Allowance {
    /// Rows.
    pub entries: u32,
    /// Bytes of their texts.
    pub bytes: u32,
}
