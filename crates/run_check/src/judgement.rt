//! What a check answers.

/// Whether a report is that of a run of a script.
#[derive(Clone, Copy, Debug, PartialEq, Eq)]
pub enum Judgement {
    /// It is.
    Yes,
    /// It isn't: with its first lines up to the one of this number, counted from 1, no run of the
    /// script begins, and with any fewer one does.
    No(u32),
}
