//! What is noted beside an entry of a journal.
ghost use Rattle.std.specs.Prelude.{◌≡◌};

use crate::name::LoanName;

/// What a core notes beside an entry of its journal, if the entry alone does not tell which
/// memory the call gave.
#[derive(Drop)]
pub enum Note {
    /// The call gave no memory.
    Nothing,
    /// The call gave a block to write: the number of its descriptor.
    Desc(u32),
    /// The call gave a view: the loan that it is of.
    Loan(LoanName),
}

impl Note {
    /// The same note once more.
    pub fn again(&self) -> Note
        ensures same { result ≡ self.now }
    {
        match self {
            Note::Nothing => Note::Nothing,
            Note::Desc(number) => Note::Desc(*number),
            Note::Loan(name) => Note::Loan(name.again()),
        }
    }
}
