//! The number of a loan, for those who prove things about a program.
ghost use Rattle.std.specs.Prelude.{◌≡◌, ℕ};
ghost use base.Fml.{ftrue};

use std::marker::Model;

/// The number of a loan.
///
/// It takes no bytes, and no program reads it: clauses ask whether two names are of one loan. The
/// number is fixed when a block is sealed, and a root and its views have the same one.
#[derive(Drop)]
pub struct LoanName {
    /// The number.
    pub ghost loan: { ℕ },
}

impl Model for LoanName {
    ghost also_owns = { λ _. ftrue };
}

impl LoanName {
    /// The same name once more, since what has a ghost number moves and is not `Copy`.
    pub fn again(&self) -> LoanName
        ensures same { result ≡ self.now }
    {
        LoanName {}
    }
}
