//! Why a line wasn't read.
ghost use Rattle.std.specs.Prelude.{◌≡◌, alloc_error};
ghost use Rattle.script_words.specs.declared.fail.LineFail.TheVariants.{Memory, Fault};

use fsw_base::FaultKind;
use std::alloc::{AllocError, AllocFailed};
use thiserror::Error;

/// Why a line, or a word of it, wasn't read.
#[derive(Debug, Drop, Error)]
pub enum LineFail {
    /// Memory ran out.
    #[error("out of memory")]
    Memory(AllocError),
    /// This is wrong with the line.
    #[error("{}", .0.name())]
    Fault(FaultKind),
}

impl From<AllocError> for LineFail {
    ghost from_gives = { λ _ e. e ≡ Memory alloc_error };

    fn from(error: AllocError) -> LineFail {
        LineFail::Memory(error)
    }
}

impl<T: Drop> From<AllocFailed<T>> for LineFail {
    ghost from_gives = { λ _ e. e ≡ Memory alloc_error };

    fn from(_failed: AllocFailed<T>) -> LineFail {
        LineFail::Memory(AllocError)
    }
}

impl From<FaultKind> for LineFail {
    ghost from_gives = { λ fault e. e ≡ Fault fault };

    fn from(fault: FaultKind) -> LineFail {
        LineFail::Fault(fault)
    }
}
