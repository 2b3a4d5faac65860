//! Why a whole script wasn't read.
ghost use Rattle.std.specs.Prelude.{◌≡◌, alloc_error};
ghost use Rattle.app_script.specs.declared.fail.ReadFail.TheVariants as reads;

use fsw_base::ScriptFault;
use std::alloc::AllocError;
use thiserror::Error;

/// Why a script wasn't read.
#[derive(Debug, Drop, Error)]
pub enum ReadFail {
    /// Memory ran out.
    #[error("out of memory")]
    Memory(AllocError),
    /// This is wrong with the script.
    #[error("a fault in the script")]
    Fault(ScriptFault),
}

impl From<AllocError> for ReadFail {
    ghost from_gives = { λ _ e. e ≡ reads.Memory alloc_error };

    fn from(error: AllocError) -> ReadFail {
        ReadFail::Memory(error)
    }
}
