//! Why a plan wasn't read.
ghost use Rattle.std.specs.Prelude.{◌≡◌, alloc_error};
ghost use Rattle.bridge_plan.specs.Faults.{fault_line, fault_name, plan_fail_of};
ghost use Rattle.bridge_plan.specs.declared.fail.PlanFail.TheVariants.{Memory};

use app_script::ReadFail;
use fsw_base::ScriptFault;
use std::alloc::AllocError;
use thiserror::Error;

/// What is wrong with the text of a plan.
#[derive(Clone, Copy, Debug, PartialEq, Eq)]
pub enum PlanFault {
    /// Fewer than two of its lines are `---`, so that a part is missing.
    MissingPart,
    /// This is wrong with a line, whose number is that in the whole text, or with the whole.
    Script(ScriptFault),
}

impl PlanFault {
    /// The line's number from 1 in the whole text, or 0 if the fault is the whole text's.
    pub fn line(self) -> u32
        ensures { result ≡ fault_line self }
    {
        match self {
            PlanFault::MissingPart => 0,
            PlanFault::Script(fault) => fault.line,
        }
    }

    /// The name that the program prints.
    pub fn name(self) -> &'static str
        ensures { result.now ≡ fault_name self }
    {
        match self {
            PlanFault::MissingPart => "MissingPart",
            PlanFault::Script(fault) => fault.kind.name(),
        }
    }
}

/// Why a plan wasn't read.
#[derive(Debug, Drop, Error)]
pub enum PlanFail {
    /// Memory ran out.
    #[error("out of memory")]
    Memory(AllocError),
    /// This is wrong with the text.
    #[error("line {}: {}", .0.line(), .0.name())]
    Fault(PlanFault),
}

impl From<AllocError> for PlanFail {
    ghost from_gives = { λ _ e. e ≡ Memory alloc_error };

    fn from(error: AllocError) -> PlanFail {
        PlanFail::Memory(error)
    }
}

impl From<ReadFail> for PlanFail {
    ghost from_gives = { λ failure e. e ≡ plan_fail_of failure };

    fn from(failure: ReadFail) -> PlanFail {
        match failure {
            ReadFail::Memory(error) => PlanFail::Memory(error),
            ReadFail::Fault(fault) => PlanFail::Fault(PlanFault::Script(fault)),
        }
    }
}
