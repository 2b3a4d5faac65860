//! What is wrong with a script, and with a sink.
ghost use Rattle.std.specs.Prelude.{◌≡◌};
ghost use Rattle.fsw_base.specs.ScriptFaults.{fault_name};

/// A sink failed before all was written.
#[derive(Clone, Copy, Debug, PartialEq, Eq)]
pub struct WriteFault;

/// What is wrong with a script, and if.
#[derive(Clone, Copy, Debug, PartialEq, Eq)]
pub struct ScriptFault {
    /// The line's number from 1, or 0 if the fault is the whole script's.
    pub line: u32,
    /// What is wrong.
    pub kind: FaultKind,
}

/// What is wrong with a line, or with a whole script.
#[derive(Clone, Copy, Debug, PartialEq, Eq)]
pub enum FaultKind {
    /// The line has more than 1024 bytes.
    LineTooLong,
    /// A byte is no printable ASCII character and no tab.
    BadByte,
    /// No line begins with this word.
    UnknownWord,
    /// The line may not stand here.
    Misplaced,
    /// There are too few words, or too many.
    WrongCount,
    /// A word hasn't the form that it must have.
    BadWord,
    /// A number or a length is outside its range.
    OutOfRange,
    /// The bytes of a table file are no table image, or one that a script can't load.
    BadImage,
    /// A name or an id comes a second time.
    Repeated,
    /// There are more applications than a run can have.
    TooManyApps,
    /// There are more call lines than a script may have.
    TooManyCalls,
    /// The messages and texts have more bytes than a script may have.
    TooManyBytes,
    /// The input has more bytes than a script may have.
    TooLarge,
    /// No application is there.
    NoApp,
}

impl FaultKind {
    /// The name that the program prints.
    pub fn name(self) -> &'static str
        ensures { result.now ≡ fault_name self }
    {
        match self {
            FaultKind::LineTooLong => "LineTooLong",
            FaultKind::BadByte => "BadByte",
            FaultKind::UnknownWord => "UnknownWord",
            FaultKind::Misplaced => "Misplaced",
            FaultKind::WrongCount => "WrongCount",
            FaultKind::BadWord => "BadWord",
            FaultKind::OutOfRange => "OutOfRange",
            FaultKind::BadImage => "BadImage",
            FaultKind::Repeated => "Repeated",
            FaultKind::TooManyApps => "TooManyApps",
            FaultKind::TooManyCalls => "TooManyCalls",
            FaultKind::TooManyBytes => "TooManyBytes",
            FaultKind::TooLarge => "TooLarge",
            FaultKind::NoApp => "NoApp",
        }
    }
}
