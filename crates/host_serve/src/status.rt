//! How a run of the program ended.
ghost use Rattle.std.specs.Prelude.{◌≡◌};
ghost use Rattle.host_serve.specs.Status.{exit_status};

use crate::memory::MemoryRefusal;
use fsw_base::ScriptFault;
use tbl_file::ImageFault;

/// The number with which the program ends if there was no memory.
pub const NO_MEMORY: u8 = 6;

/// How a run ended.
#[derive(Clone, Copy, Debug, PartialEq, Eq)]
pub enum HostStatus {
    /// All that was asked for was done and written.
    Done,
    /// The words are none that the program knows; its usage was written.
    Usage,
    /// The input is no script that the program runs; the fault was written.
    Script(ScriptFault),
    /// The source failed before the input's end; nothing was written.
    ReadFault,
    /// The sink failed; what was written is a front of what was due.
    WriteFault,
    /// There was no memory; nothing was written, and, by the code, no application ran.
    NoMemory(MemoryRefusal),
    /// The input lacks a part, since it has too few lines `---`; the line that says so was written.
    MissingPart,
    /// The report is that of no run of its script; the number, from 1, of the first line up to
    /// which it isn't was written.
    Illegal(u32),
    /// The input is no table image, or no table that one can have; the fault was written.
    Image(ImageFault),
}

impl HostStatus {
    /// The number with which the program ends.
    pub fn exit_status(self) -> u8
        ensures { result ≡ exit_status self }
    {
        match self {
            HostStatus::Done => 0,
            HostStatus::Usage => 2,
            HostStatus::Script(_) | HostStatus::MissingPart => 3,
            HostStatus::ReadFault => 4,
            HostStatus::WriteFault => 5,
            HostStatus::NoMemory(_) => NO_MEMORY,
            HostStatus::Illegal(_) => 7,
            HostStatus::Image(_) => 8,
        }
    }
}
