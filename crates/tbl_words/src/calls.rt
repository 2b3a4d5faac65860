//! The calls of Table Services, their answers, and both together as an entry of the journal.
ghost use Rattle.std.specs.Prelude.{◌≡◌};
ghost use Rattle.tbl_words.specs.Entries.{call_of, call_text, with_text, call_bytes};

use crate::statuses::TblStatus;
use fsw_base::AppNo;
use tbl_rules::RuleList;

/// A call of Table Services by one application, with its bytes borrowed (cFE Table Services).
#[derive(Debug, Drop)]
pub enum TblCall<'a> {
    /// Registers a table (`CFE_TBL_Register`).
    Register {
        /// Its name.
        name: &'a [u8],
        /// Its bytes.
        size: u32,
        /// 0 single buffered, 1 double buffered, 2 single buffered and dump only.
        option: u32,
        /// What its validation asks.
        rules: RuleList,
    },
    /// Asks for a handle of the registered table of this name (`CFE_TBL_Share`).
    Share {
        /// The name looked for.
        name: &'a [u8],
    },
    /// Gives a handle back; if it is the owner's, the table is no longer registered
    /// (`CFE_TBL_Unregister`).
    Unregister {
        /// The handle's number.
        handle: u32,
    },
    /// Stages bytes that are to become part of the table's value.
    Stage {
        /// The handle's number.
        handle: u32,
        /// The place of the first of them in the table.
        offset: u32,
        /// The bytes.
        bytes: &'a [u8],
    },
    /// Tries the staged value by the table's rules (`CFE_TBL_Validate`).
    Validate {
        /// The handle's number.
        handle: u32,
    },
    /// Makes the staged value the table's (`CFE_TBL_Update`).
    Update {
        /// The handle's number.
        handle: u32,
    },
    /// Drops the staged value.
    Abort {
        /// The handle's number.
        handle: u32,
    },
    /// Stages bytes, validates the value and makes it the table's, all in one (`CFE_TBL_Load`).
    Load {
        /// The handle's number.
        handle: u32,
        /// The place of the first of them in the table.
        offset: u32,
        /// The bytes.
        bytes: &'a [u8],
    },
    /// Takes hold of the table's present version (`CFE_TBL_GetAddress`).
    GetAddress {
        /// The handle's number.
        handle: u32,
    },
    /// Lets go of the version that the handle holds (`CFE_TBL_ReleaseAddress`).
    ReleaseAddress {
        /// The handle's number.
        handle: u32,
    },
    /// Asks for the table's figures, and not for pending actions (`CFE_TBL_GetStatus`).
    Status {
        /// The handle's number.
        handle: u32,
    },
    /// The application's last call: all its handles are given back.
    End,
}

impl<'a> TblCall<'a> {
    /// The bytes that the call brings: its name, or what it loads; none if it has neither.
    pub fn text(&self) -> &'a [u8]
        ensures { result.now ≡ call_text (call_of self.now) }
    {
        match self {
            TblCall::Register { name, .. } | TblCall::Share { name } => name,
            TblCall::Stage { bytes, .. } | TblCall::Load { bytes, .. } => bytes,
            _ => &[],
        }
    }

    /// The same call with these bytes in place of its own; itself, if it brings none. Inlined,
    /// it makes the call where that goes.
    #[inline(always)]
    pub(crate) fn with_text<'b>(&self, text: &'b [u8]) -> TblCall<'b>
        ensures call { call_of result ≡ with_text text.entry.now (call_of self.now) }
        ensures own { with_text (call_text (call_of self.now)) (call_of result) ≡
            call_of self.now }
    {
        match self {
            TblCall::Register {
                size,
                option,
                rules,
                ..
            } => TblCall::Register {
                name: text,
                size: *size,
                option: *option,
                rules: rules.again(),
            },
            TblCall::Share { .. } => TblCall::Share { name: text },
            TblCall::Unregister { handle } => TblCall::Unregister { handle: *handle },
            TblCall::Stage { handle, offset, .. } => TblCall::Stage {
                handle: *handle,
                offset: *offset,
                bytes: text,
            },
            TblCall::Validate { handle } => TblCall::Validate { handle: *handle },
            TblCall::Update { handle } => TblCall::Update { handle: *handle },
            TblCall::Abort { handle } => TblCall::Abort { handle: *handle },
            TblCall::Load { handle, offset, .. } => TblCall::Load {
                handle: *handle,
                offset: *offset,
                bytes: text,
            },
            TblCall::GetAddress { handle } => TblCall::GetAddress { handle: *handle },
            TblCall::ReleaseAddress { handle } => TblCall::ReleaseAddress { handle: *handle },
            TblCall::Status { handle } => TblCall::Status { handle: *handle },
            TblCall::End => TblCall::End,
        }
    }

    /// How many bytes the call brings.
    pub fn byte_count(&self) -> usize
        ensures { result ≡ call_bytes (call_of self.now) }
    {
        self.text().len()
    }
}

/// What an application is told with the address of a table.
#[derive(Clone, Copy, Debug, PartialEq, Eq)]
pub enum Told {
    /// No update came since the handle's last address.
    Same,
    /// An update came since the handle's last address, or the handle is new (cFE
    /// `CFE_TBL_INFO_UPDATED`).
    Updated,
    /// The table was never loaded and is all zeros (cFE `CFE_TBL_ERR_NEVER_LOADED`).
    NeverLoaded,
}

/// The address of a table's present version, as it is answered: the bytes are if the
/// application keeps what it holds.
#[derive(Clone, Copy, Debug, PartialEq, Eq)]
pub struct Address {
    /// Whether they changed.
    pub told: Told,
    /// The version, which is the number of updates that the table had.
    pub version: u32,
}

/// The handle that a registration is answered.
#[derive(Clone, Copy, Debug, PartialEq, Eq)]
pub enum Registered {
    /// The owner's handle of a new table.
    New(u32),
    /// The owner's handle of the table that the application had registered before with this name
    /// and size (cFE `CFE_TBL_WARN_DUPLICATE`).
    Duplicate(u32),
}

/// The figures of a table.
#[derive(Clone, Copy, Debug, PartialEq, Eq)]
pub struct TblState {
    /// How often it was updated.
    pub version: u32,
    /// Whether it was ever updated.
    pub loaded: bool,
    /// 0 if nothing is staged, 1 if something is, 2 if it was validated.
    pub staged: u32,
    /// How many handles, of whichever applications, hold a version of it.
    pub holds: u32,
}

/// What a call of Table Services was answered.
#[derive(Clone, Copy, Debug, PartialEq, Eq)]
pub enum TblAnswer {
    /// Done, with nothing to tell.
    Done,
    /// The number of a new handle.
    Number(u32),
    /// The owner's handle of the table that was registered before.
    Duplicate(u32),
    /// The address of the table's present version.
    Address {
        /// Whether the bytes changed.
        told: Told,
        /// The version.
        version: u32,
    },
    /// The figures of the table.
    State(TblState),
    /// Refused.
    Refused(TblStatus),
}

/// One call with its answer.
#[derive(Debug, Drop)]
pub struct TblEntry<'a> {
    /// Who called.
    pub app: AppNo,
    /// The call.
    pub call: TblCall<'a>,
    /// What it was answered.
    pub answer: TblAnswer,
}
