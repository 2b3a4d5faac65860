//! Why a call of Table Services was refused, with the names that reports print.
ghost use Rattle.std.specs.Prelude.{◌≡◌};
ghost use Rattle.tbl_words.specs.Statuses.{tbl_name};

/// Why a call of Table Services was refused.
#[derive(Clone, Copy, Debug, PartialEq, Eq)]
pub enum TblStatus {
    /// The handle isn't live.
    ErrInvalidHandle,
    /// The name is empty or too long, or no registered table has it.
    ErrInvalidName,
    /// The size is 0, or larger than the configuration allows.
    ErrInvalidSize,
    /// There is no such option, or a rule that no table of this size can have.
    ErrInvalidOptions,
    /// Another application has registered a table of this name.
    ErrDuplicateNotOwned,
    /// The application has registered a table of this name with another size.
    ErrDuplicateDiffSize,
    /// As many tables have a handle as the configuration allows.
    ErrRegistryFull,
    /// As many handles are live as the configuration allows.
    ErrHandlesFull,
    /// The handle is another application's.
    ErrNoAccess,
    /// The handle's table is no longer registered.
    ErrUnregistered,
    /// The table can only be read.
    ErrDumpOnly,
    /// The bytes to load go past the table's end.
    ErrFileTooLarge,
    /// The table was never loaded, and the bytes aren't all of it.
    ErrPartialLoad,
    /// A load of the table is staged already.
    ErrLoadInProgress,
    /// Loads of other tables are staged in all shared working buffers.
    ErrNoBufferAvail,
    /// What would be written over is held.
    InfoTableLocked,
    /// Nothing is staged that could become the table's value.
    InfoNoUpdatePending,
    /// The memory pool can't give the table's blocks.
    ErrMemBlockSize,
    /// Nothing is staged.
    NoLoad,
    /// What is staged hasn't passed validation.
    NotValidated,
    /// The value fails this rule, the first that it fails, counted from 1.
    Validation(u32),
}

impl TblStatus {
    /// The name that reports print, which of `Validation` is without the rule's number.
    pub fn name(self) -> &'static str
        ensures { result.now ≡ tbl_name self }
    {
        match self {
            TblStatus::ErrInvalidHandle => "CFE_TBL_ERR_INVALID_HANDLE",
            TblStatus::ErrInvalidName => "CFE_TBL_ERR_INVALID_NAME",
            TblStatus::ErrInvalidSize => "CFE_TBL_ERR_INVALID_SIZE",
            TblStatus::ErrInvalidOptions => "CFE_TBL_ERR_INVALID_OPTIONS",
            TblStatus::ErrDuplicateNotOwned => "CFE_TBL_ERR_DUPLICATE_NOT_OWNED",
            TblStatus::ErrDuplicateDiffSize => "CFE_TBL_ERR_DUPLICATE_DIFF_SIZE",
            TblStatus::ErrRegistryFull => "CFE_TBL_ERR_REGISTRY_FULL",
            TblStatus::ErrHandlesFull => "CFE_TBL_ERR_HANDLES_FULL",
            TblStatus::ErrNoAccess => "CFE_TBL_ERR_NO_ACCESS",
            TblStatus::ErrUnregistered => "CFE_TBL_ERR_UNREGISTERED",
            TblStatus::ErrDumpOnly => "CFE_TBL_ERR_DUMP_ONLY",
            TblStatus::ErrFileTooLarge => "CFE_TBL_ERR_FILE_TOO_LARGE",
            TblStatus::ErrPartialLoad => "CFE_TBL_ERR_PARTIAL_LOAD",
            TblStatus::ErrLoadInProgress => "CFE_TBL_ERR_LOAD_IN_PROGRESS",
            TblStatus::ErrNoBufferAvail => "CFE_TBL_ERR_NO_BUFFER_AVAIL",
            TblStatus::InfoTableLocked => "CFE_TBL_INFO_TABLE_LOCKED",
            TblStatus::InfoNoUpdatePending => "CFE_TBL_INFO_NO_UPDATE_PENDING",
            TblStatus::ErrMemBlockSize => "CFE_ES_ERR_MEM_BLOCK_SIZE",
            TblStatus::NoLoad => "NO_LOAD",
            TblStatus::NotValidated => "NOT_VALIDATED",
            TblStatus::Validation(_) => "VALIDATION_FAILED",
        }
    }
}
