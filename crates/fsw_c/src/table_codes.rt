//! Statuses of the tables as C sees them.
ghost use Rattle.std.specs.Prelude.{◌≡◌, ◌≤◌};
ghost use Rattle.tbl_words.specs.declared.calls.TblAnswer.TheVariants.{Address};
ghost use Rattle.fsw_c.specs.TableCodes.{rule_number, tbl_code, table_code, unasked_table_code, table_call_code};
ghost use Rattle.fsw_c.specs.TableCodes.{registration_code, address_code};

use crate::codes::SUCCESS;
use checked_tables::Refusal;
use table_core::PlainAddress;
use tbl_words::{Registered, TblStatus, Told};

/// The table was registered before.
pub(crate) const WARN_DUPLICATE: u32 = 0x4c00_0007;

/// The number of a reason for which the tables weren't asked.
pub(crate) fn code_unasked_tables(why: Refusal) -> u32
    ensures { result ≡ unasked_table_code why }
{
    match why {
        Refusal::NoApplication => 0xc000_0005,
        Refusal::TooLong => 0xc000_0006,
        Refusal::NotActive => 0xc000_0007,
        Refusal::NoNumbers => 0xc000_0008,
    }
}

// The number of a rule that failed, in a status; no table has more than 8 rules.
fn rule_number(rule: u32) -> u32
    ensures number { result ≡ rule_number rule }
    ensures few { result ≤ 8 }
{
    if rule < 8 { rule } else { 8 }
}

/// The number of a status of the tables.
pub(crate) fn code_of_tbl(status: TblStatus) -> u32
    ensures { result ≡ tbl_code status }
{
    match status {
        TblStatus::ErrInvalidHandle => 0xcc00_0001,
        TblStatus::ErrInvalidName => 0xcc00_0002,
        TblStatus::ErrInvalidSize => 0xcc00_0003,
        TblStatus::ErrRegistryFull => 0xcc00_0006,
        TblStatus::ErrNoAccess => 0xcc00_0008,
        TblStatus::ErrUnregistered => 0xcc00_0009,
        TblStatus::ErrHandlesFull => 0xcc00_000b,
        TblStatus::ErrDuplicateDiffSize => 0xcc00_000c,
        TblStatus::ErrDuplicateNotOwned => 0xcc00_000d,
        TblStatus::ErrNoBufferAvail => 0xcc00_000f,
        TblStatus::ErrDumpOnly => 0xcc00_0010,
        TblStatus::ErrLoadInProgress => 0xcc00_0012,
        TblStatus::ErrFileTooLarge => 0xcc00_0014,
        TblStatus::InfoNoUpdatePending => 0x4c00_0017,
        TblStatus::InfoTableLocked => 0x4c00_0018,
        TblStatus::NotValidated => 0x4c00_0019,
        TblStatus::NoLoad => 0x4c00_001a,
        TblStatus::ErrPartialLoad => 0xcc00_0023,
        TblStatus::ErrInvalidOptions => 0xcc00_0025,
        TblStatus::ErrMemBlockSize => 0xc400_0008,
        TblStatus::Validation(rule) => 0xc000_0100 + rule_number(rule),
    }
}

/// The number of what an address comes with.
pub(crate) fn code_of_told(told: Told) -> u32
    ensures { result ≡ table_code (Address told 0) }
{
    match told {
        Told::Same => SUCCESS,
        Told::Updated => 0x4c00_000e,
        Told::NeverLoaded => 0xcc00_0005,
    }
}

/// The number of what a call of the tables answered, of which an accepted one answers 0.
pub(crate) fn code_of_table_call<T>(answer: &Result<Result<T, TblStatus>, Refusal>) -> u32
    ensures { result ≡ table_call_code answer.now }
{
    match answer {
        Ok(Ok(_)) => SUCCESS,
        Ok(Err(status)) => code_of_tbl(*status),
        Err(why) => code_unasked_tables(*why),
    }
}

/// The number of what a registration answered.
pub(crate) fn code_of_registration(answer: &Result<Result<Registered, TblStatus>, Refusal>) -> u32
    ensures { result ≡ registration_code answer.now }
{
    match answer {
        Ok(Ok(Registered::New(_))) => SUCCESS,
        Ok(Ok(Registered::Duplicate(_))) => WARN_DUPLICATE,
        Ok(Err(status)) => code_of_tbl(*status),
        Err(why) => code_unasked_tables(*why),
    }
}

/// The number of what a call for an address answered.
pub(crate) fn code_of_address(answer: &Result<Result<PlainAddress, TblStatus>, Refusal>) -> u32
    ensures { result ≡ address_code answer.now }
{
    match answer {
        Ok(Ok(given)) => code_of_told(given.told),
        Ok(Err(status)) => code_of_tbl(*status),
        Err(why) => code_unasked_tables(*why),
    }
}
