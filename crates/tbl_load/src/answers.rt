//! The answers of the calls, as the journal has them.
ghost use Rattle.std.specs.Prelude.{◌≡◌};
ghost use Rattle.table_core.specs.Answers.{registered, shared, figures_told, addressed, done};

use tbl_words::{Address, Registered, TblAnswer, TblState, TblStatus};

/// Of a registration.
pub(crate) fn of_registered(told: &Result<Registered, TblStatus>) -> TblAnswer
    ensures { result ≡ registered told.now }
{
    match told {
        Ok(Registered::New(number)) => TblAnswer::Number(*number),
        Ok(Registered::Duplicate(number)) => TblAnswer::Duplicate(*number),
        Err(status) => TblAnswer::Refused(*status),
    }
}

/// Of a share.
pub(crate) fn of_shared(told: &Result<u32, TblStatus>) -> TblAnswer
    ensures { result ≡ shared told.now }
{
    match told {
        Ok(number) => TblAnswer::Number(*number),
        Err(status) => TblAnswer::Refused(*status),
    }
}

/// Of a question for a table's figures.
pub(crate) fn of_figures(told: &Result<TblState, TblStatus>) -> TblAnswer
    ensures { result ≡ figures_told told.now }
{
    match told {
        Ok(figures) => TblAnswer::State(*figures),
        Err(status) => TblAnswer::Refused(*status),
    }
}

/// Of an address.
pub(crate) fn of_addressed(told: &Result<Address, TblStatus>) -> TblAnswer
    ensures { result ≡ addressed told.now }
{
    match told {
        Ok(address) => TblAnswer::Address {
            told: address.told,
            version: address.version,
        },
        Err(status) => TblAnswer::Refused(*status),
    }
}

/// Of a call that has nothing to tell.
pub(crate) fn of_done(told: &Result<(), TblStatus>) -> TblAnswer
    ensures { result ≡ done told.now }
{
    match told {
        Ok(()) => TblAnswer::Done,
        Err(status) => TblAnswer::Refused(*status),
    }
}
