//! The answers of the calls, as the journal has them.
ghost use Rattle.std.specs.Prelude.{◌≡◌};
ghost use Rattle.bus_core.specs.Answers.{numbered, named, done, got, pool_told, grant_back, figures_told, event_told};
ghost use Rattle.sb_calls.specs.Answers.{sent, pended};

use crate::results::{Pended, Sent};
use bus_words::{BusAnswer, PipeText};
use fsw_base::{EsStatus, EvsStatus, PoolStats, SbStatus};

/// Of a call that answers the number of a pipe or of a buffer.
pub(crate) fn of_number(told: &Result<u32, SbStatus>) -> BusAnswer
    ensures { result ≡ numbered told.now }
{
    match told {
        Ok(number) => BusAnswer::Number(*number),
        Err(status) => BusAnswer::Sb(*status),
    }
}

/// Of a question for option bits.
pub(crate) fn of_bits(told: &Result<u8, SbStatus>) -> BusAnswer
    ensures { result ≡ numbered told.now }
{
    match told {
        Ok(bits) => BusAnswer::Number(*bits as u32),
        Err(status) => BusAnswer::Sb(*status),
    }
}

/// Of a question for a name.
pub(crate) fn of_named(told: &Result<PipeText, SbStatus>) -> BusAnswer
    ensures { result ≡ named told.now }
{
    match told {
        Ok(name) => BusAnswer::Name(name.again()),
        Err(status) => BusAnswer::Sb(*status),
    }
}

/// Of a call that has nothing to tell.
pub(crate) fn of_done(told: &Result<(), SbStatus>) -> BusAnswer
    ensures { result ≡ done told.now }
{
    match told {
        Ok(()) => BusAnswer::Done,
        Err(status) => BusAnswer::Sb(*status),
    }
}

/// Of a send.
pub(crate) fn of_sent(told: &Result<Sent, SbStatus>) -> BusAnswer
    ensures { result ≡ sent told.now }
{
    match told {
        Ok(sent) => BusAnswer::Sent {
            number: sent.number,
            reached: sent.reached,
        },
        Err(status) => BusAnswer::Sb(*status),
    }
}

/// Of a receive.
pub(crate) fn of_got(told: &Result<u32, SbStatus>) -> BusAnswer
    ensures { result ≡ got told.now }
{
    match told {
        Ok(number) => BusAnswer::Got(*number),
        Err(status) => BusAnswer::Sb(*status),
    }
}

/// Of a receive that may wait.
pub(crate) fn of_pended(told: &Result<Pended, SbStatus>) -> BusAnswer
    ensures { result ≡ pended told.now }
{
    match told {
        Ok(it) => it.told(),
        Err(status) => BusAnswer::Sb(*status),
    }
}

/// Of the creation of a memory pool, or of a request for a grant.
pub(crate) fn of_pool(told: &Result<u32, EsStatus>) -> BusAnswer
    ensures { result ≡ pool_told told.now }
{
    match told {
        Ok(number) => BusAnswer::Number(*number),
        Err(status) => BusAnswer::Es(*status),
    }
}

/// Of the return of a grant.
pub(crate) fn of_back(told: &Result<(), EsStatus>) -> BusAnswer
    ensures { result ≡ grant_back told.now }
{
    match told {
        Ok(()) => BusAnswer::Done,
        Err(status) => BusAnswer::Es(*status),
    }
}

/// Of a question for a memory pool's figures.
pub(crate) fn of_figures(told: &Result<PoolStats, EsStatus>) -> BusAnswer
    ensures { result ≡ figures_told told.now }
{
    match told {
        Ok(figures) => BusAnswer::Pool(*figures),
        Err(status) => BusAnswer::Es(*status),
    }
}

/// Of a call of event services that may be refused.
pub(crate) fn of_event(told: &Result<(), EvsStatus>) -> BusAnswer
    ensures { result ≡ event_told told.now }
{
    match told {
        Ok(()) => BusAnswer::Done,
        Err(status) => BusAnswer::Evs(*status),
    }
}
