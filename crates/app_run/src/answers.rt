//! The answers of the calls, as entries of the journal have them.
ghost use Rattle.std.specs.Prelude.{◌≡◌};
ghost use Rattle.bus_core.specs.Answers.{numbered, done, named, got, pool_told, grant_back, figures_told, event_told};
ghost use Rattle.sb_calls.specs.Answers.{sent, waited, pended};

use bus_words::{BusAnswer, PipeText};
use fsw_base::{EsStatus, EvsStatus, PoolStats, SbStatus};
use sb_calls::{Pended, Sent};

/// The number of a pipe or of a buffer, or the refusal.
pub(crate) fn number(answer: Result<u32, SbStatus>) -> BusAnswer
    ensures { result ≡ numbered answer }
{
    match answer {
        Ok(number) => BusAnswer::Number(number),
        Err(status) => BusAnswer::Sb(status),
    }
}

/// Option bits that were asked for, or the refusal.
pub(crate) fn bits(answer: Result<u8, SbStatus>) -> BusAnswer
    ensures { result ≡ numbered answer }
{
    match answer {
        Ok(bits) => BusAnswer::Number(bits as u32),
        Err(status) => BusAnswer::Sb(status),
    }
}

/// A name that was asked for, or the refusal.
pub(crate) fn name(answer: Result<PipeText, SbStatus>) -> BusAnswer
    ensures { result ≡ named answer }
{
    match answer {
        Ok(name) => BusAnswer::Name(name),
        Err(status) => BusAnswer::Sb(status),
    }
}

/// Done, or the refusal.
pub(crate) fn done(answer: Result<(), SbStatus>) -> BusAnswer
    ensures { result ≡ done answer }
{
    match answer {
        Ok(()) => BusAnswer::Done,
        Err(status) => BusAnswer::Sb(status),
    }
}

/// What a send was answered.
pub(crate) fn sent(answer: Result<Sent, SbStatus>) -> BusAnswer
    ensures { result ≡ sent answer }
{
    match answer {
        Ok(it) => BusAnswer::Sent {
            number: it.number,
            reached: it.reached,
        },
        Err(status) => BusAnswer::Sb(status),
    }
}

/// The number of a message, or the refusal.
pub(crate) fn got(answer: Result<u32, SbStatus>) -> BusAnswer
    ensures { result ≡ got answer }
{
    match answer {
        Ok(number) => BusAnswer::Got(number),
        Err(status) => BusAnswer::Sb(status),
    }
}

/// What a receive was answered that may wait.
pub(crate) fn pended(answer: Result<Pended, SbStatus>) -> BusAnswer
    ensures { result ≡ pended answer }
{
    match answer {
        Ok(it) => waited_answer(it),
        Err(status) => BusAnswer::Sb(status),
    }
}

fn waited_answer(answer: Pended) -> BusAnswer
    ensures { result ≡ waited answer }
{
    match answer {
        Pended::Got(number) => BusAnswer::Got(number),
        Pended::TimeOut => BusAnswer::TimeOut,
        Pended::Pending => BusAnswer::Pending,
    }
}

/// The number of a pool or of a grant, or the refusal.
pub(crate) fn pool_told(answer: Result<u32, EsStatus>) -> BusAnswer
    ensures { result ≡ pool_told answer }
{
    match answer {
        Ok(number) => BusAnswer::Number(number),
        Err(status) => BusAnswer::Es(status),
    }
}

/// Done, or the refusal of the pools.
pub(crate) fn grant_back(answer: Result<(), EsStatus>) -> BusAnswer
    ensures { result ≡ grant_back answer }
{
    match answer {
        Ok(()) => BusAnswer::Done,
        Err(status) => BusAnswer::Es(status),
    }
}

/// The figures of a pool, or the refusal.
pub(crate) fn figures(answer: Result<PoolStats, EsStatus>) -> BusAnswer
    ensures { result ≡ figures_told answer }
{
    match answer {
        Ok(figures) => BusAnswer::Pool(figures),
        Err(status) => BusAnswer::Es(status),
    }
}

/// Done, or the refusal of the event services.
pub(crate) fn event_told(answer: Result<(), EvsStatus>) -> BusAnswer
    ensures { result ≡ event_told answer }
{
    match answer {
        Ok(()) => BusAnswer::Done,
        Err(status) => BusAnswer::Evs(status),
    }
}
