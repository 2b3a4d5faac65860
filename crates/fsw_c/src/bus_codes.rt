//! Statuses of the bus as C sees them.
ghost use Rattle.std.specs.Prelude.{◌≡◌};
ghost use Rattle.bus_core.specs.Answers.{waited};
ghost use Rattle.fsw_c.specs.BusCodes.{sb_code, es_code, evs_code, bus_code, unasked_code, answer_code, call_code, plain_code, pend_code, look_code};

use crate::codes::SUCCESS;
use bus_core::Pended;
use checked_bus::{LookAnswer, Refusal};
use fsw_base::{EsStatus, EvsStatus, SbStatus};

/// No message waits yet; the application waits.
pub(crate) const PENDING: u32 = 0x4000_0001;
/// Every other application has ended or waits on an empty pipe.
pub(crate) const TIME_OUT: u32 = 0xca00_0001;
/// An argument of the bus's is out of its range.
pub(crate) const SB_BAD_ARGUMENT: u32 = 0xca00_0003;
/// A buffer is no unsent one of the application's.
pub(crate) const SB_BUFFER_INVALID: u32 = 0xca00_000e;
/// An argument of the event services' is out of its range.
pub(crate) const EVS_INVALID_PARAMETER: u32 = 0xc200_0008;
/// An argument of the memory pools' is out of its range.
pub(crate) const ES_BAD_ARGUMENT: u32 = 0xc400_000a;

/// The number of a status of the bus.
pub(crate) fn code_of_sb(status: SbStatus) -> u32
    ensures { result ≡ sb_code status }
{
    match status {
        SbStatus::NoMessage => 0xca00_0002,
        SbStatus::BadArgument => SB_BAD_ARGUMENT,
        SbStatus::MaxPipesMet => 0xca00_0004,
        SbStatus::PipeCrErr => 0xca00_0005,
        SbStatus::MsgTooBig => 0xca00_0007,
        SbStatus::BufAlocErr => 0xca00_0008,
        SbStatus::MaxMsgsMet => 0xca00_0009,
        SbStatus::MaxDestsMet => 0xca00_000a,
        SbStatus::BufferInvalid => SB_BUFFER_INVALID,
    }
}

/// The number of a status of the memory pools.
pub(crate) fn code_of_es(status: EsStatus) -> u32
    ensures { result ≡ es_code status }
{
    match status {
        EsStatus::NoPool => 0xc400_0001,
        EsStatus::ErrMemBlockSize => 0xc400_0008,
        EsStatus::BufferNotInPool => 0xc400_0025,
        EsStatus::PoolBlockInvalid => 0xc400_002c,
    }
}

/// The number of a status of the event services.
pub(crate) fn code_of_evs(status: EvsStatus) -> u32
    ensures { result ≡ evs_code status }
{
    match status {
        EvsStatus::AppNotRegistered => 0xc200_0002,
        EvsStatus::EvtNotRegistered => 0xc200_0006,
    }
}

/// The number of a reason for which the bus wasn't asked.
pub(crate) fn code_unasked(why: Refusal) -> u32
    ensures { result ≡ unasked_code why }
{
    match why {
        Refusal::NoApplication => 0xc000_0005,
        Refusal::TooLong => 0xc000_0006,
        Refusal::NotActive => 0xc000_0007,
        Refusal::NoNumbers => 0xc000_0008,
        Refusal::NoRoom => 0xc000_0009,
        Refusal::BufferOut => 0xc000_000a,
        Refusal::NotItsBlock => SB_BUFFER_INVALID,
        Refusal::NoScope => SB_BAD_ARGUMENT,
        Refusal::NoKind | Refusal::NoMode | Refusal::SameFilter => EVS_INVALID_PARAMETER,
    }
}

/// The number of what the bus answered, of which an accepted call answers 0.
pub(crate) fn code_of_answer<T>(answer: &Result<T, SbStatus>) -> u32
    ensures { result ≡ answer_code sb_code answer.now }
{
    match answer {
        Ok(_) => SUCCESS,
        Err(status) => code_of_sb(*status),
    }
}

/// The same of a call of the box.
pub(crate) fn code_of_call<T>(answer: &Result<Result<T, SbStatus>, Refusal>) -> u32
    ensures { result ≡ call_code sb_code answer.now }
{
    match answer {
        Ok(it) => code_of_answer(it),
        Err(why) => code_unasked(*why),
    }
}

/// The number of what the memory pools answered.
pub(crate) fn code_of_pool_answer<T>(answer: &Result<T, EsStatus>) -> u32
    ensures { result ≡ answer_code es_code answer.now }
{
    match answer {
        Ok(_) => SUCCESS,
        Err(status) => code_of_es(*status),
    }
}

/// The same of a call of the memory pools.
pub(crate) fn code_of_pool_call<T>(answer: &Result<Result<T, EsStatus>, Refusal>) -> u32
    ensures { result ≡ call_code es_code answer.now }
{
    match answer {
        Ok(it) => code_of_pool_answer(it),
        Err(why) => code_unasked(*why),
    }
}

/// The same of a call of the event services.
pub(crate) fn code_of_event_call(answer: &Result<Result<(), EvsStatus>, Refusal>) -> u32
    ensures { result ≡ call_code evs_code answer.now }
{
    match answer {
        Ok(Ok(())) => SUCCESS,
        Ok(Err(status)) => code_of_evs(*status),
        Err(why) => code_unasked(*why),
    }
}

/// The same of a call that is never refused, if it is asked.
pub(crate) fn code_of_plain(answer: &Result<(), Refusal>) -> u32
    ensures { result ≡ plain_code answer.now }
{
    match answer {
        Ok(()) => SUCCESS,
        Err(why) => code_unasked(*why),
    }
}

// The number of what a receive that may wait was answered.
fn code_of_pended(answer: Pended) -> u32
    ensures { result ≡ bus_code (waited answer) }
{
    match answer {
        Pended::Got(_) => SUCCESS,
        Pended::TimeOut => TIME_OUT,
        Pended::Pending => PENDING,
    }
}

/// The same of a call of the box.
pub(crate) fn code_of_pend(answer: &Result<Result<Pended, SbStatus>, Refusal>) -> u32
    ensures { result ≡ pend_code answer.now }
{
    match answer {
        Ok(Ok(it)) => code_of_pended(*it),
        Ok(Err(status)) => code_of_sb(*status),
        Err(why) => code_unasked(*why),
    }
}

/// The same of a look.
pub(crate) fn code_of_look(answer: &Result<LookAnswer, Refusal>) -> u32
    ensures { result ≡ look_code answer.now }
{
    match answer {
        Ok(looked) => code_of_pended(looked.answer),
        Err(why) => code_unasked(*why),
    }
}
