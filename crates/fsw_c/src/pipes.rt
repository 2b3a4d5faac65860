//! Pipes.
ghost use Rattle.std.specs.Prelude.{◌≡◌, ◌≢◌, ◌≤◌, ◌<◌, ◌++◌, ℕ, None, nat_lt, length, take, drop, Some, IfOk, IfSome, OnErr};
ghost use Rattle.bus_words.specs.declared.history.Call.TheVariants.{Create, Delete, SetOpts, GetOpts, Find, PipeName};
ghost use Rattle.bus_words.specs.declared.calls.BusAnswer.TheVariants.{Number, Name};
ghost use Rattle.bus_words.specs.Machine.{refused_if};
ghost use Rattle.checked_bus.specs.declared.refusal.Refusal.TheVariants.{TooLong};
ghost use Rattle.checked_bus.specs.Asked.{unasked};
ghost use Rattle.fsw_c.specs.BusAnswers.{BusCall, AnyonesCall, AnswersBus};
ghost use Rattle.fsw_c.specs.Figures.{few_code, waiting_on, waiting_code};

use crate::bus_codes::{SB_BAD_ARGUMENT, code_of_answer, code_of_call};
use crate::codes::{CLOSED, SUCCESS};
use crate::handle::FswCore;
use bus_words::{NAME_BYTES, PipeText};
use checked_bus::Refusal;
use fsw_base::SbStatus;
use std::alloc::Global;
use std::marker::Brand;
use step_count::Blank;

// Writes the option bits that were answered, if they were.
fn put_bits(out: &mut u8, answer: &Result<u8, SbStatus>)
    ensures written { IfOk answer.now (λ bits. out.new ≡ bits) }
    ensures kept { OnErr answer.now (out.new ≡ out.old) }
{
    if let Ok(bits) = answer {
        *out = *bits;
    }
}

// Writes the number of the pipe that was found, if one was.
fn put_found(out: &mut u32, answer: &Result<Result<u32, SbStatus>, Refusal>)
    ensures written { IfOk answer.now (λ found. IfOk found (λ pipe. out.new ≡ pipe)) }
    ensures kept { IfOk answer.now (λ found. OnErr found (out.new ≡ out.old)) }
    ensures unasked { OnErr answer.now (out.new ≡ out.old) }
{
    if let Ok(Ok(pipe)) = answer {
        *out = *pipe;
    }
}

// Writes bytes over the first ones.
fn write_over(into: &mut [u8], bytes: &[u8])
    requires { length bytes.now ≤ length into.old }
    ensures { into.new ≡ bytes.now ++ drop (length bytes.now) into.old }
{
    into[..bytes.len()].copy_from_slice(bytes);
}

// Writes the name that was answered, and how many bytes it has, if one was.
fn put_name(into: &mut [u8], name_len: &mut u32, answer: &Result<PipeText, SbStatus>)
    requires { 19 ≤ length into.old }
    ensures written { IfOk answer.now (λ name. take name_len.new into.new ≡ name) }
    ensures rest { IfOk answer.now
        (λ name. drop name_len.new into.new ≡ drop name_len.new into.old) }
    ensures kept { OnErr answer.now (into.new ≡ into.old) }
    ensures kept_len { OnErr answer.now (name_len.new ≡ name_len.old) }
{
    if let Ok(name) = answer {
        let bytes = name.as_slice();
        write_over(into, bytes);
        *name_len = bytes.len() as u32;
    }
}

/// Creates a pipe of the caller's, and gives its number.
#[unsafe(no_mangle)]
pub extern "C" fn fsw_raw_create_pipe(
    alloc: Global,
    core: &mut FswCore,
    app: u32,
    depth: u32,
    name: &[u8],
    pipe: &mut u32,
) -> u32
    ensures call { BusCall core.old.held.value core.new.held.value app (Create depth name.now)
        (λ bus. unasked bus.core app (Create depth name.now)) result }
    ensures kept { result ≢ 0 → pipe.new ≡ pipe.old }
    ensures number { result ≡ 0 →
        AnswersBus core.old.held.value core.new.held.value app (Create depth name.now)
        (Number pipe.new) }
{
    let Some(mut it) = core.take(alloc) else {
        return CLOSED;
    };
    let answer = it.bus.create_pipe(app, depth, name);
    *core = FswCore::open(it);
    if let Ok(Ok(number)) = answer {
        *pipe = number;
    }
    code_of_call(&answer)
}

/// Deletes a pipe of the caller's.
#[unsafe(no_mangle)]
pub extern "C" fn fsw_raw_delete_pipe(alloc: Global, core: &mut FswCore, app: u32, pipe: u32) -> u32
    ensures call { BusCall core.old.held.value core.new.held.value app (Delete pipe)
        (λ bus. unasked bus.core app (Delete pipe)) result }
{
    let Some(mut it) = core.take(alloc) else {
        return CLOSED;
    };
    let answer = it.bus.delete_pipe::<Brand>(app, pipe, Blank::new(1));
    *core = FswCore::open(it);
    code_of_call(&answer)
}

/// Sets the options of a pipe of the caller's.
#[unsafe(no_mangle)]
pub extern "C" fn fsw_raw_set_options(
    alloc: Global,
    core: &mut FswCore,
    app: u32,
    pipe: u32,
    bits: u8,
) -> u32
    ensures call { BusCall core.old.held.value core.new.held.value app (SetOpts pipe bits)
        (λ bus. unasked bus.core app (SetOpts pipe bits)) result }
{
    let Some(mut it) = core.take(alloc) else {
        return CLOSED;
    };
    let answer = it.bus.set_opts(app, pipe, bits);
    *core = FswCore::open(it);
    code_of_call(&answer)
}

/// Gives the options of any pipe.
#[unsafe(no_mangle)]
pub extern "C" fn fsw_raw_get_options(
    alloc: Global,
    core: &mut FswCore,
    pipe: u32,
    bits: &mut u8,
) -> u32
    ensures call { AnyonesCall core.old.held.value core.new.held.value (GetOpts pipe) None result }
    ensures kept { result ≢ 0 → bits.new ≡ bits.old }
    ensures number { (app : ℕ) → result ≡ 0 →
        AnswersBus core.old.held.value core.new.held.value app (GetOpts pipe) (Number bits.new) }
{
    let Some(mut it) = core.take(alloc) else {
        return CLOSED;
    };
    let answer = it.bus.get_opts(pipe);
    *core = FswCore::open(it);
    put_bits(bits, &answer);
    code_of_answer(&answer)
}

/// Finds a pipe by its name.
#[unsafe(no_mangle)]
pub extern "C" fn fsw_raw_find_pipe(
    alloc: Global,
    core: &mut FswCore,
    name: &[u8],
    pipe: &mut u32,
) -> u32
    ensures call { AnyonesCall core.old.held.value core.new.held.value (Find name.now)
        (refused_if (nat_lt 64 (length name.now)) TooLong None) result }
    ensures kept { result ≢ 0 → pipe.new ≡ pipe.old }
    ensures number { (app : ℕ) → result ≡ 0 →
        AnswersBus core.old.held.value core.new.held.value app (Find name.now) (Number pipe.new) }
{
    let Some(mut it) = core.take(alloc) else {
        return CLOSED;
    };
    let answer = it.bus.find_pipe(name);
    *core = FswCore::open(it);
    put_found(pipe, &answer);
    code_of_call(&answer)
}

/// Writes the name of any pipe, and how many bytes it has: 19 at most, for which there must be
/// room.
#[unsafe(no_mangle)]
pub extern "C" fn fsw_raw_pipe_name(
    alloc: Global,
    core: &mut FswCore,
    pipe: u32,
    into: &mut [u8],
    name_len: &mut u32,
) -> u32
    ensures call { 19 ≤ length into.old →
        AnyonesCall core.old.held.value core.new.held.value (PipeName pipe) None result }
    ensures few { length into.old < 19 → result ≡ few_code core.old.held.value }
    ensures few_same { length into.old < 19 → core.new.held.value ≡ core.old.held.value }
    ensures kept { result ≢ 0 → into.new ≡ into.old }
    ensures kept_len { result ≢ 0 → name_len.new ≡ name_len.old }
    ensures name { (app : ℕ) → result ≡ 0 →
        AnswersBus core.old.held.value core.new.held.value app (PipeName pipe)
        (Name (take name_len.new into.new)) }
    ensures rest { result ≡ 0 → drop name_len.new into.new ≡ drop name_len.new into.old }
{
    let Some(mut it) = core.take(alloc) else {
        return CLOSED;
    };
    if into.len() < NAME_BYTES {
        *core = FswCore::open(it);
        return SB_BAD_ARGUMENT;
    }
    let answer = it.bus.pipe_name(pipe);
    *core = FswCore::open(it);
    put_name(into, name_len, &answer);
    code_of_answer(&answer)
}

/// Gives how many messages wait on any pipe.
#[unsafe(no_mangle)]
pub extern "C" fn fsw_raw_waiting(
    alloc: Global,
    core: &mut FswCore,
    pipe: u32,
    count: &mut u32,
) -> u32
    ensures status { result ≡ waiting_code core.old.held.value pipe }
    ensures same { core.new.held.value ≡ core.old.held.value }
    ensures kept { result ≢ 0 → count.new ≡ count.old }
    ensures shown { result ≡ 0 →
        IfSome core.old.held.value (λ it. waiting_on it pipe ≡ Some count.new) }
{
    let Some(it) = core.take(alloc) else {
        return CLOSED;
    };
    let answer = it.bus.waiting_count(pipe);
    *core = FswCore::open(it);
    match answer {
        Some(waiting) => {
            *count = waiting;
            SUCCESS
        }
        None => SB_BAD_ARGUMENT,
    }
}
