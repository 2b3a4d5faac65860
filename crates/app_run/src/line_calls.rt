//! The call of the bus that a line makes, and what a line writes.
ghost use Rattle.std.specs.Prelude.{◌≡◌, ◌≤◌, length};
ghost use Rattle.script_runs.specs.Messages.{sent_message};
ghost use Rattle.app_script.specs.Ranges.{IsLineInRange};
ghost use Rattle.script_runs.specs.Trace.{call_of};
ghost use Rattle.buf_desc.specs.Held.{bytes_at};
ghost use Rattle.script_runs.specs.Written.{written_by};
ghost use Rattle.app_calls.specs.Callers.{MayCallBus, MayWrite, Answers, Writes, written_in};
ghost use Rattle.app_run.specs.Lines.{MayRun, IsRun, made_size};

use crate::answers;
use app_calls::{Calls, make_message};
use bus_words::{BusAnswer, Call};
use fsw_base::{EventKind, FilterList, Scope};
use script_calls::Registers;
use script_lines::Line;

/// Makes the call of the bus of a line, its registers filled in, and tells what it was answered;
/// None for a line that makes no such call.
#[tactic(auto, unfolding(script_runs::specs::Trace::call_of, script_runs::specs::LineCalls::line_call_of, app_script::specs::Ranges::IsLineInRange, crate::specs::Lines::made_size))]
pub(crate) fn run_line<C: Calls>(
    calls: &mut C,
    registers: &Registers,
    message: &mut Vec<u8>,
    line: &Line,
) -> Option<BusAnswer>
    requires may { MayRun (C.caller calls.old)
        (call_of registers.now (written_in (C.caller calls.old).bag) line.now) }
    requires range { IsLineInRange line.now }
    requires message { made_size line.now ≤ length message.old.items }
    ensures call { IsRun (C.caller calls.old) (C.caller calls.new)
        (call_of registers.now (written_in (C.caller calls.old).bag) line.now) result }
    ensures message { length message.new.items ≡ length message.old.items }
{
    match line {
        Line::Create { depth, name, .. } => Some(create(calls, *depth, name.as_slice())),
        Line::Delete { pipe } => Some(delete(calls, registers.pipe(*pipe))),
        Line::SetOpts { pipe, bits } => Some(set_opts(calls, registers.pipe(*pipe), *bits)),
        Line::GetOpts { pipe } => Some(get_opts(calls, registers.pipe(*pipe))),
        Line::Find { name, .. } => Some(find(calls, name.as_slice())),
        Line::PipeName { pipe } => Some(name_of(calls, registers.pipe(*pipe))),
        Line::Subscribe {
            id,
            pipe,
            limit,
            scope,
        } => Some(subscribe(calls, *id, registers.pipe(*pipe), *limit, *scope)),
        Line::Unsubscribe { id, pipe } => Some(unsubscribe(calls, *id, registers.pipe(*pipe))),
        Line::Send {
            id,
            size,
            fill,
            inc,
        } => Some(send(calls, message, *id, *size, *fill, *inc)),
        Line::SendRaw { bytes, inc } => Some(transmit(calls, bytes.as_slice(), *inc)),
        Line::Receive { pipe } => Some(receive(calls, registers.pipe(*pipe))),
        Line::Pend { pipe } => Some(pend(calls, registers.pipe(*pipe))),
        Line::Allocate { size, .. } => Some(allocate(calls, *size)),
        Line::TransmitBuffer { buf, inc } => {
            Some(transmit_buffer(calls, registers.buffer(*buf), *inc))
        }
        Line::Release { buf } => Some(release(calls, registers.buffer(*buf))),
        Line::PoolCreate { bytes, .. } => Some(pool_create(calls, *bytes)),
        Line::PoolGet { pool, size, .. } => Some(pool_get(calls, registers.pool(*pool), *size)),
        Line::PoolPut { pool, grant } => {
            let pool = registers.pool(*pool);
            Some(pool_put(calls, pool, registers.grant(*grant)))
        }
        Line::PoolFigures { pool } => Some(pool_figures(calls, registers.pool(*pool))),
        Line::Register { filters } => Some(register(calls, filters)),
        Line::SendEvent { id, kind, text } => Some(send_event(calls, *id, *kind, text.as_slice())),
        Line::ResetFilter { id } => Some(reset_filter(calls, *id)),
        Line::LogMode { mode } => Some(set_log_mode(calls, *mode)),
        Line::ClearLog => Some(clear_log(calls)),
        Line::Housekeeping => Some(send_housekeeping(calls)),
        Line::Figures => Some(figures(calls)),
        _ => None,
    }
}

/// Writes what a line writes into the application's buffers; nothing for all but `form` and `put`.
#[tactic(auto, unfolding(script_runs::specs::Written::written_by))]
pub(crate) fn write_line<C: Calls>(calls: &mut C, registers: &Registers, line: &Line)
    requires { MayWrite (C.caller calls.old) }
    ensures { Writes (C.caller calls.old) (C.caller calls.new)
        (written_by (written_in (C.caller calls.old).bag) registers.now.buffers line.now) }
{
    match line {
        Line::Form { buf, id, fill } => calls.form_buffer(registers.buffer(*buf), *id, *fill),
        Line::Put { buf, offset, bytes } => {
            calls.put_bytes(registers.buffer(*buf), *offset, bytes.as_slice());
        }
        _ => {}
    }
}

// Makes a message of this size and sends it.
fn send<C: Calls>(
    calls: &mut C,
    message: &mut Vec<u8>,
    id: u16,
    size: u32,
    fill: u8,
    inc: bool,
) -> BusAnswer
    requires least { 7 ≤ size }
    requires most { size ≤ 65542 }
    requires room { size ≤ length message.old.items }
    requires may { MayCallBus (C.caller calls.old) (Call.Transmit (sent_message id size fill) inc) }
    ensures call { Answers (C.caller calls.old) (C.caller calls.new)
        (Call.Transmit (sent_message id size fill) inc) result }
    ensures message { length message.new.items ≡ length message.old.items }
{
    let bytes = &mut message[..size as usize];
    make_message(bytes, id, fill);
    transmit(calls, bytes, inc)
}

fn create<C: Calls>(calls: &mut C, depth: u32, name: &[u8]) -> BusAnswer
    requires { MayCallBus (C.caller calls.old) (Call.Create depth name.now) }
    ensures { Answers (C.caller calls.old) (C.caller calls.new) (Call.Create depth name.now)
        result }
{
    let answer = calls.create_pipe(depth, name);
    answers::number(answer)
}

fn delete<C: Calls>(calls: &mut C, pipe: u32) -> BusAnswer
    requires { MayCallBus (C.caller calls.old) (Call.Delete pipe) }
    ensures { Answers (C.caller calls.old) (C.caller calls.new) (Call.Delete pipe) result }
{
    let answer = calls.delete_pipe(pipe);
    answers::done(answer)
}

fn set_opts<C: Calls>(calls: &mut C, pipe: u32, bits: u8) -> BusAnswer
    requires { MayCallBus (C.caller calls.old) (Call.SetOpts pipe bits) }
    ensures { Answers (C.caller calls.old) (C.caller calls.new) (Call.SetOpts pipe bits) result }
{
    let answer = calls.set_opts(pipe, bits);
    answers::done(answer)
}

fn get_opts<C: Calls>(calls: &mut C, pipe: u32) -> BusAnswer
    requires { MayCallBus (C.caller calls.old) (Call.GetOpts pipe) }
    ensures { Answers (C.caller calls.old) (C.caller calls.new) (Call.GetOpts pipe) result }
{
    let answer = calls.get_opts(pipe);
    answers::bits(answer)
}

fn find<C: Calls>(calls: &mut C, name: &[u8]) -> BusAnswer
    requires { MayCallBus (C.caller calls.old) (Call.Find name.now) }
    ensures { Answers (C.caller calls.old) (C.caller calls.new) (Call.Find name.now) result }
{
    let answer = calls.find_pipe(name);
    answers::number(answer)
}

fn name_of<C: Calls>(calls: &mut C, pipe: u32) -> BusAnswer
    requires { MayCallBus (C.caller calls.old) (Call.PipeName pipe) }
    ensures { Answers (C.caller calls.old) (C.caller calls.new) (Call.PipeName pipe) result }
{
    let answer = calls.pipe_name(pipe);
    answers::name(answer)
}

fn subscribe<C: Calls>(calls: &mut C, id: u16, pipe: u32, limit: u32, scope: Scope) -> BusAnswer
    requires { MayCallBus (C.caller calls.old) (Call.Subscribe id pipe limit scope) }
    ensures { Answers (C.caller calls.old) (C.caller calls.new) (Call.Subscribe id pipe limit scope)
        result }
{
    let answer = calls.subscribe(id, pipe, limit, scope);
    answers::done(answer)
}

fn unsubscribe<C: Calls>(calls: &mut C, id: u16, pipe: u32) -> BusAnswer
    requires { MayCallBus (C.caller calls.old) (Call.Unsubscribe id pipe) }
    ensures { Answers (C.caller calls.old) (C.caller calls.new) (Call.Unsubscribe id pipe) result }
{
    let answer = calls.unsubscribe(id, pipe);
    answers::done(answer)
}

fn transmit<C: Calls>(calls: &mut C, bytes: &[u8], inc: bool) -> BusAnswer
    requires { MayCallBus (C.caller calls.old) (Call.Transmit bytes.now inc) }
    ensures { Answers (C.caller calls.old) (C.caller calls.new) (Call.Transmit bytes.now inc)
        result }
{
    let answer = calls.transmit(bytes, inc);
    answers::sent(answer)
}

fn receive<C: Calls>(calls: &mut C, pipe: u32) -> BusAnswer
    requires { MayCallBus (C.caller calls.old) (Call.Receive pipe) }
    ensures { Answers (C.caller calls.old) (C.caller calls.new) (Call.Receive pipe) result }
{
    let answer = calls.receive(pipe);
    answers::got(answer)
}

fn pend<C: Calls>(calls: &mut C, pipe: u32) -> BusAnswer
    requires { MayCallBus (C.caller calls.old) (Call.Pend pipe) }
    ensures { Answers (C.caller calls.old) (C.caller calls.new) (Call.Pend pipe) result }
{
    let answer = calls.pend(pipe);
    answers::pended(answer)
}

fn allocate<C: Calls>(calls: &mut C, size: u32) -> BusAnswer
    requires { MayCallBus (C.caller calls.old) (Call.Allocate size) }
    ensures { Answers (C.caller calls.old) (C.caller calls.new) (Call.Allocate size) result }
{
    let answer = calls.allocate(size);
    answers::number(answer)
}

fn transmit_buffer<C: Calls>(calls: &mut C, buf: u32, inc: bool) -> BusAnswer
    requires { MayCallBus (C.caller calls.old)
        (Call.TransmitBuffer buf (bytes_at (C.caller calls.old).bag buf) inc) }
    ensures { Answers (C.caller calls.old) (C.caller calls.new)
        (Call.TransmitBuffer buf (bytes_at (C.caller calls.old).bag buf) inc) result }
{
    let answer = calls.transmit_buffer(buf, inc);
    answers::sent(answer)
}

fn release<C: Calls>(calls: &mut C, buf: u32) -> BusAnswer
    requires { MayCallBus (C.caller calls.old) (Call.Release buf) }
    ensures { Answers (C.caller calls.old) (C.caller calls.new) (Call.Release buf) result }
{
    let answer = calls.release(buf);
    answers::done(answer)
}

fn pool_create<C: Calls>(calls: &mut C, bytes: u32) -> BusAnswer
    requires { MayCallBus (C.caller calls.old) (Call.PoolCreate bytes) }
    ensures { Answers (C.caller calls.old) (C.caller calls.new) (Call.PoolCreate bytes) result }
{
    let answer = calls.pool_create(bytes);
    answers::pool_told(answer)
}

fn pool_get<C: Calls>(calls: &mut C, pool: u32, size: u32) -> BusAnswer
    requires { MayCallBus (C.caller calls.old) (Call.PoolGet pool size) }
    ensures { Answers (C.caller calls.old) (C.caller calls.new) (Call.PoolGet pool size) result }
{
    let answer = calls.pool_get(pool, size);
    answers::pool_told(answer)
}

fn pool_put<C: Calls>(calls: &mut C, pool: u32, grant: u32) -> BusAnswer
    requires { MayCallBus (C.caller calls.old) (Call.PoolPut pool grant) }
    ensures { Answers (C.caller calls.old) (C.caller calls.new) (Call.PoolPut pool grant) result }
{
    let answer = calls.pool_put(pool, grant);
    answers::grant_back(answer)
}

fn pool_figures<C: Calls>(calls: &mut C, pool: u32) -> BusAnswer
    requires { MayCallBus (C.caller calls.old) (Call.PoolFigures pool) }
    ensures { Answers (C.caller calls.old) (C.caller calls.new) (Call.PoolFigures pool) result }
{
    let answer = calls.pool_stats(pool);
    answers::figures(answer)
}

fn register<C: Calls>(calls: &mut C, filters: &FilterList) -> BusAnswer
    requires { MayCallBus (C.caller calls.old) (Call.Register filters.now) }
    ensures { Answers (C.caller calls.old) (C.caller calls.new) (Call.Register filters.now) result }
{
    calls.evs_register(filters);
    BusAnswer::Done
}

fn send_event<C: Calls>(calls: &mut C, id: u16, kind: EventKind, text: &[u8]) -> BusAnswer
    requires { MayCallBus (C.caller calls.old) (Call.SendEvent id kind text.now) }
    ensures { Answers (C.caller calls.old) (C.caller calls.new) (Call.SendEvent id kind text.now)
        result }
{
    let answer = calls.send_event(id, kind, text);
    answers::event_told(answer)
}

fn reset_filter<C: Calls>(calls: &mut C, id: u16) -> BusAnswer
    requires { MayCallBus (C.caller calls.old) (Call.ResetFilter id) }
    ensures { Answers (C.caller calls.old) (C.caller calls.new) (Call.ResetFilter id) result }
{
    let answer = calls.reset_filter(id);
    answers::event_told(answer)
}

fn set_log_mode<C: Calls>(calls: &mut C, mode: u8) -> BusAnswer
    requires { MayCallBus (C.caller calls.old) (Call.LogMode mode) }
    ensures { Answers (C.caller calls.old) (C.caller calls.new) (Call.LogMode mode) result }
{
    calls.set_log_mode(mode);
    BusAnswer::Done
}

fn clear_log<C: Calls>(calls: &mut C) -> BusAnswer
    requires { MayCallBus (C.caller calls.old) Call.ClearLog }
    ensures { Answers (C.caller calls.old) (C.caller calls.new) Call.ClearLog result }
{
    calls.clear_log();
    BusAnswer::Done
}

fn send_housekeeping<C: Calls>(calls: &mut C) -> BusAnswer
    requires { MayCallBus (C.caller calls.old) Call.Housekeeping }
    ensures { Answers (C.caller calls.old) (C.caller calls.new) Call.Housekeeping result }
{
    let answer = calls.send_housekeeping();
    answers::sent(answer)
}

fn figures<C: Calls>(calls: &mut C) -> BusAnswer
    requires { MayCallBus (C.caller calls.old) Call.Figures }
    ensures { Answers (C.caller calls.old) (C.caller calls.new) Call.Figures result }
{
    let answer = calls.bus_stats();
    BusAnswer::Bus(answer)
}
