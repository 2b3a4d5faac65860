//! The call of the bus that a line makes.
ghost use Rattle.std.specs.Prelude.{◌≡◌, is_some};
ghost use Rattle.std.specs.Option.{option_map};
ghost use Rattle.bus_words.specs.Entries.{call_of as call_in};
ghost use Rattle.script_runs.specs.Trace.{Registers as RegistersThere, call_of};
ghost use Rattle.script_runs.specs.Written.{Written};
ghost use Rattle.script_calls.specs.Made.{made_bytes};
ghost use Rattle.script_calls.specs.Rows.{written_in};

use crate::buffers::Buffers;
use crate::registers::Registers;
use bus_words::BusCall;
use script_lines::Line;

/// The call of the bus that a line makes, with the application's registers filled in; None for a
/// line that the bus doesn't see. `made` are the bytes that the line makes.
#[tactic(auto, unfolding(script_runs::specs::Trace::call_of, script_runs::specs::LineCalls::line_call_of, crate::specs::Made::made_bytes))]
pub fn bus_call<'a>(
    registers: &Registers,
    buffers: &Buffers,
    line: &'a Line,
    made: &'a [u8],
) -> Option<BusCall<'a>>
    requires { made.now ≡ made_bytes registers.now (written_in buffers.now) line.now }
    ensures { option_map call_in result ≡
        call_of registers.now (written_in buffers.now) line.now }
{
    match line {
        Line::Create { depth, name, .. } => Some(BusCall::Create {
            depth: *depth,
            name: name.as_slice(),
        }),
        Line::Delete { pipe } => Some(BusCall::Delete {
            pipe: registers.pipe(*pipe),
        }),
        Line::SetOpts { pipe, bits } => Some(BusCall::SetOpts {
            pipe: registers.pipe(*pipe),
            bits: *bits,
        }),
        Line::GetOpts { pipe } => Some(BusCall::GetOpts {
            pipe: registers.pipe(*pipe),
        }),
        Line::Find { name, .. } => Some(BusCall::Find {
            name: name.as_slice(),
        }),
        Line::PipeName { pipe } => Some(BusCall::PipeName {
            pipe: registers.pipe(*pipe),
        }),
        Line::Subscribe {
            id,
            pipe,
            limit,
            scope,
        } => Some(BusCall::Subscribe {
            id: *id,
            pipe: registers.pipe(*pipe),
            limit: *limit,
            scope: *scope,
        }),
        Line::Unsubscribe { id, pipe } => Some(BusCall::Unsubscribe {
            id: *id,
            pipe: registers.pipe(*pipe),
        }),
        Line::Send { inc, .. } => Some(BusCall::Transmit {
            bytes: made,
            inc: *inc,
        }),
        Line::SendRaw { bytes, inc } => Some(BusCall::Transmit {
            bytes: bytes.as_slice(),
            inc: *inc,
        }),
        Line::Receive { pipe } => Some(BusCall::Receive {
            pipe: registers.pipe(*pipe),
        }),
        Line::Pend { pipe } => Some(BusCall::Pend {
            pipe: registers.pipe(*pipe),
        }),
        Line::Allocate { size, .. } => Some(BusCall::Allocate { size: *size }),
        Line::TransmitBuffer { buf, inc } => Some(BusCall::TransmitBuffer {
            buf: registers.buffer(*buf),
            bytes: made,
            inc: *inc,
        }),
        Line::Release { buf } => Some(BusCall::Release {
            buf: registers.buffer(*buf),
        }),
        Line::PoolCreate { bytes, .. } => Some(BusCall::PoolCreate { bytes: *bytes }),
        Line::PoolGet { pool, size, .. } => Some(BusCall::PoolGet {
            pool: registers.pool(*pool),
            size: *size,
        }),
        Line::PoolPut { pool, grant } => Some(BusCall::PoolPut {
            pool: registers.pool(*pool),
            grant: registers.grant(*grant),
        }),
        Line::PoolFigures { pool } => Some(BusCall::PoolFigures {
            pool: registers.pool(*pool),
        }),
        Line::Register { filters } => Some(BusCall::Register {
            filters: filters.again(),
        }),
        Line::SendEvent { id, kind, text } => Some(BusCall::SendEvent {
            id: *id,
            kind: *kind,
            text: text.as_slice(),
        }),
        Line::ResetFilter { id } => Some(BusCall::ResetFilter { id: *id }),
        Line::LogMode { mode } => Some(BusCall::LogMode { mode: *mode }),
        Line::ClearLog => Some(BusCall::ClearLog),
        Line::Housekeeping => Some(BusCall::Housekeeping),
        Line::Figures => Some(BusCall::Figures),
        _ => None,
    }
}

/// Whether a line makes a call of the bus.
#[tactic(auto, unfolding(script_runs::specs::Trace::call_of, script_runs::specs::LineCalls::line_call_of))]
pub fn is_bus_line(line: &Line) -> bool
    ensures { (registers : RegistersThere) (written : Written) →
        result ≡ is_some (call_of registers written line.now) }
{
    match line {
        Line::TableRegister { .. } | Line::TableShare { .. } | Line::TableUnregister { .. } => {
            false
        }
        Line::Stage { .. } | Line::Validate { .. } | Line::Update { .. } => false,
        Line::Abort { .. } | Line::Load { .. } | Line::GetAddress { .. } => false,
        Line::ReleaseAddress { .. } | Line::Status { .. } => false,
        Line::Form { .. } | Line::Put { .. } => false,
        Line::ShowPipe { .. } | Line::ShowTable { .. } => false,
        _ => true,
    }
}
