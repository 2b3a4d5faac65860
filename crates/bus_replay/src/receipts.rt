//! The receipts that lines make of the bus.
ghost use Rattle.std.specs.Prelude.{◌≡◌, IfOk};
ghost use Rattle.std.specs.Option.{option_to_list};
ghost use Rattle.bus_words.specs.Entries.{call_of};
ghost use Rattle.bus_words.specs.Receipts.{message_receipt, receipt_in};
ghost use Rattle.script_runs.specs.Told.{got_in};
ghost use Rattle.run_check.specs.Places.{shown_at_bus};

use bus_words::{BusAnswer, BusCall, Receipt};
use ccsds_msg::read_header;
use fsw_base::AppNo;
use list_bus::ListBus;
use script_calls::Registers;
use script_lines::Line;
use std::alloc::AllocError;

/// The receipt of what a line shows of the bus; None for a line that shows nothing of it.
#[tactic(auto, unfolding(run_check::specs::Places::shown_at_bus))]
pub(crate) fn shown_receipt(
    bus: &ListBus,
    who: AppNo,
    registers: &Registers,
    line: &Line,
) -> Result<Option<Receipt>, AllocError>
    ensures { IfOk result (λ receipt. option_to_list receipt ≡
        shown_at_bus who bus.now.whole.bus registers.now line.now) }
{
    match line {
        Line::ShowPipe { pipe } => match last(bus, who, registers.pipe(*pipe))? {
            Some(receipt) => Ok(Some(receipt)),
            None => Ok(Some(Receipt::Nothing)),
        },
        _ => Ok(None),
    }
}

/// The receipt that a call makes which got a message; None for any other answer.
pub(crate) fn got_receipt(
    bus: &ListBus,
    who: AppNo,
    call: &BusCall<'_>,
    answer: &BusAnswer,
) -> Result<Option<Receipt>, AllocError>
    ensures { IfOk result (λ receipt. option_to_list receipt ≡
        got_in who bus.now.whole.bus (call_of call.now) answer.now) }
{
    match (call, answer) {
        (BusCall::Receive { pipe }, BusAnswer::Got(_)) => last(bus, who, *pipe),
        (BusCall::Pend { pipe }, BusAnswer::Got(_)) => last(bus, who, *pipe),
        (BusCall::Look { pipe }, BusAnswer::Got(_)) => last(bus, who, *pipe),
        _ => Ok(None),
    }
}

// The receipt of the message received last from an application's pipe, if there is one.
fn last(bus: &ListBus, who: AppNo, pipe: u32) -> Result<Option<Receipt>, AllocError>
    ensures { IfOk result (λ receipt. receipt ≡ receipt_in bus.now.whole.bus who pipe) }
{
    match bus.last_message(who, pipe) {
        Some(item) => Ok(Some(receipt_of(pipe, item.number(), item.message())?)),
        None => Ok(None),
    }
}

// The receipt of a message.
fn receipt_of(pipe: u32, number: u32, message: &[u8]) -> Result<Receipt, AllocError>
    ensures { IfOk result (λ receipt. receipt ≡ message_receipt pipe number message.now) }
{
    if u32::try_from(message.len()).is_err() {
        return Err(AllocError);
    }
    match read_header(message) {
        Ok(_) => Ok(Receipt::of_message(pipe, number, message)),
        Err(_) => Err(AllocError),
    }
}
