//! The receipts that an application makes of what it received and holds.
ghost use Rattle.std.specs.Prelude.{◌≡◌, ◌+◌, ◌≤◌, ◌++◌, length, unwrap_or};
ghost use Rattle.bus_words.specs.Receipts.{receipt_in};
ghost use Rattle.bus_words.specs.declared.receipts.Receipt.TheVariants.{Nothing};
ghost use Rattle.sb_calls.specs.Core.{state_of};
ghost use Rattle.script_runs.specs.Told.{shown, held_in};
ghost use Rattle.script_runs.specs.TableTrace.{table_call_of};
ghost use Rattle.script_runs.specs.Trace.{call_of};
ghost use Rattle.script_runs.specs.Written.{Written};
ghost use Rattle.app_calls.specs.Callers.{HasOwnBag};
ghost use Rattle.app_calls.specs.TableCallers.{HasOwnTables};
ghost use Rattle.tbl_load.specs.Core.{state_of as tables_of};
ghost use Rattle.app_run.specs.Lines.{most_receipts};
ghost use Rattle.app_run.specs.Received.{taken_from, taken_by, number_from, newest_number, Remember};
ghost use Rattle.app_run.specs.Received.{held_receipt, held_under, taken_at_tables, version_from, newest_version, RememberHeld};
ghost use Rattle.app_run.specs.TableLines.{most_table_receipts};

use app_calls::Calls;
use bus_words::{BusAnswer, Head, Receipt, ReceiptList};
use script_calls::{Handles, Registers};
use script_lines::Line;
use tbl_words::{TableReceipt, TblAnswer};

/// Adds the receipt of a line that was so answered: one if it got a message.
#[tactic(auto, unfolding(script_runs::specs::Trace::call_of, script_runs::specs::LineCalls::line_call_of))]
pub(crate) fn take_got<C: Calls>(
    calls: &C,
    registers: &Registers,
    line: &Line,
    answer: &BusAnswer,
    receipts: &mut ReceiptList,
)
    requires bag { HasOwnBag (C.caller calls.now) }
    requires room { 1 ≤ receipts.old.room }
    ensures receipts { (written : Written) → receipts.new.receipts ≡ receipts.old.receipts ++
        taken_by (C.caller calls.now) (call_of registers.now written line.now) answer.now }
    ensures room { receipts.old.room ≤ receipts.new.room + most_receipts answer.now }
{
    let BusAnswer::Got(number) = answer else {
        return;
    };
    match line {
        Line::Receive { pipe } => take_receipt(calls, registers.pipe(*pipe), *number, receipts),
        Line::Pend { pipe } => take_receipt(calls, registers.pipe(*pipe), *number, receipts),
        _ => {}
    }
}

/// Adds the receipt of the pipe's last message, received under this send number, if there is
/// one.
pub(crate) fn take_receipt<C: Calls>(calls: &C, pipe: u32, number: u32, receipts: &mut ReceiptList)
    requires bag { HasOwnBag (C.caller calls.now) }
    requires room { 1 ≤ receipts.old.room }
    ensures receipts { receipts.new.receipts ≡
        receipts.old.receipts ++ taken_from (C.caller calls.now) pipe number }
    ensures room { receipts.old.room ≤ receipts.new.room + 1 }
{
    if let Some(message) = calls.last(pipe) {
        receipts.push(Receipt::of_message(pipe, number, message));
    }
}

/// Adds the receipt of a line of the tables that was so answered: one if it gave an address.
#[tactic(auto, unfolding(script_runs::specs::TableTrace::table_call_of, script_runs::specs::LineCalls::line_call_of))]
pub(crate) fn take_address<C: Calls>(
    calls: &C,
    handles: &Handles,
    line: &Line,
    answer: &TblAnswer,
    receipts: &mut ReceiptList,
)
    requires bag { HasOwnTables (C.caller calls.now) }
    requires small { (C.caller calls.now).tables.limits.tablemax ≤ 65536 }
    requires room { 1 ≤ receipts.old.room }
    ensures receipts { receipts.new.receipts ≡ receipts.old.receipts ++
        taken_at_tables (C.caller calls.now) (table_call_of handles.now line.now) answer.now }
    ensures room { receipts.old.room ≤ receipts.new.room + most_table_receipts answer.now }
{
    let TblAnswer::Address { version, .. } = answer else {
        return;
    };
    match line {
        Line::GetAddress { handle } => {
            take_held(calls, handles.at(*handle), *version, receipts);
        }
        _ => {}
    }
}

// Adds the receipt of what a handle holds, under this version, if it holds something.
fn take_held<C: Calls>(calls: &C, handle: u32, version: u32, receipts: &mut ReceiptList)
    requires bag { HasOwnTables (C.caller calls.now) }
    requires small { (C.caller calls.now).tables.limits.tablemax ≤ 65536 }
    requires room { 1 ≤ receipts.old.room }
    ensures receipts { receipts.new.receipts ≡
        receipts.old.receipts ++ held_under (C.caller calls.now) handle version }
    ensures room { receipts.old.room ≤ receipts.new.room + 1 }
{
    if let Some(bytes) = calls.held(handle) {
        receipts.push(held_receipt(handle, version, bytes));
    }
}

/// Adds what a line shows that makes no call.
#[tactic(auto, unfolding(script_runs::specs::Told::shown))]
pub(crate) fn show<C: Calls>(
    calls: &C,
    registers: &Registers,
    handles: &Handles,
    line: &Line,
    receipts: &mut ReceiptList,
)
    requires bag { HasOwnBag (C.caller calls.now) }
    requires held { HasOwnTables (C.caller calls.now) }
    requires small { (C.caller calls.now).tables.limits.tablemax ≤ 65536 }
    requires remember { Remember receipts.old.receipts (state_of (C.caller calls.now).core)
        (C.caller calls.now).app }
    requires remember_held { RememberHeld receipts.old.receipts
        (tables_of (C.caller calls.now).tables) (C.caller calls.now).app }
    requires room { 1 ≤ receipts.old.room }
    ensures receipts { receipts.new.receipts ≡ receipts.old.receipts ++
        shown (C.caller calls.now).app (state_of (C.caller calls.now).core)
        (tables_of (C.caller calls.now).tables) registers.now handles.now line.now }
    ensures room { receipts.old.room ≤ receipts.new.room + 1 }
{
    match line {
        Line::ShowPipe { pipe } => {
            let receipt = last_receipt(calls, registers.pipe(*pipe), receipts);
            receipts.push(receipt);
        }
        Line::ShowTable { handle } => {
            let receipt = hold_receipt(calls, handles.at(*handle), receipts);
            receipts.push(receipt);
        }
        _ => {}
    }
}

// The receipt of what a handle holds; `Nothing` if it holds nothing. Its version is that of the
// newest receipt of the handle.
fn hold_receipt<C: Calls>(calls: &C, handle: u32, receipts: &ReceiptList) -> Receipt
    requires bag { HasOwnTables (C.caller calls.now) }
    requires small { (C.caller calls.now).tables.limits.tablemax ≤ 65536 }
    requires remember { RememberHeld receipts.now.receipts
        (tables_of (C.caller calls.now).tables) (C.caller calls.now).app }
    ensures { result ≡
        unwrap_or
        (held_in (tables_of (C.caller calls.now).tables) (C.caller calls.now).app handle) Nothing }
{
    let Some(bytes) = calls.held(handle) else {
        return Receipt::Nothing;
    };
    let version = newest_version(receipts, handle).unwrap();
    held_receipt(handle, version, bytes)
}

// The receipt of a version that a handle holds, of these bytes.
fn held_receipt(handle: u32, version: u32, bytes: &[u8]) -> Receipt
    requires { length bytes.now ≤ 65536 }
    ensures { result ≡ held_receipt handle version bytes.now }
{
    let receipt = TableReceipt::new(handle, version, bytes);
    Receipt::Table {
        handle: receipt.handle,
        version: receipt.version,
        size: receipt.size,
        sum: receipt.sum,
        head: Head::try_new(receipt.head).unwrap(),
    }
}

// The version that the newest of the receipts of a handle is of.
fn newest_version(receipts: &ReceiptList, handle: u32) -> Option<u32>
    ensures { result ≡ newest_version receipts.now.receipts handle }
{
    for place in (0..receipts.len()).rev() {
        let version = version_from(receipts.get(place), handle);
        if version.is_some() {
            return version;
        }
    }
    None
}

// The version of a receipt of a handle.
fn version_from(receipt: &Receipt, handle: u32) -> Option<u32>
    ensures { result ≡ version_from receipt.now handle }
{
    match receipt {
        Receipt::Table {
            handle: from,
            version,
            ..
        } if *from == handle => Some(*version),
        _ => None,
    }
}

// The receipt of the pipe's last message; `Nothing` if there is none. Its number is that of the
// newest receipt from the pipe.
fn last_receipt<C: Calls>(calls: &C, pipe: u32, receipts: &ReceiptList) -> Receipt
    requires bag { HasOwnBag (C.caller calls.now) }
    requires remember { Remember receipts.now.receipts (state_of (C.caller calls.now).core)
        (C.caller calls.now).app }
    ensures { result ≡
        unwrap_or
        (receipt_in (state_of (C.caller calls.now).core) (C.caller calls.now).app pipe) Nothing }
{
    let Some(message) = calls.last(pipe) else {
        return Receipt::Nothing;
    };
    let number = newest_number(receipts, pipe).unwrap();
    Receipt::of_message(pipe, number, message)
}

// The send number of the newest of the receipts from the pipe.
fn newest_number(receipts: &ReceiptList, pipe: u32) -> Option<u32>
    ensures { result ≡ newest_number receipts.now.receipts pipe }
{
    for place in (0..receipts.len()).rev() {
        let number = number_from(receipts.get(place), pipe);
        if number.is_some() {
            return number;
        }
    }
    None
}

// The send number of a receipt from the pipe.
fn number_from(receipt: &Receipt, pipe: u32) -> Option<u32>
    ensures { result ≡ number_from receipt.now pipe }
{
    match receipt {
        Receipt::Message {
            pipe: from,
            number,
            ..
        } if *from == pipe => Some(*number),
        _ => None,
    }
}
