//! The receipts that lines make of the tables.
ghost use Rattle.std.specs.Prelude.{◌≡◌, IfOk};
ghost use Rattle.std.specs.Option.{option_to_list};
ghost use Rattle.tbl_words.specs.Entries.{call_of};
ghost use Rattle.tbl_words.specs.Receipts.{receipt_of};
ghost use Rattle.script_runs.specs.Told.{addressed_in, held_in};
ghost use Rattle.run_check.specs.TablePlaces.{shown_at_tables};
ghost use Rattle.table_replay.specs.Places.{kept_receipt};

use bus_words::{Head, Receipt};
use fsw_base::AppNo;
use list_tables::ListTables;
use script_calls::Handles;
use script_lines::Line;
use std::alloc::AllocError;
use tbl_words::{TableReceipt, TblAnswer, TblCall};

/// The receipt of what a line shows of the tables; None for a line that shows nothing of them.
#[tactic(auto, unfolding(run_check::specs::TablePlaces::shown_at_tables))]
pub(crate) fn shown_receipt(
    tables: &ListTables,
    who: AppNo,
    handles: &Handles,
    line: &Line,
) -> Result<Option<Receipt>, AllocError>
    ensures { IfOk result (λ receipt. option_to_list receipt ≡
        shown_at_tables who tables.now.state handles.now line.now) }
{
    match line {
        Line::ShowTable { handle } => match held(tables, who, handles.at(*handle))? {
            Some(receipt) => Ok(Some(receipt)),
            None => Ok(Some(Receipt::Nothing)),
        },
        _ => Ok(None),
    }
}

/// The receipt that an address makes: of what its handle holds then; None for any other answer.
pub(crate) fn address_receipt(
    tables: &ListTables,
    who: AppNo,
    call: &TblCall<'_>,
    answer: &TblAnswer,
) -> Result<Option<Receipt>, AllocError>
    ensures { IfOk result (λ receipt. option_to_list receipt ≡
        addressed_in who tables.now.state (call_of call.now) answer.now) }
{
    match (call, answer) {
        (TblCall::GetAddress { handle }, TblAnswer::Address { .. }) => held(tables, who, *handle),
        _ => Ok(None),
    }
}

// The receipt of what a handle of an application's holds, if it holds something.
fn held(tables: &ListTables, who: AppNo, handle: u32) -> Result<Option<Receipt>, AllocError>
    ensures { IfOk result (λ receipt. receipt ≡ held_in tables.now.state who handle) }
{
    match tables.held_receipt(who, handle)? {
        Some(receipt) => Ok(Some(kept(&receipt)?)),
        None => Ok(None),
    }
}

// The receipt, with bytes of its own.
fn kept(receipt: &TableReceipt<'_>) -> Result<Receipt, AllocError>
    ensures { IfOk result (λ kept. kept ≡ kept_receipt (receipt_of receipt.now)) }
{
    match Head::try_new(receipt.head) {
        Some(head) => Ok(Receipt::Table {
            handle: receipt.handle,
            version: receipt.version,
            size: receipt.size,
            sum: receipt.sum,
            head,
        }),
        None => Err(AllocError),
    }
}
