//! A call straight of the core of the tables.
ghost use Rattle.std.specs.Prelude.{◌≡◌};
ghost use Rattle.table_core.specs.Answers.{registered, shared, figures_told, addressed, done};
ghost use Rattle.tbl_load.specs.Bags.{HasBag};
ghost use Rattle.tbl_load.specs.Core.{MayCall, Does};
ghost use Rattle.tbl_words.specs.Entries.{call_of};

use fsw_base::AppNo;
use step_count::{Ledger, Steps};
use tbl_load::{HeldTables, TblCore};
use tbl_words::{Address, Registered, TblAnswer, TblCall, TblState, TblStatus};

/// Makes the application's call, with its bag of tables, and tells what it was answered.
pub(crate) fn make<'r, L: Ledger>(
    tables: &mut TblCore<'r>,
    app: AppNo,
    held: &mut HeldTables<'r>,
    steps: &mut Steps<L>,
    call: TblCall<'_>,
) -> TblAnswer
    requires may { MayCall tables.old app (call_of call) }
    requires bag { HasBag tables.old app held.old }
    ensures does { Does tables.old tables.new app (call_of call.entry) result }
    ensures bag { HasBag tables.new app held.new }
{
    match call {
        TblCall::Register {
            name,
            size,
            option,
            rules,
        } => owner_handle(tables.register(app, name, size, option, &rules, steps)),
        TblCall::Share { name } => handle_told(tables.share(app, name)),
        TblCall::Unregister { handle } => done(tables.unregister(app, handle, held, steps)),
        TblCall::Stage {
            handle,
            offset,
            bytes,
        } => done(tables.stage(app, handle, offset, bytes)),
        TblCall::Validate { handle } => done(tables.validate(app, handle)),
        TblCall::Update { handle } => done(tables.update(app, handle)),
        TblCall::Abort { handle } => done(tables.abort_load(app, handle)),
        TblCall::Load {
            handle,
            offset,
            bytes,
        } => done(tables.load(app, handle, offset, bytes)),
        TblCall::GetAddress { handle } => address_told(tables.get_address(app, handle, held)),
        TblCall::ReleaseAddress { handle } => done(tables.release_address(app, handle, held)),
        TblCall::Status { handle } => figures(tables.status(app, handle)),
        TblCall::End => {
            tables.end(app, held, steps);
            TblAnswer::Done
        }
    }
}

// The owner's handle, of a new table or of one that was registered before, or the refusal.
fn owner_handle(answer: Result<Registered, TblStatus>) -> TblAnswer
    ensures { result ≡ registered answer }
{
    match answer {
        Ok(Registered::New(number)) => TblAnswer::Number(number),
        Ok(Registered::Duplicate(number)) => TblAnswer::Duplicate(number),
        Err(status) => TblAnswer::Refused(status),
    }
}

// The number of a new handle, or the refusal.
fn handle_told(answer: Result<u32, TblStatus>) -> TblAnswer
    ensures { result ≡ shared answer }
{
    match answer {
        Ok(number) => TblAnswer::Number(number),
        Err(status) => TblAnswer::Refused(status),
    }
}

// The figures of a table, or the refusal.
fn figures(answer: Result<TblState, TblStatus>) -> TblAnswer
    ensures { result ≡ figures_told answer }
{
    match answer {
        Ok(figures) => TblAnswer::State(figures),
        Err(status) => TblAnswer::Refused(status),
    }
}

// The address of a table, or the refusal.
fn address_told(answer: Result<Address, TblStatus>) -> TblAnswer
    ensures { result ≡ addressed answer }
{
    match answer {
        Ok(address) => TblAnswer::Address {
            told: address.told,
            version: address.version,
        },
        Err(status) => TblAnswer::Refused(status),
    }
}

// Done, or the refusal.
fn done(answer: Result<(), TblStatus>) -> TblAnswer
    ensures { result ≡ done answer }
{
    match answer {
        Ok(()) => TblAnswer::Done,
        Err(status) => TblAnswer::Refused(status),
    }
}
