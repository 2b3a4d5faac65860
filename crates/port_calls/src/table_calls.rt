//! A call of the tables by a port.
ghost use Rattle.std.specs.Prelude.{◌≡◌};
ghost use Rattle.table_core.specs.Answers.{registered, shared, figures_told, addressed, done};
ghost use Rattle.tbl_load.specs.Core.{MayCall};
ghost use Rattle.tbl_service.specs.Ports.{Answers};
ghost use Rattle.tbl_words.specs.Entries.{call_of};

use std::sync::Wait;
use tbl_service::{Tables, TblPort};
use tbl_words::{Address, Registered, TblAnswer, TblCall, TblState, TblStatus};

/// Makes the application's call at its turn, and tells what it was answered.
pub(crate) fn make<'r, R: Wait>(
    port: &mut TblPort<'r>,
    tables: &Tables<'r>,
    rt: &R,
    call: TblCall<'_>,
) -> TblAnswer
    requires tables { port.old.lock ≡ tables.now }
    requires may { MayCall port.old.seen port.old.app (call_of call) }
    ensures { Answers port.old port.new (call_of call.entry) result }
{
    match call {
        TblCall::Register {
            name,
            size,
            option,
            rules,
        } => owner_handle(port.register(tables, rt, name, size, option, &rules)),
        TblCall::Share { name } => handle_told(port.share(tables, rt, name)),
        TblCall::Unregister { handle } => done(port.unregister(tables, rt, handle)),
        TblCall::Stage {
            handle,
            offset,
            bytes,
        } => done(port.stage(tables, rt, handle, offset, bytes)),
        TblCall::Validate { handle } => done(port.validate(tables, rt, handle)),
        TblCall::Update { handle } => done(port.update(tables, rt, handle)),
        TblCall::Abort { handle } => done(port.abort_load(tables, rt, handle)),
        TblCall::Load {
            handle,
            offset,
            bytes,
        } => done(port.load(tables, rt, handle, offset, bytes)),
        TblCall::GetAddress { handle } => address_told(port.get_address(tables, rt, handle)),
        TblCall::ReleaseAddress { handle } => done(port.release_address(tables, rt, handle)),
        TblCall::Status { handle } => figures(port.status(tables, rt, handle)),
        TblCall::End => {
            port.end(tables, rt);
            TblAnswer::Done
        }
    }
}

// The owner's handle, of a new table or of one that was registered before, or the refusal.
fn owner_handle(answer: Result<Registered, TblStatus>) -> TblAnswer
    ensures { result ≡ registered answer }
{
    match answer {
        Ok(Registered::New(number)) => TblAnswer::Number(number),
        Ok(Registered::Duplicate(number)) => TblAnswer::Duplicate(number),
        Err(status) => TblAnswer::Refused(status),
    }
}

// The number of a new handle, or the refusal.
fn handle_told(answer: Result<u32, TblStatus>) -> TblAnswer
    ensures { result ≡ shared answer }
{
    match answer {
        Ok(number) => TblAnswer::Number(number),
        Err(status) => TblAnswer::Refused(status),
    }
}

// The figures of a table, or the refusal.
fn figures(answer: Result<TblState, TblStatus>) -> TblAnswer
    ensures { result ≡ figures_told answer }
{
    match answer {
        Ok(figures) => TblAnswer::State(figures),
        Err(status) => TblAnswer::Refused(status),
    }
}

// The address of a table, or the refusal.
fn address_told(answer: Result<Address, TblStatus>) -> TblAnswer
    ensures { result ≡ addressed answer }
{
    match answer {
        Ok(address) => TblAnswer::Address {
            told: address.told,
            version: address.version,
        },
        Err(status) => TblAnswer::Refused(status),
    }
}

// Done, or the refusal.
fn done(answer: Result<(), TblStatus>) -> TblAnswer
    ensures { result ≡ done answer }
{
    match answer {
        Ok(()) => TblAnswer::Done,
        Err(status) => TblAnswer::Refused(status),
    }
}
