//! The call of the tables that a line makes.
ghost use Rattle.std.specs.Prelude.{◌≡◌, ◌≤◌, length};
ghost use Rattle.app_script.specs.Ranges.{IsLineInRange};
ghost use Rattle.script_runs.specs.Messages.{content_bytes};
ghost use Rattle.script_runs.specs.TableTrace.{table_call_of};
ghost use Rattle.app_calls.specs.TableCallers.{MayCallTables, TablesAnswer};
ghost use Rattle.app_run.specs.Lines.{filling_size, made_size};
ghost use Rattle.app_run.specs.TableLines.{MayRunAtTables, IsRunAtTables};

use app_calls::{Calls, fill_payload};
use script_calls::Handles;
use script_lines::{Content, Line};
use tbl_rules::RuleList;
use tbl_words::{Call as TableCall, TblAnswer, TblCall};

/// Makes the call of the tables of a line, its register filled in, and tells what it was answered;
/// None for a line that makes no such call.
#[tactic(auto, unfolding(script_runs::specs::TableTrace::table_call_of, script_runs::specs::LineCalls::line_call_of, app_script::specs::Ranges::IsLineInRange, crate::specs::Lines::made_size))]
pub(crate) fn run_table_line<C: Calls>(
    calls: &mut C,
    handles: &Handles,
    made: &mut Vec<u8>,
    line: &Line,
) -> Option<TblAnswer>
    requires may { MayRunAtTables (C.caller calls.old) (table_call_of handles.now line.now) }
    requires range { IsLineInRange line.now }
    requires made { made_size line.now ≤ length made.old.items }
    ensures call { IsRunAtTables (C.caller calls.old) (C.caller calls.new)
        (table_call_of handles.now line.now) result }
    ensures made { length made.new.items ≡ length made.old.items }
{
    match line {
        Line::TableRegister {
            name,
            size,
            option,
            rules,
            ..
        } => Some(register(calls, name.as_slice(), *size, *option, rules.list())),
        Line::TableShare { name, .. } => Some(share(calls, name.as_slice())),
        Line::TableUnregister { handle } => Some(unregister(calls, handles.at(*handle))),
        Line::Stage {
            handle,
            offset,
            content,
        } => Some(stage(calls, handles.at(*handle), *offset, made, content)),
        Line::Validate { handle } => Some(validate(calls, handles.at(*handle))),
        Line::Update { handle } => Some(update(calls, handles.at(*handle))),
        Line::Abort { handle } => Some(abort(calls, handles.at(*handle))),
        Line::Load {
            handle,
            offset,
            content,
        } => Some(load(calls, handles.at(*handle), *offset, made, content)),
        Line::GetAddress { handle } => Some(get_address(calls, handles.at(*handle))),
        Line::ReleaseAddress { handle } => Some(release_address(calls, handles.at(*handle))),
        Line::Status { handle } => Some(status(calls, handles.at(*handle))),
        _ => None,
    }
}

fn register<C: Calls>(
    calls: &mut C,
    name: &[u8],
    size: u32,
    option: u32,
    rules: &RuleList,
) -> TblAnswer
    requires { MayCallTables (C.caller calls.old)
        (TableCall.Register name.now size option rules.now) }
    ensures { TablesAnswer (C.caller calls.old) (C.caller calls.new)
        (TableCall.Register name.now size option rules.now) result }
{
    calls.table_call(TblCall::Register {
        name,
        size,
        option,
        rules: rules.again(),
    })
}

fn share<C: Calls>(calls: &mut C, name: &[u8]) -> TblAnswer
    requires { MayCallTables (C.caller calls.old) (TableCall.Share name.now) }
    ensures { TablesAnswer (C.caller calls.old) (C.caller calls.new) (TableCall.Share name.now)
        result }
{
    calls.table_call(TblCall::Share { name })
}

fn unregister<C: Calls>(calls: &mut C, handle: u32) -> TblAnswer
    requires { MayCallTables (C.caller calls.old) (TableCall.Unregister handle) }
    ensures { TablesAnswer (C.caller calls.old) (C.caller calls.new)
        (TableCall.Unregister handle) result }
{
    calls.table_call(TblCall::Unregister { handle })
}

// Stages a content: the bytes that it spells, or so many that are made in this room.
fn stage<C: Calls>(
    calls: &mut C,
    handle: u32,
    offset: u32,
    made: &mut Vec<u8>,
    content: &Content,
) -> TblAnswer
    requires may { MayCallTables (C.caller calls.old)
        (TableCall.Stage handle offset (content_bytes content.now)) }
    requires made { filling_size content.now ≤ length made.old.items }
    ensures call { TablesAnswer (C.caller calls.old) (C.caller calls.new)
        (TableCall.Stage handle offset (content_bytes content.now)) result }
    ensures made { length made.new.items ≡ length made.old.items }
{
    match content {
        Content::Hex(bytes) => calls.table_call(TblCall::Stage {
            handle,
            offset,
            bytes: bytes.as_slice(),
        }),
        Content::Fill { len, byte } => {
            let bytes = &mut made[..*len as usize];
            fill_payload(bytes, *byte);
            calls.table_call(TblCall::Stage {
                handle,
                offset,
                bytes,
            })
        }
    }
}

fn validate<C: Calls>(calls: &mut C, handle: u32) -> TblAnswer
    requires { MayCallTables (C.caller calls.old) (TableCall.Validate handle) }
    ensures { TablesAnswer (C.caller calls.old) (C.caller calls.new) (TableCall.Validate handle)
        result }
{
    calls.table_call(TblCall::Validate { handle })
}

fn update<C: Calls>(calls: &mut C, handle: u32) -> TblAnswer
    requires { MayCallTables (C.caller calls.old) (TableCall.Update handle) }
    ensures { TablesAnswer (C.caller calls.old) (C.caller calls.new) (TableCall.Update handle)
        result }
{
    calls.table_call(TblCall::Update { handle })
}

fn abort<C: Calls>(calls: &mut C, handle: u32) -> TblAnswer
    requires { MayCallTables (C.caller calls.old) (TableCall.Abort handle) }
    ensures { TablesAnswer (C.caller calls.old) (C.caller calls.new) (TableCall.Abort handle)
        result }
{
    calls.table_call(TblCall::Abort { handle })
}

// Loads one.
fn load<C: Calls>(
    calls: &mut C,
    handle: u32,
    offset: u32,
    made: &mut Vec<u8>,
    content: &Content,
) -> TblAnswer
    requires may { MayCallTables (C.caller calls.old)
        (TableCall.Load handle offset (content_bytes content.now)) }
    requires made { filling_size content.now ≤ length made.old.items }
    ensures call { TablesAnswer (C.caller calls.old) (C.caller calls.new)
        (TableCall.Load handle offset (content_bytes content.now)) result }
    ensures made { length made.new.items ≡ length made.old.items }
{
    match content {
        Content::Hex(bytes) => calls.table_call(TblCall::Load {
            handle,
            offset,
            bytes: bytes.as_slice(),
        }),
        Content::Fill { len, byte } => {
            let bytes = &mut made[..*len as usize];
            fill_payload(bytes, *byte);
            calls.table_call(TblCall::Load {
                handle,
                offset,
                bytes,
            })
        }
    }
}

fn get_address<C: Calls>(calls: &mut C, handle: u32) -> TblAnswer
    requires { MayCallTables (C.caller calls.old) (TableCall.GetAddress handle) }
    ensures { TablesAnswer (C.caller calls.old) (C.caller calls.new)
        (TableCall.GetAddress handle) result }
{
    calls.table_call(TblCall::GetAddress { handle })
}

fn release_address<C: Calls>(calls: &mut C, handle: u32) -> TblAnswer
    requires { MayCallTables (C.caller calls.old) (TableCall.ReleaseAddress handle) }
    ensures { TablesAnswer (C.caller calls.old) (C.caller calls.new)
        (TableCall.ReleaseAddress handle) result }
{
    calls.table_call(TblCall::ReleaseAddress { handle })
}

fn status<C: Calls>(calls: &mut C, handle: u32) -> TblAnswer
    requires { MayCallTables (C.caller calls.old) (TableCall.Status handle) }
    ensures { TablesAnswer (C.caller calls.old) (C.caller calls.new) (TableCall.Status handle)
        result }
{
    calls.table_call(TblCall::Status { handle })
}
