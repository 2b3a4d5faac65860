//! The call of the tables that a line makes.
ghost use Rattle.std.specs.Prelude.{◌≡◌, ℕ, List, is_some};
ghost use Rattle.std.specs.Option.{option_map};
ghost use Rattle.tbl_words.specs.Entries.{call_of as call_in};
ghost use Rattle.script_runs.specs.TableTrace.{table_call_of};
ghost use Rattle.script_calls.specs.Made.{content_made};

use crate::handles::Handles;
use script_lines::Line;
use tbl_words::TblCall;

/// The call of the tables that a line makes, with the application's registers filled in; None for
/// a line that the tables don't see. `made` are the bytes that the line makes.
#[tactic(auto, unfolding(script_runs::specs::TableTrace::table_call_of, script_runs::specs::LineCalls::line_call_of, crate::specs::Made::content_made))]
pub fn table_call<'a>(handles: &Handles, line: &'a Line, made: &'a [u8]) -> Option<TblCall<'a>>
    requires { made.now ≡ content_made line.now }
    ensures { option_map call_in result ≡ table_call_of handles.now line.now }
{
    match line {
        Line::TableRegister {
            name,
            size,
            option,
            rules,
            ..
        } => Some(TblCall::Register {
            name: name.as_slice(),
            size: *size,
            option: *option,
            rules: rules.list().again(),
        }),
        Line::TableShare { name, .. } => Some(TblCall::Share {
            name: name.as_slice(),
        }),
        Line::TableUnregister { handle } => Some(TblCall::Unregister {
            handle: handles.at(*handle),
        }),
        Line::Stage { handle, offset, .. } => Some(TblCall::Stage {
            handle: handles.at(*handle),
            offset: *offset,
            bytes: made,
        }),
        Line::Validate { handle } => Some(TblCall::Validate {
            handle: handles.at(*handle),
        }),
        Line::Update { handle } => Some(TblCall::Update {
            handle: handles.at(*handle),
        }),
        Line::Abort { handle } => Some(TblCall::Abort {
            handle: handles.at(*handle),
        }),
        Line::Load { handle, offset, .. } => Some(TblCall::Load {
            handle: handles.at(*handle),
            offset: *offset,
            bytes: made,
        }),
        Line::GetAddress { handle } => Some(TblCall::GetAddress {
            handle: handles.at(*handle),
        }),
        Line::ReleaseAddress { handle } => Some(TblCall::ReleaseAddress {
            handle: handles.at(*handle),
        }),
        Line::Status { handle } => Some(TblCall::Status {
            handle: handles.at(*handle),
        }),
        _ => None,
    }
}

/// Whether a line makes a call of the tables.
#[tactic(auto, unfolding(script_runs::specs::TableTrace::table_call_of, script_runs::specs::LineCalls::line_call_of))]
pub fn is_table_line(line: &Line) -> bool
    ensures { (handles : List ℕ) → result ≡ is_some (table_call_of handles line.now) }
{
    match line {
        Line::TableRegister { .. } | Line::TableShare { .. } | Line::TableUnregister { .. } => true,
        Line::Stage { .. } | Line::Validate { .. } | Line::Update { .. } => true,
        Line::Abort { .. } | Line::Load { .. } | Line::GetAddress { .. } => true,
        Line::ReleaseAddress { .. } | Line::Status { .. } => true,
        _ => false,
    }
}
