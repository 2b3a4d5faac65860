//! Lists of handles.
ghost use Rattle.std.specs.Prelude.{◌≡◌, ◌==◌, ◌&&◌, not, filter, option_map, None, Some, MatchOption};
ghost use Rattle.std.specs.Result.{OnOk};
ghost use Rattle.tbl_words.specs.Tables.{handle_at, is_live, owns, has_handle, holds_of, is_held, is_held_apart, all_marked, with_handle};
ghost use Rattle.tbl_words.specs.Machine.{with_hold, without_hold};

use crate::rows::ListHandle;
use crate::values::Value;
use fsw_base::AppNo;
use std::alloc::AllocError;

/// The handle of a number.
pub(crate) fn handle_at(handles: &[ListHandle], number: u32) -> Option<&ListHandle>
    ensures { MatchOption result (handle_at handles.now number ≡ None)
        (λ h. handle_at handles.now number ≡ Some h.now) }
{
    for handle in handles {
        if handle.number == number {
            return Some(handle);
        }
    }
    None
}

/// The table of the handle of a number.
pub(crate) fn table_number(handles: &[ListHandle], number: u32) -> Option<u32>
    ensures { result ≡ option_map (λ h. h.table) (handle_at handles.now number) }
{
    for handle in handles {
        if handle.number == number {
            return Some(handle.table);
        }
    }
    None
}

/// Whether a handle of this number is among them.
pub(crate) fn is_live(handles: &[ListHandle], number: u32) -> bool
    ensures { result ≡ is_live handles.now number }
{
    handles.iter().any(|handle| handle.number == number)
}

/// Whether a handle of this number is among them and this application's.
pub(crate) fn owns(handles: &[ListHandle], app: AppNo, number: u32) -> bool
    ensures { result ≡ owns handles.now app number }
{
    handles
        .iter()
        .any(|handle| handle.number == number && handle.app == app)
}

/// Whether one of them is of this table.
pub(crate) fn has_handle(handles: &[ListHandle], table: u32) -> bool
    ensures { result ≡ has_handle handles.now table }
{
    handles.iter().any(|handle| handle.table == table)
}

/// How many of them hold a version of this table.
pub(crate) fn holds_of(handles: &[ListHandle], table: u32) -> usize
    ensures { result ≡ holds_of handles.now table }
{
    handles
        .iter()
        .filter(|handle| handle.table == table && handle.hold.is_some())
        .count()
}

/// Whether one of them holds a version of this table.
pub(crate) fn is_held(handles: &[ListHandle], table: u32) -> bool
    ensures { result ≡ is_held handles.now table }
{
    handles
        .iter()
        .any(|handle| handle.table == table && handle.hold.is_some())
}

/// Whether one of them holds another version of this table than this one.
pub(crate) fn is_held_apart(handles: &[ListHandle], table: u32, version: u32) -> bool
    ensures { result ≡ is_held_apart handles.now table version }
{
    handles.iter().any(|handle| handle.table == table && handle.holds_other(version))
}

/// The next address of each handle of this table answers that it was updated.
pub(crate) fn mark_all(handles: &mut [ListHandle], table: u32)
    ensures { handles.new ≡ all_marked table handles.old }
{
    for handle in handles {
        handle.mark_if(table);
    }
}

/// The one of this number holds this version.
pub(crate) fn take(
    handles: &mut [ListHandle],
    number: u32,
    version: u32,
    value: &Value,
) -> Result<(), AllocError>
    ensures { OnOk result
        (handles.new ≡ with_handle (with_hold version value.now.value.items) number handles.old) }
{
    for handle in handles {
        handle.take_if(number, version, value)?;
    }
    Ok(())
}

/// The one of this number holds nothing.
pub(crate) fn release(handles: &mut [ListHandle], number: u32)
    ensures { handles.new ≡ with_handle without_hold number handles.old }
{
    for handle in handles {
        handle.release_if(number);
    }
}

/// Those but the one of this number.
pub(crate) fn remove(handles: &mut Vec<ListHandle>, number: u32)
    ensures { handles.new.items ≡ filter (λ h. not (h.number == number)) handles.old.items }
{
    handles.retain(|handle| handle.number != number);
}

/// Those of the other applications.
pub(crate) fn leave_others(handles: &mut Vec<ListHandle>, app: AppNo)
    ensures { handles.new.items ≡ filter (λ h. not (h.app == app)) handles.old.items }
{
    handles.retain(|handle| handle.app != app);
}
