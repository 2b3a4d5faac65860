//! Lists of tables.
ghost use Rattle.std.specs.Prelude.{◌≡◌, false, map, filter, Some, None, MatchOption};
ghost use Rattle.std.specs.Result.{OnOk};
ghost use Rattle.tbl_words.specs.Tables.{table_at, table_named, with_table, buffers_taken, has_handle};
ghost use Rattle.tbl_words.specs.Machine.{with_range, with_staged, with_validated, with_value, after_leave};

use crate::handles::{has_handle, is_live};
use crate::rows::{ListHandle, ListTable};
use crate::values::Value;
use std::alloc::{AllocError, Global};

/// The table of a number.
pub(crate) fn table_at(tables: &[ListTable], number: u32) -> Option<&ListTable>
    ensures { MatchOption result (table_at tables.now number ≡ None)
        (λ t. table_at tables.now number ≡ Some t.now) }
{
    for table in tables {
        if table.number == number {
            return Some(table);
        }
    }
    None
}

/// The registered table of a name.
pub(crate) fn table_named<'a>(tables: &'a [ListTable], name: &[u8]) -> Option<&'a ListTable>
    ensures { MatchOption result (table_named tables.now name.now ≡ None)
        (λ t. table_named tables.now name.now ≡ Some t.now) }
{
    for table in tables {
        if table.is_named(name) {
            return Some(table);
        }
    }
    None
}

/// How many single-buffered tables have a staged value.
pub(crate) fn buffers_taken(tables: &[ListTable]) -> usize
    ensures { result ≡ buffers_taken tables.now }
{
    tables
        .iter()
        .filter(|table| !table.is_double() && table.staged.is_some())
        .count()
}

/// The value of the table of this number is staged, with these bytes in place of those from an
/// offset on.
pub(crate) fn stage(
    alloc: Global,
    tables: &mut [ListTable],
    number: u32,
    offset: u32,
    bytes: &[u8],
) -> Result<(), AllocError>
    ensures { OnOk result
        (tables.new ≡
        with_table (λ t. with_staged (with_range t.value offset bytes.now) false t)
        number tables.old) }
{
    for table in tables {
        table.stage_if(alloc, number, offset, bytes)?;
    }
    Ok(())
}

/// What is staged for the table of this number is validated.
pub(crate) fn validate(tables: &mut [ListTable], number: u32)
    ensures { tables.new ≡ with_table with_validated number tables.old }
{
    for table in tables {
        table.validate_if(number);
    }
}

/// Nothing is staged for the table of this number.
pub(crate) fn abort(tables: &mut [ListTable], number: u32)
    ensures { tables.new ≡ with_table (λ t. record t { staged = None }) number tables.old }
{
    for table in tables {
        table.abort_if(number);
    }
}

/// A value is that of the table of this number.
pub(crate) fn set_value(
    tables: &mut [ListTable],
    number: u32,
    value: &Value,
) -> Result<(), AllocError>
    ensures { OnOk result
        (tables.new ≡ with_table (with_value value.now.value.items) number tables.old) }
{
    for table in tables {
        table.set_value_if(number, value)?;
    }
    Ok(())
}

/// The tables once only these handles are left.
pub(crate) fn leave(tables: &mut Vec<ListTable>, left: &[ListHandle])
    ensures { tables.new.items ≡
        filter (λ t. has_handle left.now t.number) (map (after_leave left.now) tables.old.items) }
{
    unregister_left(tables, left);
    retain_held(tables, left);
}

// The tables of which a handle is left.
fn retain_held(tables: &mut Vec<ListTable>, left: &[ListHandle])
    ensures { tables.new.items ≡
        filter (λ t. has_handle left.now t.number) tables.old.items }
{
    tables.retain(|table| has_handle(left, table.number));
}

// The tables are unregistered whose owners' handles aren't left.
fn unregister_left(tables: &mut Vec<ListTable>, left: &[ListHandle])
    ensures { tables.new.items ≡ map (after_leave left.now) tables.old.items }
{
    for table in tables.iter_mut() {
        leave_table(table, left);
    }
}

// A table is unregistered whose owner's handle isn't left.
fn leave_table(table: &mut ListTable, left: &[ListHandle])
    ensures { table.new ≡ after_leave left.now table.old }
{
    if !is_live(left, table.number) {
        table.unregister();
    }
}
