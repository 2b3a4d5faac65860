//! What an application reaches by a handle.
ghost use Rattle.std.specs.Prelude.{◌≡◌, None, Some, MatchOption};
ghost use Rattle.std.specs.Option.{option_map};
ghost use Rattle.tbl_words.specs.Tables.{table_of};
ghost use Rattle.tbl_words.specs.Machine.{access_cause};
ghost use Rattle.list_tables.specs.Access.{IsAccess};

use crate::handles::{is_live, owns, table_number};
use crate::machine::ListTables;
use crate::rows::ListTable;
use crate::tables::table_at;
use fsw_base::AppNo;
use tbl_words::TblStatus;

/// What an application reaches by a handle.
pub(crate) enum Access<'a> {
    /// Nothing, for this reason.
    Refused(TblStatus),
    /// The handle's table, which is registered.
    Reached(&'a ListTable),
    /// Nothing, since the handle's table isn't there.
    Nowhere,
}

impl ListTables {
    /// The table of a live handle.
    pub(crate) fn table_of(&self, handle: u32) -> Option<&ListTable>
        ensures { MatchOption result (table_of self.now.state handle ≡ None)
            (λ t. table_of self.now.state handle ≡ Some t.now) }
    {
        match table_number(&self.handles, handle) {
            Some(number) => table_at(&self.tables, number),
            None => None,
        }
    }

    /// The number of the table of a live handle.
    pub(crate) fn number_of(&self, handle: u32) -> Option<u32>
        ensures { result ≡ option_map (λ t. t.number) (table_of self.now.state handle) }
    {
        match self.table_of(handle) {
            Some(table) => Some(table.number),
            None => None,
        }
    }

    /// Why an application has no access to a handle, if it has none.
    pub(crate) fn access_cause(&self, app: AppNo, handle: u32) -> Option<TblStatus>
        ensures { result ≡ access_cause self.now.state app handle None }
    {
        if !is_live(&self.handles, handle) {
            Some(TblStatus::ErrInvalidHandle)
        } else if !owns(&self.handles, app, handle) {
            Some(TblStatus::ErrNoAccess)
        } else {
            None
        }
    }

    /// What an application reaches by a handle.
    pub(crate) fn access(&self, app: AppNo, handle: u32) -> Access<'_>
        ensures { IsAccess self.now.state app handle result }
    {
        if !is_live(&self.handles, handle) {
            return Access::Refused(TblStatus::ErrInvalidHandle);
        }
        if !owns(&self.handles, app, handle) {
            return Access::Refused(TblStatus::ErrNoAccess);
        }
        match self.table_of(handle) {
            Some(table) => {
                if table.registered {
                    Access::Reached(table)
                } else {
                    Access::Refused(TblStatus::ErrUnregistered)
                }
            }
            None => Access::Nowhere,
        }
    }
}
