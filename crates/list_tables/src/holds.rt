//! Handles, and what they hold.
ghost use Rattle.std.specs.Prelude.{◌≡◌, IfOk};
ghost use Rattle.std.specs.Result.{OnOk};
ghost use Rattle.tbl_words.specs.Machine.{address_of, after_address, figures_of, status_of, without_hold};
ghost use Rattle.tbl_words.specs.Tables.{with_handle};

use crate::handles::{handle_at, holds_of, release, take};
use crate::machine::ListTables;
use crate::numbers::narrow;
use crate::rows::ListTable;
use crate::values::again;
use std::alloc::AllocError;
use tbl_words::{TblAnswer, TblState, TblStatus};

impl ListTables {
    /// The handle holds the present version of its table.
    pub(crate) fn take_address(&mut self, handle: u32) -> Result<(), AllocError>
        ensures { OnOk result
            (self.new ≡ record self.old { state = after_address self.old.state handle }) }
    {
        let (version, value) = match self.table_of(handle) {
            Some(table) => (table.version, again(&table.value)?),
            None => return Ok(()),
        };
        take(&mut self.handles, handle, version, &value)
    }

    /// What an address is answered.
    pub(crate) fn address_of(&self, handle: u32) -> TblAnswer
        ensures { result ≡ address_of self.now.state handle }
    {
        let table = match self.table_of(handle) {
            Some(table) => table,
            None => return TblAnswer::Refused(TblStatus::ErrInvalidHandle),
        };
        match handle_at(&self.handles, handle) {
            Some(found) => TblAnswer::Address {
                told: found.told(table),
                version: table.version,
            },
            None => TblAnswer::Refused(TblStatus::ErrInvalidHandle),
        }
    }

    /// The handle holds nothing.
    pub(crate) fn release_address(&mut self, handle: u32)
        ensures { self.new ≡
            record self.old {
              state = record self.old.state {
                handles = with_handle without_hold handle self.old.state.handles;
              };
            } }
    {
        release(&mut self.handles, handle);
    }

    /// The figures of the handle's table.
    pub(crate) fn status_of(&self, handle: u32) -> Result<TblAnswer, AllocError>
        ensures { IfOk result (λ answer. answer ≡ status_of self.now.state handle) }
    {
        match self.table_of(handle) {
            Some(table) => Ok(TblAnswer::State(self.figures_of(table)?)),
            None => Ok(TblAnswer::Refused(TblStatus::ErrInvalidHandle)),
        }
    }

    // The figures of a table.
    fn figures_of(&self, table: &ListTable) -> Result<TblState, AllocError>
        ensures { IfOk result (λ figures. figures ≡ figures_of self.now.state table.now) }
    {
        let holds = narrow(holds_of(&self.handles, table.number) as u64)?;
        Ok(TblState {
            version: table.version,
            loaded: table.loaded,
            staged: table.staged_number(),
            holds,
        })
    }
}
