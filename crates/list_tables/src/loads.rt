//! Loads, validation and updates.
ghost use Rattle.std.specs.Prelude.{◌≡◌, false, None};
ghost use Rattle.std.specs.Result.{OnOk};
ghost use Rattle.tbl_words.specs.Machine.{refused_if, with_range, with_staged, with_validated, with_table_of, after_update, after_load, rules_cause, stage_cause, validate_cause, update_cause, abort_cause, load_cause, is_locked, is_partial};
ghost use Rattle.list_tables.specs.Kept.{updated};

use crate::handles::{is_held, is_held_apart, mark_all};
use crate::machine::ListTables;
use crate::rows::ListTable;
use crate::tables::{abort, buffers_taken, set_value, stage, validate};
use crate::values::{Value, again, failed_rule, with_range};
use std::alloc::{AllocError, Global};
use tbl_words::TblStatus;

// How many single-buffered tables may have something staged at once.
const WORKING_BUFFERS: usize = 4;

// Whether these bytes aren't the whole table.
fn is_partial(table: &ListTable, offset: u32, bytes: &[u8]) -> bool
    ensures { result ≡ is_partial table.now offset bytes.now }
{
    !(offset == 0 && bytes.len() == table.size as usize)
}

// Why a value can't be the table's by its rules, if it can't.
fn rules_cause(table: &ListTable, value: &[u8]) -> Option<TblStatus>
    ensures { result ≡ rules_cause table.now.rules value.now None }
{
    match failed_rule(table.rules.as_slice(), value) {
        Some(number) => Some(TblStatus::Validation(number)),
        None => None,
    }
}

/// Why what is staged can't be validated, if it can't.
pub(crate) fn validate_cause(table: &ListTable) -> Option<TblStatus>
    ensures { result ≡ validate_cause table.now }
{
    match &table.staged {
        None => Some(TblStatus::NoLoad),
        Some(staged) => rules_cause(table, &staged.value),
    }
}

/// Why what is staged can't be dropped, if it can't.
pub(crate) fn abort_cause(table: &ListTable) -> Option<TblStatus>
    ensures { result ≡ abort_cause table.now }
{
    match &table.staged {
        None => Some(TblStatus::NoLoad),
        Some(_) => None,
    }
}

impl ListTables {
    // Whether a table is single buffered and held.
    fn is_locked(&self, table: &ListTable) -> bool
        ensures { result ≡ is_locked self.now.state table.now }
    {
        !table.is_double() && is_held(&self.handles, table.number)
    }

    /// Why these bytes can't be staged for a table, if they can't.
    pub(crate) fn stage_cause(
        &self,
        table: &ListTable,
        offset: u32,
        bytes: &[u8],
    ) -> Option<TblStatus>
        ensures { result ≡ stage_cause self.now.state offset bytes.now None table.now }
    {
        let end = (offset as usize).saturating_add(bytes.len());
        if table.option == 2 {
            Some(TblStatus::ErrDumpOnly)
        } else if end > table.size as usize {
            Some(TblStatus::ErrFileTooLarge)
        } else if !table.loaded && is_partial(table, offset, bytes) {
            Some(TblStatus::ErrPartialLoad)
        } else if table.staged.is_some() {
            Some(TblStatus::ErrLoadInProgress)
        } else if table.is_double() && is_held_apart(&self.handles, table.number, table.version) {
            Some(TblStatus::InfoTableLocked)
        } else if !table.is_double() && buffers_taken(&self.tables) >= WORKING_BUFFERS {
            Some(TblStatus::ErrNoBufferAvail)
        } else {
            None
        }
    }

    /// Why these bytes, which would make this value, can't be loaded in one, if they can't.
    pub(crate) fn load_cause(
        &self,
        table: &ListTable,
        offset: u32,
        bytes: &[u8],
        value: &[u8],
    ) -> Option<TblStatus>
        requires { value.now ≡ with_range table.now.value offset bytes.now }
        ensures { result ≡ load_cause self.now.state offset bytes.now table.now }
    {
        match self.stage_cause(table, offset, bytes) {
            Some(why) => Some(why),
            None => match rules_cause(table, value) {
                Some(why) => Some(why),
                None => self.lock_cause(table),
            },
        }
    }

    // That a table is locked, if it is.
    fn lock_cause(&self, table: &ListTable) -> Option<TblStatus>
        ensures { result ≡
            refused_if (is_locked self.now.state table.now) TblStatus.InfoTableLocked None }
    {
        if self.is_locked(table) {
            Some(TblStatus::InfoTableLocked)
        } else {
            None
        }
    }

    /// Why what is staged can't be the table's value, if it can't.
    pub(crate) fn update_cause(&self, table: &ListTable) -> Option<TblStatus>
        ensures { result ≡ update_cause self.now.state table.now }
    {
        match &table.staged {
            None => Some(TblStatus::InfoNoUpdatePending),
            Some(staged) => {
                if !staged.validated {
                    Some(TblStatus::NotValidated)
                } else if self.is_locked(table) {
                    Some(TblStatus::InfoTableLocked)
                } else {
                    None
                }
            }
        }
    }

    // The table of this number has this value, and all its handles are marked.
    fn set_value(&mut self, number: u32, value: &Value) -> Result<(), AllocError>
        ensures { OnOk result
            (self.new ≡
            record self.old {
              state = updated self.old.state number value.now.value.items;
            }) }
    {
        set_value(&mut self.tables, number, value)?;
        mark_all(&mut self.handles, number);
        Ok(())
    }

    /// Stages a load.
    pub(crate) fn stage(
        &mut self,
        alloc: Global,
        handle: u32,
        offset: u32,
        bytes: &[u8],
    ) -> Result<(), AllocError>
        ensures { OnOk result
            (self.new ≡
            record self.old {
              state = with_table_of self.old.state handle
                  (λ t. with_staged (with_range t.value offset bytes.now) false t);
            }) }
    {
        match self.number_of(handle) {
            Some(number) => stage(alloc, &mut self.tables, number, offset, bytes),
            None => Ok(()),
        }
    }

    /// What is staged is valid.
    pub(crate) fn validate(&mut self, handle: u32)
        ensures { self.new ≡
            record self.old { state = with_table_of self.old.state handle with_validated } }
    {
        if let Some(number) = self.number_of(handle) {
            validate(&mut self.tables, number);
        }
    }

    /// Drops what is staged.
    pub(crate) fn abort(&mut self, handle: u32)
        ensures { self.new ≡
            record self.old {
              state = with_table_of self.old.state handle (λ t. record t { staged = None });
            } }
    {
        if let Some(number) = self.number_of(handle) {
            abort(&mut self.tables, number);
        }
    }

    /// Makes what is staged the table's value.
    pub(crate) fn update(&mut self, handle: u32) -> Result<(), AllocError>
        ensures { OnOk result
            (self.new ≡ record self.old { state = after_update self.old.state handle }) }
    {
        let (number, value) = match self.table_of(handle) {
            Some(table) => match &table.staged {
                Some(staged) => (table.number, again(&staged.value)?),
                None => return Ok(()),
            },
            None => return Ok(()),
        };
        self.set_value(number, &value)
    }

    /// Makes the table's value with these bytes in it the table's value.
    pub(crate) fn load(
        &mut self,
        alloc: Global,
        handle: u32,
        offset: u32,
        bytes: &[u8],
    ) -> Result<(), AllocError>
        ensures { OnOk result
            (self.new ≡
            record self.old { state = after_load self.old.state handle offset bytes.now }) }
    {
        let (number, value) = match self.table_of(handle) {
            Some(table) => {
                (
                    table.number,
                    with_range(alloc, &table.value, offset, bytes)?,
                )
            }
            None => return Ok(()),
        };
        self.set_value(number, &value)
    }
}
