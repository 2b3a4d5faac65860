//! What is kept of a table, of a handle, and of what is staged and held.
ghost use Rattle.std.specs.Prelude.{◌≡◌, ◌==◌, ◌&&◌, ◌≤◌, if◌then◌else◌, true, false, None, IfOk};
ghost use Rattle.std.specs.Option.{option_map};
ghost use Rattle.std.specs.Str.{bytes_eq};
ghost use Rattle.std.specs.Result.{OnOk};
ghost use Rattle.tbl_words.specs.Tables.{is_double, is_other, with_mark};
ghost use Rattle.tbl_words.specs.Receipts.{receipt_of, table_receipt};
ghost use Rattle.tbl_words.specs.Machine.{new_table, with_range, with_staged, with_validated, with_value, with_hold, without_hold, told_of, staged_number};

use crate::numbers::one_more;
use crate::values::{Value, again, with_range, zeros};
use fsw_base::{AppNo, MAX_TABLE_BYTES};
use std::alloc::{AllocError, Global};
use std::marker::Model;
use tbl_rules::RuleList;
use tbl_words::{TableReceipt, Told};

/// A value that was loaded and isn't the table's yet.
#[derive(Drop)]
pub(crate) struct ListStaged {
    /// Its bytes.
    pub value: Value,
    /// Whether it passed validation.
    pub validated: bool,
}

impl Model for ListStaged {
    ghost use Rattle.tbl_words.specs.Tables.{Staged};

    ghost Value = { Staged };

    ghost view = { λ s. record { value = s.value.value.items; validated = s.validated } };
}

/// A table that has a handle.
#[derive(Drop)]
pub(crate) struct ListTable {
    /// The number of its owner's handle.
    pub number: u32,
    /// Its name.
    pub name: Vec<u8>,
    /// The application that registered it.
    pub owner: AppNo,
    /// Whether its owner's handle is live.
    pub registered: bool,
    /// How many bytes it has.
    pub size: u32,
    /// 0 single buffered, 1 double buffered, 2 single buffered and dump only.
    pub option: u32,
    /// What its validation asks.
    pub rules: RuleList,
    /// How often it was updated.
    pub version: u32,
    /// Its bytes.
    pub value: Value,
    /// Whether it was ever updated.
    pub loaded: bool,
    /// What is staged, if anything.
    pub staged: Option<ListStaged>,
}

impl Model for ListTable {
    ghost use Rattle.tbl_words.specs.Tables.{Table};

    ghost Value = { Table };

    ghost view = { λ t. record {
      number = t.number;
      name = t.name.items;
      owner = t.owner;
      registered = t.registered;
      size = t.size;
      option = t.option;
      rules = t.rules;
      version = t.version;
      value = t.value.value.items;
      loaded = t.loaded;
      staged = t.staged;
    } };
}

/// A version of a table that a handle holds.
#[derive(Drop)]
pub(crate) struct ListHold {
    /// Which version.
    pub version: u32,
    /// Its bytes.
    pub value: Value,
}

impl Model for ListHold {
    ghost use Rattle.tbl_words.specs.Tables.{Hold};

    ghost Value = { Hold };

    ghost view = { λ h. record { version = h.version; value = h.value.value.items } };
}

/// A live handle.
#[derive(Drop)]
pub(crate) struct ListHandle {
    /// Its number.
    pub number: u32,
    /// Its application.
    pub app: AppNo,
    /// The number of its table.
    pub table: u32,
    /// Whether its next address answers that the table was updated.
    pub marked: bool,
    /// What it holds, if anything.
    pub hold: Option<ListHold>,
}

impl Model for ListHandle {
    ghost use Rattle.tbl_words.specs.Tables.{Handle};

    ghost Value = { Handle };

    ghost view = { λ h. record {
      number = h.number;
      app = h.app;
      table = h.table;
      marked = h.marked;
      hold = h.hold;
    } };
}

impl ListTable {
    /// A table as it is registered.
    pub(crate) fn new(
        alloc: Global,
        number: u32,
        app: AppNo,
        name: &[u8],
        size: u32,
        option: u32,
        rules: RuleList,
    ) -> Result<ListTable, AllocError>
        ensures { IfOk result (λ t. t ≡ new_table number app name.now size option rules) }
    {
        let name = Vec::from_slice(alloc, name)?;
        let value = zeros(alloc, size)?;
        Ok(ListTable {
            number,
            name,
            owner: app,
            registered: true,
            size,
            option,
            rules,
            version: 0,
            value,
            loaded: false,
            staged: None,
        })
    }

    /// Whether it is the registered table of a name.
    pub(crate) fn is_named(&self, name: &[u8]) -> bool
        ensures { result ≡ (self.now.registered && bytes_eq self.now.name name.now) }
    {
        self.registered && self.name.as_slice() == name
    }

    /// Whether it is double buffered.
    pub(crate) fn is_double(&self) -> bool
        ensures { result ≡ is_double self.now }
    {
        self.option == 1
    }

    // This value is staged.
    fn stage(&mut self, value: Value)
        ensures { self.new ≡ with_staged value.value.items false self.old }
    {
        self.staged = Some(ListStaged {
            value,
            validated: false,
        });
    }

    /// Its value is staged with these bytes in place of those from an offset on, if it has the
    /// number.
    pub(crate) fn stage_if(
        &mut self,
        alloc: Global,
        number: u32,
        offset: u32,
        bytes: &[u8],
    ) -> Result<(), AllocError>
        ensures { OnOk result
            (self.new ≡
            (if self.old.number == number
            then with_staged (with_range self.old.value offset bytes.now) false self.old
            else self.old)) }
    {
        if self.number == number {
            let value = with_range(alloc, &self.value, offset, bytes)?;
            self.stage(value);
        }
        Ok(())
    }

    /// What is staged is validated, if it has the number.
    pub(crate) fn validate_if(&mut self, number: u32)
        ensures { self.new ≡
            (if self.old.number == number then with_validated self.old else self.old) }
    {
        if self.number == number {
            self.validate();
        }
    }

    /// Nothing is staged, if it has the number.
    pub(crate) fn abort_if(&mut self, number: u32)
        ensures { self.new ≡
            (if self.old.number == number then (record self.old { staged = None }) else self.old) }
    {
        if self.number == number {
            self.abort();
        }
    }

    /// This value is the table's, if it has the number.
    pub(crate) fn set_value_if(&mut self, number: u32, value: &Value) -> Result<(), AllocError>
        ensures { OnOk result
            (self.new ≡
            (if self.old.number == number then with_value value.now.value.items self.old
            else self.old)) }
    {
        if self.number == number {
            self.set_value(again(value)?)?;
        }
        Ok(())
    }

    // What is staged is validated.
    fn validate(&mut self)
        ensures { self.new ≡ with_validated self.old }
    {
        let staged = self.staged.take();
        self.staged = match staged {
            Some(staged) => Some(ListStaged {
                value: staged.value,
                validated: true,
            }),
            None => None,
        };
    }

    // Nothing is staged.
    fn abort(&mut self)
        ensures { self.new ≡ record self.old { staged = None } }
    {
        self.staged = None;
    }

    // This value is the table's.
    fn set_value(&mut self, value: Value) -> Result<(), AllocError>
        ensures { OnOk result (self.new ≡ with_value value.value.items self.old) }
    {
        self.version = one_more(self.version)?;
        self.value = value;
        self.loaded = true;
        self.staged = None;
        Ok(())
    }

    /// The table isn't registered any more.
    pub(crate) fn unregister(&mut self)
        ensures { self.new ≡ record self.old { registered = false; staged = None } }
    {
        self.registered = false;
        self.staged = None;
    }

    /// 0 if nothing is staged, 1 if something is, 2 if it was validated.
    pub(crate) fn staged_number(&self) -> u32
        ensures { result ≡ staged_number self.now.staged }
    {
        match &self.staged {
            None => 0,
            Some(staged) => { if staged.validated { 2 } else { 1 } }
        }
    }
}

impl ListHold {
    // Its receipt, under a handle of this number.
    fn receipt(&self, number: u32) -> Result<TableReceipt<'_>, AllocError>
        ensures { IfOk result (λ receipt. receipt_of receipt ≡
            table_receipt number self.now.version self.now.value) }
    {
        if self.value.len() > MAX_TABLE_BYTES as usize {
            return Err(AllocError);
        }
        Ok(TableReceipt::new(number, self.version, &self.value))
    }
}

impl ListHandle {
    // Its next address answers that the table was updated.
    fn mark(&mut self)
        ensures { self.new ≡ with_mark self.old }
    {
        self.marked = true;
    }

    /// Its next address answers that the table was updated, if it is of this table.
    pub(crate) fn mark_if(&mut self, table: u32)
        ensures { self.new ≡
            (if self.old.table == table then with_mark self.old else self.old) }
    {
        if self.table == table {
            self.mark();
        }
    }

    /// It holds this version, if it has the number.
    pub(crate) fn take_if(
        &mut self,
        number: u32,
        version: u32,
        value: &Value,
    ) -> Result<(), AllocError>
        ensures { OnOk result
            (self.new ≡
            (if self.old.number == number then with_hold version value.now.value.items self.old
            else self.old)) }
    {
        if self.number == number {
            self.take(version, value)?;
        }
        Ok(())
    }

    /// It holds nothing, if it has the number.
    pub(crate) fn release_if(&mut self, number: u32)
        ensures { self.new ≡
            (if self.old.number == number then without_hold self.old else self.old) }
    {
        if self.number == number {
            self.release();
        }
    }

    // It holds this version.
    fn take(&mut self, version: u32, value: &Value) -> Result<(), AllocError>
        ensures { OnOk result (self.new ≡ with_hold version value.now.value.items self.old) }
    {
        let value = again(value)?;
        self.marked = false;
        self.hold = Some(ListHold { version, value });
        Ok(())
    }

    // It holds nothing.
    fn release(&mut self)
        ensures { self.new ≡ without_hold self.old }
    {
        self.hold = None;
    }

    /// Whether it holds another version than this one.
    pub(crate) fn holds_other(&self, version: u32) -> bool
        ensures { result ≡ is_other version self.now.hold }
    {
        match &self.hold {
            Some(hold) => hold.version != version,
            None => false,
        }
    }

    /// What its address answers of its table, beside the version.
    pub(crate) fn told(&self, table: &ListTable) -> Told
        ensures { result ≡ told_of table.now self.now }
    {
        if !table.loaded {
            Told::NeverLoaded
        } else if self.marked {
            Told::Updated
        } else {
            Told::Same
        }
    }

    /// The receipt of what it holds, under a handle of this number.
    pub(crate) fn receipt(&self, number: u32) -> Result<Option<TableReceipt<'_>>, AllocError>
        ensures { IfOk result (λ receipt. option_map receipt_of receipt ≡
            option_map (λ held. table_receipt number held.version held.value) self.now.hold) }
    {
        match &self.hold {
            Some(hold) => Ok(Some(hold.receipt(number)?)),
            None => Ok(None),
        }
    }
}
