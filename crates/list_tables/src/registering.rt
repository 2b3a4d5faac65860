//! Registrations and shares.
ghost use Rattle.std.specs.Prelude.{◌≡◌, ◌==◌, ◌||◌, ◌<◌, ◌≤◌, ◌^◌, ◌+◌, nat_lt, length, slice_index, IfOk, IfSome};
ghost use Rattle.fsw_base.specs.Blocks.{class_of};
ghost use Rattle.fsw_base.specs.PoolAccounts.{has_room_for};
ghost use Rattle.std.specs.Result.{OnOk};
ghost use Rattle.tbl_rules.specs.Rules.{is_misfit, has_misfit};
ghost use Rattle.tbl_words.specs.Tables.{account_of, fits, blocks_for};
ghost use Rattle.tbl_words.specs.Machine.{register_cause, share_cause, after_register, after_share, duplicate_cause, new_table_cause, with_new_handle, with_new_table, with_blocks};
ghost use Rattle.list_tables.specs.Kept.{leaves};

use crate::machine::ListTables;
use crate::numbers::{narrow, one_more};
use crate::room::{blocks_for, blocks_out};
use crate::rows::{ListHandle, ListTable};
use crate::tables::table_named;
use fsw_base::AppNo;
use list_pool::has_room_in;
use std::alloc::{AllocError, Global};
use tbl_rules::{Rule, RuleList};
use tbl_words::{TblAnswer, TblStatus};

// The longest name of a table, in bytes.
const NAME_BYTES: usize = 15;

// Whether the name hasn't 1 to 15 bytes.
fn is_bad_name(name: &[u8]) -> bool
    ensures { result ≡ (length name.now == 0 || nat_lt 15 (length name.now)) }
{
    name.is_empty() || name.len() > NAME_BYTES
}

// Whether no table of this size can have the rule.
fn is_misfit(size: u32, rule: Rule) -> bool
    ensures { result ≡ is_misfit size rule }
{
    rule.offset >= size || rule.low > rule.high
}

// Whether no table of this size can have one of the rules.
fn has_misfit(size: u32, rules: &[Rule]) -> bool
    ensures { result ≡ has_misfit size rules.now }
{
    rules.iter().any(|rule| is_misfit(size, *rule))
}

// Why an application can't register a table again that has the name, if it can't.
fn duplicate_cause(app: AppNo, size: u32, table: &ListTable) -> Option<TblStatus>
    ensures { result ≡ duplicate_cause app size table.now }
{
    if table.owner != app {
        Some(TblStatus::ErrDuplicateNotOwned)
    } else if table.size != size {
        Some(TblStatus::ErrDuplicateDiffSize)
    } else {
        None
    }
}

impl ListTables {
    // Why there can't be one table more, if there can't.
    fn new_table_cause(&self, size: u32, option: u32) -> Option<TblStatus>
        ensures { result ≡ new_table_cause self.now.limits self.now.state size option }
    {
        if self.tables.len() >= self.config.tables as usize {
            Some(TblStatus::ErrRegistryFull)
        } else if self.handles.len() >= self.config.handles as usize {
            Some(TblStatus::ErrHandlesFull)
        } else if !self.fits(size, blocks_for(option)) {
            Some(TblStatus::ErrMemBlockSize)
        } else {
            None
        }
    }

    // Whether the pool can give so many blocks for a size.
    fn fits(&self, size: u32, count: u32) -> bool
        requires few { length self.now.state.tables < 2 ^ 32 }
        requires count { count ≤ 2 }
        ensures { result ≡ fits (account_of self.now.limits self.now.state) size count }
    {
        match self.class_of(size) {
            Some(class) => self.has_room_for(class, count),
            None => false,
        }
    }

    // Whether the pool can give so many blocks of the size at a place.
    #[tactic(auto, using(crate::proofs::Accounts::out_at))]
    fn has_room_for(&self, class: u32, count: u32) -> bool
        requires class { class < length self.now.limits.sizes }
        requires few { length self.now.state.tables < 2 ^ 32 }
        requires count { count ≤ 2 }
        ensures { result ≡
            has_room_for (account_of self.now.limits self.now.state) class count }
    {
        let block = self.config.sizes.at(class);
        let out = blocks_out(&self.config.sizes, &self.tables, block);
        has_room_in(
            self.config.tablepool,
            &self.config.sizes,
            &self.made,
            class,
            out + u64::from(count),
        )
    }

    /// Why a registration is refused, if it is.
    pub(crate) fn register_cause(
        &self,
        app: AppNo,
        name: &[u8],
        size: u32,
        option: u32,
        rules: &RuleList,
    ) -> Option<TblStatus>
        ensures { result ≡
            register_cause self.now.limits self.now.state app name.now size option rules.now }
    {
        if is_bad_name(name) {
            return Some(TblStatus::ErrInvalidName);
        }
        if size == 0 || size > self.config.tablemax {
            return Some(TblStatus::ErrInvalidSize);
        }
        if option > 2 || has_misfit(size, rules.as_slice()) {
            return Some(TblStatus::ErrInvalidOptions);
        }
        match table_named(&self.tables, name) {
            Some(table) => duplicate_cause(app, size, table),
            None => self.new_table_cause(size, option),
        }
    }

    /// Why a share is refused, if it is.
    pub(crate) fn share_cause(&self, name: &[u8]) -> Option<TblStatus>
        ensures { result ≡ share_cause self.now.limits self.now.state name.now }
    {
        if table_named(&self.tables, name).is_none() {
            Some(TblStatus::ErrInvalidName)
        } else if self.handles.len() >= self.config.handles as usize {
            Some(TblStatus::ErrHandlesFull)
        } else {
            None
        }
    }

    /// A new table with its owner's handle, or that of the registration before; and its number.
    pub(crate) fn register(
        &mut self,
        alloc: Global,
        app: AppNo,
        name: &[u8],
        size: u32,
        option: u32,
        rules: &RuleList,
    ) -> Result<TblAnswer, AllocError>
        ensures answer { IfOk result
            (λ answer. answer ≡
            (after_register self.old.limits self.old.state app name.now size option rules.now).0) }
        ensures after { OnOk result
            (self.new ≡
            leaves self.old
            (after_register self.old.limits self.old.state app name.now size option rules.now)) }
    {
        if let Some(table) = table_named(&self.tables, name) {
            return Ok(TblAnswer::Duplicate(table.number));
        }
        self.add_table(alloc, app, name, size, option, rules)?;
        Ok(TblAnswer::Number(self.handles_made))
    }

    // One table more, with its blocks and its owner's handle.
    fn add_table(
        &mut self,
        alloc: Global,
        app: AppNo,
        name: &[u8],
        size: u32,
        option: u32,
        rules: &RuleList,
    ) -> Result<(), AllocError>
        ensures { OnOk result
            (self.new ≡
            record self.old {
              state = with_new_table self.old.limits self.old.state app name.now size option
                  rules.now;
            }) }
    {
        let number = one_more(self.handles_made)?;
        self.draw(size, blocks_for(option))?;
        let table = ListTable::new(alloc, number, app, name, size, option, rules.again())?;
        self.tables.push(table)?;
        self.add_handle(app, number, false)
    }

    // The place of the block size that holds so many bytes.
    fn class_of(&self, size: u32) -> Option<u32>
        ensures class { result ≡ class_of size self.now.limits.sizes }
        ensures within { IfSome result (λ class. class < length self.now.limits.sizes) }
    {
        self.config.sizes.class_of(size)
    }

    // How many blocks of the size at a place are out once so many more are.
    #[tactic(auto, using(crate::proofs::Accounts::out_at))]
    fn more_out(&self, class: u32, count: u32) -> Result<u32, AllocError>
        requires { class < length self.now.limits.sizes }
        ensures { IfOk result (λ out. out ≡
            slice_index (account_of self.now.limits self.now.state).out class + count) }
    {
        let _ = narrow(self.tables.len() as u64)?;
        let block = self.config.sizes.at(class);
        narrow(blocks_out(&self.config.sizes, &self.tables, block) + u64::from(count))
    }

    // So many blocks for a size are out.
    fn draw(&mut self, size: u32, count: u32) -> Result<(), AllocError>
        ensures { OnOk result
            (self.new ≡
            record self.old {
              state = with_blocks self.old.limits self.old.state size count;
            }) }
    {
        if let Some(class) = self.class_of(size) {
            let out = self.more_out(class, count)?;
            let place = class as usize;
            let made = self.made[place].max(out);
            self.made[place] = made;
        }
        self.drawn = self.drawn.saturating_add(count);
        Ok(())
    }

    // One handle more of a table, which holds nothing.
    fn add_handle(&mut self, app: AppNo, table: u32, marked: bool) -> Result<(), AllocError>
        ensures { OnOk result
            (self.new ≡
            record self.old { state = with_new_handle self.old.state app table marked }) }
    {
        let number = one_more(self.handles_made)?;
        self.handles.push(ListHandle {
            number,
            app,
            table,
            marked,
            hold: None,
        })?;
        self.handles_made = number;
        Ok(())
    }

    /// One handle more of the registered table of a name.
    pub(crate) fn share(&mut self, app: AppNo, name: &[u8]) -> Result<(), AllocError>
        ensures { OnOk result
            (self.new ≡
            record self.old { state = after_share self.old.state app name.now }) }
    {
        let (number, marked) = match table_named(&self.tables, name) {
            Some(table) => (table.number, table.loaded),
            None => return Ok(()),
        };
        self.add_handle(app, number, marked)
    }
}
