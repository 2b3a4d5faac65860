//! Registrations, shares and figures of tables.
ghost use Rattle.std.specs.Prelude.{◌≡◌, ◌==◌, ◌||◌, ◌+◌, ◌≤◌, None, nat_lt, length, IfOk, IsSomeAnd, IsTrue, ◌<◌, ◌^◌, true};
ghost use Rattle.std.specs.Result.{result_err};
ghost use Rattle.tbl_words.specs.Tables.{table_of};
ghost use Rattle.tbl_words.specs.declared.history.Call.TheVariants.{Register, Share, Status};
ghost use Rattle.tbl_rules.specs.Rules.{is_misfit, has_misfit};
ghost use Rattle.tbl_words.specs.Machine.{cause, unfit_cause, new_table_cause, staged_number};
ghost use Rattle.table_core.specs.Core.{MayAct, Acts, has_handle_number};
ghost use Rattle.table_core.specs.Answers.{registered, shared, state_of, plain_figures_told};
ghost use Rattle.table_blocks.specs.Contents.{older_in, is_open, content_at};
ghost use Rattle.table_core.specs.Inside.{staged_of, figures_in};

use crate::answers::{PlainShape, PlainState};
use crate::handles::own_handle;
use crate::plain::PlainTables;
use fsw_base::AppNo;
use step_count::{Ledger, Steps};
use table_blocks::TableBlocks;
use tbl_rules::{Rule, RuleList};
use tbl_words::{Registered, TblStatus};

impl<'r> PlainTables<'r> {
    /// Registers a table of `size` bytes for the caller, and answers its owner's handle. A table
    /// that the caller registered with this name and size is answered as it is. The value is zeros.
    /// A number is left for the handle, as [`PlainTables::has_handle_number`] tells. At most 16
    /// steps.
    ///
    /// # Errors
    /// `ErrInvalidName` for a name that hasn't 1 to 15 bytes; `ErrInvalidSize` for 0 bytes or more
    /// than the configuration allows; `ErrInvalidOptions` for an option past 2, and for a rule
    /// whose byte isn't below the size, or whose `low` is above its `high`; `ErrDuplicateNotOwned`
    /// if another application has registered a table of this name; `ErrDuplicateDiffSize` if
    /// the caller has, of another size; `ErrRegistryFull` if as many tables have a handle as the
    /// configuration allows, unregistered ones too; `ErrHandlesFull` if as many handles are live
    /// as it allows; `ErrMemBlockSize` if the pool hasn't the blocks. The first that applies.
    pub fn register<L: Ledger>(
        &mut self,
        app: AppNo,
        name: &[u8],
        size: u32,
        option: u32,
        rules: &RuleList,
        steps: &mut Steps<L>,
    ) -> Result<Registered, TblStatus>
        requires may { MayAct self.old app (Register name.now size option rules.now) }
        requires number { IsTrue (has_handle_number self.old.state) }
        ensures does { Acts self.old self.new app
            (Register name.now size option rules.now)
            (registered result) }
        ensures cost { steps.new ≤ steps.old + 16 }
    {
        self.registry.recall_ties();
        if let Some(status) = unfit_cause(self.config.tablemax, name, size, option, rules) {
            return Err(status);
        }
        if let Some(key) = self.registry.by_name(name) {
            let row = self.registry.table(key);
            if row.app != app {
                return Err(TblStatus::ErrDuplicateNotOwned);
            }
            if row.size != size {
                return Err(TblStatus::ErrDuplicateDiffSize);
            }
            return Ok(Registered::Duplicate(row.handle.unwrap()));
        }
        if let Some(status) = self.new_table_cause(size, option) {
            return Err(status);
        }
        self.blocks.pool().recall_whole();
        let number = self.registry.add_table(app, name, size, option, rules);
        let owner = self.registry.find(number).unwrap();
        self.blocks
            .open(owner.key as u32, size, option, steps)
            .unwrap();
        Ok(Registered::New(number))
    }

    // Why there can't be one table more, of this size and option.
    fn new_table_cause(&self, size: u32, option: u32) -> Option<TblStatus>
        ensures { result ≡ new_table_cause self.now.limits self.now.state size option }
    {
        self.registry.recall_ties();
        if self.registry.tables() >= self.config.tables {
            return Some(TblStatus::ErrRegistryFull);
        }
        if self.registry.handles() >= self.config.handles {
            return Some(TblStatus::ErrHandlesFull);
        }
        if !self.blocks.fits(size, option) {
            return Some(TblStatus::ErrMemBlockSize);
        }
        None
    }

    /// Gives the caller a handle of the registered table of this name, and answers its number.
    /// A number is left for it, as [`PlainTables::has_handle_number`] tells.
    ///
    /// # Errors
    /// `ErrInvalidName` if no registered table has the name; `ErrHandlesFull` if as many
    /// handles are live as the configuration allows. The first that applies.
    pub fn share(&mut self, app: AppNo, name: &[u8]) -> Result<u32, TblStatus>
        requires may { MayAct self.old app (Share name.now) }
        requires number { IsTrue (has_handle_number self.old.state) }
        ensures { Acts self.old self.new app (Share name.now) (shared result) }
    {
        self.registry.recall_ties();
        let Some(key) = self.registry.by_name(name) else {
            return Err(TblStatus::ErrInvalidName);
        };
        if self.registry.handles() >= self.config.handles {
            return Err(TblStatus::ErrHandlesFull);
        }
        Ok(self.registry.add_handle(app, key))
    }

    /// The figures of the table of a handle of the caller's, registered or not.
    ///
    /// # Errors
    /// `ErrInvalidHandle` for a handle that isn't live; `ErrNoAccess` for one of another
    /// application.
    pub fn status(&self, app: AppNo, handle: u32) -> Result<PlainState, TblStatus>
        requires may { MayAct self.now app (Status handle) }
        ensures { Acts self.now self.now app (Status handle) (plain_figures_told result) }
    {
        self.registry.recall_ties();
        let row = own_handle(&self.registry, app, handle)?;
        Ok(figures(&self.blocks, row.key as u32))
    }

    /// What the table of a handle of the caller's is, registered or not. It is no call of the
    /// tables.
    ///
    /// # Errors
    /// Those of [`PlainTables::status`].
    pub fn shape(&self, app: AppNo, handle: u32) -> Result<PlainShape, TblStatus>
        ensures refused { result_err result ≡
            cause self.now.limits self.now.state app (Status handle) }
        ensures shape { IfOk result (λ shape. IsSomeAnd (table_of self.now.state handle)
            (λ t. (shape.size ≡ t.size) × (shape.option ≡ t.option))) }
    {
        self.registry.recall_ties();
        let row = own_handle(&self.registry, app, handle)?;
        let key = row.key as u32;
        Ok(PlainShape {
            size: self.blocks.size(key),
            option: self.blocks.option(key),
        })
    }
}

// Why no such table can be registered, whatever others there are.
fn unfit_cause(
    most: u32,
    name: &[u8],
    size: u32,
    option: u32,
    rules: &RuleList,
) -> Option<TblStatus>
    ensures { result ≡ unfit_cause most name.now size option rules.now None }
{
    if is_bad_name(name) {
        return Some(TblStatus::ErrInvalidName);
    }
    if is_bad_size(most, size) {
        return Some(TblStatus::ErrInvalidSize);
    }
    if are_bad_options(size, option, rules.as_slice()) {
        return Some(TblStatus::ErrInvalidOptions);
    }
    None
}

// Whether the name hasn't 1 to 15 bytes.
fn is_bad_name(name: &[u8]) -> bool
    ensures { result ≡ (length name.now == 0 || nat_lt 15 (length name.now)) }
{
    name.is_empty() || name.len() > 15
}

// Whether the size isn't 1 to the most.
fn is_bad_size(most: u32, size: u32) -> bool
    ensures { result ≡ (size == 0 || nat_lt most size) }
{
    size == 0 || size > most
}

// Whether there is no such option, or no table of this size can have one of the rules.
fn are_bad_options(size: u32, option: u32, rules: &[Rule]) -> bool
    ensures { result ≡ (nat_lt 2 option || has_misfit size rules.now) }
{
    option > 2 || has_misfit(size, rules)
}

// Whether no table of this size can have one of the rules.
fn has_misfit(size: u32, rules: &[Rule]) -> bool
    ensures { result ≡ has_misfit size rules.now }
{
    rules.iter().any(|rule| is_misfit(size, *rule))
}

// Whether no table of this size can have the rule.
fn is_misfit(size: u32, rule: Rule) -> bool
    ensures { result ≡ is_misfit size rule }
{
    rule.offset >= size || rule.low > rule.high
}

// The figures of the table of a key.
fn figures(blocks: &TableBlocks<'_>, key: u32) -> PlainState
    requires open { is_open blocks.now.tables key ≡ true }
    requires few { (content_at blocks.now.tables key).present.views
        + (older_in (content_at blocks.now.tables key).next).views < 2 ^ 32 }
    ensures { state_of result ≡ figures_in (content_at blocks.now.tables key) }
{
    let version = blocks.version(key);
    PlainState {
        version,
        loaded: version != 0,
        staged: staged_number(blocks, key),
        holds: blocks.views(key) + blocks.older_views(key),
    }
}

// 0 if nothing is staged, 1 if something is, 2 if it was validated.
fn staged_number(blocks: &TableBlocks<'_>, key: u32) -> u32
    requires { is_open blocks.now.tables key ≡ true }
    ensures { result ≡ staged_number (staged_of (content_at blocks.now.tables key).next) }
{
    if !blocks.is_staged(key) {
        return 0;
    }
    if blocks.is_validated(key) { 2 } else { 1 }
}
