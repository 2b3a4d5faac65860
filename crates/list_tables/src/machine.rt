//! The tables, and what a call of them answers.
ghost use Rattle.std.specs.Prelude.{◌≡◌, IfOk};
ghost use Rattle.std.specs.Result.{OnOk};
ghost use Rattle.fsw_base.specs.Limits.{limits_of};
ghost use Rattle.tbl_words.specs.Entries.{call_of};
ghost use Rattle.tbl_words.specs.Tables.{opening, has_ended};
ghost use Rattle.tbl_words.specs.Machine.{accept, step};
ghost use Rattle.list_tables.specs.Kept.{Kept, changed, leaves};

use crate::numbers::one_more;
use crate::rows::{ListHandle, ListTable};
use fsw_base::{AppNo, Config};
use std::alloc::{AllocError, Global};
use std::marker::Model;
use tbl_words::{TblAnswer, TblCall};

/// Table Services of plain lists. Contracts see the limits and the machine's state.
pub struct ListTables {
    // The limits of the run.
    pub(crate) config: Config,
    // The tables that have a handle, in order of number.
    pub(crate) tables: Vec<ListTable>,
    // The live handles, in order of number.
    pub(crate) handles: Vec<ListHandle>,
    // How many handles were made.
    pub(crate) handles_made: u32,
    // Whether each application has ended, number 1 first.
    pub(crate) ended: Vec<bool>,
    // Of each block size of the pool, the greatest number of blocks that were ever out at once.
    pub(crate) made: Vec<u32>,
    // How many blocks were drawn; it stops at the largest number.
    pub(crate) drawn: u32,
}

impl Drop for ListTables {
    fn drop(self) {
        let ListTables {
            config: _config,
            tables: _tables,
            handles: _handles,
            handles_made: _handles_made,
            ended: _ended,
            made: _made,
            drawn: _drawn,
        } = self;
    }
}

impl Model for ListTables {
    ghost use Rattle.list_tables.specs.Kept.{Kept};

    ghost Value = { Kept };

    ghost use Rattle.list_tables.specs.Inside.{kept_in, HasAllNumbers};

    ghost view = { kept_in };

    ghost invariant = { HasAllNumbers };
}

impl ListTables {
    /// Table Services of so many applications, before their first call.
    ///
    /// # Errors
    /// `AllocError` if memory runs out.
    pub fn new(alloc: Global, config: &Config, apps: u32) -> Result<ListTables, AllocError>
        ensures { IfOk result (λ tables. tables ≡
            record { limits = limits_of config.now; state = opening (limits_of config.now) apps }) }
    {
        let ended = vec![in alloc; false; apps as usize]?;
        let made = vec![in alloc; 0; config.sizes.count() as usize]?;
        Ok(ListTables {
            config: config.again(),
            tables: Vec::new(alloc),
            handles: Vec::new(alloc),
            handles_made: 0,
            ended,
            made,
            drawn: 0,
        })
    }

    /// What a call answers; the tables are then as the call leaves them.
    ///
    /// # Errors
    /// `AllocError` if memory runs out, or a number of 32 bits is spent: 4294967295 handles were
    /// made, or versions of a table. The contract doesn't describe the tables then.
    pub fn step(
        &mut self,
        alloc: Global,
        app: AppNo,
        call: &TblCall<'_>,
    ) -> Result<TblAnswer, AllocError>
        ensures answer { IfOk result
            (λ answer. answer ≡
            (step self.old.limits self.old.state app (call_of call.now)).0) }
        ensures after { OnOk result
            (self.new ≡
            record self.old {
              state = (step self.old.limits self.old.state app (call_of call.now)).1;
            }) }
    {
        match self.cause(alloc, app, call)? {
            Some(why) => Ok(TblAnswer::Refused(why)),
            None => self.accept(alloc, app, call),
        }
    }

    // What a call answers that isn't refused; the tables are then as the call leaves them.
    fn accept(
        &mut self,
        alloc: Global,
        app: AppNo,
        call: &TblCall<'_>,
    ) -> Result<TblAnswer, AllocError>
        ensures answer { IfOk result
            (λ answer. answer ≡
            (accept self.old.limits self.old.state app (call_of call.now)).0) }
        ensures after { OnOk result
            (self.new ≡
            leaves self.old (accept self.old.limits self.old.state app (call_of call.now))) }
    {
        match call {
            TblCall::Register {
                name,
                size,
                option,
                rules,
            } => self.register(alloc, app, name, *size, *option, rules),
            TblCall::Share { name } => {
                let number = one_more(self.handles_made)?;
                self.share(app, name)?;
                Ok(TblAnswer::Number(number))
            }
            TblCall::GetAddress { handle } => {
                let answer = self.address_of(*handle);
                self.take_address(*handle)?;
                Ok(answer)
            }
            TblCall::Status { handle } => self.status_of(*handle),
            _ => {
                self.change(alloc, app, call)?;
                Ok(TblAnswer::Done)
            }
        }
    }

    // What a call changes that is answered with no more than that it was done; nothing for others.
    fn change(&mut self, alloc: Global, app: AppNo, call: &TblCall<'_>) -> Result<(), AllocError>
        ensures { OnOk result
            (self.new ≡
            record self.old {
              state = changed self.old.limits self.old.state app (call_of call.now);
            }) }
    {
        match call {
            TblCall::Unregister { handle } => self.unregister(*handle),
            TblCall::Stage {
                handle,
                offset,
                bytes,
            } => return self.stage(alloc, *handle, *offset, bytes),
            TblCall::Validate { handle } => self.validate(*handle),
            TblCall::Update { handle } => return self.update(*handle),
            TblCall::Abort { handle } => self.abort(*handle),
            TblCall::Load {
                handle,
                offset,
                bytes,
            } => return self.load(alloc, *handle, *offset, bytes),
            TblCall::ReleaseAddress { handle } => self.release_address(*handle),
            TblCall::End => self.end(app),
            _ => {}
        }
        Ok(())
    }

    /// Whether an application has ended; one that isn't known counts as ended.
    pub fn has_ended(&self, app: AppNo) -> bool
        ensures { result ≡ has_ended self.now.state app }
    {
        let place = app.get() as usize - 1;
        if place < self.ended.len() {
            self.ended[place]
        } else {
            true
        }
    }
}
