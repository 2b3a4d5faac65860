//! The core: what it keeps, how it opens, and what it tells.
ghost use Rattle.std.specs.Prelude.{◌≡◌, ◌*◌, ◌<◌, ◌≤◌, [], length, Some, slice_get, IfOk};
ghost use Rattle.fsw_base.specs.Limits.{limits_of};
ghost use Rattle.es_pool.specs.Account.{IsAccountOf};
ghost use Rattle.es_pool.specs.Pool.{in_use_by};
ghost use Rattle.journal_store.specs.Budgets.{AreBudgets, allowance_of};
ghost use Rattle.tbl_words.specs.declared.history.Entry.{Entry};
ghost use Rattle.tbl_words.specs.Log.{left_of};
ghost use Rattle.tbl_words.specs.Tables.{account_of, bytes_in_use};
ghost use Rattle.tbl_words.specs.Uses.{use_of, peak_after};
ghost use Rattle.table_core.specs.Blocks.{AreTableBlocks, IsTablePool};
ghost use Rattle.tbl_load.specs.Bags.{AreOneLoan, AreTwoLoans, lent_tables};
ghost use Rattle.tbl_load.specs.Core.{IsLegalCore, IsNoted, apps_of, state_of};
ghost use Rattle.tbl_load.specs.Notes.{IsDue};

use crate::noted::NotedJournal;
use es_pool::Pool;
use fsw_base::{AppNo, Budget, Config};
use lend_block::Note;
use std::alloc::{AllocError, Global};
use std::marker::Model;
use table_blocks::TableBlocks;
use table_core::PlainTables;
use tbl_words::{TblJournal, TblUse};

/// The tables of up to 16 applications, with their journal. By the code, all its memory is taken
/// when it is made.
pub struct TblCore<'r> {
    // The tables after the journal's entries.
    pub(crate) core: PlainTables<'r>,
    // Every call with its answer, in order, and the loan of the view that it gave.
    pub(crate) noted: NotedJournal,
}

impl Drop for TblCore<'_> {
    fn drop(self) {
        let TblCore {
            core: _core,
            noted: _noted,
        } = self;
    }
}

impl<'r> Model for TblCore<'r> {
    ghost use Rattle.tbl_load.specs.Core.{Core};

    ghost Value = { Core };

    ghost use Rattle.tbl_load.specs.Inside.{core_of, Stands};

    ghost view = { core_of };

    ghost invariant = { Stands };
}

impl<'r> TblCore<'r> {
    /// Table Services on which no call was made, for the applications 1, 2, 3 and so on that have
    /// these budgets: 1 to 16 of them, whose entries, bytes and buffers each add up to less than
    /// 2^32. The blocks of the tables are cut from `region`, which has at least the tables' pool's
    /// bytes, and the four working buffers from `work`, which has at least four times those of the
    /// largest table.
    ///
    /// # Errors
    /// If memory runs out.
    pub fn new(
        alloc: Global,
        cfg: &Config,
        budgets: &[Budget],
        region: &'r mut [u8],
        work: &'r mut [u8],
    ) -> Result<TblCore<'r>, AllocError>
        requires budgets { AreBudgets budgets.now }
        requires region { cfg.now.tablepool ≤ length region.old }
        requires work { 4 * cfg.now.tablemax ≤ length work.old }
        ensures { IfOk result
            (λ core. core ≡
            record {
              limits = limits_of cfg.now;
              log = record { budgets = budgets.now; entries = [] };
              notes = [];
            }) }
    {
        Ok(TblCore {
            core: PlainTables::new(alloc, cfg, budgets.len(), region, work)?,
            noted: NotedJournal::new(alloc, budgets)?,
        })
    }

    /// How many applications it serves, 1 to 16.
    pub fn apps(&self) -> u32
        ensures { result ≡ apps_of self.now }
    {
        self.noted.journal().apps()
    }

    /// How many entries the application may still add to the journal.
    pub fn entries_left(&self, app: AppNo) -> u32
        requires { app ≤ apps_of self.now }
        ensures { result ≡ (allowance_of (left_of self.now.log) app).entries }
    {
        self.noted.journal().left(app).entries
    }

    /// How many bytes of names and loads the application may still add to the journal.
    pub fn bytes_left(&self, app: AppNo) -> u32
        requires { app ≤ apps_of self.now }
        ensures { result ≡ (allowance_of (left_of self.now.log) app).bytes }
    {
        self.noted.journal().left(app).bytes
    }

    /// Every call with its answer, in order: a history that the tables can have, each entry with
    /// the note that is due to it. Handles that hold one version of one table were given views of
    /// one loan.
    pub fn journal(&self) -> &TblJournal
        ensures journal { result.now ≡ self.now.log }
        ensures legal { IsLegalCore self.now }
        ensures noted { IsNoted self.now }
        ensures loans { AreOneLoan self.now }
    {
        // Does nothing; the proof learns of it that there is one loan for a version.
        self.core.recall_loans();
        self.noted.journal()
    }

    /// If two live handles hold two tables, or two versions of one, the loans noted for them
    /// differ, since they lie in two blocks. Does nothing.
    pub fn recall_apart(&mut self, handle: u32, other: u32)
        ensures apart { AreTwoLoans self.old handle other }
        ensures same { self.new ≡ self.old }
    {
        self.core.recall_apart(handle, other);
    }

    /// What was noted beside the journal's entry of this number, from 0: a loan if its call gave
    /// an address, else nothing. The loan of a handle's newest address is that of the view which
    /// its application's bag has for it.
    pub fn note(&self, i: u32) -> Note
        requires { i < length self.now.log.entries }
        ensures note { Some result ≡ slice_get self.now.notes i }
        ensures due { (e : Entry) → Some e ≡ slice_get self.now.log.entries i →
            IsDue e.answer result }
    {
        self.noted.note(i)
    }

    /// The blocks in which the tables lie: of each table its present value in one, what is held of
    /// an older version in the other, and a staged value there, too, or in a working buffer. A
    /// handle's view is by the loan that was noted of it.
    pub fn blocks(&self) -> &TableBlocks<'r>
        ensures blocks { AreTableBlocks result.now (lent_tables self.now) }
        ensures account { IsAccountOf result.now.pool
            (account_of self.now.limits (state_of self.now)) }
    {
        let tables = self.core.blocks();
        tables
    }

    /// The pool that the blocks of the tables are drawn from. Those of the tables that have a
    /// handle are out, and no others; its bytes in use are those of these blocks.
    pub fn pool(&self) -> &Pool
        ensures blocks { IsTablePool (lent_tables self.now) result.now }
        ensures account { IsAccountOf result.now
            (account_of self.now.limits (state_of self.now)) }
        ensures in_use { in_use_by result.now.sizes result.now.blocks ≡
            bytes_in_use self.now.limits.sizes (state_of self.now).tables }
    {
        self.core.pool()
    }

    /// What is in use now. By the code, kept and not counted anew.
    pub fn tables_now(&self) -> TblUse
        ensures { result ≡ use_of self.now.limits (state_of self.now) }
    {
        self.core.in_use()
    }

    /// The greatest numbers that were in use after any beginning of the history, each by itself. By
    /// the code, kept and not counted anew.
    pub fn tables_peak(&self) -> TblUse
        ensures { result ≡ peak_after self.now.limits (apps_of self.now) self.now.log.entries }
    {
        self.noted.peak()
    }
}
