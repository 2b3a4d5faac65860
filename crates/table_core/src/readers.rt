//! What the core tells.
ghost use Rattle.std.specs.Prelude.{◌≡◌};
ghost use Rattle.es_pool.specs.Account.{IsAccountOf};
ghost use Rattle.es_pool.specs.Pool.{in_use_by};
ghost use Rattle.tbl_words.specs.Machine.{may_call};
ghost use Rattle.tbl_words.specs.Tables.{account_of, bytes_in_use};
ghost use Rattle.tbl_words.specs.Uses.{use_of};
ghost use Rattle.table_core.specs.Blocks.{AreTableBlocks, IsTablePool};
ghost use Rattle.table_core.specs.Core.{AreOneLoan, AreTwoLoans, has_handle_number};

use crate::plain::PlainTables;
use es_pool::Pool;
use fsw_base::AppNo;
use table_blocks::TableBlocks;
use tbl_words::TblUse;

impl<'r> PlainTables<'r> {
    /// Whether the application may make calls: it is known, and hasn't ended.
    pub fn is_open(&self, app: AppNo) -> bool
        ensures { result ≡ may_call self.now.state app }
    {
        match self.ended.get((app.get() - 1) as usize) {
            Some(ended) => !*ended,
            None => false,
        }
    }

    /// Whether a number is left for one handle more, which is a condition of `register` and of
    /// `share`: 4294967295 handles can be given.
    pub fn has_handle_number(&self) -> bool
        ensures { result ≡ has_handle_number self.now.state }
    {
        self.registry.made() < u32::MAX
    }

    /// What is in use: the tables that have a handle, the live handles, and the bytes of the
    /// tables' blocks by their block sizes. By the code, kept and not counted anew.
    pub fn in_use(&self) -> TblUse
        ensures { result ≡ use_of self.now.limits self.now.state }
    {
        TblUse {
            tables: self.registry.tables(),
            handles: self.registry.handles(),
            bytes: self.pool().bytes_in_use(),
        }
    }

    /// Handles that hold one version of one table are lent it by one loan: it lies in one block,
    /// which all of them read. Does nothing.
    pub fn recall_loans(&self)
        ensures { AreOneLoan self.now }
    {
        self.registry.recall_ties();
    }

    /// If two live handles hold two tables, or two versions of one, the loans that lend them
    /// differ, since they lie in two blocks. Does nothing.
    pub fn recall_apart(&mut self, handle: u32, other: u32)
        ensures apart { AreTwoLoans self.old handle other }
        ensures same { self.new ≡ self.old }
    {
        self.registry.recall_ties();
        let Some(row) = self.registry.find(handle) else {
            return;
        };
        let Some(other_row) = self.registry.find(other) else {
            return;
        };
        if row.key == other_row.key {
            self.blocks.recall_versions(row.key as u32);
            return;
        }
        self.blocks
            .recall_apart(row.key as u32, other_row.key as u32);
    }

    /// The blocks in which the tables lie: of each table its present value in one, what is held of
    /// an older version in the other, and a staged value there, too, or in a working buffer.
    pub fn blocks(&self) -> &TableBlocks<'r>
        ensures blocks { AreTableBlocks result.now self.now }
        ensures account { IsAccountOf result.now.pool
            (account_of self.now.limits self.now.state) }
    {
        // Does nothing, here and below; the proof learns of it where the tables lie.
        self.registry.recall_ties();
        self.blocks.recall_buffers();
        self.blocks.recall_blocks();
        &self.blocks
    }

    /// The pool that the blocks of the tables are drawn from, which is that of `blocks`: those of
    /// the tables are out, and no others.
    pub fn pool(&self) -> &Pool
        ensures blocks { IsTablePool self.now result.now }
        ensures account { IsAccountOf result.now (account_of self.now.limits self.now.state) }
        ensures in_use { in_use_by result.now.sizes result.now.blocks ≡
            bytes_in_use self.now.limits.sizes self.now.state.tables }
    {
        let tables = self.blocks();
        let pool = tables.pool();
        pool.recall_whole();
        pool
    }
}
