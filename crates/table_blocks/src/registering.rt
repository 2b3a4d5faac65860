//! Tables that come and leave.
ghost use Rattle.std.specs.Prelude.{◌≡◌, ◌==◌, ◌+◌, ◌<◌, ◌≤◌, ◌↔◌, true, false, length, IsTrue, IsOk, IfErr, OnOk, OnErr};
ghost use Rattle.es_pool.specs.Pool.{fits};
ghost use Rattle.tbl_words.specs.Tables.{blocks_for};
ghost use Rattle.table_blocks.specs.Contents.{is_open, content_at, is_staged, older_in};
ghost use Rattle.table_blocks.specs.Blocks.{Opens, closed};

use crate::blocks::TableBlocks;
use crate::rows::{put_table, take_table};
use crate::table::Table;
use fsw_base::EsStatus;
use step_count::{Ledger, Steps};

impl<'r> TableBlocks<'r> {
    /// Whether the pool has the blocks for a table of this size and option.
    pub fn fits(&self, size: u32, option: u32) -> bool
        ensures { result ≡ fits self.now.pool size (blocks_for option) }
    {
        let count = if option == 1 { 2 } else { 1 };
        self.memory.pool().fits(size, count)
    }

    /// Draws the blocks of a table that is new under this key, two for option 1, else one; its
    /// value is zeros. At most 16 steps.
    ///
    /// # Errors
    ///
    /// `ErrMemBlockSize` if and only if the blocks don't fit; then nothing changes.
    pub fn open<L: Ledger>(
        &mut self,
        key: u32,
        size: u32,
        option: u32,
        steps: &mut Steps<L>,
    ) -> Result<(), EsStatus>
        requires key { key < length self.old.tables }
        requires new { is_open self.old.tables key ≡ false }
        requires small { size ≤ self.old.most }
        ensures given { IsOk result ↔ IsTrue (fits self.old.pool size (blocks_for option)) }
        ensures only_error { IfErr result (λ e. e ≡ EsStatus.ErrMemBlockSize) }
        ensures opened { OnOk result
            (Opens self.old self.new key size option (content_at self.new.tables key)) }
        ensures unchanged { OnErr result (self.new ≡ self.old) }
        ensures cost { steps.new ≤ steps.old + 16 }
    {
        if option == 1 {
            self.open_double(key, size, steps)
        } else {
            self.open_single(key, size, option, steps)
        }
    }

    // Opens a table with one block.
    fn open_single<L: Ledger>(
        &mut self,
        key: u32,
        size: u32,
        option: u32,
        steps: &mut Steps<L>,
    ) -> Result<(), EsStatus>
        requires key { key < length self.old.tables }
        requires new { is_open self.old.tables key ≡ false }
        requires small { size ≤ self.old.most }
        requires single { (option == 1) ≡ false }
        ensures given { IsOk result ↔ IsTrue (fits self.old.pool size 1) }
        ensures only_error { IfErr result (λ e. e ≡ EsStatus.ErrMemBlockSize) }
        ensures opened { OnOk result
            (Opens self.old self.new key size option (content_at self.new.tables key)) }
        ensures unchanged { OnErr result (self.new ≡ self.old) }
        ensures cost { steps.new ≤ steps.old + 8 }
    {
        match self.memory.draw(key, size, steps) {
            Ok((block, space)) => {
                let table = Table::single(size, option, block, space);
                put_table(&mut self.tables, key, table);
                Ok(())
            }
            Err(status) => Err(status),
        }
    }

    // Opens a table with two blocks.
    fn open_double<L: Ledger>(
        &mut self,
        key: u32,
        size: u32,
        steps: &mut Steps<L>,
    ) -> Result<(), EsStatus>
        requires key { key < length self.old.tables }
        requires new { is_open self.old.tables key ≡ false }
        requires small { size ≤ self.old.most }
        ensures given { IsOk result ↔ IsTrue (fits self.old.pool size 2) }
        ensures only_error { IfErr result (λ e. e ≡ EsStatus.ErrMemBlockSize) }
        ensures opened { OnOk result
            (Opens self.old self.new key size 1 (content_at self.new.tables key)) }
        ensures unchanged { OnErr result (self.new ≡ self.old) }
        ensures cost { steps.new ≤ steps.old + 16 }
    {
        if !self.memory.pool().fits(size, 2) {
            return Err(EsStatus::ErrMemBlockSize);
        }
        let first = self.memory.draw(key, size, steps).unwrap();
        let second = self.memory.draw(key, size, steps).unwrap();
        let table = Table::double(size, first, second);
        put_table(&mut self.tables, key, table);
        Ok(())
    }

    /// Gives a table's blocks back to the pool: one of which no view is out, and with nothing
    /// staged. At most 16 steps.
    pub fn close<L: Ledger>(&mut self, key: u32, steps: &mut Steps<L>)
        requires open { is_open self.old.tables key ≡ true }
        requires not_staged { is_staged (content_at self.old.tables key).next ≡ false }
        requires all_back { (content_at self.old.tables key).present.views ≡ 0 }
        requires older_back { (older_in (content_at self.old.tables key).next).views ≡ 0 }
        ensures after { self.new ≡ closed self.old key }
        ensures cost { steps.new ≤ steps.old + 16 }
    {
        let table = take_table(&mut self.tables, key);
        let (first, second) = table.blocks();
        if table.is_double() {
            let (one, other) = table.into_blocks();
            self.memory.give_back(key, first, one, steps);
            self.memory.give_back(key, second, other, steps);
        } else {
            self.memory.give_back(key, first, table.into_block(), steps);
        }
    }
}
