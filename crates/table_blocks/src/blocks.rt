//! What all tables contain.
ghost use Rattle.std.specs.Prelude.{◌≡◌, ◌≢◌, ℕ, ◌+◌, ◌*◌, ◌≤◌, nat_lt, [], None, true, length, replicate, IfOk, All, vec_capacity};
ghost use Rattle.table_blocks.specs.Contents.{is_open, content_at, is_staged, older_in, staged_in, HasTwoLoans, ShareNoLoan};
ghost use Rattle.table_blocks.specs.Blocks.{IsPlaced, IsWhole, has_block, buffers_taken};

use crate::memory::PoolMemory;
use crate::rows::{no_tables, table_at, tell_tables_apart, tell_versions};
use crate::space::Space;
use crate::table::Table;
use es_pool::Pool;
use fsw_base::BlockSizes;
use std::alloc::{AllocError, Global};
use std::marker::Model;

/// What all tables contain: each has its blocks of a pool, whose present version is lent, and at
/// most one staged value, in its own inactive block or in one of four working buffers.
///
/// A table is named by a key below the number that `new` was given. Contracts see the pool's
/// account, what is kept for each table by its key, and how many working buffers are free. By the
/// code, no call takes memory after `new`.
pub struct TableBlocks<'r> {
    // The pool, with the memory of its blocks.
    pub(crate) memory: PoolMemory<'r>,
    // The bytes of the largest table, and of each working buffer.
    pub(crate) most: u32,
    // What is kept for each table, by its key.
    pub(crate) tables: Vec<Option<Table<'r>>>,
    // The working buffers that no table has.
    pub(crate) work: Vec<Space<'r>>,
}

impl Drop for TableBlocks<'_> {
    fn drop(self) {
        let TableBlocks {
            memory: _memory,
            most: _most,
            tables: _tables,
            work: _work,
        } = self;
    }
}

impl<'r> Model for TableBlocks<'r> {
    ghost use Rattle.std.specs.Prelude.{length, vec_capacity};
    ghost use Rattle.table_blocks.specs.Blocks.{Stored};
    ghost use Rattle.table_blocks.specs.Inside.{IsStore};

    ghost Value = { Stored };

    ghost view = { λ b.
        record {
          pool = b.memory.pool;
          most = b.most;
          tables = b.tables.items;
          free = length b.work.items;
        } };

    ghost invariant = { λ b.
        IsStore b.memory b.most b.tables.items b.work.items (vec_capacity b.work) };
}

impl<'r> TableBlocks<'r> {
    /// No table, for as many keys as `tables` says and tables of at most `most` bytes. The pool has
    /// `pool` bytes with these block sizes, cut from the region; the four working buffers are the
    /// first bytes of `work`.
    ///
    /// # Errors
    ///
    /// `AllocError` if memory runs out.
    pub fn new(
        alloc: Global,
        tables: u32,
        most: u32,
        pool: u32,
        sizes: BlockSizes,
        region: &'r mut [u8],
        work: &'r mut [u8],
    ) -> Result<TableBlocks<'r>, AllocError>
        requires region { pool ≤ length region.old }
        requires work { 4 * most ≤ length work.old }
        ensures { IfOk result
            (λ blocks. blocks ≡
            record {
              pool = record {
                bytes = pool;
                most = pool;
                sizes = sizes;
                blocks = [];
                requests = 0;
                errors = 0;
              };
              most = most;
              tables = replicate tables None;
              free = 4;
            }) }
    {
        let memory = PoolMemory::new(alloc, pool, sizes, region)?;
        let rows = no_tables(alloc, tables)?;
        let buffers = working_buffers(alloc, most, Space::new(work))?;
        Ok(TableBlocks {
            memory,
            most,
            tables: rows,
            work: buffers,
        })
    }

    /// A table's present value.
    pub fn bytes(&self, key: u32) -> &[u8]
        requires { is_open self.now.tables key ≡ true }
        ensures { result.now ≡ (content_at self.now.tables key).present.bytes }
    {
        table_at(&self.tables, key).bytes()
    }

    /// A table's size in bytes.
    pub fn size(&self, key: u32) -> u32
        requires { is_open self.now.tables key ≡ true }
        ensures { result ≡ (content_at self.now.tables key).size }
    {
        table_at(&self.tables, key).size()
    }

    /// A table's option.
    pub fn option(&self, key: u32) -> u32
        requires { is_open self.now.tables key ≡ true }
        ensures { result ≡ (content_at self.now.tables key).option }
    {
        table_at(&self.tables, key).option()
    }

    /// How often a table was updated, which is the number of its present version.
    pub fn version(&self, key: u32) -> u64
        requires { is_open self.now.tables key ≡ true }
        ensures { result ≡ (content_at self.now.tables key).version }
    {
        table_at(&self.tables, key).version()
    }

    /// Whether a table's present version has a number behind it, so that it can be updated.
    pub fn has_next_version(&self, key: u32) -> bool
        requires { is_open self.now.tables key ≡ true }
        ensures { result ≡
            nat_lt (content_at self.now.tables key).version 18446744073709551615 }
    {
        table_at(&self.tables, key).version() < u64::MAX
    }

    /// How many views of a table's present version are out.
    pub fn views(&self, key: u32) -> u32
        requires { is_open self.now.tables key ≡ true }
        ensures { result ≡ (content_at self.now.tables key).present.views }
    {
        table_at(&self.tables, key).views()
    }

    /// How many views of a table's version before the present one are out.
    pub fn older_views(&self, key: u32) -> u32
        requires { is_open self.now.tables key ≡ true }
        ensures { result ≡ (older_in (content_at self.now.tables key).next).views }
    {
        table_at(&self.tables, key).older_views()
    }

    /// Whether a value is staged for a table.
    pub fn is_staged(&self, key: u32) -> bool
        requires { is_open self.now.tables key ≡ true }
        ensures { result ≡ is_staged (content_at self.now.tables key).next }
    {
        table_at(&self.tables, key).is_staged()
    }

    /// Whether a value is staged for a table that was validated.
    pub fn is_validated(&self, key: u32) -> bool
        requires { is_open self.now.tables key ≡ true }
        ensures { result ≡ (staged_in (content_at self.now.tables key).next).validated }
    {
        table_at(&self.tables, key).is_validated()
    }

    /// How many working buffers are free.
    pub fn free_buffers(&self) -> u32
        ensures { result ≡ self.now.free }
    {
        self.work.len() as u32
    }

    /// The account of the pool.
    pub fn pool(&self) -> &Pool
        ensures { result.now ≡ self.now.pool }
    {
        self.memory.pool()
    }

    /// What is always true of what is kept for a table. This does nothing, and is there for what it
    /// ensures.
    pub fn recall_table(&self, key: u32)
        requires { is_open self.now.tables key ≡ true }
        ensures { IsWhole self.now.pool self.now.most (content_at self.now.tables key) }
    {
        table_at(&self.tables, key).recall();
        self.memory.recall_taken();
    }

    /// If all tables lie, and that no block is that of two tables. This does nothing, and is
    /// there for what it ensures.
    pub fn recall_blocks(&self)
        ensures placed { (key : ℕ) → is_open self.now.tables key ≡ true →
            IsPlaced self.now.pool (content_at self.now.tables key) }
        ensures own { (key other block : ℕ) → has_block self.now.tables key block ≡ true →
            has_block self.now.tables other block ≡ true → key ≡ other }
    {
        self.memory.recall_taken();
    }

    /// Each working buffer is free, or a table has it. This does nothing, and is there for what it
    /// ensures.
    pub fn recall_buffers(&self)
        ensures { self.now.free + buffers_taken self.now.tables ≡ 4 }
    {
        let _ = &self.work;
    }

    /// The two versions of a table, if it has two, are of two loans. Does nothing.
    pub fn recall_versions(&mut self, key: u32)
        requires { is_open self.old.tables key ≡ true }
        ensures apart { HasTwoLoans (content_at self.old.tables key) }
        ensures same { self.new ≡ self.old }
    {
        tell_versions(&mut self.tables, key);
    }

    /// Two tables share no loan. Does nothing.
    pub fn recall_apart(&mut self, key: u32, other: u32)
        requires open { is_open self.old.tables key ≡ true }
        requires other_open { is_open self.old.tables other ≡ true }
        requires two { key ≢ other }
        ensures apart { ShareNoLoan
            (content_at self.old.tables key)
            (content_at self.old.tables other) }
        ensures same { self.new ≡ self.old }
    {
        tell_tables_apart(&mut self.tables, key, other);
    }
}

// Cuts the four working buffers off.
fn working_buffers<'r>(
    alloc: Global,
    most: u32,
    work: Space<'r>,
) -> Result<Vec<Space<'r>>, AllocError>
    requires { 4 * most ≤ length work }
    ensures four { IfOk result (λ buffers. length buffers.items ≡ 4) }
    ensures whole { IfOk result (λ buffers. All (λ bytes. length bytes ≡ most) buffers.items) }
    ensures room { IfOk result (λ buffers. vec_capacity buffers ≡ 4) }
{
    let mut rest = work;
    let mut buffers = Vec::with_capacity(alloc, 4)?;
    buffers.push_reserved(rest.cut(most as usize));
    buffers.push_reserved(rest.cut(most as usize));
    buffers.push_reserved(rest.cut(most as usize));
    buffers.push_reserved(rest.cut(most as usize));
    Ok(buffers)
}
