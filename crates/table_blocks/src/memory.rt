//! The pool of the tables with its memory.
ghost use Rattle.std.specs.Prelude.{◌≡◌, ℕ, ◌+◌, ◌≤◌, ◌↔◌, [], true, length, IsTrue, IsOk, IfOk, IfErr, OnErr};
ghost use Rattle.es_pool.specs.Pool.{fits, is_out, size_at};
ghost use Rattle.table_blocks.specs.Memory.{Memory, Takes, GoesBack, slot_at};
ghost use Rattle.table_blocks.specs.declared.slot.Slot.TheVariants.{Taken};

use crate::slot::{Slot, put_free, take_free};
use crate::space::Space;
use es_pool::Pool;
use fsw_base::{BlockSizes, EsStatus};
use std::alloc::{AllocError, Global};
use std::marker::Model;
use step_count::{Ledger, Steps};

/// A pool and the memory of its blocks, which are cut from a region. Contracts see the pool's
/// account, and whose each block is.
pub struct PoolMemory<'r> {
    // Which blocks are out.
    pool: Pool,
    // Whose each block is that was cut.
    slots: Vec<Slot<'r>>,
    // The part of the region that was never cut.
    rest: Space<'r>,
}

impl Drop for PoolMemory<'_> {
    fn drop(self) {
        let PoolMemory {
            pool: _pool,
            slots: _slots,
            rest: _rest,
        } = self;
    }
}

impl<'r> Model for PoolMemory<'r> {
    ghost use Rattle.std.specs.Prelude.{length, vec_capacity};
    ghost use Rattle.table_blocks.specs.Memory.{Memory};
    ghost use Rattle.table_blocks.specs.Inside.{IsKept};

    ghost Value = { Memory };

    ghost view = { λ m. record { pool = m.pool; slots = m.slots.items } };

    ghost invariant = { λ m. IsKept m.pool m.slots.items (length m.rest) (vec_capacity m.slots) };
}

impl<'r> PoolMemory<'r> {
    /// A pool of which nothing was cut, over this region.
    ///
    /// # Errors
    ///
    /// `AllocError` if memory runs out.
    pub fn new(
        alloc: Global,
        bytes: u32,
        sizes: BlockSizes,
        region: &'r mut [u8],
    ) -> Result<PoolMemory<'r>, AllocError>
        requires { bytes ≤ length region.old }
        ensures { IfOk result
            (λ memory. memory ≡
            record {
              pool = record {
                bytes = bytes;
                most = bytes;
                sizes = sizes;
                blocks = [];
                requests = 0;
                errors = 0;
              };
              slots = [];
            }) }
    {
        let pool = Pool::new(alloc, bytes, sizes)?;
        let slots = Vec::with_capacity(alloc, pool.most_blocks() as usize)?;
        Ok(PoolMemory {
            pool,
            slots,
            rest: Space::new(region),
        })
    }

    /// The account of the pool.
    pub fn pool(&self) -> &Pool
        ensures { result.now ≡ self.now.pool }
    {
        &self.pool
    }

    /// The blocks that tables have are out. This does nothing, and is there for what it ensures.
    pub fn recall_taken(&self)
        ensures { (block key : ℕ) → slot_at self.now.slots block ≡ Taken key →
            is_out self.now.pool block ≡ true }
    {
        let _ = &self.slots;
    }

    /// Draws a block for a table of this key and size: its number and its memory, as it was left.
    /// At most 8 steps.
    ///
    /// # Errors
    ///
    /// `ErrMemBlockSize` if and only if the pool has no block for it; then nothing changes.
    pub fn draw<L: Ledger>(
        &mut self,
        key: u32,
        size: u32,
        steps: &mut Steps<L>,
    ) -> Result<(u32, Space<'r>), EsStatus>
        ensures given { IsOk result ↔ IsTrue (fits self.old.pool size 1) }
        ensures only_error { IfErr result (λ e. e ≡ EsStatus.ErrMemBlockSize) }
        ensures taken { IfOk result (λ b. Takes self.old self.new key size b.0 (length b.1)) }
        ensures unchanged { OnErr result (self.new ≡ self.old) }
        ensures cost { steps.new ≤ steps.old + 8 }
    {
        match self.pool.get(size, steps) {
            Ok(block) => {
                self.pool.recall_whole();
                if (block as usize) < self.slots.len() {
                    let space = take_free(&mut self.slots, block, key);
                    return Ok((block, space));
                }
                let whole = self.pool.size_of(block);
                self.slots.push_reserved(Slot::Taken(key));
                let space = self.rest.cut(whole as usize);
                Ok((block, space))
            }
            Err(status) => Err(status),
        }
    }

    /// Gives a table's block back to the pool. At most 8 steps.
    pub fn give_back<L: Ledger>(
        &mut self,
        key: u32,
        block: u32,
        space: Space<'r>,
        steps: &mut Steps<L>,
    )
        requires own { slot_at self.old.slots block ≡ Taken key }
        requires whole { length space ≡ size_at self.old.pool block }
        ensures after { GoesBack self.old self.new block }
        ensures cost { steps.new ≤ steps.old + 8 }
    {
        put_free(&mut self.slots, block, space);
        self.pool.put(block, steps).unwrap();
    }
}
