//! The calls of memory pools, which any application may create and use (cFE Executive Services,
//! memory pools). They lend no bytes: what a pool hands out are numbered grants of its blocks.
ghost use Rattle.std.specs.Prelude.{◌≡◌, ℕ, ◌+◌, ◌%◌, ◌≤◌, false, length, slice_index, Err, IfOk, IsTrue};
ghost use Rattle.std.specs.Result.{result_err};
ghost use Rattle.fsw_base.specs.PoolAccounts.{overhead};
ghost use Rattle.es_pool.specs.Account.{IsAccountOf};
ghost use Rattle.fsw_base.specs.Grants.{is_pool, pool_in, pool_account, answer_in, put_answer, class_under, has_numbers};
ghost use Rattle.bus_words.specs.declared.history.Call.TheVariants.{PoolCreate, PoolGet, PoolPut, PoolFigures};
ghost use Rattle.bus_core.specs.Core.{MayAct, Acts};
ghost use Rattle.bus_core.specs.Answers.{pool_told, grant_back, figures_told};
ghost use Rattle.bus_core.specs.Bags.{KeepsBags, KeepsAllLoans, KeepsAllDescs};

use crate::plain::PlainBus;
use app_pools::{AppPools, GrantBlock};
use es_pool::Pool;
use fsw_base::{AppNo, EsStatus, PoolStats};
use step_count::{Ledger, Steps};

impl<'r> PlainBus<'r> {
    /// Creates a memory pool of `bytes` bytes with the configured block sizes, and answers its
    /// number. Pools are numbered 1, 2, 3 and so on, up to 8, and none is ever deleted.
    ///
    /// # Errors
    /// `ErrMemBlockSize` if 8 pools exist, and if `bytes` is more than the configuration
    /// allows, or too few for a block of the smallest size.
    pub fn pool_create(&mut self, app: AppNo, bytes: u32) -> Result<u32, EsStatus>
        requires may { MayAct self.old app (PoolCreate bytes) }
        ensures does { Acts self.old self.new app (PoolCreate bytes) (pool_told result) }
        ensures bags { KeepsBags self.old self.new }
        ensures loans { KeepsAllLoans self.old self.new }
        ensures descs { KeepsAllDescs self.old self.new }
    {
        self.pools.create(bytes)
    }

    /// Gives the caller a grant of a pool's block that has at least `size` bytes, of the smallest
    /// block size that is large enough, and answers the grant's number. The grants of a pool are
    /// numbered 1, 2, 3 and so on, and no number is used again. At most 8 steps.
    ///
    /// # Errors
    /// `NoPool` if no pool of this number was created; `ErrMemBlockSize` if no block size is
    /// large enough, or the pool has no room for one more block of the smallest that is. The first
    /// that applies. If the pool has no number left, every request is refused so.
    pub fn pool_get<L: Ledger>(
        &mut self,
        app: AppNo,
        pool: u32,
        size: u32,
        steps: &mut Steps<L>,
    ) -> Result<u64, EsStatus>
        requires may { MayAct self.old app (PoolGet pool size) }
        ensures does { IsTrue (has_numbers self.old.whole.bus.pools pool) →
            Acts self.old self.new app (PoolGet pool size) (pool_told result) }
        ensures spent { has_numbers self.old.whole.bus.pools pool ≡ false →
            result ≡ Err EsStatus.ErrMemBlockSize }
        ensures number { IfOk result
            (λ number. number ≡ (pool_in self.old.whole.bus.pools pool).given + 1) }
        ensures unchanged { has_numbers self.old.whole.bus.pools pool ≡ false →
            self.new ≡ self.old }
        ensures cost { steps.new ≤ steps.old + 8 }
        ensures bags { KeepsBags self.old self.new }
        ensures loans { KeepsAllLoans self.old self.new }
        ensures descs { KeepsAllDescs self.old self.new }
    {
        if !self.pools.has_numbers(pool) {
            return Err(EsStatus::ErrMemBlockSize);
        }
        self.pools.get(app, pool, size, steps)
    }

    /// Gives a grant of a pool back, whichever application it was given to: its block is free then.
    /// The pool counts a return that it refuses. At most 8 steps.
    ///
    /// # Errors
    /// `NoPool` if no pool of this number was created; `BufferNotInPool` if the pool never
    /// gave the grant; `PoolBlockInvalid` if the grant came back before. The first that applies.
    pub fn pool_put<L: Ledger>(
        &mut self,
        app: AppNo,
        pool: u32,
        grant: u64,
        steps: &mut Steps<L>,
    ) -> Result<(), EsStatus>
        requires may { MayAct self.old app (PoolPut pool grant) }
        ensures does { Acts self.old self.new app (PoolPut pool grant) (grant_back result) }
        ensures cost { steps.new ≤ steps.old + 8 }
        ensures bags { KeepsBags self.old self.new }
        ensures loans { KeepsAllLoans self.old self.new }
        ensures descs { KeepsAllDescs self.old self.new }
    {
        self.pools.put(pool, grant, steps)
    }

    /// Where the block of a grant of a pool lies, for a caller that has memory of the pool's size.
    /// By the code, it stays there until the grant is given back, and no two grants that are out
    /// have a byte in common. It is no call of the bus, and nothing is counted.
    ///
    /// # Errors
    /// Those of [`PlainBus::pool_put`].
    pub fn pool_block(&self, pool: u32, grant: u64) -> Result<GrantBlock, EsStatus>
        ensures refused { result_err result ≡
            result_err (answer_in self.now.whole.bus.pools pool
            (put_answer (pool_in self.now.whole.bus.pools pool) grant)) }
        ensures behind { IfOk result (λ block. overhead ≤ block.offset) }
        ensures aligned { IfOk result (λ block. block.offset % 8 ≡ 0) }
        ensures within { IfOk result (λ block. block.offset + block.size ≤
            (pool_in self.now.whole.bus.pools pool).bytes) }
        ensures size { IfOk result (λ block. block.size ≡
            slice_index (pool_in self.now.whole.bus.pools pool).sizes
            (class_under (pool_in self.now.whole.bus.pools pool).out grant)) }
    {
        self.pools.block(pool, grant)
    }

    /// Answers a pool's figures: its bytes, the blocks drawn, the returns refused, and the bytes
    /// never cut.
    ///
    /// # Errors
    /// `NoPool` if no pool of this number was created.
    pub fn pool_stats(&self, pool: u32) -> Result<PoolStats, EsStatus>
        ensures { (app : ℕ) → Acts self.now self.now app (PoolFigures pool) (figures_told result) }
    {
        self.pools.stats(pool)
    }

    /// The memory pools that were created, to be read.
    pub fn pools(&self) -> &AppPools
        ensures { result.now ≡ self.now.whole.bus.pools }
    {
        &self.pools
    }

    /// How many memory pools were created.
    pub fn app_pools(&self) -> u32
        ensures { result ≡ length self.now.whole.bus.pools.pools }
    {
        self.pools.app_pools()
    }

    /// A memory pool that was created, to be read.
    pub fn app_pool(&self, pool: u32) -> &Pool
        requires { IsTrue (is_pool self.now.whole.bus.pools pool) }
        ensures { IsAccountOf result.now (pool_account (pool_in self.now.whole.bus.pools pool)) }
    {
        self.pools.app_pool(pool)
    }

    /// Whether the pool of this number, if there is one, can number a further grant: it gave fewer
    /// than 2^64 - 1.
    pub fn has_grant_numbers(&self, pool: u32) -> bool
        ensures { result ≡ has_numbers self.now.whole.bus.pools pool }
    {
        self.pools.has_numbers(pool)
    }
}
