//! The calls of memory pools, which any application may create and use (cFE Executive Services,
//! memory pools). They lend no bytes: what a pool hands out are numbered grants of its blocks. Each
//! call is the core's and one entry of the journal.
ghost use Rattle.std.specs.Prelude.{◌≡◌, ◌+◌, ◌≤◌, length, IsTrue};
ghost use Rattle.es_pool.specs.Account.{IsAccountOf};
ghost use Rattle.fsw_base.specs.Grants.{is_pool, pool_in, pool_account};
ghost use Rattle.sb_calls.specs.Bags.{KeepsBags};
ghost use Rattle.sb_calls.specs.Core.{MayCall, Does, state_of};
ghost use Rattle.bus_core.specs.Answers.{pool_told, grant_back, figures_told};

use crate::answers::{of_back, of_figures, of_pool};
use crate::journalled::BusCore;
use crate::short::pool_get;
use app_pools::AppPools;
use bus_words::{BusCall, BusEntry, Call};
use es_pool::Pool;
use fsw_base::{AppNo, EsStatus, PoolStats};
use lend_block::Note;
use step_count::{Ledger, Steps};

impl<'r> BusCore<'r> {
    /// Creates a memory pool of `bytes` bytes with the configured block sizes, and answers its
    /// number. Pools are numbered 1, 2, 3 and so on, up to 8, and none is ever deleted.
    ///
    /// # Errors
    /// `ErrMemBlockSize` if 8 pools exist, and if `bytes` is more than the configuration
    /// allows, or too few for a block of the smallest size.
    pub fn pool_create(&mut self, app: AppNo, bytes: u32) -> Result<u32, EsStatus>
        requires may { MayCall self.old app (Call.PoolCreate bytes) }
        ensures does { Does self.old self.new app (Call.PoolCreate bytes) (pool_told result) }
        ensures bags { KeepsBags self.old self.new }
    {
        let result = self.core.pool_create(app, bytes);
        let entry = BusEntry {
            app,
            call: BusCall::PoolCreate { bytes },
            answer: of_pool(&result),
        };
        self.noted.push(&entry, Note::Nothing);
        result
    }

    /// Gives the caller a grant of a pool's block that has at least `size` bytes, of the smallest
    /// block size that is large enough, and answers the grant's number. The grants of a pool are
    /// numbered 1, 2, 3 and so on, and no number is used again. At most 8 steps.
    ///
    /// # Errors
    /// `NoPool` if no pool of this number was created; `ErrMemBlockSize` if no block size is
    /// large enough, or the pool has no room for one more block of the smallest that is. The first
    /// that applies.
    pub fn pool_get<L: Ledger>(
        &mut self,
        app: AppNo,
        pool: u32,
        size: u32,
        steps: &mut Steps<L>,
    ) -> Result<u32, EsStatus>
        requires may { MayCall self.old app (Call.PoolGet pool size) }
        ensures does { Does self.old self.new app (Call.PoolGet pool size) (pool_told result) }
        ensures bags { KeepsBags self.old self.new }
        ensures cost { steps.new ≤ steps.old + 8 }
    {
        let result = pool_get(&mut self.core, app, pool, size, steps);
        let entry = BusEntry {
            app,
            call: BusCall::PoolGet { pool, size },
            answer: of_pool(&result),
        };
        self.noted.push(&entry, Note::Nothing);
        result
    }

    /// Gives a grant of a pool back, whichever application it was given to: its block is free then.
    /// The pool counts a return that it refuses. At most 8 steps.
    ///
    /// # Errors
    /// `NoPool` if no pool of this number was created; `BufferNotInPool` if the pool never
    /// gave the grant; `PoolBlockInvalid` if the grant came back before. The first that applies.
    pub fn pool_put<L: Ledger>(
        &mut self,
        app: AppNo,
        pool: u32,
        grant: u32,
        steps: &mut Steps<L>,
    ) -> Result<(), EsStatus>
        requires may { MayCall self.old app (Call.PoolPut pool grant) }
        ensures does { Does self.old self.new app (Call.PoolPut pool grant) (grant_back result) }
        ensures bags { KeepsBags self.old self.new }
        ensures cost { steps.new ≤ steps.old + 8 }
    {
        let result = self.core.pool_put(app, pool, grant as u64, steps);
        let entry = BusEntry {
            app,
            call: BusCall::PoolPut { pool, grant },
            answer: of_back(&result),
        };
        self.noted.push(&entry, Note::Nothing);
        result
    }

    /// Answers a pool's figures: its bytes, the blocks drawn, the returns refused, and the bytes
    /// never cut.
    ///
    /// # Errors
    /// `NoPool` if no pool of this number was created.
    pub fn pool_stats(&mut self, app: AppNo, pool: u32) -> Result<PoolStats, EsStatus>
        requires may { MayCall self.old app (Call.PoolFigures pool) }
        ensures does { Does self.old self.new app (Call.PoolFigures pool) (figures_told result) }
        ensures bags { KeepsBags self.old self.new }
    {
        let result = self.core.pool_stats(pool);
        let entry = BusEntry {
            app,
            call: BusCall::PoolFigures { pool },
            answer: of_figures(&result),
        };
        self.noted.push(&entry, Note::Nothing);
        result
    }

    /// How many memory pools were created.
    pub fn app_pools(&self) -> u32
        ensures { result ≡ length (state_of self.now).pools.pools }
    {
        self.core.app_pools()
    }

    /// A memory pool that was created, to be read.
    pub fn app_pool(&self, pool: u32) -> &Pool
        requires { IsTrue (is_pool (state_of self.now).pools pool) }
        ensures { IsAccountOf result.now (pool_account (pool_in (state_of self.now).pools pool)) }
    {
        self.core.app_pool(pool)
    }

    /// The memory pools that were created, to be read.
    pub fn pools(&self) -> &AppPools
        ensures { result.now ≡ (state_of self.now).pools }
    {
        self.core.pools()
    }
}
