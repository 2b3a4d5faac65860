//! The calls of memory pools.
ghost use Rattle.std.specs.Prelude.{◌≡◌, ◌<◌, ◌≤◌, ◌+◌, ◌%◌, ℕ, false, slice_index, Err, Some, None, IfOk, OnErr, IsTrue, if◌then◌else◌};
ghost use Rattle.std.specs.Result.{result_err};
ghost use Rattle.bus_words.specs.declared.history.Call.TheVariants.{PoolCreate, PoolGet, PoolPut, PoolFigures};
ghost use Rattle.es_pool.specs.Account.{IsAccountOf};
ghost use Rattle.fsw_base.specs.PoolAccounts.{overhead};
ghost use Rattle.fsw_base.specs.Grants.{PoolGrants, has_numbers, is_pool, pool_in, pool_account, answer_in, put_answer, class_under};
ghost use Rattle.bus_core.specs.Core.{Acts};
ghost use Rattle.bus_core.specs.Answers.{pool_told, grant_back, figures_told};
ghost use Rattle.checked_bus.specs.Asked.{unasked};
ghost use Rattle.checked_bus.specs.Classes.{class_figures};

use crate::boxed::SbBox;
use crate::refusal::Refusal;
use app_pools::GrantBlock;
use bus_words::BusCall;
use es_pool::{ClassStats, Pool};
use fsw_base::{EsStatus, PoolStats};
use step_count::{Blank, Ledger, Steps};

// The figures of a block size of a pool, by its place; None past the last.
fn class_in(pool: &Pool, place: u32) -> Option<ClassStats>
    ensures { (grants : PoolGrants) → IsAccountOf pool.now (pool_account grants) →
        result ≡ class_figures grants place }
{
    if place < pool.classes() {
        return Some(pool.class(place));
    }
    None
}

impl<'r> SbBox<'r> {
    /// Creates a memory pool, as [`PlainBus::pool_create`].
    ///
    /// # Errors
    /// Those of [`PlainBus::pool_create`]; a [`Refusal`] if the bus wasn't asked.
    pub fn pool_create(&mut self, app: u32, bytes: u32) -> Result<Result<u32, EsStatus>, Refusal>
        ensures unasked { result_err result ≡ unasked self.old.core app (PoolCreate bytes) }
        ensures nothing { OnErr result (self.new ≡ self.old) }
        ensures does { IfOk result
            (λ answer. Acts self.old.core self.new.core app (PoolCreate bytes) (pool_told answer)) }
        ensures bags { self.new.bags ≡ self.old.bags }
    {
        let caller = self.caller_for(app, &BusCall::PoolCreate { bytes })?;
        Ok(self.core.pool_create(caller, bytes))
    }

    /// Gives the application a grant of a pool's block, as [`PlainBus::pool_get`].
    ///
    /// # Errors
    /// Those of [`PlainBus::pool_get`]; a [`Refusal`] if the bus wasn't asked.
    pub fn pool_get<L: Ledger>(
        &mut self,
        app: u32,
        pool: u32,
        size: u32,
        blank: Blank,
    ) -> Result<Result<u64, EsStatus>, Refusal>
        requires name { blank.name ≡ L.name }
        requires parts { blank.parts ≡ L.parts }
        requires some_part { 0 < blank.parts }
        ensures unasked { result_err result ≡ unasked self.old.core app (PoolGet pool size) }
        ensures nothing { OnErr result (self.new ≡ self.old) }
        ensures does { IfOk result
            (λ answer. IsTrue (has_numbers self.old.core.whole.bus.pools pool) →
            Acts self.old.core self.new.core app (PoolGet pool size) (pool_told answer)) }
        ensures spent { IfOk result
            (λ answer. has_numbers self.old.core.whole.bus.pools pool ≡ false →
            answer ≡ Err EsStatus.ErrMemBlockSize) }
        ensures unchanged { IfOk result
            (λ answer. has_numbers self.old.core.whole.bus.pools pool ≡ false →
            self.new.core ≡ self.old.core) }
        ensures bags { self.new.bags ≡ self.old.bags }
    {
        let caller = self.caller_for(app, &BusCall::PoolGet { pool, size })?;
        let mut steps = Steps::<L>::new(blank);
        Ok(self.core.pool_get(caller, pool, size, &mut steps))
    }

    /// Gives a grant back, as [`PlainBus::pool_put`].
    ///
    /// # Errors
    /// Those of [`PlainBus::pool_put`]; a [`Refusal`] if the bus wasn't asked.
    pub fn pool_put<L: Ledger>(
        &mut self,
        app: u32,
        pool: u32,
        grant: u64,
        blank: Blank,
    ) -> Result<Result<(), EsStatus>, Refusal>
        requires name { blank.name ≡ L.name }
        requires parts { blank.parts ≡ L.parts }
        requires some_part { 0 < blank.parts }
        ensures unasked { result_err result ≡ unasked self.old.core app (PoolPut pool grant) }
        ensures nothing { OnErr result (self.new ≡ self.old) }
        ensures does { IfOk result
            (λ answer. Acts self.old.core self.new.core app (PoolPut pool grant)
            (grant_back answer)) }
        ensures bags { self.new.bags ≡ self.old.bags }
    {
        let caller = self.active_caller(app)?;
        let mut steps = Steps::<L>::new(blank);
        Ok(self.core.pool_put(caller, pool, grant, &mut steps))
    }

    /// Where the block of a grant lies in its pool, as [`PlainBus::pool_block`]. It is no call of
    /// the bus.
    ///
    /// # Errors
    /// Those of [`PlainBus::pool_block`].
    pub fn pool_block(&self, pool: u32, grant: u64) -> Result<GrantBlock, EsStatus>
        ensures refused { result_err result ≡
            result_err (answer_in self.now.core.whole.bus.pools pool
            (put_answer (pool_in self.now.core.whole.bus.pools pool) grant)) }
        ensures behind { IfOk result (λ block. overhead ≤ block.offset) }
        ensures aligned { IfOk result (λ block. block.offset % 8 ≡ 0) }
        ensures within { IfOk result (λ block. block.offset + block.size ≤
            (pool_in self.now.core.whole.bus.pools pool).bytes) }
        ensures size { IfOk result (λ block. block.size ≡
            slice_index (pool_in self.now.core.whole.bus.pools pool).sizes
            (class_under (pool_in self.now.core.whole.bus.pools pool).out grant)) }
    {
        self.core.pool_block(pool, grant)
    }

    /// The figures of a block size of a pool, by its place, from 0; None past the last.
    ///
    /// # Errors
    /// `NoPool` if no pool of this number was created.
    pub fn pool_class(&self, pool: u32, place: u32) -> Result<Option<ClassStats>, EsStatus>
        ensures refused { result_err result ≡
            (if is_pool self.now.core.whole.bus.pools pool then None else Some EsStatus.NoPool) }
        ensures figures { IfOk result
            (λ it. it ≡ class_figures (pool_in self.now.core.whole.bus.pools pool) place) }
    {
        if pool == 0 || pool > self.core.app_pools() {
            return Err(EsStatus::NoPool);
        }
        Ok(class_in(self.core.app_pool(pool), place))
    }

    /// Answers a pool's figures, as [`PlainBus::pool_stats`].
    ///
    /// # Errors
    /// Those of [`PlainBus::pool_stats`].
    pub fn pool_stats(&self, pool: u32) -> Result<PoolStats, EsStatus>
        ensures { (app : ℕ) →
            Acts self.now.core self.now.core app (PoolFigures pool) (figures_told result) }
    {
        self.core.pool_stats(pool)
    }
}
