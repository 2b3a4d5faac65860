//! The pools of all applications.
ghost use Rattle.std.specs.Prelude.{◌≡◌, ◌+◌, ◌-◌, ◌<◌, ◌≤◌, ◌&&◌, nat_le, false, [], length, map, slice_index, IsTrue, IfOk, IfSome, Ok, None};
ghost use Rattle.std.specs.Result.{OnOk};
ghost use Rattle.fsw_base.specs.PoolAccounts.{overhead};
ghost use Rattle.fsw_base.specs.Grants.{is_pool, pool_in, with_pool, refuses_pool, create_answer, after_create, answer_in, get_answer, after_get, put_answer, after_put, figures_of, after_end, all_after_end};
ghost use Rattle.list_pool.specs.Inside.{IsPlace};

use crate::account::OVERHEAD;
use crate::grants::GrantPool;
use fsw_base::{AppNo, BlockSizes, Config, EsStatus, PoolStats};
use std::alloc::{AllocError, Global};
use std::marker::Model;

// How many pools applications may create.
const MAX_POOLS: usize = 8;

/// The memory pools of applications, numbered from 1 in order of creation. Any application may use
/// any of them.
///
/// Contracts see of each pool its account, how many grants it gave, and those that are out.
pub struct GrantPools {
    // The most bytes that a pool may have.
    most: u32,
    // The block sizes of every pool.
    sizes: BlockSizes,
    // The pools that were created.
    pools: Vec<GrantPool>,
}

impl Drop for GrantPools {
    fn drop(self) {
        let GrantPools {
            most: _most,
            sizes: _sizes,
            pools: _pools,
        } = self;
    }
}

impl Model for GrantPools {
    ghost use Rattle.fsw_base.specs.Grants.{Pools};

    ghost Value = { Pools };

    ghost use Rattle.list_pool.specs.Inside.{pools_of, AreFew};

    ghost view = { pools_of };

    ghost invariant = { AreFew };
}

impl GrantPools {
    /// No pool yet; each may have up to `config.apppool` bytes and has the configured block sizes.
    pub fn new(alloc: Global, config: &Config) -> GrantPools
        ensures { result ≡
            record { most = config.now.apppool; sizes = config.now.sizes; pools = [] } }
    {
        GrantPools {
            most: config.apppool,
            sizes: config.sizes.again(),
            pools: Vec::new(alloc),
        }
    }

    /// Creates a pool of `bytes` bytes, and answers its number, from 1. `ErrMemBlockSize` is
    /// answered if and only if 8 exist, or `bytes` is more than a pool may have, or too few for a
    /// block of the smallest size.
    ///
    /// # Errors
    /// `AllocError` if memory runs out. Nothing is said of the pools then.
    pub fn create(&mut self, alloc: Global, bytes: u32) -> Result<Result<u32, EsStatus>, AllocError>
        ensures answer { IfOk result (λ answer. answer ≡ create_answer self.old bytes) }
        ensures after { OnOk result (self.new ≡ after_create self.old bytes) }
    {
        if self.refuses(bytes) {
            return Ok(Err(EsStatus::ErrMemBlockSize));
        }
        let pool = GrantPool::new(alloc, bytes, &self.sizes)?;
        self.pools.push(pool)?;
        Ok(Ok(self.pools.len() as u32))
    }

    /// Gives an application a grant of a pool's block for `size` bytes, and answers the grant's
    /// number, from 1 by pool. `NoPool` is answered if and only if there is no such pool; then
    /// `ErrMemBlockSize` if and only if no block size is large enough, or there is no room for one
    /// more block of the smallest that is.
    ///
    /// # Errors
    /// `AllocError` if memory runs out, or if the pool gave 4294967295 grants. Nothing is
    /// said of the pools then.
    pub fn get(
        &mut self,
        app: AppNo,
        pool: u32,
        size: u32,
    ) -> Result<Result<u32, EsStatus>, AllocError>
        ensures answer { IfOk result
            (λ answer. answer ≡
            answer_in self.old pool (get_answer (pool_in self.old pool) size)) }
        ensures after { OnOk result
            (self.new ≡ with_pool self.old pool (after_get (pool_in self.old pool) app size)) }
    {
        match place_of(self.pools.len(), pool) {
            Some(place) => self.pools[place].get(app, size),
            None => Ok(Err(EsStatus::NoPool)),
        }
    }

    /// Takes a grant back, whichever application it was given to: its block is free then. A
    /// refused return is counted among the pool's errors.
    ///
    /// # Errors
    /// `NoPool` if and only if there is no such pool; then `BufferNotInPool` if and only if it
    /// never gave the grant; then `PoolBlockInvalid` if and only if the grant isn't out any more.
    pub fn put(&mut self, pool: u32, grant: u32) -> Result<(), EsStatus>
        ensures answer { result ≡
            answer_in self.old pool (put_answer (pool_in self.old pool) grant) }
        ensures after { self.new ≡
            with_pool self.old pool (after_put (pool_in self.old pool) grant) }
    {
        match place_of(self.pools.len(), pool) {
            Some(place) => self.pools[place].put(grant),
            None => Err(EsStatus::NoPool),
        }
    }

    /// A pool's figures: its bytes, the blocks drawn, the returns refused and the bytes never cut.
    ///
    /// # Errors
    /// `NoPool` if and only if there is no such pool.
    pub fn figures(&self, pool: u32) -> Result<PoolStats, EsStatus>
        ensures { result ≡ answer_in self.now pool (Ok (figures_of (pool_in self.now pool))) }
    {
        match place_of(self.pools.len(), pool) {
            Some(place) => Ok(self.pools[place].figures()),
            None => Err(EsStatus::NoPool),
        }
    }

    /// Takes back all grants of an application, for its end.
    pub fn end(&mut self, app: AppNo)
        ensures { self.new ≡ all_after_end app self.old }
    {
        end_all(&mut self.pools, app);
    }

    /// How many pools were created.
    pub fn count(&self) -> u32
        ensures { result ≡ length self.now.pools }
    {
        self.pools.len() as u32
    }

    /// A pool that was created, to be read.
    pub fn pool(&self, pool: u32) -> &GrantPool
        requires { IsTrue (is_pool self.now pool) }
        ensures { result.now ≡ pool_in self.now pool }
    {
        &self.pools[pool as usize - 1]
    }

    // Whether a creation is refused.
    fn refuses(&self, bytes: u32) -> bool
        ensures { result ≡ refuses_pool self.now bytes }
    {
        MAX_POOLS <= self.pools.len() || self.most < bytes || bytes < least_bytes(&self.sizes)
    }
}

// Where the pool of a number stands, of so many; None if there is none of this number.
fn place_of(count: usize, pool: u32) -> Option<usize>
    ensures some { IfSome result (λ place. IsPlace count pool place) }
    ensures none { result ≡ None → (nat_le 1 pool && nat_le pool count) ≡ false }
{
    if 1 <= pool && pool as usize <= count {
        Some(pool as usize - 1)
    } else {
        None
    }
}

// What a block of the smallest size takes. That there is a size, and that it is small, is what
// their count tells.
fn least_bytes(sizes: &BlockSizes) -> u32
    ensures { result ≡ slice_index sizes.now 0 + overhead }
{
    let _ = sizes.count();
    sizes.at(0) + OVERHEAD
}

// Takes back all grants of an application in these pools.
fn end_all(pools: &mut Vec<GrantPool>, app: AppNo)
    ensures { pools.new.items ≡ map (after_end app) pools.old.items }
{
    for place in 0..pools.len() {
        pools[place].end(app);
    }
}
