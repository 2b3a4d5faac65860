//! The pools of all applications.
ghost use Rattle.std.specs.Prelude.{◌≡◌, ◌+◌, ◌-◌, ◌*◌, ◌%◌, ◌<◌, ◌≤◌, ◌^◌, ◌++◌, false, [], length, map, take, drop, replicate, slice_index, sum_by, All, IsTrue, IfOk, IfSome, Ok, None};
ghost use Rattle.std.specs.Result.{result_err};
ghost use Rattle.es_pool.specs.Account.{IsAccountOf};
ghost use Rattle.fsw_base.specs.PoolAccounts.{overhead};
ghost use Rattle.fsw_base.specs.Grants.{new_pool, is_pool, pool_in, with_pool, has_numbers, refuses_pool, create_answer, after_create, answer_in, get_answer, after_get, put_answer, after_put, figures_of, after_end, held_by, all_after_end, held_in, class_under, pool_account, IsNumbered};
ghost use Rattle.app_pools.specs.Inside.{IsPlace};

use crate::pool::{AppPool, GrantBlock};
use es_pool::{OVERHEAD, Pool};
use fsw_base::{AppNo, BlockSizes, Config, EsStatus, PoolStats};
use std::alloc::{AllocError, Global};
use std::marker::Model;
use step_count::{Ledger, Steps};

/// How many pools applications may create.
pub const MAX_APP_POOLS: u32 = 8;

/// The memory pools of applications, numbered from 1 in order of creation. Any application may use
/// any of them. They lend no bytes: what they hand out are numbered grants.
///
/// Contracts see of each pool its bytes, its counts, and the grants that are out.
pub struct AppPools {
    // Room for [`MAX_APP_POOLS`] pools; those that weren't created are as large as one may be.
    places: Vec<AppPool>,
    // How many pools were created.
    made: u32,
    // The most bytes that a pool may have.
    most: u32,
    // The block sizes of every pool.
    sizes: BlockSizes,
}

impl Drop for AppPools {
    fn drop(self) {
        let AppPools {
            places: _places,
            made: _made,
            most: _most,
            sizes: _sizes,
        } = self;
    }
}

impl Model for AppPools {
    ghost use Rattle.fsw_base.specs.Grants.{Pools};

    ghost Value = { Pools };

    ghost use Rattle.app_pools.specs.Inside.{pools_in, AreOpened};

    ghost view = { λ s. pools_in s.most s.sizes s.made s.places.items };

    ghost invariant = { λ s. AreOpened s.most s.sizes s.made s.places.items };
}

impl AppPools {
    /// Room for [`MAX_APP_POOLS`] pools of up to `config.apppool` bytes with the configured block
    /// sizes. By the code, no later call takes memory.
    ///
    /// # Errors
    /// `AllocError` if memory runs out.
    pub fn new(alloc: Global, config: &Config) -> Result<AppPools, AllocError>
        ensures { IfOk result
            (λ s. s ≡ record { most = config.now.apppool; sizes = config.now.sizes; pools = [] }) }
    {
        let places = unused_pools(alloc, MAX_APP_POOLS, config.apppool, &config.sizes)?;
        Ok(AppPools {
            places,
            made: 0,
            most: config.apppool,
            sizes: config.sizes.again(),
        })
    }

    /// Creates a pool of `bytes` bytes, and answers its number, from 1 (cFE `CFE_ES_PoolCreate`).
    ///
    /// # Errors
    /// `ErrMemBlockSize` if and only if [`MAX_APP_POOLS`] exist, or `bytes` is more than a pool may
    /// have, or too few for a block of the smallest size.
    pub fn create(&mut self, bytes: u32) -> Result<u32, EsStatus>
        ensures answer { result ≡ create_answer self.old bytes }
        ensures after { self.new ≡ after_create self.old bytes }
    {
        if self.refuses(bytes) {
            return Err(EsStatus::ErrMemBlockSize);
        }
        self.places[self.made as usize].open(bytes);
        self.made += 1;
        Ok(self.made)
    }

    /// Gives an application a grant of a pool's block for `size` bytes, and answers the grant's
    /// number, from 1 by pool (cFE `CFE_ES_GetPoolBuf`). At most 8 steps.
    ///
    /// # Errors
    /// `NoPool` if and only if there is no such pool; then `ErrMemBlockSize` if and only if no
    /// block size is large enough, or there is no room for one more block of the smallest that is.
    pub fn get<L: Ledger>(
        &mut self,
        app: AppNo,
        pool: u32,
        size: u32,
        steps: &mut Steps<L>,
    ) -> Result<u64, EsStatus>
        requires numbers_left { IsTrue (has_numbers self.old pool) }
        ensures answer { result ≡
            answer_in self.old pool (get_answer (pool_in self.old pool) size) }
        ensures after { self.new ≡
            with_pool self.old pool (after_get (pool_in self.old pool) app size) }
        ensures cost { steps.new ≤ steps.old + 8 }
    {
        match self.place_of(pool) {
            Some(place) => self.places[place].get(app, size, steps),
            None => Err(EsStatus::NoPool),
        }
    }

    /// Takes a grant back, whichever application it was given to: its block is free then (cFE
    /// `CFE_ES_PutPoolBuf`). A refused return is counted among the pool's errors. At most 8 steps.
    ///
    /// # Errors
    /// `NoPool` if and only if there is no such pool; then `BufferNotInPool` if and only if it
    /// never gave the grant; then `PoolBlockInvalid` if and only if the grant isn't out any more.
    pub fn put<L: Ledger>(
        &mut self,
        pool: u32,
        grant: u64,
        steps: &mut Steps<L>,
    ) -> Result<(), EsStatus>
        ensures answer { result ≡
            answer_in self.old pool (put_answer (pool_in self.old pool) grant) }
        ensures after { self.new ≡
            with_pool self.old pool (after_put (pool_in self.old pool) grant) }
        ensures cost { steps.new ≤ steps.old + 8 }
    {
        match self.place_of(pool) {
            Some(place) => self.places[place].put(grant, steps),
            None => Err(EsStatus::NoPool),
        }
    }

    /// Where the block of a grant of a pool lies, whichever application it was given to. By the
    /// code, it stays there until the grant is given back, and no two grants that are out have a
    /// byte in common.
    ///
    /// # Errors
    /// Those of [`AppPools::put`]; this one isn't counted.
    pub fn block(&self, pool: u32, grant: u64) -> Result<GrantBlock, EsStatus>
        ensures refused { result_err result ≡
            result_err (answer_in self.now pool (put_answer (pool_in self.now pool) grant)) }
        ensures behind { IfOk result (λ block. overhead ≤ block.offset) }
        ensures aligned { IfOk result (λ block. block.offset % 8 ≡ 0) }
        ensures within { IfOk result
            (λ block. block.offset + block.size ≤ (pool_in self.now pool).bytes) }
        ensures size { IfOk result (λ block. block.size ≡
            slice_index (pool_in self.now pool).sizes
            (class_under (pool_in self.now pool).out grant)) }
    {
        match self.place_of(pool) {
            Some(place) => self.places[place].block(grant),
            None => Err(EsStatus::NoPool),
        }
    }

    /// A pool's figures: its bytes, the blocks drawn, the returns refused and the bytes never cut
    /// (cFE `CFE_ES_GetMemPoolStats`).
    ///
    /// # Errors
    /// `NoPool` if and only if there is no such pool.
    pub fn stats(&self, pool: u32) -> Result<PoolStats, EsStatus>
        ensures { result ≡ answer_in self.now pool (Ok (figures_of (pool_in self.now pool))) }
    {
        match self.place_of(pool) {
            Some(place) => Ok(self.places[place].stats()),
            None => Err(EsStatus::NoPool),
        }
    }

    /// Takes back all grants of an application, for its end. At most 8 steps for each that it has
    /// out.
    pub fn end<L: Ledger>(&mut self, app: AppNo, steps: &mut Steps<L>)
        ensures after { self.new ≡ all_after_end app self.old }
        ensures cost { steps.new ≤ steps.old + 8 * held_in self.old app }
    {
        end_all(&mut self.places, self.made, app, steps);
    }

    /// Whether a pool, if there is one of this number, gave fewer than 2^64 - 1 grants, so that a
    /// further one can be numbered.
    pub fn has_numbers(&self, pool: u32) -> bool
        ensures { result ≡ has_numbers self.now pool }
    {
        match self.place_of(pool) {
            Some(place) => self.places[place].has_numbers(),
            None => true,
        }
    }

    /// How many pools were created.
    pub fn app_pools(&self) -> u32
        ensures { result ≡ length self.now.pools }
    {
        self.made
    }

    /// A pool that was created, to be read.
    pub fn app_pool(&self, pool: u32) -> &Pool
        requires { IsTrue (is_pool self.now pool) }
        ensures { IsAccountOf result.now (pool_account (pool_in self.now pool)) }
    {
        self.places[pool as usize - 1].pool()
    }

    /// In every pool the grants that are out stand in order of number, each was given, and each is
    /// of a block size that there is. Does nothing.
    pub fn recall_numbered(&self)
        ensures { All IsNumbered self.now.pools }
    {
        let _ = &self.places;
    }

    // Whether a creation is refused.
    fn refuses(&self, bytes: u32) -> bool
        ensures { result ≡ refuses_pool self.now bytes }
    {
        MAX_APP_POOLS <= self.made || self.most < bytes || bytes < least_bytes(&self.sizes)
    }

    // Where a pool stands; None if there is none of this number.
    fn place_of(&self, pool: u32) -> Option<usize>
        ensures some { IfSome result (λ place. IsPlace self.now pool place) }
        ensures none { result ≡ None → is_pool self.now pool ≡ false }
    {
        if 1 <= pool && pool <= self.made {
            Some(pool as usize - 1)
        } else {
            None
        }
    }
}

// So many pools of `bytes` bytes that gave no grant.
fn unused_pools(
    alloc: Global,
    count: u32,
    bytes: u32,
    sizes: &BlockSizes,
) -> Result<Vec<AppPool>, AllocError>
    ensures { IfOk result (λ places. places.items ≡ replicate count (new_pool sizes.now bytes)) }
{
    let mut places = Vec::with_capacity(alloc, count as usize)?;
    for _ in 0..count {
        places.push_reserved(AppPool::new(alloc, bytes, sizes.again())?);
    }
    Ok(places)
}

// What a block of the smallest size takes. That there is a size, and that it is small, is what
// their count tells.
fn least_bytes(sizes: &BlockSizes) -> u32
    ensures { result ≡ slice_index sizes.now 0 + overhead }
{
    let _ = sizes.count();
    sizes.at(0) + OVERHEAD
}

// Takes back all grants of an application in the first pools.
fn end_all<L: Ledger>(places: &mut Vec<AppPool>, made: u32, app: AppNo, steps: &mut Steps<L>)
    requires { made ≤ length places.old.items }
    ensures after { places.new.items ≡
        map (after_end app) (take made places.old.items) ++ drop made places.old.items }
    ensures cost { steps.new ≤
        steps.old + 8 * sum_by (λ pool. held_by app pool.out) (take made places.old.items) }
{
    for place in 0..made {
        places[place as usize].end(app, steps);
    }
}
