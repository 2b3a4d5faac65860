//! One pool of applications, with its grants.
ghost use Rattle.std.specs.Prelude.{◌≡◌, ◌≢◌, ◌==◌, ◌&&◌, nat_le, nat_lt, ℕ, ◌+◌, ◌-◌, ◌*◌, ◌<◌, ◌%◌, ◌≤◌, ◌^◌, if◌then◌else◌, true, not, [], length, map, filter, vec_capacity, slice_index, All, IsTrue, IfOk, IfSome, None};
ghost use Rattle.std.specs.Result.{result_err};
ghost use Rattle.fsw_base.specs.PoolAccounts.{counted, overhead};
ghost use Rattle.es_pool.specs.Account.{IsAccountOf};
ghost use Rattle.es_pool.specs.Pool.{class_at, is_out, given_back};
ghost use Rattle.fsw_base.specs.Grants.{new_pool, get_answer, after_get, put_answer, after_put, after_end, figures_of, held_by, class_under, pool_account};
ghost use Rattle.app_pools.specs.Inside.{grant_of, account_in, AreLent, AreRising, HasNumber, AreGivenBack};

use es_pool::{BlockNo, Pool, blocks_lie_apart};
use fsw_base::{AppNo, BlockSizes, EsStatus, PoolStats};
use std::alloc::{AllocError, Global};
use std::marker::Model;
use step_count::{Ledger, Steps};

// A grant that is out, with its block.
#[derive(Clone, Copy)]
struct Lent {
    // Its number.
    number: u64,
    // The application that it was given to.
    app: AppNo,
    // Its block size, by place.
    class: u32,
    // The block that is out under it.
    block: BlockNo,
}

/// Where the block of a grant lies.
#[derive(Clone, Copy, Debug, PartialEq, Eq)]
pub struct GrantBlock {
    /// Where it begins, in bytes from the pool's first byte on: 16 or more, and a multiple of 8.
    pub offset: u32,
    /// Its bytes.
    pub size: u32,
}

/// A pool that hands out grants, numbered from 1, in place of its blocks, which go out again and
/// again.
///
/// Contracts see its bytes, its counts, and the grants that are out.
#[derive(Drop)]
pub(crate) struct AppPool {
    // The blocks.
    pool: Pool,
    // How many grants were given, which is the newest one's number.
    given: u64,
    // The grants that are out, by rising number, so that one is found by halves. There is room for
    // as many as blocks can be cut.
    lent: Vec<Lent>,
}

impl Model for AppPool {
    ghost use Rattle.std.specs.Prelude.{vec_capacity};
    ghost use Rattle.fsw_base.specs.Grants.{PoolGrants};

    ghost Value = { PoolGrants };

    ghost use Rattle.app_pools.specs.Inside.{grants_of, AreKept};

    ghost view = { λ p. grants_of p.pool p.given p.lent.items };

    ghost invariant = { λ p. AreKept p.pool p.given p.lent.items (vec_capacity p.lent) };
}

impl AppPool {
    /// A pool of `bytes` bytes with these block sizes that gave no grant. All its memory is taken
    /// here.
    ///
    /// # Errors
    /// `AllocError` if memory runs out.
    pub(crate) fn new(alloc: Global, bytes: u32, sizes: BlockSizes) -> Result<AppPool, AllocError>
        ensures { IfOk result (λ pool. pool ≡ new_pool sizes bytes) }
    {
        let pool = Pool::new(alloc, bytes, sizes)?;
        let lent = Vec::with_capacity(alloc, pool.most_blocks() as usize)?;
        Ok(AppPool {
            pool,
            given: 0,
            lent,
        })
    }

    /// Sets the bytes of a pool that gave no grant yet, to at most what it has.
    pub(crate) fn open(&mut self, bytes: u32)
        requires unused { self.old.given ≡ 0 }
        requires within { bytes ≤ self.old.bytes }
        ensures { self.new ≡ record self.old { bytes = bytes } }
    {
        self.pool.recall_whole();
        self.pool.set_bytes(bytes);
    }

    /// Gives an application a grant of a block for `size` bytes, and answers its number.
    ///
    /// # Errors
    /// `ErrMemBlockSize` if and only if no block size is large enough, or there is no room for one
    /// more block of the smallest that is.
    pub(crate) fn get<L: Ledger>(
        &mut self,
        app: AppNo,
        size: u32,
        steps: &mut Steps<L>,
    ) -> Result<u64, EsStatus>
        requires numbers_left { self.old.given < 2 ^ 64 - 1 }
        ensures answer { result ≡ get_answer self.old size }
        ensures after { self.new ≡ after_get self.old app size }
        ensures cost { steps.new ≤ steps.old + 8 }
    {
        match self.pool.get(size, steps) {
            Ok(block) => {
                self.pool.recall_whole();
                self.given += 1;
                self.lent.push_reserved(Lent {
                    number: self.given,
                    app,
                    class: class_of(&self.pool, block),
                    block,
                });
                Ok(self.given)
            }
            Err(refusal) => Err(refusal),
        }
    }

    /// Takes a grant back, whoever has it: its block is free then. A refused return is counted.
    ///
    /// # Errors
    /// `BufferNotInPool` if and only if the grant was never given, `PoolBlockInvalid` if and only
    /// if it was and isn't out any more.
    pub(crate) fn put<L: Ledger>(
        &mut self,
        grant: u64,
        steps: &mut Steps<L>,
    ) -> Result<(), EsStatus>
        ensures answer { result ≡ put_answer self.old grant }
        ensures after { self.new ≡ after_put self.old grant }
        ensures cost { steps.new ≤ steps.old + 8 }
    {
        if !was_given(self.given, grant) {
            return Err(refuse(&mut self.pool, EsStatus::BufferNotInPool));
        }
        match place_of(&self.lent, grant) {
            Some(place) => {
                let lent = self.lent.remove(place);
                free(&mut self.pool, lent.block, steps);
                Ok(())
            }
            None => Err(refuse(&mut self.pool, EsStatus::PoolBlockInvalid)),
        }
    }

    /// Where the block of a grant lies. By the code, it stays there until the grant is given back,
    /// and no two grants that are out have a byte in common.
    ///
    /// # Errors
    /// Those of a return; this one isn't counted.
    pub(crate) fn block(&self, grant: u64) -> Result<GrantBlock, EsStatus>
        ensures refused { result_err result ≡ result_err (put_answer self.now grant) }
        ensures behind { IfOk result (λ block. overhead ≤ block.offset) }
        ensures aligned { IfOk result (λ block. block.offset % 8 ≡ 0) }
        ensures within { IfOk result (λ block. block.offset + block.size ≤ self.now.bytes) }
        ensures size { IfOk result (λ block. block.size ≡
            slice_index self.now.sizes (class_under self.now.out grant)) }
    {
        if !was_given(self.given, grant) {
            return Err(EsStatus::BufferNotInPool);
        }
        match place_of(&self.lent, grant) {
            Some(place) => {
                // Do nothing; the proof learns of them where the blocks lie.
                self.pool.recall_whole();
                blocks_lie_apart();
                let block = self.lent[place].block;
                Ok(GrantBlock {
                    offset: self.pool.offset_of(block),
                    size: self.pool.size_of(block),
                })
            }
            None => Err(EsStatus::PoolBlockInvalid),
        }
    }

    /// Takes back all grants of an application.
    pub(crate) fn end<L: Ledger>(&mut self, app: AppNo, steps: &mut Steps<L>)
        ensures after { self.new ≡ after_end app self.old }
        ensures cost { steps.new ≤ steps.old + 8 * held_by app self.old.out }
    {
        free_all_of(&mut self.pool, &self.lent, app, steps);
        leave_others(&mut self.lent, app);
    }

    /// Whether a further grant can be numbered.
    pub(crate) fn has_numbers(&self) -> bool
        ensures { result ≡ nat_lt self.now.given (2 ^ 64 - 1) }
    {
        self.given < u64::MAX
    }

    /// The pool's figures.
    pub(crate) fn stats(&self) -> PoolStats
        ensures { result ≡ figures_of self.now }
    {
        self.pool.stats()
    }

    /// The pool itself, to be read.
    pub(crate) fn pool(&self) -> &Pool
        ensures { IsAccountOf result.now (pool_account self.now) }
    {
        &self.pool
    }
}

// Whether a grant of this number was given, if so many were.
fn was_given(given: u64, number: u64) -> bool
    ensures { result ≡ (nat_le 1 number && nat_le number given) }
{
    1 <= number && number <= given
}

// Where the grant of a number stands, among grants whose numbers rise.
fn place_of(lent: &[Lent], number: u64) -> Option<usize>
    requires { AreRising lent.now }
    ensures some { IfSome result (λ i. HasNumber lent.now number i) }
    ensures none { result ≡ None → All (λ grant. grant.number ≢ number) lent.now }
{
    match lent.binary_search_by_key(&number, |grant| grant.number) {
        Ok(place) => Some(place),
        Err(_) => None,
    }
}

// The class of a block.
fn class_of(pool: &Pool, block: BlockNo) -> u32
    ensures { result ≡ class_at pool.now block }
{
    match pool.class_of(block) {
        Some(class) => class,
        None => 0,
    }
}

// Counts a refused return.
fn refuse(pool: &mut Pool, refusal: EsStatus) -> EsStatus
    ensures same { result ≡ refusal }
    ensures after { pool.new ≡ record pool.old { errors = counted pool.old.errors } }
{
    pool.count_error();
    refusal
}

// Gives a block that is out back.
fn free<L: Ledger>(pool: &mut Pool, block: BlockNo, steps: &mut Steps<L>)
    requires { is_out pool.old block ≡ true }
    ensures after { pool.new ≡ given_back pool.old block }
    ensures cost { steps.new ≤ steps.old + 8 }
{
    match pool.put(block, steps) {
        Ok(()) => {}
        Err(_) => unreachable!(),
    }
}

// Gives the blocks of an application's grants back.
fn free_all_of<L: Ledger>(pool: &mut Pool, lent: &[Lent], app: AppNo, steps: &mut Steps<L>)
    requires blocks { AreLent pool.old lent.now }
    requires account { IsAccountOf pool.old (account_in pool.old lent.now) }
    ensures freed { AreGivenBack pool.old pool.new lent.now app (length lent.now) }
    ensures cost { steps.new ≤ steps.old + 8 * held_by app (map grant_of lent.now) }
{
    for grant in lent {
        free_if_of(pool, *grant, app, steps);
    }
}

// Gives the block of a grant back, if it is the application's.
fn free_if_of<L: Ledger>(pool: &mut Pool, grant: Lent, app: AppNo, steps: &mut Steps<L>)
    requires { is_out pool.old grant.block ≡ true }
    ensures after { pool.new ≡
        (if grant.app == app then given_back pool.old grant.block else pool.old) }
    ensures cost { steps.new ≤ steps.old + (if grant.app == app then 8 else 0) }
{
    if grant.app == app {
        free(pool, grant.block, steps);
    }
}

// Leaves the grants of the other applications.
fn leave_others(lent: &mut Vec<Lent>, app: AppNo)
    ensures others { lent.new.items ≡ filter (λ grant. not (grant.app == app)) lent.old.items }
    ensures room { vec_capacity lent.new ≡ vec_capacity lent.old }
{
    lent.retain(|grant| grant.app != app);
}
