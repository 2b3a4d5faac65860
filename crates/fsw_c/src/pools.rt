//! Memory pools.
ghost use Rattle.std.specs.Prelude.{◌≡◌, ◌≢◌, ℕ, None, Some, IfSome, IfOk, OnErr};
ghost use Rattle.bus_words.specs.declared.history.Call.TheVariants.{PoolCreate, PoolGet, PoolPut, PoolFigures};
ghost use Rattle.bus_words.specs.declared.calls.BusAnswer.TheVariants.{Number, Pool};
ghost use Rattle.checked_bus.specs.Asked.{unasked};
ghost use Rattle.fsw_c.specs.BusAnswers.{BusCall, AnyonesCall, AnswersBus};
ghost use Rattle.fsw_c.specs.Figures.{stats_in, class_of, class_code, class_shown, block_code, ShowsBlock};

use crate::bus_codes::{ES_BAD_ARGUMENT, code_of_es, code_of_pool_answer, code_of_pool_call};
use crate::codes::{CLOSED, SUCCESS};
use crate::handle::FswCore;
use es_pool::ClassStats;
use fsw_base::{EsStatus, PoolStats};
use std::alloc::Global;
use std::marker::Brand;
use step_count::Blank;

/// The figures of a memory pool.
#[repr(C)]
#[derive(Clone, Copy)]
pub struct FswPoolStats {
    /// Its bytes.
    pub size: u32,
    /// Blocks drawn.
    pub requests: u32,
    /// Returns refused.
    pub errors: u32,
    /// Bytes never cut.
    pub free: u32,
}

impl FswPoolStats {
    // These figures.
    fn of(stats: PoolStats) -> FswPoolStats
        ensures { stats_in result ≡ stats }
    {
        FswPoolStats {
            size: stats.size,
            requests: stats.requests,
            errors: stats.errors,
            free: stats.free,
        }
    }

    // Writes the figures that were answered, if some were.
    fn put(&mut self, answer: &Result<PoolStats, EsStatus>)
        ensures written { IfOk answer.now (λ stats. stats_in self.new ≡ stats) }
        ensures kept { OnErr answer.now (self.new ≡ self.old) }
    {
        if let Ok(stats) = answer {
            *self = FswPoolStats::of(*stats);
        }
    }
}

/// The figures of one block size of a memory pool.
#[repr(C)]
#[derive(Clone, Copy)]
pub struct FswClassStats {
    /// The block size, in bytes.
    pub size: u32,
    /// Blocks cut.
    pub made: u32,
    /// Of these, free now.
    pub free: u32,
}

impl FswClassStats {
    // These figures.
    fn of(class: ClassStats) -> FswClassStats
        ensures { result ≡ class_shown class }
    {
        FswClassStats {
            size: class.size,
            made: class.made,
            free: class.free,
        }
    }
}

/// Where the block of a grant lies in its pool.
#[repr(C)]
#[derive(Clone, Copy)]
pub struct FswPoolBlock {
    /// Where it begins, in bytes from the pool's first byte on.
    pub offset: u32,
    /// Its bytes.
    pub size: u32,
}

/// Creates a memory pool, and gives its number.
#[unsafe(no_mangle)]
pub extern "C" fn fsw_raw_pool_create(
    alloc: Global,
    core: &mut FswCore,
    app: u32,
    bytes: u32,
    pool: &mut u32,
) -> u32
    ensures call { BusCall core.old.held.value core.new.held.value app (PoolCreate bytes)
        (λ bus. unasked bus.core app (PoolCreate bytes)) result }
    ensures kept { result ≢ 0 → pool.new ≡ pool.old }
    ensures number { result ≡ 0 →
        AnswersBus core.old.held.value core.new.held.value app (PoolCreate bytes)
        (Number pool.new) }
{
    let Some(mut it) = core.take(alloc) else {
        return CLOSED;
    };
    let answer = it.bus.pool_create(app, bytes);
    *core = FswCore::open(it);
    if let Ok(Ok(number)) = answer {
        *pool = number;
    }
    code_of_pool_call(&answer)
}

/// Gives a block back.
#[unsafe(no_mangle)]
pub extern "C" fn fsw_raw_pool_put(
    alloc: Global,
    core: &mut FswCore,
    app: u32,
    pool: u32,
    grant: u64,
) -> u32
    ensures call { BusCall core.old.held.value core.new.held.value app (PoolPut pool grant)
        (λ bus. unasked bus.core app (PoolPut pool grant)) result }
{
    let Some(mut it) = core.take(alloc) else {
        return CLOSED;
    };
    let answer = it.bus.pool_put::<Brand>(app, pool, grant, Blank::new(1));
    *core = FswCore::open(it);
    code_of_pool_call(&answer)
}

/// Gives the caller a grant of a block of a pool.
#[unsafe(no_mangle)]
pub extern "C" fn fsw_raw_pool_get(
    alloc: Global,
    core: &mut FswCore,
    app: u32,
    pool: u32,
    size: u32,
    grant: &mut u64,
) -> u32
    ensures call { BusCall core.old.held.value core.new.held.value app (PoolGet pool size)
        (λ bus. unasked bus.core app (PoolGet pool size)) result }
    ensures kept { result ≢ 0 → grant.new ≡ grant.old }
    ensures number { result ≡ 0 →
        AnswersBus core.old.held.value core.new.held.value app (PoolGet pool size)
        (Number grant.new) }
{
    let Some(mut it) = core.take(alloc) else {
        return CLOSED;
    };
    let answer = it.bus.pool_get::<Brand>(app, pool, size, Blank::new(1));
    *core = FswCore::open(it);
    if let Ok(Ok(number)) = answer {
        *grant = number;
    }
    code_of_pool_call(&answer)
}

/// Shows the figures of a pool.
#[unsafe(no_mangle)]
pub extern "C" fn fsw_raw_pool_stats(
    alloc: Global,
    core: &mut FswCore,
    pool: u32,
    stats: &mut FswPoolStats,
) -> u32
    ensures call { AnyonesCall core.old.held.value core.new.held.value (PoolFigures pool) None
        result }
    ensures same { core.new.held.value ≡ core.old.held.value }
    ensures kept { result ≢ 0 → stats.new ≡ stats.old }
    ensures figures { (app : ℕ) → result ≡ 0 →
        AnswersBus core.old.held.value core.new.held.value app (PoolFigures pool)
        (Pool (stats_in stats.new)) }
{
    let Some(it) = core.take(alloc) else {
        return CLOSED;
    };
    let answer = it.bus.pool_stats(pool);
    *core = FswCore::open(it);
    stats.put(&answer);
    code_of_pool_answer(&answer)
}

/// Shows where the block of a grant lies in its pool.
#[unsafe(no_mangle)]
pub extern "C" fn fsw_raw_pool_block(
    alloc: Global,
    core: &mut FswCore,
    pool: u32,
    grant: u64,
    block: &mut FswPoolBlock,
) -> u32
    ensures status { result ≡ block_code core.old.held.value pool grant }
    ensures same { core.new.held.value ≡ core.old.held.value }
    ensures kept { result ≢ 0 → block.new ≡ block.old }
    ensures shown { result ≡ 0 → ShowsBlock core.old.held.value pool grant block.new }
{
    let Some(it) = core.take(alloc) else {
        return CLOSED;
    };
    let answer = it.bus.pool_block(pool, grant);
    *core = FswCore::open(it);
    if let Ok(found) = answer {
        *block = FswPoolBlock {
            offset: found.offset,
            size: found.size,
        };
    }
    code_of_pool_answer(&answer)
}

/// Shows the figures of a block size of a pool, by its place, from 0.
#[unsafe(no_mangle)]
pub extern "C" fn fsw_raw_pool_class(
    alloc: Global,
    core: &mut FswCore,
    pool: u32,
    place: u32,
    stats: &mut FswClassStats,
) -> u32
    ensures status { result ≡ class_code core.old.held.value pool place }
    ensures same { core.new.held.value ≡ core.old.held.value }
    ensures kept { result ≢ 0 → stats.new ≡ stats.old }
    ensures shown { result ≡ 0 → IfSome core.old.held.value
        (λ it. IfSome (class_of it pool place) (λ class. stats.new ≡ class_shown class)) }
{
    let Some(it) = core.take(alloc) else {
        return CLOSED;
    };
    let answer = it.bus.pool_class(pool, place);
    *core = FswCore::open(it);
    match answer {
        Ok(Some(class)) => {
            *stats = FswClassStats::of(class);
            SUCCESS
        }
        Ok(None) => ES_BAD_ARGUMENT,
        Err(status) => code_of_es(status),
    }
}
