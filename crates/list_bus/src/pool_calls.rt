//! The calls of the memory pools.
ghost use Rattle.std.specs.Prelude.{◌≡◌, IfOk};
ghost use Rattle.bus_words.specs.declared.history.Call.TheVariants.{PoolCreate, PoolGet, PoolPut, PoolFigures};
ghost use Rattle.list_bus.specs.Decided.{Decides, numbered, returned, figured};
ghost use Rattle.list_bus.specs.Played.{IsPlayed};

use crate::bus::ListBus;
use bus_words::BusAnswer;
use fsw_base::{AppNo, EsStatus, PoolStats};
use std::alloc::{AllocError, Global};

impl ListBus {
    /// A new pool.
    pub(crate) fn pool_create(
        &mut self,
        alloc: Global,
        app: AppNo,
        bytes: u32,
    ) -> Result<BusAnswer, AllocError>
        requires { IsPlayed self.old }
        ensures { IfOk result
            (λ answer. Decides self.old self.new app (PoolCreate bytes) answer) }
    {
        let made = self.pools.create(alloc, bytes)?;
        Ok(number_answer(made))
    }

    /// A grant of a pool's block.
    pub(crate) fn pool_get(
        &mut self,
        app: AppNo,
        pool: u32,
        size: u32,
    ) -> Result<BusAnswer, AllocError>
        requires { IsPlayed self.old }
        ensures { IfOk result
            (λ answer. Decides self.old self.new app (PoolGet pool size) answer) }
    {
        let made = self.pools.get(app, pool, size)?;
        Ok(number_answer(made))
    }

    /// A grant comes back.
    pub(crate) fn pool_put(&mut self, app: AppNo, pool: u32, grant: u32) -> BusAnswer
        requires { IsPlayed self.old }
        ensures { Decides self.old self.new app (PoolPut pool grant) result }
    {
        let made = self.pools.put(pool, grant);
        return_answer(made)
    }

    /// A pool's figures.
    pub(crate) fn pool_figures(&self, app: AppNo, pool: u32) -> BusAnswer
        requires { IsPlayed self.now }
        ensures { Decides self.now self.now app (PoolFigures pool) result }
    {
        let made = self.pools.figures(pool);
        figures_answer(made)
    }
}

// The answer of a call that a pool answers with a number, or refuses.
fn number_answer(made: Result<u32, EsStatus>) -> BusAnswer
    ensures { result ≡ numbered made }
{
    match made {
        Ok(number) => BusAnswer::Number(number),
        Err(why) => BusAnswer::Es(why),
    }
}

// The answer of a return, done or refused.
fn return_answer(made: Result<(), EsStatus>) -> BusAnswer
    ensures { result ≡ returned made }
{
    match made {
        Ok(()) => BusAnswer::Done,
        Err(why) => BusAnswer::Es(why),
    }
}

// The answer of a call for figures, or its refusal.
fn figures_answer(made: Result<PoolStats, EsStatus>) -> BusAnswer
    ensures { result ≡ figured made }
{
    match made {
        Ok(figures) => BusAnswer::Pool(figures),
        Err(why) => BusAnswer::Es(why),
    }
}
