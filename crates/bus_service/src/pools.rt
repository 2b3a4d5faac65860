//! Memory pools of applications, by ports.
ghost use Rattle.std.specs.Prelude.{◌≡◌};
ghost use Rattle.bus_words.specs.declared.history.Call.TheVariants as made;
ghost use Rattle.bus_core.specs.Answers.{figures_told, grant_back, pool_told};
ghost use Rattle.sb_calls.specs.Core.{MayCall};
ghost use Rattle.bus_service.specs.Ports.{Answers};

use crate::bus::Bus;
use crate::calls::PortCall;
use crate::ports::BusPort;
use buf_desc::Held;
use fsw_base::{AppNo, EsStatus, PoolStats};
use sb_calls::BusCore;
use std::sync::Wait;
use step_count::{Ledger, Steps};

/// [`BusPort::pool_create`].
#[derive(Drop)]
pub(crate) struct PoolCreate {
    // How many bytes it is to have.
    bytes: u32,
}

impl PortCall for PoolCreate {
    type Told = Result<u32, EsStatus>;

    ghost call = { λ c bag. made.PoolCreate c.bytes };

    ghost answer = { pool_told };

    ghost leaves = { λ c old new told. new ≡ old };

    fn make<'r, L: Ledger>(
        self,
        core: &mut BusCore<'r>,
        app: AppNo,
        _bag: &mut Held<'r>,
        _steps: &mut Steps<L>,
    ) -> Result<u32, EsStatus> {
        core.pool_create(app, self.bytes)
    }
}

/// [`BusPort::pool_get`].
#[derive(Drop)]
pub(crate) struct PoolGet {
    // The pool's number.
    pool: u32,
    // How many bytes are asked for.
    size: u32,
}

impl PortCall for PoolGet {
    type Told = Result<u32, EsStatus>;

    ghost call = { λ c bag. made.PoolGet c.pool c.size };

    ghost answer = { pool_told };

    ghost leaves = { λ c old new told. new ≡ old };

    fn make<'r, L: Ledger>(
        self,
        core: &mut BusCore<'r>,
        app: AppNo,
        _bag: &mut Held<'r>,
        steps: &mut Steps<L>,
    ) -> Result<u32, EsStatus> {
        core.pool_get(app, self.pool, self.size, steps)
    }
}

/// [`BusPort::pool_put`].
#[derive(Drop)]
pub(crate) struct PoolPut {
    // The pool's number.
    pool: u32,
    // The grant's number.
    grant: u32,
}

impl PortCall for PoolPut {
    type Told = Result<(), EsStatus>;

    ghost call = { λ c bag. made.PoolPut c.pool c.grant };

    ghost answer = { grant_back };

    ghost leaves = { λ c old new told. new ≡ old };

    fn make<'r, L: Ledger>(
        self,
        core: &mut BusCore<'r>,
        app: AppNo,
        _bag: &mut Held<'r>,
        steps: &mut Steps<L>,
    ) -> Result<(), EsStatus> {
        core.pool_put(app, self.pool, self.grant, steps)
    }
}

/// [`BusPort::pool_stats`].
#[derive(Drop)]
pub(crate) struct PoolFigures {
    // The pool's number.
    pool: u32,
}

impl PortCall for PoolFigures {
    type Told = Result<PoolStats, EsStatus>;

    ghost call = { λ c bag. made.PoolFigures c.pool };

    ghost answer = { figures_told };

    ghost leaves = { λ c old new told. new ≡ old };

    fn make<'r, L: Ledger>(
        self,
        core: &mut BusCore<'r>,
        app: AppNo,
        _bag: &mut Held<'r>,
        _steps: &mut Steps<L>,
    ) -> Result<PoolStats, EsStatus> {
        core.pool_stats(app, self.pool)
    }
}

impl<'r> BusPort<'r> {
    /// Creates a memory pool, as [`BusCore::pool_create`] does at the application's turn,
    /// which it waits for.
    ///
    /// # Errors
    /// Those of [`BusCore::pool_create`], at the turn.
    pub fn pool_create<R: Wait>(
        &mut self,
        bus: &Bus<'r>,
        rt: &R,
        bytes: u32,
    ) -> Result<u32, EsStatus>
        requires bus { self.old.lock ≡ bus.now }
        requires may { MayCall self.old.seen self.old.app (made.PoolCreate bytes) }
        ensures answers { Answers self.old self.new (made.PoolCreate bytes) (pool_told result) }
        ensures bag { self.new.bag ≡ self.old.bag }
    {
        self.visit(bus, rt, PoolCreate { bytes })
    }

    /// Gives the application a grant of a pool's block, as [`BusCore::pool_get`] does at the
    /// application's turn, which it waits for.
    ///
    /// # Errors
    /// Those of [`BusCore::pool_get`], at the turn.
    pub fn pool_get<R: Wait>(
        &mut self,
        bus: &Bus<'r>,
        rt: &R,
        pool: u32,
        size: u32,
    ) -> Result<u32, EsStatus>
        requires bus { self.old.lock ≡ bus.now }
        requires may { MayCall self.old.seen self.old.app (made.PoolGet pool size) }
        ensures answers { Answers self.old self.new (made.PoolGet pool size) (pool_told result) }
        ensures bag { self.new.bag ≡ self.old.bag }
    {
        self.visit(bus, rt, PoolGet { pool, size })
    }

    /// Gives a grant of a pool back, as [`BusCore::pool_put`] does at the application's turn,
    /// which it waits for.
    ///
    /// # Errors
    /// Those of [`BusCore::pool_put`], at the turn.
    pub fn pool_put<R: Wait>(
        &mut self,
        bus: &Bus<'r>,
        rt: &R,
        pool: u32,
        grant: u32,
    ) -> Result<(), EsStatus>
        requires bus { self.old.lock ≡ bus.now }
        requires may { MayCall self.old.seen self.old.app (made.PoolPut pool grant) }
        ensures answers { Answers self.old self.new (made.PoolPut pool grant) (grant_back result) }
        ensures bag { self.new.bag ≡ self.old.bag }
    {
        self.visit(bus, rt, PoolPut { pool, grant })
    }

    /// Answers a pool's figures, as [`BusCore::pool_stats`] does at the application's turn,
    /// which it waits for.
    ///
    /// # Errors
    /// Those of [`BusCore::pool_stats`], at the turn.
    pub fn pool_stats<R: Wait>(
        &mut self,
        bus: &Bus<'r>,
        rt: &R,
        pool: u32,
    ) -> Result<PoolStats, EsStatus>
        requires bus { self.old.lock ≡ bus.now }
        requires may { MayCall self.old.seen self.old.app (made.PoolFigures pool) }
        ensures answers { Answers self.old self.new (made.PoolFigures pool) (figures_told result) }
        ensures bag { self.new.bag ≡ self.old.bag }
    {
        self.visit(bus, rt, PoolFigures { pool })
    }
}
