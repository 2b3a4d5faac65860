//! The core: what it keeps, and how it opens.
ghost use Rattle.std.specs.Prelude.{◌≡◌, ◌≤◌, [], length, IfOk};
ghost use Rattle.fsw_base.specs.Limits.{limits_of};
ghost use Rattle.bus_words.specs.Acts.{opening_whole};

use crate::activities::{Activity, all_active};
use app_pools::AppPools;
use bus_counts::Records;
use bus_messages::BusStore;
use fsw_base::Config;
use std::alloc::{AllocError, Global};
use std::marker::Model;

/// The software bus of up to 16 applications, without a journal. By the code, all its memory is
/// taken when it is made.
pub struct PlainBus<'r> {
    // The limits that it was made with.
    pub(crate) config: Config,
    // What each application does, from application 1.
    pub(crate) activities: Vec<Activity>,
    // The live pipes with their messages, the live subscriptions, the routes with their counts, and
    // the unsent buffers.
    pub(crate) store: BusStore<'r>,
    // The memory pools that applications created; room for all that may be.
    pub(crate) pools: AppPools,
    // The event desk and the counters.
    pub(crate) records: Records,
}

impl Drop for PlainBus<'_> {
    fn drop(self) {
        let PlainBus {
            config: _config,
            activities: _activities,
            store: _store,
            pools: _pools,
            records: _records,
        } = self;
    }
}

impl<'r> Model for PlainBus<'r> {
    ghost use Rattle.bus_core.specs.Core.{Plain};

    ghost Value = { Plain };

    ghost use Rattle.bus_core.specs.Inside.{plain_of, Keeps};

    ghost view = { plain_of };

    ghost invariant = { Keeps };
}

impl<'r> PlainBus<'r> {
    /// A bus on which no call was made, for so many applications, at most 16. The blocks of the
    /// bus's pool are cut from the region.
    ///
    /// # Errors
    /// If memory runs out.
    pub fn new(
        alloc: Global,
        cfg: &Config,
        apps: usize,
        region: &'r mut [u8],
    ) -> Result<PlainBus<'r>, AllocError>
        requires apps { apps ≤ 16 }
        requires region { cfg.now.pool ≤ length region.old }
        ensures { IfOk result
            (λ core. core ≡
            record {
              limits = limits_of cfg.now;
              whole = opening_whole (limits_of cfg.now) apps;
              loans = [];
              descs = [];
            }) }
    {
        // The store is made last: every way out behind it lets it go, which is proved each time.
        Ok(PlainBus {
            config: cfg.again(),
            activities: all_active(alloc, apps)?,
            pools: AppPools::new(alloc, cfg)?,
            records: Records::new(alloc)?,
            store: BusStore::new(alloc, cfg, apps as u32, region)?,
        })
    }
}
