//! The bus, and its step.
ghost use Rattle.std.specs.Prelude.{◌≡◌, IsTrue, IfOk};
ghost use Rattle.std.specs.Result.{OnOk};
ghost use Rattle.fsw_base.specs.Limits.{limits_of};
ghost use Rattle.bus_words.specs.Entries.{call_of};
ghost use Rattle.bus_words.specs.Acts.{opening_whole};
ghost use Rattle.list_bus.specs.Played.{IsPlayed, is_playable, Plays};

use crate::standings::{ListStanding, all_active};
use bus_words::{BusAnswer, BusCall};
use evs_events::EventDesk;
use fsw_base::{AppNo, Config};
use housekeeping::Counters;
use list_messages::ListMessages;
use list_pipes::{ListNexts, ListSubscriptions};
use list_pool::GrantPools;
use std::alloc::{AllocError, Global};
use std::marker::Model;

/// A software bus of plain lists. Contracts see the limits and all of the state.
pub struct ListBus {
    // The limits of the run.
    pub(crate) config: Config,
    // The pipes and the unsent buffers, with the account of the bus's pool.
    pub(crate) messages: ListMessages,
    // The subscriptions, and the ids that have a route.
    pub(crate) subs: ListSubscriptions,
    // The next sequence counts.
    pub(crate) nexts: ListNexts,
    // What each application is doing, from 1.
    pub(crate) standings: Vec<ListStanding>,
    // The memory pools of applications.
    pub(crate) pools: GrantPools,
    // The event desk.
    pub(crate) desk: EventDesk,
    // The counters and the peaks.
    pub(crate) counters: Counters,
}

impl Drop for ListBus {
    fn drop(self) {
        let ListBus {
            config: _config,
            messages: _messages,
            subs: _subs,
            nexts: _nexts,
            standings: _standings,
            pools: _pools,
            desk: _desk,
            counters: _counters,
        } = self;
    }
}

impl Model for ListBus {
    ghost use Rattle.list_bus.specs.Played.{Played};

    ghost Value = { Played };

    ghost use Rattle.list_bus.specs.Inside.{played_in};

    ghost view = { played_in };
}

impl ListBus {
    /// A bus of so many applications, before their first call.
    ///
    /// # Errors
    /// `AllocError` if memory runs out.
    pub fn new(alloc: Global, config: &Config, apps: u32) -> Result<ListBus, AllocError>
        ensures limits { IfOk result (λ bus. bus.limits ≡ limits_of config.now) }
        ensures whole { IfOk result
            (λ bus. bus.whole ≡ opening_whole (limits_of config.now) apps) }
        ensures kept { IfOk result (λ bus. IsPlayed bus) }
    {
        let messages = ListMessages::new(alloc, config.pool, &config.sizes, apps)?;
        let standings = all_active(alloc, apps)?;
        let desk = EventDesk::new(alloc)?;
        Ok(ListBus {
            config: config.again(),
            messages,
            subs: ListSubscriptions::new(alloc),
            nexts: ListNexts::new(alloc),
            standings,
            pools: GrantPools::new(alloc, config),
            desk,
            counters: Counters::new(),
        })
    }

    /// What a call answers. The bus is left as the machine leaves it.
    ///
    /// # Errors
    /// `AllocError` if memory runs out, or if a number of 32 bits is spent: 4294967295 pipes,
    /// subscriptions, send numbers or grants of one pool were given. The bus is
    /// unspecified then.
    pub fn step(
        &mut self,
        alloc: Global,
        app: AppNo,
        call: &BusCall<'_>,
    ) -> Result<BusAnswer, AllocError>
        requires kept { IsPlayed self.old }
        requires playable { IsTrue (is_playable (call_of call.now)) }
        ensures { IfOk result (λ answer. Plays self.old self.new app (call_of call.now) answer) }
    {
        let decision = self.decide(alloc, app, call)?;
        self.change_desk(app, call, &decision.events);
        self.count(call, &decision.answer, &decision.events);
        Ok(decision.answer)
    }
}
