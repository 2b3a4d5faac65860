//! What is read off the bus.
ghost use Rattle.std.specs.Prelude.{◌≡◌, None, Some, MatchOption};
ghost use Rattle.std.specs.List.{list_all};
ghost use Rattle.bus_words.specs.declared.history.Call.TheVariants.{Figures};
ghost use Rattle.bus_words.specs.Bus.{standing_of, has_ended, unsent_size};
ghost use Rattle.bus_words.specs.Entries.{call_of};
ghost use Rattle.bus_words.specs.Held.{in_use, account_of};
ghost use Rattle.bus_words.specs.Machine.{may_call};
ghost use Rattle.list_bus.specs.Decided.{Decides};
ghost use Rattle.list_bus.specs.Played.{IsPlayed, last_of};
ghost use Rattle.list_bus.specs.Standings.{standing_in};

use crate::bus::ListBus;
use crate::standings::{ListStanding, have_all_ended, standing_of};
use bus_words::{BusAnswer, BusCall};
use evs_events::EventDesk;
use fsw_base::{AppNo, BusStats};
use housekeeping::{CounterName, Counters, InUse};
use list_pipes::{ListItem, owns, pipe_at};
use list_pool::{GrantPools, ListAccount};

impl ListBus {
    /// What an application is doing; one that the bus doesn't know has ended.
    pub fn standing(&self, app: AppNo) -> ListStanding
        ensures { standing_in result ≡ standing_of self.now.whole.bus app }
    {
        standing_of(&self.standings, app)
    }

    /// Whether an application may make this call now.
    pub fn may_call(&self, app: AppNo, call: &BusCall<'_>) -> bool
        ensures { result ≡ may_call (standing_of self.now.whole.bus app) (call_of call.now) }
    {
        match (self.standing(app), call) {
            (ListStanding::Active, BusCall::Look { .. }) => false,
            (ListStanding::Active, _) => true,
            (ListStanding::Waiting(pipe), BusCall::Look { pipe: other }) => pipe == *other,
            (ListStanding::Waiting(_), BusCall::End) => true,
            (ListStanding::Waiting(_), _) => false,
            (ListStanding::Ended, _) => false,
        }
    }

    /// Whether every application has ended.
    pub fn have_all_ended(&self) -> bool
        ensures { result ≡ list_all has_ended self.now.whole.bus.standings }
    {
        have_all_ended(&self.standings)
    }

    /// The size of an application's unsent buffer; 0 if it has none of this number.
    pub fn unsent_size(&self, app: AppNo, number: u32) -> u32
        ensures { result ≡ unsent_size self.now.whole.bus.unsent app number }
    {
        self.messages.unsent_size(app, number)
    }

    /// The message received last from an application's pipe.
    pub fn last_message(&self, app: AppNo, pipe: u32) -> Option<&ListItem>
        ensures { MatchOption result (last_of self.now.whole.bus app pipe ≡ None)
            (λ item. last_of self.now.whole.bus app pipe ≡ Some item.now) }
    {
        if !owns(self.messages.pipes(), app, pipe) {
            return None;
        }
        match pipe_at(self.messages.pipes(), pipe) {
            Some(pipe) => pipe.last(),
            None => None,
        }
    }

    /// What is in use.
    pub fn in_use(&self) -> InUse
        requires { IsPlayed self.now }
        ensures { result ≡ in_use self.now.limits self.now.whole.bus }
    {
        InUse {
            msgids: self.subs.routed_count(),
            pipes: self.messages.pipe_count(),
            subs: self.subs.count(),
            buffers: self.messages.held_count(),
            bytes: self.messages.bytes_in_use(),
        }
    }

    /// What the call for the figures is answered.
    pub(crate) fn figures(&self, app: AppNo) -> BusAnswer
        requires { IsPlayed self.now }
        ensures { Decides self.now self.now app Figures result }
    {
        BusAnswer::Bus(BusStats {
            nosub: self.counters.at(CounterName::Nosub),
            limit: self.counters.at(CounterName::Limit),
            overflow: self.counters.at(CounterName::Overflow),
            buffers: self.messages.held_count(),
            bytes: self.messages.bytes_in_use(),
        })
    }

    /// The event desk.
    pub fn desk(&self) -> &EventDesk
        ensures { result.now ≡ self.now.whole.bus.events }
    {
        &self.desk
    }

    /// The counters and the peaks.
    pub fn counters(&self) -> &Counters
        ensures { result.now ≡ self.now.whole.bus.statistics }
    {
        &self.counters
    }

    /// The memory pools of applications.
    pub fn pools(&self) -> &GrantPools
        ensures { result.now ≡ self.now.whole.bus.pools }
    {
        &self.pools
    }

    /// The account of the bus's pool.
    pub fn account(&self) -> &ListAccount
        requires { IsPlayed self.now }
        ensures { result.now ≡ account_of self.now.limits self.now.whole.bus }
    {
        self.messages.account()
    }

    /// The version of the bus, 1 or 2.
    pub fn version(&self) -> u32
        ensures { result ≡ self.now.limits.version }
    {
        self.config.version
    }
}
