//! Subscriptions and routes.
ghost use Rattle.std.specs.Prelude.{◌≡◌, ℕ, ◌==◌, ◌&&◌, ◌+◌, ◌*◌, ◌<◌, ◌≤◌, ◌^◌, ◌++◌, ◌∷◌, [], not, true, false, length, filter, count_by};
ghost use Rattle.bus_words.specs.Bus.{route, is_live, is_subscribed};
ghost use Rattle.lend_block.specs.Loan.{LentBytes};
ghost use Rattle.buf_desc.specs.Held.{Holding};
ghost use Rattle.bus_routes.specs.Rows.{has_way, with_route};
ghost use Rattle.bus_messages.specs.Bag.{HoldsViews};

use crate::store::BusStore;
use fsw_base::Scope;
use step_count::{Ledger, Steps};

impl<'r> BusStore<'r> {
    /// How many subscriptions were made, which is the newest one's number.
    pub fn subscriptions_made(&self) -> u32
        ensures { result ≡ self.now.subscriptions_made }
    {
        self.tables.subscriptions_made()
    }

    /// Whether the pipe is subscribed to the id. At most 2 steps for each subscription of the id,
    /// and 2 more.
    pub fn is_subscribed<L: Ledger>(&self, id: u16, pipe: u32, steps: &mut Steps<L>) -> bool
        ensures is { result ≡ is_subscribed self.now.subscriptions id pipe }
        ensures cost { steps.new ≤ steps.old + 2 * length (route self.now.subscriptions id) + 2 }
    {
        self.tables.is_subscribed(id, pipe, steps)
    }

    /// Whether the id has a route.
    pub fn has_route(&self, id: u16) -> bool
        ensures { result ≡ has_way self.now.routes id }
    {
        self.tables.has_route(id)
    }

    /// How many subscriptions are live. By the code, takes a constant time.
    pub fn subscriptions_len(&self) -> u32
        ensures { result ≡ length self.now.subscriptions }
    {
        self.tables.subscriptions_len()
    }

    /// How many ids have a route. By the code, takes a constant time.
    pub fn routes_len(&self) -> u32
        ensures { result ≡ length self.now.routes }
    {
        self.tables.routes_len()
    }

    /// How many live subscriptions the id has.
    pub fn dests_of(&self, id: u16) -> u32
        ensures { result ≡ length (route self.now.subscriptions id) }
    {
        self.tables.dests_of(id)
    }

    /// No id has two routes. Does nothing.
    pub fn recall_routes(&self)
        ensures { (id : ℕ) → count_by (λ route. route.id == id) self.now.routes ≤ 1 }
    {
        self.tables.recall_routes();
    }

    /// Subscribes a live pipe to an id, 1 to 0x1FFF, of which it has no subscription yet: up to
    /// `limit` messages of it may wait at once. The id gets a route if it has none. At most 8
    /// steps.
    pub fn subscribe<L: Ledger>(
        &mut self,
        id: u16,
        pipe: u32,
        limit: u32,
        scope: Scope,
        steps: &mut Steps<L>,
    )
        requires first { 1 ≤ id }
        requires last { id ≤ 0x1FFF }
        requires live { is_live self.old.pipes pipe ≡ true }
        requires new { is_subscribed self.old.subscriptions id pipe ≡ false }
        requires way { has_way self.old.routes id ≡ false →
            length self.old.routes < self.old.room.msgids }
        requires dests { length (route self.old.subscriptions id) < self.old.room.dests }
        requires number { self.old.subscriptions_made + 1 < 2 ^ 32 }
        ensures after { self.new ≡ record self.old {
          subscriptions = self.old.subscriptions ++
              record {
                number = self.old.subscriptions_made + 1;
                id = id;
                pipe = pipe;
                limit = limit;
                scope = scope;
              } ∷ [];
          subscriptions_made = self.old.subscriptions_made + 1;
          routes = with_route self.old.routes id;
        } }
        ensures bags { (app : ℕ) (bag : Holding LentBytes) →
            HoldsViews self.old.pipes self.old.loans self.old.room.pipes app bag →
            HoldsViews self.new.pipes self.new.loans self.new.room.pipes app bag }
        ensures cost { steps.new ≤ steps.old + 8 }
    {
        self.tables.subscribe(id, pipe, limit, scope, steps);
    }

    /// Ends the pipe's subscription to the id, and answers whether it had one; no effect if it
    /// had none. What waits stays. At most 3 steps for each subscription of the id, and 10 more.
    pub fn unsubscribe<L: Ledger>(&mut self, id: u16, pipe: u32, steps: &mut Steps<L>) -> bool
        ensures there { result ≡ is_subscribed self.old.subscriptions id pipe }
        ensures after { self.new ≡
            record
            self.old {
              subscriptions = filter (λ sub. not (sub.id == id && sub.pipe == pipe))
                  self.old.subscriptions;
            } }
        ensures bags { (app : ℕ) (bag : Holding LentBytes) →
            HoldsViews self.old.pipes self.old.loans self.old.room.pipes app bag →
            HoldsViews self.new.pipes self.new.loans self.new.room.pipes app bag }
        ensures cost { steps.new ≤ steps.old + 3 * length (route self.old.subscriptions id) + 10 }
    {
        self.tables.unsubscribe(id, pipe, steps)
    }
}
