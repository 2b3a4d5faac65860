//! Subscriptions and routes.
ghost use Rattle.std.specs.Prelude.{◌≡◌, ℕ, ◌==◌, ◌&&◌, ◌+◌, ◌*◌, ◌<◌, ◌≤◌, ◌^◌, ◌++◌, ◌∷◌, [], not, length, filter, count_by, true, false};
ghost use Rattle.bus_words.specs.Bus.{route, is_subscribed};
ghost use Rattle.bus_words.specs.Pipes.{is_live};
ghost use Rattle.bus_routes.specs.Rows.{has_way, with_route};

use crate::ending::end_subscription;
use crate::making::route_for;
use crate::pairs::first_of;
use crate::tables::BusTables;
use fsw_base::Scope;
use step_count::{Ledger, Steps};

impl BusTables {
    /// How many subscriptions were made, which is the newest one's number.
    pub fn subscriptions_made(&self) -> u32
        ensures { result ≡ self.now.subscriptions_made }
    {
        self.subs.subscriptions_made()
    }

    /// Whether the pipe is subscribed to the id. Goes along the id's subscriptions alone: at most 2
    /// steps for each, and 2 more.
    pub fn is_subscribed<L: Ledger>(&self, id: u16, pipe: u32, steps: &mut Steps<L>) -> bool
        ensures is { result ≡ is_subscribed self.now.subscriptions id pipe }
        ensures cost { steps.new ≤ steps.old + 2 * length (route self.now.subscriptions id) + 2 }
    {
        first_of(&self.subs, &self.routes, id, pipe, steps).is_some()
    }

    /// Whether the id has a route. By the code, takes a constant time.
    pub fn has_route(&self, id: u16) -> bool
        ensures { result ≡ has_way self.now.routes id }
    {
        self.routes.route_of(id).is_some()
    }

    /// How many subscriptions are live. By the code, takes a constant time.
    pub fn subscriptions_len(&self) -> u32
        ensures { result ≡ length self.now.subscriptions }
    {
        self.subs.len()
    }

    /// How many ids have a route.
    pub fn routes_len(&self) -> u32
        ensures { result ≡ length self.now.routes }
    {
        self.routes.len()
    }

    /// How many live subscriptions the id has. By the code, takes a constant time.
    pub fn dests_of(&self, id: u16) -> u32
        ensures { result ≡ length (route self.now.subscriptions id) }
    {
        match self.routes.route_of(id) {
            Some(route) => self.routes.dests_of(route),
            None => 0,
        }
    }

    /// No id has two routes. Does nothing.
    pub fn recall_routes(&self)
        ensures { (id : ℕ) → count_by (λ route. route.id == id) self.now.routes ≤ 1 }
    {
        self.routes.recall_routes();
    }

    /// Subscribes a live pipe to an id, 1 to 0x1FFF, of which it has no subscription yet: up to
    /// `limit` messages of it may wait at once. The id gets a route if it has none. At most 8
    /// steps.
    pub fn subscribe<L: Ledger>(
        &mut self,
        id: u16,
        pipe: u32,
        limit: u32,
        scope: Scope,
        steps: &mut Steps<L>,
    )
        requires first { 1 ≤ id }
        requires last { id ≤ 0x1FFF }
        requires live { is_live self.old.pipes pipe ≡ true }
        requires new { is_subscribed self.old.subscriptions id pipe ≡ false }
        requires way { has_way self.old.routes id ≡ false →
            length self.old.routes < self.old.room.msgids }
        requires dests { length (route self.old.subscriptions id) < self.old.room.dests }
        requires number { self.old.subscriptions_made + 1 < 2 ^ 32 }
        ensures after { self.new ≡ record self.old {
          subscriptions = self.old.subscriptions ++
              record {
                number = self.old.subscriptions_made + 1;
                id = id;
                pipe = pipe;
                limit = limit;
                scope = scope;
              } ∷ [];
          subscriptions_made = self.old.subscriptions_made + 1;
          routes = with_route self.old.routes id;
        } }
        ensures cost { steps.new ≤ steps.old + 8 }
    {
        // Does nothing; the proof learns of it that each live pipe lies somewhere.
        self.pipes.recall_order();
        let place = self.pipes.place_of(pipe).unwrap();
        let route = route_for(&mut self.routes, id);
        // Does nothing; the proof learns of it that there is room for all subscriptions that routes
        // may have.
        self.routes.recall_routes();
        let sub = self.subs.add(id, pipe, place, limit, scope);
        let _ = self.routes.add_dest(route, sub, steps);
    }

    /// Ends the pipe's subscription to the id, and answers whether it had one; no effect if it
    /// had none. Goes along the id's subscriptions alone: at most 3 steps for each, and 10 more.
    pub fn unsubscribe<L: Ledger>(&mut self, id: u16, pipe: u32, steps: &mut Steps<L>) -> bool
        ensures there { result ≡ is_subscribed self.old.subscriptions id pipe }
        ensures after { self.new ≡
            record
            self.old {
              subscriptions = filter (λ sub. not (sub.id == id && sub.pipe == pipe))
                  self.old.subscriptions;
            } }
        ensures cost { steps.new ≤ steps.old + 3 * length (route self.old.subscriptions id) + 10 }
    {
        // Does nothing; the proof learns of it that no two subscriptions have one number.
        self.subs.recall_order();
        if let Some(sub) = first_of(&self.subs, &self.routes, id, pipe, steps) {
            end_subscription(&mut self.subs, &mut self.routes, sub, steps);
            true
        } else {
            false
        }
    }
}
