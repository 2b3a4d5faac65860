//! Subscriptions, and the ids that have a route.
ghost use Rattle.std.specs.Prelude.{◌≡◌, ◌+◌, ◌≤◌, ◌==◌, ◌&&◌, ◌∷◌, ◌++◌, not, [], length, filter, count_by, IfOk, if◌then◌else◌};
ghost use Rattle.std.specs.Result.{OnOk};
ghost use Rattle.bus_words.specs.Bus.{route, is_subscribed, has_route, owns};
ghost use Rattle.list_pipes.specs.Subscribed.{Subscribed, no_subscriptions, subscribed};

use crate::pipe::ListPipe;
use crate::pipes::owns;
use fsw_base::{AppNo, Scope};
use std::alloc::{AllocError, Global};
use std::marker::Model;

/// A live subscription.
#[derive(Clone, Copy)]
pub struct ListSubscription {
    // Its number.
    number: u32,
    // The message id.
    id: u16,
    // The pipe's number.
    pipe: u32,
    // How many of its messages may wait at once.
    limit: u32,
    // Global or local.
    scope: Scope,
}

impl Model for ListSubscription {
    ghost use Rattle.bus_words.specs.Bus.{Subscription};

    ghost Value = { Subscription };

    ghost view = { λ s.
        record { number = s.number; id = s.id; pipe = s.pipe; limit = s.limit; scope = s.scope } };

    ghost inverse = { λ s.
        record { number = s.number; id = s.id; pipe = s.pipe; limit = s.limit; scope = s.scope } };
}

impl ListSubscription {
    /// Its number.
    pub fn number(&self) -> u32
        ensures { result ≡ self.now.number }
    {
        self.number
    }

    /// The pipe's number.
    pub fn pipe(&self) -> u32
        ensures { result ≡ self.now.pipe }
    {
        self.pipe
    }

    /// How many of its messages may wait at once.
    pub fn limit(&self) -> u32
        ensures { result ≡ self.now.limit }
    {
        self.limit
    }
}

/// The live subscriptions, how many were made, and the ids that have a route.
pub struct ListSubscriptions {
    // In order of number.
    subscriptions: Vec<ListSubscription>,
    // How many were made, which is the newest one's number.
    made: u32,
    // The ids that have a route, in order.
    routed: Vec<u16>,
}

impl Drop for ListSubscriptions {
    fn drop(self) {
        let ListSubscriptions {
            subscriptions: _subscriptions,
            made: _made,
            routed: _routed,
        } = self;
    }
}

impl Model for ListSubscriptions {
    ghost use Rattle.list_pipes.specs.Subscribed.{Subscribed};

    ghost Value = { Subscribed };

    ghost use Rattle.list_pipes.specs.Inside.{subscribed_in, AreFew};

    ghost view = { subscribed_in };

    ghost invariant = { AreFew };
}

impl ListSubscriptions {
    /// No subscription.
    pub fn new(alloc: Global) -> ListSubscriptions
        ensures { result ≡ no_subscriptions }
    {
        ListSubscriptions {
            subscriptions: Vec::new(alloc),
            made: 0,
            routed: Vec::new(alloc),
        }
    }

    /// Whether a pipe is subscribed to an id.
    pub fn is_subscribed(&self, id: u16, pipe: u32) -> bool
        ensures { result ≡ is_subscribed self.now.subscriptions id pipe }
    {
        is_subscribed(&self.subscriptions, id, pipe)
    }

    /// Whether an id has a route.
    pub fn has_route(&self, id: u16) -> bool
        ensures { result ≡ has_route self.now.routed id }
    {
        has_route(&self.routed, id)
    }

    /// How many subscriptions an id has.
    #[tactic(auto, using(crate::proofs::Places::route_count))]
    pub fn count_of(&self, id: u16) -> u32
        ensures { result ≡ length (route self.now.subscriptions id) }
    {
        count_of(&self.subscriptions, id) as u32
    }

    /// The subscriptions of an id, in order.
    ///
    /// # Errors
    /// `AllocError` if memory runs out.
    pub fn route(&self, alloc: Global, id: u16) -> Result<Vec<ListSubscription>, AllocError>
        ensures { IfOk result (λ subs. subs.items ≡ route self.now.subscriptions id) }
    {
        let mut subs = Vec::from_slice(alloc, &self.subscriptions)?;
        leave_route(&mut subs, id);
        Ok(subs)
    }

    /// How many there are.
    pub fn count(&self) -> u32
        ensures { result ≡ length self.now.subscriptions }
    {
        self.subscriptions.len() as u32
    }

    /// How many ids have a route.
    pub fn routed_count(&self) -> u32
        ensures { result ≡ length self.now.routed }
    {
        self.routed.len() as u32
    }

    /// Subscribes a pipe to an id, which gives the id a route. A pair that is live changes nothing.
    ///
    /// # Errors
    /// `AllocError` if memory runs out, or if 4294967295 subscriptions were made. The
    /// subscriptions are unspecified then.
    pub fn subscribe(
        &mut self,
        id: u16,
        pipe: u32,
        limit: u32,
        scope: Scope,
    ) -> Result<(), AllocError>
        ensures { OnOk result (self.new ≡ subscribed self.old id pipe limit scope) }
    {
        if self.is_subscribed(id, pipe) {
            return Ok(());
        }
        let number = self.made.checked_add(1).ok_or(AllocError)?;
        self.made = number;
        add_route(&mut self.routed, id)?;
        self.subscriptions.push(ListSubscription {
            number,
            id,
            pipe,
            limit,
            scope,
        })?;
        Ok(())
    }

    /// The subscription of a pair ends, if there is one.
    pub fn unsubscribe(&mut self, id: u16, pipe: u32)
        ensures { self.new ≡
            record self.old {
              subscriptions = filter (λ sub. not (sub.id == id && sub.pipe == pipe))
                  self.old.subscriptions;
            } }
    {
        leave_pair(&mut self.subscriptions, id, pipe);
    }

    /// The subscriptions of a pipe end.
    pub fn leave_pipe(&mut self, pipe: u32)
        ensures { self.new ≡
            record self.old {
              subscriptions = filter (λ sub. not (sub.pipe == pipe)) self.old.subscriptions;
            } }
    {
        leave_pipe(&mut self.subscriptions, pipe);
    }

    /// The subscriptions of an application's pipes end.
    pub fn leave_pipes_of(&mut self, pipes: &[ListPipe], app: AppNo)
        ensures { self.new ≡
            record self.old {
              subscriptions = filter (λ sub. not (owns pipes.now app sub.pipe))
                  self.old.subscriptions;
            } }
    {
        leave_pipes_of(&mut self.subscriptions, pipes, app);
    }
}

// Whether a pipe is subscribed to an id, by these subscriptions.
fn is_subscribed(subs: &[ListSubscription], id: u16, pipe: u32) -> bool
    ensures { result ≡ is_subscribed subs.now id pipe }
{
    subs.iter().any(|sub| sub.id == id && sub.pipe == pipe)
}

// Whether an id is among these.
fn has_route(routed: &[u16], id: u16) -> bool
    ensures { result ≡ has_route routed.now id }
{
    routed.iter().any(|&other| other == id)
}

// How many of these subscriptions an id has.
fn count_of(subs: &[ListSubscription], id: u16) -> usize
    ensures count { result ≡ count_by (λ sub. sub.id == id) subs.now }
    ensures few { result ≤ length subs.now }
{
    subs.iter().filter(|sub| sub.id == id).count()
}

// An id has a route, which goes last if it had none.
fn add_route(routed: &mut Vec<u16>, id: u16) -> Result<(), AllocError>
    ensures routed { OnOk result
        (routed.new.items ≡
        (if has_route routed.old.items id then routed.old.items
        else routed.old.items ++ id ∷ [])) }
    ensures few { length routed.new.items ≤ length routed.old.items + 1 }
{
    if has_route(routed, id) {
        Ok(())
    } else {
        Ok(routed.push(id)?)
    }
}

// The subscriptions of an id.
fn leave_route(subs: &mut Vec<ListSubscription>, id: u16)
    ensures { subs.new.items ≡ route subs.old.items id }
{
    subs.retain(|sub| sub.id == id);
}

// The subscriptions but those of a pair.
fn leave_pair(subs: &mut Vec<ListSubscription>, id: u16, pipe: u32)
    ensures others { subs.new.items ≡
        filter (λ sub. not (sub.id == id && sub.pipe == pipe)) subs.old.items }
    ensures few { length subs.new.items ≤ length subs.old.items }
{
    subs.retain(|sub| !(sub.id == id && sub.pipe == pipe));
}

// The subscriptions but those of a pipe.
fn leave_pipe(subs: &mut Vec<ListSubscription>, pipe: u32)
    ensures others { subs.new.items ≡ filter (λ sub. not (sub.pipe == pipe)) subs.old.items }
    ensures few { length subs.new.items ≤ length subs.old.items }
{
    subs.retain(|sub| sub.pipe != pipe);
}

// The subscriptions but those of an application's pipes.
fn leave_pipes_of(subs: &mut Vec<ListSubscription>, pipes: &[ListPipe], app: AppNo)
    ensures others { subs.new.items ≡
        filter (λ sub. not (owns pipes.now app sub.pipe)) subs.old.items }
    ensures few { length subs.new.items ≤ length subs.old.items }
{
    subs.retain(|sub| !owns(pipes, app, sub.pipe));
}
