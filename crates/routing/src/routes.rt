//! The routes.
ghost use Rattle.std.specs.Prelude.{◌≡◌, ℕ, ◌+◌, ◌*◌, ◌<◌, ◌≤◌, ◌^◌, ◌==◌, ◌++◌, nat_lt, if◌then◌else◌, List, [], ◌∷◌, length, replicate, count_by, IsTrue, IfOk, IfSome, OnOk, OnErr, Ok, Err, None, false};
ghost use Rattle.fsw_base.specs.Starts.{start_of};
ghost use Rattle.fsw_base.specs.declared.statuses.SbStatus.TheVariants.{MaxMsgsMet, MaxDestsMet};
ghost use Rattle.msgid_map.specs.declared.map.TheConstants.{MAX_ID};
ghost use Rattle.routing.specs.Dests.{Dest, has_sub, has_node, without, first_dest, last_node};
ghost use Rattle.routing.specs.Routing.{Route, Routing, route_of, route_at, dests_at, fresh_route, with_dests, with_route, next_of, counted_on, CountsGoByCalls};

use crate::dests::DestLists;
use ccsds_msg::COUNTS;
use fsw_base::{CountStarts, SbStatus};
use msgid_map::IdMap;
use std::alloc::{AllocError, Global};
use std::marker::Model;
use step_count::{Ledger, Steps};
use subscriptions::SubNo;

/// The routes of message ids. Contracts see how many routes there may be, how many destinations
/// each may have, the counts at which ids start, and the routes in order of making: a route's
/// number is its place, and no route is ever removed. Of a route they see its id, how many counts
/// it has given, modulo 16384, and its destinations in order of subscription, each with its node;
/// no node is in two places.
pub struct Routes {
    // The number of each id's route.
    numbers: IdMap,
    // The id of each route. There is room for `msgids` of them.
    ids: Vec<u16>,
    // How many counts each route has given, modulo [`COUNTS`]; 0 for routes that aren't made yet.
    counted: Vec<u16>,
    // The destinations of each route; none for routes that aren't made yet.
    dests: DestLists,
    // The count at which each id starts.
    starts: CountStarts,
    // The count at which each route's id starts, so that a count is no search. There is room for
    // `msgids` of them.
    firsts: Vec<u16>,
    // How many routes there may be.
    msgids: u32,
    // How many destinations a route may have.
    limit: u32,
}

impl Drop for Routes {
    fn drop(self) {
        let Routes {
            numbers: _numbers,
            ids: _ids,
            counted: _counted,
            dests: _dests,
            starts: _starts,
            firsts: _firsts,
            msgids: _msgids,
            limit: _limit,
        } = self;
    }
}

impl Model for Routes {
    ghost use Rattle.routing.specs.Routing.{Routing};

    ghost Value = { Routing };

    ghost use Rattle.routing.specs.Inside.{routes_with, AreNumbered, AreStarted};
    ghost use Rattle.std.specs.Vec.{vec_capacity};

    ghost view = { λ r.
        record {
          msgids = r.msgids;
          dests = r.limit;
          starts = r.starts;
          routes = routes_with r.ids.items r.counted.items r.dests.lists;
        } };

    ghost invariant = { λ r. AreNumbered r.numbers r.ids.items (vec_capacity r.ids) r.counted.items
        r.dests r.msgids r.limit
        × AreStarted r.starts r.ids.items r.firsts.items (vec_capacity r.firsts) r.msgids };
}

impl Routes {
    /// No routes yet, and room for `msgids` routes of `dests` destinations each, so many that all
    /// of them can be numbered in 32 bits. By the code, no later call takes memory.
    ///
    /// # Errors
    /// If memory runs out.
    pub fn new(
        alloc: Global,
        msgids: u32,
        dests: u32,
        starts: CountStarts,
    ) -> Result<Routes, AllocError>
        requires { msgids * dests + msgids < 2 ^ 32 }
        ensures { IfOk result
            (λ made. made ≡
            record { msgids = msgids; dests = dests; starts = starts; routes = [] }) }
    {
        let numbers = IdMap::new(alloc, msgids)?;
        let ids = Vec::with_capacity(alloc, msgids as usize)?;
        let counted = no_counts(alloc, msgids)?;
        let lists = DestLists::new(alloc, msgids, dests)?;
        let firsts = Vec::with_capacity(alloc, msgids as usize)?;
        Ok(Routes {
            numbers,
            ids,
            counted,
            dests: lists,
            starts,
            firsts,
            msgids,
            limit: dests,
        })
    }

    /// No id has two routes, there are at most as many routes as there may be, and each has at most
    /// as many destinations as it may. Does nothing.
    pub fn recall_routes(&self)
        ensures once { (id : ℕ) → count_by (λ route. route.id == id) self.now.routes ≤ 1 }
        ensures fit { length self.now.routes ≤ self.now.msgids }
        ensures few { (route : ℕ) → length (dests_at self.now route) ≤ self.now.dests }
    {
        self.dests.recall_limit();
    }

    /// How many routes there are.
    pub fn len(&self) -> u32
        ensures { result ≡ length self.now.routes }
    {
        self.ids.len() as u32
    }

    /// The number of the id's route; None if and only if the id has none.
    pub fn route_of(&self, id: u16) -> Option<u32>
        ensures { result ≡ route_of self.now.routes id }
    {
        self.numbers.get(id)
    }

    /// The id of a route.
    pub fn id_of(&self, route: u32) -> u16
        requires { route < length self.now.routes }
        ensures { result ≡ (route_at self.now route).id }
    {
        self.ids[route as usize]
    }

    /// How many destinations a route has.
    pub fn dests_of(&self, route: u32) -> u32
        requires { route < length self.now.routes }
        ensures { result ≡ length (dests_at self.now route) }
    {
        self.dests.len(route)
    }

    /// Makes a route for a valid id that has none, and answers its number. MaxMsgsMet if and only
    /// if there are as many routes as there may be; then nothing changes.
    ///
    /// # Errors
    /// `MaxMsgsMet` if and only if there are as many routes as there may be.
    pub fn add_route(&mut self, id: u16) -> Result<u32, SbStatus>
        requires first { 1 ≤ id }
        requires last { id ≤ MAX_ID }
        requires fresh { route_of self.old.routes id ≡ None }
        ensures answer { result ≡
            (if nat_lt (length self.old.routes) self.old.msgids then Ok (length self.old.routes)
            else Err MaxMsgsMet) }
        ensures ok { OnOk result
            (self.new ≡ record self.old { routes = self.old.routes ++ fresh_route id ∷ [] }) }
        ensures err { OnErr result (self.new ≡ self.old) }
    {
        let route = self.ids.len() as u32;
        if route >= self.msgids {
            return Err(SbStatus::MaxMsgsMet);
        }
        self.numbers.insert(id, route);
        self.ids.push_reserved(id);
        self.firsts.push_reserved(self.starts.start_of(id));
        Ok(route)
    }

    /// Adds a destination behind all others of a route, under a node that no other has. MaxDestsMet
    /// if and only if the route has as many as it may; then nothing changes. At most 8 steps.
    ///
    /// # Errors
    /// `MaxDestsMet` if and only if the route has as many destinations as it may.
    pub fn add_dest<L: Ledger>(
        &mut self,
        route: u32,
        sub: SubNo,
        steps: &mut Steps<L>,
    ) -> Result<(), SbStatus>
        requires { route < length self.old.routes }
        ensures answer { result ≡
            (if nat_lt (length (dests_at self.old route)) self.old.dests then Ok tt
            else Err MaxDestsMet) }
        ensures ok { OnOk result
            (self.new ≡
            with_dests self.old route
            (dests_at self.old route ++ (last_node (dests_at self.new route), sub) ∷ [])) }
        ensures fresh { (other : ℕ) →
            OnOk result
            (has_node (last_node (dests_at self.new route)) (dests_at self.old other) ≡ false) }
        ensures err { OnErr result (self.new ≡ self.old) }
        ensures cost { steps.new ≤ steps.old + 8 }
    {
        if self.dests.len(route) >= self.limit {
            return Err(SbStatus::MaxDestsMet);
        }
        self.dests.add(route, sub, steps);
        Ok(())
    }

    /// Takes a destination out of a route; the others stay in their order. It goes through the
    /// route up to there: a step for each, and at most 8 more.
    pub fn remove_dest<L: Ledger>(&mut self, route: u32, sub: SubNo, steps: &mut Steps<L>)
        requires route { route < length self.old.routes }
        requires there { IsTrue (has_sub sub (dests_at self.old route)) }
        ensures after { self.new ≡
            with_dests self.old route (without sub (dests_at self.old route)) }
        ensures cost { steps.new ≤ steps.old + length (dests_at self.old route) + 8 }
    {
        self.dests.remove(route, sub, steps);
    }

    /// A route's first destination, with its node; None if and only if the route has none. At most
    /// 2 steps.
    pub fn first<L: Ledger>(&self, route: u32, steps: &mut Steps<L>) -> Option<(u32, SubNo)>
        requires { route < length self.now.routes }
        ensures first { result ≡ first_dest (dests_at self.now route) }
        ensures exists { IfSome result (λ dest. dest.0 < self.now.msgids * self.now.dests) }
        ensures cost { steps.new ≤ steps.old + 2 }
    {
        self.dests.first(route, steps)
    }

    /// The destination behind a node that `first` or `next` answered, in the route where it stands;
    /// None if and only if it is the last there. Of a node that stands in no route the answer says
    /// nothing. At most 2 steps.
    pub fn next<L: Ledger>(&self, node: u32, steps: &mut Steps<L>) -> Option<(u32, SubNo)>
        requires { node < self.now.msgids * self.now.dests }
        ensures behind { (route : ℕ) (before behind : List Dest) (sub : _) →
            dests_at self.now route ≡ before ++ (node, sub) ∷ behind → result ≡ first_dest behind }
        ensures exists { IfSome result (λ dest. dest.0 < self.now.msgids * self.now.dests) }
        ensures cost { steps.new ≤ steps.old + 2 }
    {
        self.dests.next(node, steps)
    }

    /// The next sequence count of a route: its id's start, one for each count that it has given,
    /// and one more, modulo 16384. It counts as given. By the code, it takes a constant time.
    pub fn next_count(&mut self, route: u32) -> u16
        requires { route < length self.old.routes }
        ensures count { result ≡ next_of self.old.starts (route_at self.old route) }
        ensures after { self.new ≡
            with_route self.old route (counted_on (route_at self.old route)) }
    {
        let place = route as usize;
        let start = self.firsts[place];
        let given = (self.counted[place] + 1) % COUNTS;
        self.counted[place] = given;
        (start + given) % COUNTS
    }
}

/// The law of counts: a route's next count goes by how many it has given altogether, however many
/// those are.
pub fn recall_counts()
    ensures { CountsGoByCalls }
{}

// That none of `count` routes has given a count.
fn no_counts(alloc: Global, count: u32) -> Result<Vec<u16>, AllocError>
    ensures { IfOk result (λ numbers. numbers.items ≡ replicate count 0) }
{
    let mut numbers = Vec::new(alloc);
    numbers.resize(count as usize, 0)?;
    Ok(numbers)
}
