//! Lists of destinations, linked by index.
//!
//! ```text
//!   anchor of the list --> first --> .. --> last --> the anchor
//! ```
ghost use Rattle.std.specs.Prelude.{◌≡◌, ℕ, ◌+◌, ◌*◌, ◌<◌, ◌≤◌, ◌^◌, ◌==◌, ◌++◌, nat_lt, if◌then◌else◌, List, [], ◌∷◌, length, replicate, slice_index, slice_set, IsTrue, IfOk, IfSome, Some, None, false};
ghost use Rattle.bucket_list.specs.Lists.{listed_at, times_in};
ghost use Rattle.bucket_list.specs.Chains.{chain};
ghost use Rattle.routing.specs.Dests.{Dest, DestTable, dests_in, has_sub, has_node, without, first_dest, last_node};
ghost use Rattle.routing.specs.Inside.{Takes, dest_at, place_before};

use bucket_list::{Links, Lists};
use std::alloc::{AllocError, Global};
use std::marker::Model;
use step_count::{Ledger, Steps};
use subscriptions::SubNo;

/// Lists of destinations, numbered from 0. Contracts see how many destinations a list may have, and
/// each list, in order of adding: at each destination its node, which no other has, and its
/// subscription.
///
/// Each list is a ring through its nodes and an anchor of its own, so its end needs no mark.
#[derive(Drop)]
pub(crate) struct DestLists {
    // At each node in a list, the node behind it; at its last one, the anchor. Behind the nodes
    // stand the anchors, in order of list: at each the first node of its list, or itself.
    links: Links,
    // At each list that isn't empty, its last node.
    tails: Links,
    // How many destinations each list has.
    lens: Vec<u32>,
    // At each node in a list, its subscription.
    subs: Vec<SubNo>,
    // The nodes that were given back, and how many were made so far.
    free: Lists,
    // How many nodes there is room for: for each list, as many as it may have.
    nodes: u32,
    // How many destinations a list may have.
    limit: u32,
}

impl Model for DestLists {
    ghost use Rattle.routing.specs.Dests.{DestTable};

    ghost Value = { DestTable };

    ghost use Rattle.routing.specs.Inside.{rings, dests_seen, AreRings};

    ghost view = { λ s.
        record {
          limit = s.limit;
          lists = dests_seen s.subs.items (rings s.links s.nodes s.lens.items);
        } };

    ghost invariant = { λ s. AreRings s.links s.tails s.lens.items s.subs.items s.nodes s.limit
        s.free };
}

impl DestLists {
    /// `lists` empty lists that may have `limit` destinations each. By the code, no later call
    /// takes memory.
    pub(crate) fn new(alloc: Global, lists: u32, limit: u32) -> Result<DestLists, AllocError>
        requires { lists * limit + lists < 2 ^ 32 }
        ensures { IfOk result
            (λ made. made ≡ record { limit = limit; lists = replicate lists [] }) }
    {
        let nodes = lists * limit;
        let places = nodes + lists;
        let links = Links::to_themselves(alloc, places)?;
        let tails = Links::new(alloc, lists)?;
        let lens = zeros(alloc, lists)?;
        let subs = no_subs(alloc, nodes)?;
        let free = Lists::new(alloc, nodes, 1)?;
        Ok(DestLists {
            links,
            tails,
            lens,
            subs,
            free,
            nodes,
            limit,
        })
    }

    /// No list has more destinations than it may. Does nothing.
    pub(crate) fn recall_limit(&self)
        ensures { (list : ℕ) → list < length self.now.lists →
            length (dests_in self.now list) ≤ self.now.limit }
    {
        let _ = &self.lens;
    }

    /// How many destinations a list has.
    pub(crate) fn len(&self, list: u32) -> u32
        requires { list < length self.now.lists }
        ensures { result ≡ length (dests_in self.now list) }
    {
        self.lens[list as usize]
    }

    /// Adds a destination of this subscription behind all others of a list that has room. At most 8
    /// steps.
    pub(crate) fn add<L: Ledger>(&mut self, list: u32, sub: SubNo, steps: &mut Steps<L>)
        requires list { list < length self.old.lists }
        requires room { length (dests_in self.old list) < self.old.limit }
        ensures after { self.new ≡
            record
            self.old {
              lists = slice_set self.old.lists list
                  (dests_in self.old list ++ (last_node (dests_in self.new list), sub) ∷ []);
            } }
        ensures fresh { (other : ℕ) → other < length self.old.lists →
            has_node (last_node (dests_in self.new list)) (dests_in self.old other) ≡ false }
        ensures cost { steps.new ≤ steps.old + 8 }
    {
        let place = list as usize;
        let anchor = self.nodes + list;
        let last = last_place(&self.tails, list, self.lens[place], anchor, steps);
        let node = take_node(&mut self.free, steps);
        self.links.write(node, anchor, steps);
        self.links.write(last, node, steps);
        self.tails.write(list, node, steps);
        self.subs[node as usize] = sub;
        self.lens[place] += 1;
    }

    /// Takes the first destination of this subscription out of a list that has one; the others stay
    /// in their order. It goes through the list up to there.
    pub(crate) fn remove<L: Ledger>(&mut self, list: u32, sub: SubNo, steps: &mut Steps<L>)
        requires list { list < length self.old.lists }
        requires there { IsTrue (has_sub sub (dests_in self.old list)) }
        ensures after { self.new ≡
            record
            self.old {
              lists = slice_set self.old.lists list
                  (without sub (dests_in self.old list));
            } }
        ensures cost { steps.new ≤ steps.old + length (dests_in self.old list) + 8 }
    {
        let place = list as usize;
        let anchor = self.nodes + list;
        let len = self.lens[place];
        let before = find_before(&self.links, &self.subs, anchor, len, sub, steps);
        let node = self.links.read(before, steps);
        let behind = self.links.read(node, steps);
        self.links.write(before, behind, steps);
        note_last(&mut self.tails, list, behind == anchor, before, steps);
        self.lens[place] -= 1;
        self.free.push(0, node, steps);
    }

    /// The first destination of a list, with its node; None if and only if the list is empty. At
    /// most 2 steps.
    pub(crate) fn first<L: Ledger>(&self, list: u32, steps: &mut Steps<L>) -> Option<(u32, SubNo)>
        requires { list < length self.now.lists }
        ensures first { result ≡ first_dest (dests_in self.now list) }
        ensures exists { IfSome result (λ dest. dest.0 < length self.now.lists * self.now.limit) }
        ensures cost { steps.new ≤ steps.old + 2 }
    {
        let anchor = self.nodes + list;
        dest_behind(&self.links, &self.subs, self.nodes, anchor, steps)
    }

    /// The destination behind a node that is in a list; None if and only if the node is the last.
    /// At most 2 steps.
    pub(crate) fn next<L: Ledger>(&self, node: u32, steps: &mut Steps<L>) -> Option<(u32, SubNo)>
        requires { node < length self.now.lists * self.now.limit }
        ensures behind { (list : ℕ) (before behind : List Dest) (sub : _) →
            list < length self.now.lists → dests_in self.now list ≡ before ++ (node, sub) ∷ behind →
            result ≡ first_dest behind }
        ensures exists { IfSome result (λ dest. dest.0 < length self.now.lists * self.now.limit) }
        ensures cost { steps.new ≤ steps.old + 2 }
    {
        dest_behind(&self.links, &self.subs, self.nodes, node, steps)
    }
}

// What stands behind a place, unless that is an anchor.
fn dest_behind<L: Ledger>(
    links: &Links,
    subs: &[SubNo],
    nodes: u32,
    place: u32,
    steps: &mut Steps<L>,
) -> Option<(u32, SubNo)>
    requires place { place < length links.now }
    requires subs { length subs.now ≡ nodes }
    ensures answer { result ≡
        (if nat_lt (slice_index links.now place) nodes
        then Some (dest_at subs.now (slice_index links.now place)) else None) }
    ensures cost { steps.new ≡ steps.old + 1 }
{
    let behind = links.read(place, steps);
    if behind < nodes {
        Some((behind, subs[behind as usize]))
    } else {
        None
    }
}

// The last node of a list of this length, or its anchor if it is empty.
fn last_place<L: Ledger>(
    tails: &Links,
    list: u32,
    len: u32,
    anchor: u32,
    steps: &mut Steps<L>,
) -> u32
    requires { list < length tails.now }
    ensures last { result ≡ (if len == 0 then anchor else slice_index tails.now list) }
    ensures cost { steps.new ≤ steps.old + 1 }
{
    if len == 0 {
        anchor
    } else {
        tails.read(list, steps)
    }
}

// Notes a list's last place if it has changed.
fn note_last<L: Ledger>(
    tails: &mut Links,
    list: u32,
    changed: bool,
    last: u32,
    steps: &mut Steps<L>,
)
    requires { list < length tails.old }
    ensures last { tails.new ≡ (if changed then slice_set tails.old list last else tails.old) }
    ensures cost { steps.new ≤ steps.old + 1 }
{
    if changed {
        tails.write(list, last, steps);
    }
}

// A node that is in no list: one that was given back, else a further one.
fn take_node<L: Ledger>(free: &mut Lists, steps: &mut Steps<L>) -> u32
    requires one { length free.old.lists ≡ 1 }
    requires made { free.old.nodes ≤ free.old.room }
    requires left { length (listed_at free.old 0) ≡ 0 → free.old.nodes < free.old.room }
    ensures takes { Takes free.old free.new result }
    ensures cost { steps.new ≤ steps.old + 4 }
{
    match free.pop(0, steps) {
        Some(node) => node,
        None => free.add_node(),
    }
}

// The place before the first node of a subscription, in a list of this length.
fn find_before<L: Ledger>(
    links: &Links,
    subs: &[SubNo],
    anchor: u32,
    len: u32,
    sub: SubNo,
    steps: &mut Steps<L>,
) -> u32
    requires anchor { anchor < length links.now }
    requires nodes { length subs.now ≤ length links.now }
    requires within { (node : ℕ) →
        0 < times_in (chain links.now (slice_index links.now anchor) len) node →
        node < length subs.now }
    ensures before { result ≡
        place_before subs.now sub anchor (chain links.now (slice_index links.now anchor) len) }
    ensures cost { steps.new ≤ steps.old + len }
{
    let mut before = anchor;
    for _ in 0..len {
        let node = links.read(before, steps);
        let kept = subs[node as usize];
        if kept == sub {
            return before;
        }
        before = node;
    }
    before
}

// A list of `count` zeros.
fn zeros(alloc: Global, count: u32) -> Result<Vec<u32>, AllocError>
    ensures { IfOk result (λ numbers. numbers.items ≡ replicate count 0) }
{
    let mut numbers = Vec::new(alloc);
    numbers.resize(count as usize, 0)?;
    Ok(numbers)
}

// Room for the subscriptions of `count` nodes.
fn no_subs(alloc: Global, count: u32) -> Result<Vec<SubNo>, AllocError>
    ensures { IfOk result (λ subs. length subs.items ≡ count) }
{
    let mut subs = Vec::new(alloc);
    subs.resize(count as usize, SubNo { slot: 0, number: 0 })?;
    Ok(subs)
}
