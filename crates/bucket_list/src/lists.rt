//! The lists.
ghost use Rattle.std.specs.Prelude.{◌≡◌, ℕ, ◌+◌, ◌<◌, ◌≤◌, [], ◌∷◌, length, replicate, slice_set, drop, IsNone, IfOk, IfSome, ◌↔◌};
ghost use Rattle.bucket_list.specs.Lists.{Listed, listed_at, IsLoose, AreApart};

use crate::links::{Links, NodeLinks, zeros};
use std::alloc::{AllocError, Global};
use std::marker::Model;
use std::sync::ledger::Ledger;
use step_count::Steps;

/// Lists over nodes 0, 1, 2 and so on, linked by index. Contracts see how many nodes there is room
/// for, how many there are, and the node numbers of each list, front first.
pub struct Lists {
    // At each node, the node behind it in its list. What stands at a list's last node, or at a
    // node in no list, says nothing.
    links: NodeLinks,
    // At each list, its first node. What stands at an empty list says nothing.
    heads: Links,
    // How many nodes each list has.
    counts: Vec<u32>,
    // How many nodes there are.
    nodes: u32,
}

impl Drop for Lists {
    fn drop(self) {
        let Lists {
            links: _links,
            heads: _heads,
            counts: _counts,
            nodes: _nodes,
        } = self;
    }
}

impl Model for Lists {
    ghost use Rattle.std.specs.Prelude.{◌<◌, ◌^◌};
    ghost use Rattle.bucket_list.specs.Lists.{Listed};

    ghost Value = { Listed };

    ghost use Rattle.bucket_list.specs.Inside.{chains, AreLinked};

    ghost view = { λ s.
        record {
          room = s.links.room;
          nodes = s.nodes;
          lists = chains s.links.links s.heads s.counts.items;
        } };

    ghost invariant = { λ s. AreLinked s.links.links s.heads s.counts.items s.nodes
        × (s.links.room < 2 ^ 32) };
}

impl Lists {
    /// Room for `nodes` nodes, none of which exists yet, and `lists` empty lists, numbered from 0.
    /// By the code, no later call takes memory.
    ///
    /// # Errors
    /// `AllocError` if memory runs out.
    pub fn new(alloc: Global, nodes: u32, lists: u32) -> Result<Lists, AllocError>
        ensures { IfOk result
            (λ s. s ≡ record { room = nodes; nodes = 0; lists = replicate lists [] }) }
    {
        let links = NodeLinks::new(alloc, nodes)?;
        let heads = Links::new(alloc, lists)?;
        let counts = zeros(alloc, lists)?;
        Ok(Lists {
            links,
            heads,
            counts,
            nodes: 0,
        })
    }

    /// No node stands in two lists or twice in one, and each node in a list exists. Does nothing.
    pub fn recall_apart(&self)
        ensures { AreApart self.now }
    {
        let _ = &self.links;
    }

    /// A further node, in no list. Nodes are numbered 0, 1, 2 and so on.
    pub fn add_node(&mut self) -> u32
        requires { self.old.nodes < self.old.room }
        ensures number { result ≡ self.old.nodes }
        ensures after { self.new ≡ record self.old { nodes = self.old.nodes + 1 } }
        ensures loose { IsLoose self.new result }
    {
        let node = self.nodes;
        self.nodes += 1;
        self.links.add_place();
        node
    }

    /// Puts a node that is in no list to the front of a list. At most 4 steps.
    pub fn push<L: Ledger>(&mut self, list: u32, node: u32, steps: &mut Steps<L>)
        requires list { list < length self.old.lists }
        requires node { node < self.old.nodes }
        requires loose { IsLoose self.old node }
        ensures after { self.new ≡
            record
            self.old { lists = slice_set self.old.lists list (node ∷ listed_at self.old list) } }
        ensures cost { steps.new ≤ steps.old + 4 }
    {
        let behind = self.heads.read(list, steps);
        self.links.write(node, behind, steps);
        self.heads.write(list, node, steps);
        self.counts[list as usize] += 1;
    }

    /// Takes the front node of a list, which is then in no list; `None` if and only if the list is
    /// empty. At most 4 steps.
    pub fn pop<L: Ledger>(&mut self, list: u32, steps: &mut Steps<L>) -> Option<u32>
        requires { list < length self.old.lists }
        ensures none { IsNone result ↔ (listed_at self.old list ≡ []) }
        ensures front { IfSome result
            (λ node. listed_at self.old list ≡ node ∷ listed_at self.new list) }
        ensures after { self.new ≡
            record
            self.old { lists = slice_set self.old.lists list (drop 1 (listed_at self.old list)) } }
        ensures loose { IfSome result (IsLoose self.new) }
        ensures exists { IfSome result (λ node. node < self.new.nodes) }
        ensures cost { steps.new ≤ steps.old + 4 }
    {
        let place = list as usize;
        if self.counts[place] == 0 {
            return None;
        }
        let node = self.heads.read(list, steps);
        let behind = self.links.read(node, steps);
        self.heads.write(list, behind, steps);
        self.counts[place] -= 1;
        Some(node)
    }

    /// How many nodes a list has.
    pub fn len(&self, list: u32) -> u32
        requires { list < length self.now.lists }
        ensures { result ≡ length (listed_at self.now list) }
    {
        self.counts[list as usize]
    }
}
