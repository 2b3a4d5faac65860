//! The lists.
//!
//! ```text
//!            +---------------------------------------------------+
//!            v                                                   |
//!   anchor of the application <-> held last <-> .. <-> held first
//!            |                                                   ^
//!            +---------------------------------------------------+
//! ```
ghost use Rattle.std.specs.Prelude.{◌≡◌, ℕ, ◌+◌, ◌-◌, ◌^◌, ◌<◌, ◌≤◌, ◌↔◌, [], ◌∷◌, length, replicate, slice_set, drop, IsTrue, IsNone, IfOk, IfSome};
ghost use Rattle.zero_copy.specs.Held.{HeldDescs, held_by, IsHeldBy, IsLetGo, AreApart, without};

use bucket_list::Links;
use fsw_base::AppNo;
use std::alloc::{AllocError, Global};
use std::marker::Model;
use step_count::{Ledger, Steps};

/// The descriptors that each application holds. Contracts see how many descriptors there are, and
/// each application's list, the one held last first; no descriptor is in two lists.
///
/// Each list is a ring through the descriptors and an anchor of its own, so letting go of any
/// descriptor needs no search.
pub struct HeldLists {
    // At each descriptor in a list, the one behind it; at its last one, the anchor. Behind the
    // descriptors stand the anchors, in order of application: at each the first of its list, or
    // itself.
    next: Links,
    // The same in the other direction.
    prev: Links,
    // How many descriptors there are.
    descs: u32,
    // How many each application holds.
    counts: Vec<u32>,
    // At each descriptor, the number of the application that holds it, or 0.
    owners: Vec<u32>,
}

impl Drop for HeldLists {
    fn drop(self) {
        let HeldLists {
            next: _next,
            prev: _prev,
            descs: _descs,
            counts: _counts,
            owners: _owners,
        } = self;
    }
}

impl Model for HeldLists {
    ghost use Rattle.zero_copy.specs.Held.{HeldDescs};

    ghost Value = { HeldDescs };

    ghost use Rattle.zero_copy.specs.Inside.{rings, AreHeld};

    ghost view = { λ s. record { descs = s.descs; lists = rings s.next s.descs s.counts.items } };

    ghost invariant = { λ s. AreHeld s.next s.prev s.counts.items s.owners.items s.descs };
}

impl HeldLists {
    /// Empty lists for `apps` applications over descriptors 0 to `descs` - 1, together fewer than
    /// 2^32. By the code, no later call takes memory.
    ///
    /// # Errors
    ///
    /// Out of memory.
    pub fn new(alloc: Global, apps: u32, descs: u32) -> Result<HeldLists, AllocError>
        requires { descs + apps < 2 ^ 32 }
        ensures { IfOk result (λ held. held ≡ record { descs = descs; lists = replicate apps [] }) }
    {
        let places = descs + apps;
        let next = Links::to_themselves(alloc, places)?;
        let prev = Links::to_themselves(alloc, places)?;
        let counts = zeros(alloc, apps)?;
        let owners = zeros(alloc, descs)?;
        Ok(HeldLists {
            next,
            prev,
            descs,
            counts,
            owners,
        })
    }

    /// No descriptor is held twice, by one application or by two, and each that is held is below
    /// their number. Does nothing.
    pub fn recall_apart(&self)
        ensures { AreApart self.now }
    {
        let _ = &self.counts;
    }

    /// Puts a descriptor that no application holds to the front of an application's list. At most 8
    /// steps.
    pub fn hold<L: Ledger>(&mut self, app: AppNo, desc: u32, steps: &mut Steps<L>)
        requires app { app ≤ length self.old.lists }
        requires desc { desc < self.old.descs }
        requires let_go { IsLetGo self.old desc }
        ensures after { self.new ≡
            record
            self.old { lists = slice_set self.old.lists (app - 1) (desc ∷ held_by self.old app) } }
        ensures cost { steps.new ≤ steps.old + 8 }
    {
        let place = app.get() - 1;
        let anchor = self.descs + place;
        let first = self.next.read(anchor, steps);
        self.next.write(desc, first, steps);
        self.prev.write(first, desc, steps);
        self.next.write(anchor, desc, steps);
        self.prev.write(desc, anchor, steps);
        self.counts[place as usize] += 1;
        self.owners[desc as usize] = place + 1;
    }

    /// Takes a descriptor that an application holds out of its list; the others stay in their
    /// order. At most 8 steps.
    pub fn let_go<L: Ledger>(&mut self, app: AppNo, desc: u32, steps: &mut Steps<L>)
        requires app { app ≤ length self.old.lists }
        requires held { IsHeldBy self.old app desc }
        ensures after { self.new ≡
            record
            self.old {
              lists = slice_set self.old.lists (app - 1)
                  (without desc (held_by self.old app));
            } }
        ensures let_go { IsLetGo self.new desc }
        ensures cost { steps.new ≤ steps.old + 4 }
    {
        let place = app.get() - 1;
        let before = self.prev.read(desc, steps);
        let behind = self.next.read(desc, steps);
        self.next.write(before, behind, steps);
        self.prev.write(behind, before, steps);
        self.counts[place as usize] -= 1;
        self.owners[desc as usize] = 0;
    }

    /// Takes the first descriptor out of an application's list; None if and only if it holds none.
    /// At most 8 steps.
    pub fn take_first<L: Ledger>(&mut self, app: AppNo, steps: &mut Steps<L>) -> Option<u32>
        requires { app ≤ length self.old.lists }
        ensures none { IsNone result ↔ (held_by self.old app ≡ []) }
        ensures first { IfSome result (λ desc. held_by self.old app ≡ desc ∷ held_by self.new app) }
        ensures after { self.new ≡
            record
            self.old {
              lists = slice_set self.old.lists (app - 1)
                  (drop 1 (held_by self.old app));
            } }
        ensures let_go { IfSome result (IsLetGo self.new) }
        ensures exists { IfSome result (λ desc. desc < self.new.descs) }
        ensures cost { steps.new ≤ steps.old + 8 }
    {
        let place = app.get() - 1;
        if self.counts[place as usize] == 0 {
            return None;
        }
        let first = self.next.read(self.descs + place, steps);
        self.let_go(app, first, steps);
        Some(first)
    }

    /// Whether an application holds a descriptor.
    pub fn holds(&self, app: AppNo, desc: u32) -> bool
        requires app { app ≤ length self.now.lists }
        requires desc { desc < self.now.descs }
        ensures { IsTrue result ↔ IsHeldBy self.now app desc }
    {
        self.owners[desc as usize] == app.get()
    }
}

// A list of `count` zeros.
fn zeros(alloc: Global, count: u32) -> Result<Vec<u32>, AllocError>
    ensures { IfOk result (λ numbers. numbers.items ≡ replicate count 0) }
{
    let mut numbers = Vec::new(alloc);
    numbers.resize(count as usize, 0)?;
    Ok(numbers)
}
