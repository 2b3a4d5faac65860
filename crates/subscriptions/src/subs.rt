//! The subscriptions.
ghost use Rattle.std.specs.Prelude.{◌≡◌, ℕ, ◌==◌, ◌+◌, ◌-◌, ◌<◌, ◌≤◌, ◌^◌, ◌↔◌, false, Some, None, List, [], ◌∷◌, ◌++◌, length, map, replicate, slice_index, slice_index_or, vec_capacity, option_map, IsSome, IsTrue, IfOk, IfSome};
ghost use Rattle.std.specs.List.{list_any};
ghost use Rattle.std.specs.Option.{ForSome};
ghost use Rattle.subscriptions.specs.Subs.{Subscribed, LiveSubscription, live_at, row_of, admission_at, one_more, one_fewer, with_change, without, AreInOrder};
ghost use Rattle.subscriptions.specs.Inside.{held_at, recounted, with_slot, with_free};

use crate::place::Place;
use crate::words::{Admission, SubNo, SubRow};
use fsw_base::Scope;
use ruled_out::{ruled_out, surely_some};
use std::alloc::{AllocError, Global};
use std::marker::Model;

/// The live subscriptions. Contracts see how many may be live at once, how many were made so far,
/// and those that are live, in order of number.
pub struct Subs {
    // What each slot that was ever used holds; None if it is free. Each subscription has a
    // number of its own.
    slots: Vec<Option<Place>>,
    // Those of them that are free, each once, the next one to use last.
    free: Vec<u32>,
    // How many subscriptions were made, which is the newest one's number.
    made: u32,
    // How many slots there may be. Both lists have room for as many.
    room: u32,
}

impl Drop for Subs {
    fn drop(self) {
        let Subs {
            slots: _slots,
            free: _free,
            made: _made,
            room: _room,
        } = self;
    }
}

impl Model for Subs {
    ghost use Rattle.std.specs.Prelude.{◌<◌, ◌≤◌, ◌^◌, length, vec_capacity};
    ghost use Rattle.subscriptions.specs.Subs.{Subscribed};

    ghost Value = { Subscribed };

    ghost use Rattle.subscriptions.specs.Inside.{live_upto, AreKept};

    ghost view = { λ s.
        record { room = s.room; made = s.made; live = live_upto s.slots.items s.made } };

    ghost invariant = { λ s. AreKept s.slots.items s.free.items s.made ×
        (length s.slots.items ≤ s.room) × (s.room ≤ vec_capacity s.free) ×
        (s.room ≤ vec_capacity s.slots) × (s.room < 2 ^ 32) };
}

impl Subs {
    /// Room for `room` live subscriptions, none of which is made yet. By the code, no later call
    /// takes memory.
    ///
    /// # Errors
    /// `AllocError` if memory runs out.
    pub fn new(alloc: Global, room: u32) -> Result<Subs, AllocError>
        ensures { IfOk result (λ subs. subs ≡ record { room = room; made = 0; live = [] }) }
    {
        let slots = Vec::with_capacity(alloc, room as usize)?;
        let free = Vec::with_capacity(alloc, room as usize)?;
        Ok(Subs {
            slots,
            free,
            made: 0,
            room,
        })
    }

    /// How many subscriptions are live. By the code, it takes a constant time.
    pub fn len(&self) -> u32
        ensures { result ≡ length self.now.live }
    {
        (self.slots.len() - self.free.len()) as u32
    }

    /// How many subscriptions were made, which is the newest one's number.
    pub fn subscriptions_made(&self) -> u32
        ensures { result ≡ self.now.made }
    {
        self.made
    }

    /// The live subscriptions stand in order of number, and each in a slot below the room. Does
    /// nothing.
    pub fn recall_order(&self)
        ensures { AreInOrder self.now }
    {
        let _ = &self.slots;
    }

    /// A new subscription of a message id to a pipe that lies in this place, of whose messages none
    /// waits. Whether the pair is live already isn't asked. By the code, it takes a constant time.
    pub fn add(&mut self, id: u16, pipe: u32, place: u32, limit: u32, scope: Scope) -> SubNo
        requires room { length self.old.live < self.old.room }
        requires number { self.old.made + 1 < 2 ^ 32 }
        ensures number { result.number ≡ self.old.made + 1 }
        ensures slot { result.slot < self.old.room }
        ensures free { list_any (λ s. s.slot == result.slot) self.old.live ≡ false }
        ensures after { self.new ≡ record self.old {
          made = result.number;
          live = self.old.live ++
              record {
                slot = result.slot;
                number = result.number;
                id = id;
                pipe = pipe;
                place = place;
                limit = limit;
                scope = scope;
                waiting = 0;
              } ∷ [];
        } }
    {
        let slot = take_slot(&mut self.slots, &mut self.free);
        self.made += 1;
        self.slots[slot as usize] = Some(Place {
            number: self.made,
            id,
            pipe,
            place,
            limit,
            scope,
            waiting: 0,
        });
        SubNo {
            slot,
            number: self.made,
        }
    }

    /// Ends a live subscription. Its slot is used again, its number never. By the code, it takes a
    /// constant time.
    pub fn remove(&mut self, sub: SubNo)
        requires { IsSome (live_at self.old sub) }
        ensures { self.new ≡ without self.old sub }
    {
        self.slots[sub.slot as usize] = None;
        self.free.push_reserved(sub.slot);
    }

    /// What a live subscription was made with, and how many of its messages wait. By the code, it
    /// takes a constant time.
    pub fn at(&self, sub: SubNo) -> SubRow
        requires { IsSome (live_at self.now sub) }
        ensures { option_map row_of (live_at self.now sub) ≡ Some result }
    {
        surely_some(self.slots[sub.slot as usize]).row()
    }

    /// What the limit of a subscription says of one message more; one that has ended has no limit.
    /// By the code, it takes a constant time.
    pub fn admit(&self, sub: SubNo) -> Admission
        ensures { result ≡ admission_at self.now sub }
    {
        match held(&self.slots, sub) {
            Some(place) => place.row().admission(),
            None => Admission::Inside,
        }
    }

    /// One more message of a subscription waits; no effect if it has ended. By the code, it
    /// takes a constant time.
    pub fn queued(&mut self, sub: SubNo)
        requires { ForSome (live_at self.old sub) (λ s. s.waiting + 1 < 2 ^ 32) }
        ensures { self.new ≡ with_change self.old sub one_more }
    {
        if let Some(slot) = self.slots.get_mut(sub.slot as usize) {
            count_up(slot, sub.number);
        }
    }

    /// One more message of a live subscription waits. By the code, it takes a constant time, and
    /// doesn't look whether the subscription is live.
    pub fn add_waiting(&mut self, sub: SubNo)
        requires live { IsSome (live_at self.old sub) }
        requires few { ForSome (live_at self.old sub) (λ s. s.waiting + 1 < 2 ^ 32) }
        ensures { self.new ≡ with_change self.old sub one_more }
    {
        count_up_held(&mut self.slots[sub.slot as usize], sub.number);
    }

    /// One message of a subscription, of which at least one waits, waits no longer; no effect if
    /// it has ended. By the code, it takes a constant time.
    pub fn unqueued(&mut self, sub: SubNo)
        requires { ForSome (live_at self.old sub) (λ s. 1 ≤ s.waiting) }
        ensures { self.new ≡ with_change self.old sub one_fewer }
    {
        if let Some(slot) = self.slots.get_mut(sub.slot as usize) {
            count_down(slot, sub.number);
        }
    }

    /// A live subscription of a pipe; None if and only if it has none. For the deletion of a pipe:
    /// it looks at as many slots as ever were used at once.
    pub fn any_of_pipe(&self, pipe: u32) -> Option<SubNo>
        ensures some { IsSome result ↔ IsTrue (list_any (λ s. s.pipe == pipe) self.now.live) }
        ensures own { IfSome result
            (λ sub. option_map (λ s. s.pipe) (live_at self.now sub) ≡ Some pipe) }
    {
        for slot in 0..self.slots.len() as u32 {
            if let Some(place) = self.slots[slot as usize] {
                if place.pipe == pipe {
                    return Some(SubNo {
                        slot,
                        number: place.number,
                    });
                }
            }
        }
        None
    }
}

// What a slot holds.
fn in_slot(slots: &[Option<Place>], slot: u32) -> Option<Place>
    ensures { result ≡ slice_index_or slots.now slot None }
{
    match slots.get(slot as usize) {
        Some(place) => *place,
        None => None,
    }
}

// What the slot of a subscription holds, if the subscription is live.
fn held(slots: &[Option<Place>], sub: SubNo) -> Option<Place>
    ensures { result ≡ held_at slots.now sub.slot sub.number }
{
    match in_slot(slots, sub.slot) {
        Some(place) if place.number == sub.number => Some(place),
        _ => None,
    }
}

// One message more waits of the subscription of this number, if the slot holds it.
fn count_up(slot: &mut Option<Place>, number: u32)
    requires { ForSome slot.old (λ p. p.number ≡ number → p.waiting + 1 < 2 ^ 32) }
    ensures { slot.new ≡ recounted number (λ waiting. waiting + 1) slot.old }
{
    if let Some(place) = slot {
        if place.number == number {
            place.waiting += 1;
        }
    }
}

// One message more waits of the subscription of this number, which the slot holds.
fn count_up_held(slot: &mut Option<Place>, number: u32)
    requires held { option_map (λ p. p.number) slot.old ≡ Some number }
    requires few { ForSome slot.old (λ p. p.waiting + 1 < 2 ^ 32) }
    ensures { slot.new ≡ recounted number (λ waiting. waiting + 1) slot.old }
{
    match slot {
        Some(place) => place.waiting += 1,
        None => ruled_out!(),
    }
}

// One message fewer waits of the subscription of this number, if the slot holds it.
fn count_down(slot: &mut Option<Place>, number: u32)
    requires { ForSome slot.old (λ p. p.number ≡ number → 1 ≤ p.waiting) }
    ensures { slot.new ≡ recounted number (λ waiting. waiting - 1) slot.old }
{
    if let Some(place) = slot {
        if place.number == number {
            place.waiting -= 1;
        }
    }
}

// Takes a free slot out of the list: the one given back last, or one that was never used.
fn take_slot(slots: &mut Vec<Option<Place>>, free: &mut Vec<u32>) -> u32
    requires few { length slots.old.items < 2 ^ 32 }
    requires room { length free.old.items ≡ 0 → length slots.old.items < vec_capacity slots.old }
    ensures slots { slots.new.items ≡ with_slot slots.old.items free.old.items }
    ensures taken { free.new.items ++ result ∷ [] ≡ with_free slots.old.items free.old.items }
    ensures capacities { (vec_capacity slots.new ≡ vec_capacity slots.old)
        × (vec_capacity free.new ≡ vec_capacity free.old) }
{
    if let Some(slot) = free.pop() {
        return slot;
    }
    slots.push_reserved(None);
    (slots.len() - 1) as u32
}
