//! The table.
ghost use Rattle.std.specs.Prelude.{◌≡◌, ℕ, ◌==◌, ◌+◌, ◌<◌, ◌≤◌, ◌^◌, ◌↔◌, ◌++◌, ◌∷◌, [], length, map, replicate, true, false, All, IfOk, IsErr, IsSome, IfSome, is_some, IsTrue, slice_index, slice_index_or, None, Some, vec_len, vec_capacity};
ghost use Rattle.std.specs.List.{list_any, range_with_len};
ghost use Rattle.std.specs.Option.{option_map, option_map_or, option_and_then, option_to_list};
ghost use Rattle.bus_words.specs.Pipes.{pipe_at, is_live, owns, pipe_named, first_owned, oldest_on, last_on, IsRising, with_pipe, without_pipe, new_pipe, with_bits, after_receive, without_front, without_last, verdict_over, dropped_at, offered_over};
ghost use Rattle.pipe_table.specs.Table.{Pipes, place_of, without_place};
ghost use Rattle.pipe_table.specs.Inside.{pipe_in, live_in, place_under, AreRising, AreOrdered, AreFiled};

use crate::offered::OfferOutcome;
use crate::pipe_no::PipeNo;
use crate::place::Place;
use bus_words::PipeText;
use fsw_base::AppNo;
use pipe_queue::Item;
use std::alloc::{AllocError, Global};
use std::marker::Model;

/// The live pipes, by number. Contracts see them in order of number.
pub struct PipeTable {
    // The places, one for each pipe that may be live, with a queue of the greatest depth each.
    places: Vec<Place>,
    // The free places, each once.
    free: Vec<u32>,
    // The numbers of the live pipes, rising.
    live: Vec<u32>,
    // Their places, in the same order.
    at: Vec<u32>,
    // How many pipes were created, which is the newest one's number.
    created: u32,
    // The greatest depth of a pipe.
    depth: u32,
}

impl Drop for PipeTable {
    fn drop(self) {
        let PipeTable {
            places: _places,
            free: _free,
            live: _live,
            at: _at,
            created: _created,
            depth: _depth,
        } = self;
    }
}

impl Model for PipeTable {
    ghost use Rattle.std.specs.Prelude.{◌≡◌, ◌≤◌, length, vec_capacity};
    ghost use Rattle.pipe_table.specs.Table.{Pipes};

    ghost Value = { Pipes };

    ghost use Rattle.pipe_table.specs.Inside.{table_of, AreKept};

    ghost view = { λ t. table_of t.depth t.places.items t.live.items t.at.items t.created };

    ghost invariant = { λ t. AreKept t.depth t.places.items t.live.items t.at.items t.free.items
        t.created
        × (length t.places.items ≤ vec_capacity t.free)
        × (length t.places.items ≤ vec_capacity t.live) ×
        (length t.places.items ≤ vec_capacity t.at) };
}

impl PipeTable {
    /// No pipe, with room for `pipes` live ones that hold up to `depth` messages each. By the code,
    /// no later call takes memory.
    ///
    /// # Errors
    /// If memory runs out.
    pub fn new(alloc: Global, pipes: u32, depth: u32) -> Result<PipeTable, AllocError>
        ensures { IfOk result
            (λ table. table ≡
            record { live = []; places = []; created = 0; room = pipes; depth = depth }) }
    {
        Ok(PipeTable {
            places: free_places(alloc, pipes, depth)?,
            free: all_places(alloc, pipes)?,
            live: Vec::with_capacity(alloc, pipes as usize)?,
            at: Vec::with_capacity(alloc, pipes as usize)?,
            created: 0,
            depth,
        })
    }

    /// How many pipes are live.
    pub fn len(&self) -> usize
        ensures { result ≡ length self.now.live }
    {
        self.places.len() - self.free.len()
    }

    /// How many pipes were created, which is the newest one's number.
    pub fn pipes_created(&self) -> u32
        ensures { result ≡ self.now.created }
    {
        self.created
    }

    /// The live pipes stand in order of number, and their places in the same order. Does nothing.
    pub fn recall_order(&self)
        ensures order { IsRising 0 self.now.live }
        ensures places { map (λ pair. pair.0) self.now.places ≡
            map (λ pipe. pipe.number) self.now.live }
    {
        let _ = &self.live;
    }

    /// Whether a pipe of this number is live.
    pub fn is_live(&self, number: u32) -> bool
        ensures { result ≡ is_live self.now.live number }
    {
        self.bits(number).is_some()
    }

    /// Whether a pipe of this number is live and the application's.
    pub fn owns(&self, app: AppNo, number: u32) -> bool
        ensures { result ≡ owns self.now.live app number }
    {
        match found(&self.places, &self.live, &self.at, number) {
            Some(place) => place.is_owned_by(app),
            None => false,
        }
    }

    /// The option bits of the live pipe of this number.
    pub fn bits(&self, number: u32) -> Option<u8>
        ensures { result ≡ option_map (λ pipe. pipe.bits) (pipe_at self.now.live number) }
    {
        match found(&self.places, &self.live, &self.at, number) {
            Some(place) => place.bits(),
            None => None,
        }
    }

    /// The name of the live pipe of this number.
    pub fn name(&self, number: u32) -> Option<PipeText>
        ensures { result ≡ option_map (λ pipe. pipe.name) (pipe_at self.now.live number) }
    {
        match found(&self.places, &self.live, &self.at, number) {
            Some(place) => place.name(),
            None => None,
        }
    }

    /// The place of the live pipe of this number.
    pub fn place_of(&self, number: u32) -> Option<u32>
        ensures { result ≡ place_of self.now.places number }
    {
        at_number(&self.live, &self.at, number)
    }

    /// How many items wait on the live pipe of this number. None if no such pipe is live.
    pub fn waiting_count(&self, number: u32) -> Option<u32>
        ensures { result ≡ option_map (λ pipe. length pipe.queue) (pipe_at self.now.live number) }
    {
        match found(&self.places, &self.live, &self.at, number) {
            Some(place) => place.waiting_count(),
            None => None,
        }
    }

    /// What waits longest on the live pipe of this number.
    pub fn oldest(&self, number: u32) -> Option<Item>
        ensures { result ≡ oldest_on self.now.live number }
    {
        match found(&self.places, &self.live, &self.at, number) {
            Some(place) => place.oldest(),
            None => None,
        }
    }

    /// What was received last on the live pipe of this number.
    pub fn last(&self, number: u32) -> Option<Item>
        ensures { result ≡ last_on self.now.live number }
    {
        match found(&self.places, &self.live, &self.at, number) {
            Some(place) => place.last(),
            None => None,
        }
    }

    /// The number of the live pipe that was created first of those with the name. For a creation
    /// and for finding a pipe by name: by the code, it looks at the live pipes up to it.
    pub fn find(&self, name: &[u8]) -> Option<u32>
        ensures { result ≡ option_map (λ pipe. pipe.number) (pipe_named self.now.live name.now) }
    {
        for at in &self.at {
            if let Some(number) = number_where_named(&self.places, *at, name) {
                return Some(number);
            }
        }
        None
    }

    /// The number of the live pipe that was created first of the application's. For an
    /// application's end: by the code, it looks at the live pipes up to it.
    pub fn first_of(&self, app: AppNo) -> Option<u32>
        ensures { result ≡ option_map (λ pipe. pipe.number) (first_owned self.now.live app) }
    {
        for at in &self.at {
            if let Some(number) = number_where_owned(&self.places, *at, app) {
                return Some(number);
            }
        }
        None
    }

    /// Creates a pipe that holds up to `depth` messages, numbered one more than were created, in a
    /// place of its own.
    pub fn create(&mut self, name: &PipeText, owner: AppNo, depth: u32) -> PipeNo
        requires room { length self.old.live < self.old.room }
        requires number { self.old.created + 1 < 2 ^ 32 }
        requires some { 1 ≤ depth }
        requires depth { depth ≤ self.old.depth }
        ensures number { result.number ≡ self.old.created + 1 }
        ensures after { self.new ≡ record self.old {
          live = self.old.live ++ new_pipe (self.old.created + 1) name.now owner depth ∷ [];
          places = self.old.places ++ (self.old.created + 1, result.place) ∷ [];
          created = self.old.created + 1;
        } }
    {
        let place = self.free.pop().unwrap();
        self.created += 1;
        let pipe = PipeNo {
            number: self.created,
            place,
        };
        self.live.push_reserved(self.created);
        self.at.push_reserved(place);
        self.places[place as usize].fill(pipe.number, name, owner, depth);
        pipe
    }

    /// Ends the live pipe of this number, with what waits on it; no effect if none is live.
    pub fn remove(&mut self, number: u32)
        ensures { self.new ≡
            record
            self.old {
              live = without_pipe number self.old.live;
              places = without_place number self.old.places;
            } }
    {
        if let Some(index) = index_of(&self.live, number) {
            let at = self.at.remove(index);
            self.live.remove(index);
            self.places[at as usize].clear();
            self.free.push_reserved(at);
        }
    }

    /// Sets the option bits of the live pipe of this number.
    pub fn set_bits(&mut self, number: u32, bits: u8)
        ensures { self.new ≡
            record self.old { live = with_pipe (with_bits bits) number self.old.live } }
    {
        if let Some(at) = at_number(&self.live, &self.at, number) {
            self.places[at as usize].set_bits(bits);
        }
    }

    /// Lets the last message of the live pipe of this number go, and takes the one that waits
    /// longest, if any, in its place. Answers both: the one let go, and the one taken.
    pub fn take(&mut self, number: u32) -> (Option<Item>, Option<Item>)
        ensures last { result.0 ≡ last_on self.old.live number }
        ensures oldest { result.1 ≡ oldest_on self.old.live number }
        ensures after { self.new ≡
            record self.old { live = with_pipe after_receive number self.old.live } }
    {
        match at_number(&self.live, &self.at, number) {
            Some(at) => self.places[at as usize].take(),
            None => (None, None),
        }
    }

    /// Does the same if the live pipe of this number is the application's; None if and only if
    /// it has no such pipe, and then nothing changes. By the code, the number is looked up once.
    pub fn take_if_owned(&mut self, app: AppNo, number: u32) -> Option<(Option<Item>, Option<Item>)>
        ensures owned { is_some result ≡ owns self.old.live app number }
        ensures last { IfSome result (λ items. items.0 ≡ last_on self.old.live number) }
        ensures oldest { IfSome result (λ items. items.1 ≡ oldest_on self.old.live number) }
        ensures after { IfSome result (λ items. self.new ≡
            record self.old { live = with_pipe after_receive number self.old.live }) }
        ensures same { result ≡ None → self.new ≡ self.old }
    {
        let at = at_number(&self.live, &self.at, number)?;
        if !self.places[at as usize].has_owner(app) {
            return None;
        }
        Some(self.places[at as usize].take())
    }

    /// Takes what waits longest out of the live pipe of this number.
    pub fn take_front(&mut self, number: u32) -> Option<Item>
        ensures oldest { result ≡ oldest_on self.old.live number }
        ensures after { self.new ≡
            record self.old { live = with_pipe without_front number self.old.live } }
    {
        match at_number(&self.live, &self.at, number) {
            Some(at) => self.places[at as usize].take_front(),
            None => None,
        }
    }

    /// Takes what was received last out of the live pipe of this number.
    pub fn take_last(&mut self, number: u32) -> Option<Item>
        ensures last { result ≡ last_on self.old.live number }
        ensures after { self.new ≡
            record self.old { live = with_pipe without_last number self.old.live } }
    {
        match at_number(&self.live, &self.at, number) {
            Some(at) => self.places[at as usize].take_last(),
            None => None,
        }
    }

    /// Offers a live pipe a message of this sender, and is told whether its subscription's limit is
    /// reached. The pipe queues it, unless it ignores the sender, the limit is reached, or as many
    /// messages wait as its depth: these are asked in this order, and the first that holds is
    /// answered. A full pipe whose option bits say so drops the message that waits longest, and
    /// queues the new one. By the code, looks once at the pipe's place, and at no other.
    pub fn offer(&mut self, pipe: PipeNo, sender: AppNo, is_over: bool, item: Item) -> OfferOutcome
        requires live { place_of self.old.places pipe.number ≡ Some pipe.place }
        ensures told { option_map (λ pipe. verdict_over is_over pipe sender)
            (pipe_at self.old.live pipe.number) ≡ Some result.verdict }
        ensures dropped { result.dropped ≡
            option_and_then (λ pipe. dropped_at result.verdict pipe.queue)
            (pipe_at self.old.live pipe.number) }
        ensures after { self.new ≡
            record
            self.old {
              live = with_pipe (offered_over is_over sender item) pipe.number self.old.live;
            } }
    {
        self.places[pipe.place as usize].offer(sender, is_over, item)
    }
}

// Where a number stands among those of the live pipes. It is looked for at the place where it
// stands while no pipe was deleted, and by halves if it isn't there. For 0, which no pipe has,
// that place is past the end.
fn index_of(live: &Vec<u32>, number: u32) -> Option<usize>
    requires { AreRising 0 live.now.items }
    ensures some { IfSome result
        (λ i. (i < length live.now.items) × (slice_index live.now.items i ≡ number)) }
    ensures none { result ≡ None → (k : ℕ) → k < length live.now.items →
        slice_index live.now.items k ≡ number → ⊥ }
{
    let likely = (number as usize).wrapping_sub(1);
    if likely < live.len() && live[likely] == number {
        return Some(likely);
    }
    index_by_halves(live, number)
}

// Where a number stands, searched by halves.
fn index_by_halves(live: &Vec<u32>, number: u32) -> Option<usize>
    requires { AreRising 0 live.now.items }
    ensures some { IfSome result
        (λ i. (i < length live.now.items) × (slice_index live.now.items i ≡ number)) }
    ensures none { result ≡ None → (k : ℕ) → k < length live.now.items →
        slice_index live.now.items k ≡ number → ⊥ }
{
    match live.binary_search(&number) {
        Ok(index) => Some(index),
        Err(_) => None,
    }
}

// The place of the pipe of a number.
fn at_number(live: &Vec<u32>, at: &Vec<u32>, number: u32) -> Option<u32>
    requires { AreOrdered live.now.items at.now.items }
    ensures { result ≡ place_under live.now.items at.now.items number }
{
    match index_of(live, number) {
        Some(index) => Some(at[index]),
        None => None,
    }
}

// The place where the pipe of a number lies.
fn found<'p>(
    places: &'p Vec<Place>,
    live: &Vec<u32>,
    at: &Vec<u32>,
    number: u32,
) -> Option<&'p Place>
    requires { AreFiled 0 places.now.items live.now.items at.now.items }
    ensures some { IfSome result
        (λ place. place.now.pipe ≡ pipe_at (live_in places.now.items at.now.items) number) }
    ensures none { result ≡ None → pipe_at (live_in places.now.items at.now.items) number ≡ None }
{
    match at_number(live, at, number) {
        Some(place) => Some(place_at(places, place)),
        None => None,
    }
}

// A place.
fn place_at(places: &Vec<Place>, at: u32) -> &Place
    requires { at < length places.now.items }
    ensures { result.now ≡ slice_index_or places.now.items at (record { pipe = None; room = 0 }) }
{
    &places[at as usize]
}

// The number of the pipe in a place, if it has the name.
fn number_where_named(places: &[Place], at: u32, name: &[u8]) -> Option<u32>
    ensures { result ≡
        option_map (λ pipe. pipe.number)
        (pipe_named (option_to_list (pipe_in places.now at)) name.now) }
{
    let place = places.get(at as usize)?;
    if place.is_named(name) {
        place.number()
    } else {
        None
    }
}

// The number of the pipe in a place, if it is the application's.
fn number_where_owned(places: &[Place], at: u32, app: AppNo) -> Option<u32>
    ensures { result ≡
        option_map (λ pipe. pipe.number)
        (first_owned (option_to_list (pipe_in places.now at)) app) }
{
    let place = places.get(at as usize)?;
    if place.is_owned_by(app) {
        place.number()
    } else {
        None
    }
}

// So many free places, each with a queue of this depth.
fn free_places(alloc: Global, pipes: u32, depth: u32) -> Result<Vec<Place>, AllocError>
    ensures { IfOk result
        (λ places. places.items ≡ replicate pipes (record { pipe = None; room = depth })) }
{
    let mut places = Vec::with_capacity(alloc, pipes as usize)?;
    for _ in 0..pipes {
        places.push_reserved(Place::new(alloc, depth)?);
    }
    Ok(places)
}

// Their numbers, in order.
fn all_places(alloc: Global, pipes: u32) -> Result<Vec<u32>, AllocError>
    ensures items { IfOk result (λ free. free.items ≡ range_with_len 0 pipes) }
    ensures room { IfOk result (λ free. pipes ≤ vec_capacity free) }
{
    let mut free = Vec::with_capacity(alloc, pipes as usize)?;
    for place in 0..pipes {
        free.push_reserved(place);
    }
    Ok(free)
}
