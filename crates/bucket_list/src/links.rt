//! Rows of links that can be read and written only with a step counted.
ghost use Rattle.std.specs.Prelude.{◌≡◌, ℕ, ◌+◌, ◌<◌, List, [], ◌∷◌, ◌++◌, length, replicate, slice_index, slice_set, IfOk};
ghost use Rattle.std.specs.List.{range_with_len};

use std::alloc::{AllocError, Global};
use std::marker::Model;
use std::sync::ledger::Ledger;
use step_count::Steps;

/// A row of links or of list heads: contracts see the numbers that stand there, in order of place.
///
/// Each reading and each writing counts one step, and there is no other way to the numbers. So a
/// structure that keeps its links here counts them all.
pub struct Links {
    // The numbers, by place.
    places: Vec<u32>,
}

impl Drop for Links {
    fn drop(self) {
        let Links { places: _places } = self;
    }
}

impl Model for Links {
    ghost Value = { List ℕ };

    ghost view = { λ l. l.places.items };
}

impl Links {
    /// A row of `count` places, with 0 at each. By the code, no later call takes memory.
    ///
    /// # Errors
    /// `AllocError` if memory runs out.
    pub fn new(alloc: Global, count: u32) -> Result<Links, AllocError>
        ensures { IfOk result (λ links. links ≡ replicate count 0) }
    {
        Ok(Links {
            places: zeros(alloc, count)?,
        })
    }

    /// A row of `count` places, each linked to itself. By the code, no later call takes memory.
    ///
    /// # Errors
    /// `AllocError` if memory runs out.
    pub fn to_themselves(alloc: Global, count: u32) -> Result<Links, AllocError>
        ensures { IfOk result (λ links. links ≡ range_with_len 0 count) }
    {
        let mut places = Vec::with_capacity(alloc, count as usize)?;
        for place in 0..count {
            places.push_reserved(place);
        }
        Ok(Links { places })
    }

    /// The number at a place. One step.
    pub fn read<L: Ledger>(&self, place: u32, steps: &mut Steps<L>) -> u32
        requires { place < length self.now }
        ensures value { result ≡ slice_index self.now place }
        ensures cost { steps.new ≡ steps.old + 1 }
    {
        steps.tick();
        self.places[place as usize]
    }

    /// Writes a number to a place. One step.
    pub fn write<L: Ledger>(&mut self, place: u32, link: u32, steps: &mut Steps<L>)
        requires { place < length self.old }
        ensures after { self.new ≡ slice_set self.old place link }
        ensures cost { steps.new ≡ steps.old + 1 }
    {
        steps.tick();
        self.places[place as usize] = link;
    }
}

/// A row of links that gets its places one after another, as nodes come. Contracts see how many
/// there is room for, and the numbers that stand there, in order of place.
///
/// It counts steps as [`Links`] does. Room that no node has needed yet is memory that was never
/// written.
#[derive(Drop)]
pub(crate) struct NodeLinks {
    // The numbers, by place.
    places: Vec<u32>,
    // How many places there may be.
    room: u32,
}

impl Model for NodeLinks {
    ghost use Rattle.std.specs.Prelude.{◌≤◌, length, vec_capacity};
    ghost use Rattle.bucket_list.specs.Lists.{NodeRow};

    ghost Value = { NodeRow };

    ghost view = { λ l. record { room = l.room; links = l.places.items } };

    ghost invariant = { λ l. (length l.places.items ≤ l.room) × (l.room ≤ vec_capacity l.places) };
}

impl NodeLinks {
    /// No place, with room for `room` of them. No later call takes memory.
    ///
    /// # Errors
    /// `AllocError` if memory runs out.
    pub(crate) fn new(alloc: Global, room: u32) -> Result<NodeLinks, AllocError>
        ensures { IfOk result (λ row. row ≡ record { room = room; links = [] }) }
    {
        Ok(NodeLinks {
            places: Vec::with_capacity(alloc, room as usize)?,
            room,
        })
    }

    /// A further place, with 0 there.
    pub(crate) fn add_place(&mut self)
        requires { length self.old.links < self.old.room }
        ensures { self.new ≡ record self.old { links = self.old.links ++ 0 ∷ [] } }
    {
        self.places.push_reserved(0);
    }

    /// The number at a place. One step.
    pub(crate) fn read<L: Ledger>(&self, place: u32, steps: &mut Steps<L>) -> u32
        requires { place < length self.now.links }
        ensures value { result ≡ slice_index self.now.links place }
        ensures cost { steps.new ≡ steps.old + 1 }
    {
        steps.tick();
        self.places[place as usize]
    }

    /// Writes a number to a place. One step.
    pub(crate) fn write<L: Ledger>(&mut self, place: u32, link: u32, steps: &mut Steps<L>)
        requires { place < length self.old.links }
        ensures after { self.new ≡
            record self.old { links = slice_set self.old.links place link } }
        ensures cost { steps.new ≡ steps.old + 1 }
    {
        steps.tick();
        self.places[place as usize] = link;
    }
}

/// A list of `count` zeros.
///
/// # Errors
/// `AllocError` if memory runs out.
pub fn zeros(alloc: Global, count: u32) -> Result<Vec<u32>, AllocError>
    ensures { IfOk result (λ numbers. numbers.items ≡ replicate count 0) }
{
    let mut numbers = Vec::new(alloc);
    numbers.resize(count as usize, 0)?;
    Ok(numbers)
}
