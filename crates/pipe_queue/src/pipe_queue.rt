//! The queue.
ghost use Rattle.std.specs.Prelude.{◌≡◌, ◌<◌, ◌≤◌, ◌↔◌, [], ◌∷◌, ◌++◌, None, length, drop, slice_get, IsErr, IfOk, OnOk, OnErr};
ghost use Rattle.pipe_queue.specs.Queues.{Queued};

use crate::item::{Full, Item};
use circular_buffer::HeapCircularBuffer;
use std::alloc::{AllocError, Global};
use std::marker::Model;

/// What waits in a pipe, and what was received last. Contracts see the room, the depth, the items
/// that wait, oldest first, and the last one.
pub struct PipeQueue {
    // How many items may wait; 0 before the first start. The ring has room for them.
    depth: u32,
    // The items that wait, oldest first; at most as many as the depth.
    ring: HeapCircularBuffer<Item>,
    // The item received last.
    last: Option<Item>,
}

impl Drop for PipeQueue {
    fn drop(self) {
        let PipeQueue {
            depth: _depth,
            ring: _ring,
            last: _last,
        } = self;
    }
}

impl Model for PipeQueue {
    ghost use Rattle.std.specs.Prelude.{◌<◌, ◌≤◌, ◌^◌, length};
    ghost use Rattle.pipe_queue.specs.Queues.{Queued};

    ghost Value = { Queued };

    ghost view = { λ q.
        record { room = q.ring.capacity; depth = q.depth; queue = q.ring.items; last = q.last } };

    ghost invariant = { λ q. (length q.ring.items ≤ q.depth) × (q.depth ≤ q.ring.capacity) };
}

impl PipeQueue {
    /// An empty queue with room for pipes of a depth up to `room`. By the code, no later call takes
    /// memory.
    ///
    /// # Errors
    /// `AllocError` if memory runs out.
    pub fn new(alloc: Global, room: u32) -> Result<PipeQueue, AllocError>
        ensures { IfOk result
            (λ queue. queue ≡ record { room = room; depth = 0; queue = []; last = None }) }
    {
        let ring = HeapCircularBuffer::with_capacity(alloc, room as usize)?;
        Ok(PipeQueue {
            depth: 0,
            ring,
            last: None,
        })
    }

    /// Serves a new pipe, of this depth: at least 1, and at most the room.
    pub fn start(&mut self, depth: u32)
        requires queue { self.old.queue ≡ [] }
        requires last { self.old.last ≡ None }
        requires least { 1 ≤ depth }
        requires most { depth ≤ self.old.room }
        ensures { self.new ≡ record self.old { depth = depth } }
    {
        self.depth = depth;
    }

    /// Queues an item as the newest one.
    ///
    /// # Errors
    /// `Full` if and only if as many items wait as the depth says; then nothing changes.
    pub fn try_put(&mut self, item: Item) -> Result<(), Full>
        ensures full { IsErr result ↔ (self.old.depth ≤ length self.old.queue) }
        ensures put { OnOk result
            (self.new ≡ record self.old { queue = self.old.queue ++ item ∷ [] }) }
        ensures same { OnErr result (self.new ≡ self.old) }
    {
        if self.ring.len() == self.depth as usize {
            return Err(Full);
        }
        let _ = self.ring.try_push_back(item);
        Ok(())
    }

    /// Takes out the item that waits longest, and queues this one as the newest: of a started queue
    /// that is full, the oldest item leaves for a newer one. Answers the one that left.
    pub fn put_for_oldest(&mut self, item: Item) -> Option<Item>
        requires started { 1 ≤ self.old.depth }
        ensures first { result ≡ slice_get self.old.queue 0 }
        ensures put { self.new ≡
            record self.old { queue = drop 1 self.old.queue ++ item ∷ [] } }
    {
        let oldest = self.ring.pop_front();
        let _ = self.ring.try_push_back(item);
        oldest
    }

    /// Takes out the item that waits longest; None if and only if none waits.
    pub fn take_front(&mut self) -> Option<Item>
        ensures first { result ≡ slice_get self.old.queue 0 }
        ensures rest { self.new ≡ record self.old { queue = drop 1 self.old.queue } }
    {
        self.ring.pop_front()
    }

    /// Makes an item, or none, the one received last, and answers the one before.
    pub fn set_last(&mut self, item: Option<Item>) -> Option<Item>
        ensures before { result ≡ self.old.last }
        ensures after { self.new ≡ record self.old { last = item } }
    {
        let before = self.last;
        self.last = item;
        before
    }

    /// Empties it, the last item too, so that it can be started again. Whoever shares messages
    /// among pipes takes the items out one by one instead.
    pub fn clear(&mut self)
        ensures { self.new ≡ record self.old { queue = []; last = None } }
    {
        self.ring.clear();
        self.last = None;
    }

    /// The item that waits longest.
    pub fn front(&self) -> Option<Item>
        ensures { result ≡ slice_get self.now.queue 0 }
    {
        self.ring.front().copied()
    }

    /// The item received last.
    pub fn last(&self) -> Option<Item>
        ensures { result ≡ self.now.last }
    {
        self.last
    }

    /// How many items wait.
    pub fn len(&self) -> u32
        ensures { result ≡ length self.now.queue }
    {
        let waiting = self.ring.len();
        let depth = self.depth;
        prove!(waiting <= depth as usize);
        waiting as u32
    }

    /// How many items may wait; 0 before the first start.
    pub fn depth(&self) -> u32
        ensures { result ≡ self.now.depth }
    {
        self.depth
    }
}
