//! A place for a pipe.
ghost use Rattle.std.specs.Prelude.{◌≡◌, ◌==◌, ◌≤◌, ◌+◌, ◌<◌, [], length, Some, None, IfOk, IsSome, false, ◌/◌, ◌%◌, ◌&&◌, if◌then◌else◌};
ghost use Rattle.std.specs.Option.{option_map, option_map_or, option_and_then};
ghost use Rattle.std.specs.Str.{bytes_eq};
ghost use Rattle.bus_words.specs.Pipes.{oldest, new_pipe, ignores_sender, verdict_over, offered_over, with_bits, after_receive, without_front, without_last, drops_oldest, dropped_at};
ghost use Rattle.pipe_table.specs.Inside.{judged};

use crate::offered::OfferOutcome;
use bus_words::{PipeText, Verdict};
use fsw_base::AppNo;
use pipe_queue::{Full, Item, PipeQueue};
use ruled_out::ruled_out;
use std::alloc::{AllocError, Global};
use std::marker::Model;

// What a pipe is beside its queue.
#[derive(Drop)]
struct Label {
    // Its number, from 1.
    number: u32,
    // 1 to 19 bytes.
    name: PipeText,
    // Who created it.
    owner: AppNo,
    // Option bits.
    bits: u8,
}

/// A place: a queue made once, and the pipe whose queue it is now, if any.
#[derive(Drop)]
pub(crate) struct Place {
    // The pipe; None if the place is free, and the queue is empty then.
    label: Option<Label>,
    // What waits on the pipe, and what was received last.
    queue: PipeQueue,
}

impl Model for Place {
    ghost use Rattle.std.specs.Prelude.{◌≡◌, ◌≤◌, [], None, Some, IsSome};
    ghost use Rattle.std.specs.Option.{option_map};
    ghost use Rattle.pipe_table.specs.Inside.{PlaceState};

    ghost Value = { PlaceState };

    ghost view = { λ p. record {
      pipe = option_map (λ label. record {
        number = label.number;
        name = label.name;
        owner = label.owner;
        depth = p.queue.depth;
        bits = label.bits;
        queue = p.queue.queue;
        last = p.queue.last;
      }) p.label;
      room = p.queue.room;
    } };

    ghost invariant = { λ p. (p.label ≡ None → (p.queue.queue ≡ []) × (p.queue.last ≡ None)) ×
        (IsSome p.label → 1 ≤ p.queue.depth) };
}

impl Place {
    /// A free place whose queue has room for this depth.
    pub(crate) fn new(alloc: Global, depth: u32) -> Result<Place, AllocError>
        ensures { IfOk result (λ place. place ≡ record { pipe = None; room = depth }) }
    {
        Ok(Place {
            label: None,
            queue: PipeQueue::new(alloc, depth)?,
        })
    }

    /// Puts a new pipe into a free place.
    pub(crate) fn fill(&mut self, number: u32, name: &PipeText, owner: AppNo, depth: u32)
        requires free { self.old.pipe ≡ None }
        requires some { 1 ≤ depth }
        requires depth { depth ≤ self.old.room }
        ensures { self.new ≡
            record {
              pipe = Some (new_pipe number name.now owner depth);
              room = self.old.room;
            } }
    {
        self.queue.start(depth);
        self.label = Some(Label {
            number,
            name: name.again(),
            owner,
            bits: 0,
        });
    }

    /// Takes the pipe out, with what waits on it.
    pub(crate) fn clear(&mut self)
        ensures { self.new ≡ record { pipe = None; room = self.old.room } }
    {
        self.queue.clear();
        self.label = None;
    }

    /// The pipe's number.
    pub(crate) fn number(&self) -> Option<u32>
        ensures { result ≡ option_map (λ pipe. pipe.number) self.now.pipe }
    {
        match &self.label {
            Some(label) => Some(label.number),
            None => None,
        }
    }

    /// Whether there is a pipe of this name.
    pub(crate) fn is_named(&self, name: &[u8]) -> bool
        ensures { result ≡ option_map_or (λ pipe. bytes_eq pipe.name name.now) self.now.pipe false }
    {
        match &self.label {
            Some(label) => label.name.as_slice() == name,
            None => false,
        }
    }

    /// Whether there is a pipe of this owner.
    pub(crate) fn is_owned_by(&self, app: AppNo) -> bool
        ensures { result ≡ option_map_or (λ pipe. pipe.owner == app) self.now.pipe false }
    {
        match &self.label {
            Some(label) => label.owner == app,
            None => false,
        }
    }

    /// Whether the pipe, which there is, has this owner.
    pub(crate) fn has_owner(&self, app: AppNo) -> bool
        requires { IsSome self.now.pipe }
        ensures { result ≡ option_map_or (λ pipe. pipe.owner == app) self.now.pipe false }
    {
        match &self.label {
            Some(label) => label.owner == app,
            None => ruled_out!(),
        }
    }

    /// The pipe's option bits.
    pub(crate) fn bits(&self) -> Option<u8>
        ensures { result ≡ option_map (λ pipe. pipe.bits) self.now.pipe }
    {
        match &self.label {
            Some(label) => Some(label.bits),
            None => None,
        }
    }

    /// Sets the pipe's option bits.
    pub(crate) fn set_bits(&mut self, bits: u8)
        ensures { self.new ≡ record self.old { pipe = option_map (with_bits bits) self.old.pipe } }
    {
        if let Some(label) = &mut self.label {
            label.bits = bits;
        }
    }

    /// The pipe's name.
    pub(crate) fn name(&self) -> Option<PipeText>
        ensures { result ≡ option_map (λ pipe. pipe.name) self.now.pipe }
    {
        match &self.label {
            Some(label) => Some(label.name.again()),
            None => None,
        }
    }

    /// How many items wait; None if no pipe is here.
    pub(crate) fn waiting_count(&self) -> Option<u32>
        ensures { result ≡ option_map (λ pipe. length pipe.queue) self.now.pipe }
    {
        match &self.label {
            Some(_) => Some(self.queue.len()),
            None => None,
        }
    }

    /// What waits longest.
    pub(crate) fn oldest(&self) -> Option<Item>
        ensures { result ≡ option_and_then (λ pipe. oldest pipe.queue) self.now.pipe }
    {
        self.queue.front()
    }

    /// What was received last.
    pub(crate) fn last(&self) -> Option<Item>
        ensures { result ≡ option_and_then (λ pipe. pipe.last) self.now.pipe }
    {
        self.queue.last()
    }

    /// Lets the last message go, and takes the one that waits longest, if any, in its place.
    /// Answers both.
    pub(crate) fn take(&mut self) -> (Option<Item>, Option<Item>)
        ensures last { result.0 ≡ option_and_then (λ pipe. pipe.last) self.old.pipe }
        ensures oldest { result.1 ≡
            option_and_then (λ pipe. oldest pipe.queue) self.old.pipe }
        ensures after { self.new ≡
            record self.old { pipe = option_map after_receive self.old.pipe } }
    {
        let oldest = self.queue.take_front();
        let last = self.queue.set_last(oldest);
        (last, oldest)
    }

    /// Takes out what waits longest.
    pub(crate) fn take_front(&mut self) -> Option<Item>
        ensures oldest { result ≡ option_and_then (λ pipe. oldest pipe.queue) self.old.pipe }
        ensures after { self.new ≡
            record self.old { pipe = option_map without_front self.old.pipe } }
    {
        self.queue.take_front()
    }

    /// Takes out what was received last.
    pub(crate) fn take_last(&mut self) -> Option<Item>
        ensures last { result ≡ option_and_then (λ pipe. pipe.last) self.old.pipe }
        ensures after { self.new ≡
            record self.old { pipe = option_map without_last self.old.pipe } }
    {
        self.queue.set_last(None)
    }

    /// Offers the pipe a message of this sender, and is told whether its subscription's limit is
    /// reached: queues it, unless something is against it. Of a full pipe that drops its oldest
    /// message, that one leaves.
    pub(crate) fn offer(&mut self, sender: AppNo, is_over: bool, item: Item) -> OfferOutcome
        requires { IsSome self.old.pipe }
        ensures told { option_map (λ pipe. verdict_over is_over pipe sender) self.old.pipe ≡
            Some result.verdict }
        ensures dropped { result.dropped ≡
            option_and_then (λ pipe. dropped_at result.verdict pipe.queue) self.old.pipe }
        ensures after { self.new ≡
            record
            self.old {
              pipe = option_map (offered_over is_over sender item) self.old.pipe;
            } }
    {
        if self.ignores(sender) {
            return OfferOutcome::dropping_none(Verdict::Skip);
        }
        if is_over {
            return OfferOutcome::dropping_none(Verdict::OverLimit);
        }
        match self.queue.try_put(item) {
            Ok(()) => OfferOutcome::dropping_none(Verdict::In),
            Err(Full) => self.offer_where_full(item),
        }
    }

    // Offers the pipe, which is full, a message: if the pipe drops its oldest one for it, that
    // one leaves, and the message is queued.
    fn offer_where_full(&mut self, item: Item) -> OfferOutcome
        requires { IsSome self.old.pipe }
        ensures told { option_map
            (λ pipe. if drops_oldest pipe then Verdict.Oldest else Verdict.Full) self.old.pipe
            ≡ Some result.verdict }
        ensures dropped { result.dropped ≡
            option_and_then (λ pipe. dropped_at result.verdict pipe.queue) self.old.pipe }
        ensures after { self.new ≡
            record self.old { pipe = option_map (judged result.verdict item) self.old.pipe } }
    {
        if !self.drops_oldest() {
            return OfferOutcome::dropping_none(Verdict::Full);
        }
        OfferOutcome {
            verdict: Verdict::Oldest,
            dropped: self.queue.put_for_oldest(item),
        }
    }

    // Whether the pipe drops its oldest message if it is full.
    fn drops_oldest(&self) -> bool
        requires { IsSome self.now.pipe }
        ensures { result ≡ option_map_or drops_oldest self.now.pipe false }
    {
        match &self.label {
            Some(label) => label.bits / 2 % 2 == 1,
            None => ruled_out!(),
        }
    }

    // Whether the pipe ignores what the application sends.
    fn ignores(&self, sender: AppNo) -> bool
        requires { IsSome self.now.pipe }
        ensures { result ≡
            option_map_or (λ pipe. ignores_sender pipe sender) self.now.pipe false }
    {
        match &self.label {
            Some(label) => label.bits % 2 == 1 && label.owner == sender,
            None => ruled_out!(),
        }
    }
}
