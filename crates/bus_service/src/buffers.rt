//! Buffers that are sent without a copy, by ports.
ghost use Rattle.std.specs.Prelude.{◌≡◌, ◌+◌, ◌<◌, ◌≤◌, length, replicate, IfOk, OnErr};
ghost use Rattle.buf_desc.specs.Held.{bytes_at};
ghost use Rattle.bus_words.specs.declared.history.Call.TheVariants as made;
ghost use Rattle.bus_core.specs.Answers.{numbered, done};
ghost use Rattle.sb_calls.specs.Answers.{sent};
ghost use Rattle.bus_core.specs.Bags.{KeepsBuffers};
ghost use Rattle.sb_calls.specs.Core.{MayCall};
ghost use Rattle.bus_service.specs.Ports.{Answers, Adds, Takes};

use crate::bus::Bus;
use crate::calls::PortCall;
use crate::ports::BusPort;
use buf_desc::Held;
use fsw_base::{AppNo, SbStatus};
use sb_calls::{BusCore, Sent};
use std::sync::Wait;
use step_count::{Ledger, Steps};

/// [`BusPort::allocate`].
#[derive(Drop)]
pub(crate) struct Allocate {
    // How many bytes it is to have.
    size: u32,
}

impl PortCall for Allocate {
    type Told = Result<u32, SbStatus>;

    ghost call = { λ c bag. made.Allocate c.size };

    ghost answer = { numbered };

    ghost leaves = { λ c old new told. Adds c.size old new told };

    fn make<'r, L: Ledger>(
        self,
        core: &mut BusCore<'r>,
        app: AppNo,
        bag: &mut Held<'r>,
        steps: &mut Steps<L>,
    ) -> Result<u32, SbStatus> {
        core.allocate(app, self.size, bag, steps)
    }
}

/// [`BusPort::transmit_buffer`].
#[derive(Drop)]
pub(crate) struct TransmitBuffer {
    // The buffer's number.
    buf: u32,
    // Whether it gets its id's next sequence count.
    inc: bool,
}

impl PortCall for TransmitBuffer {
    type Told = Result<Sent, SbStatus>;

    ghost call = { λ c bag. made.TransmitBuffer c.buf (bytes_at bag c.buf) c.inc };

    ghost answer = { sent };

    ghost leaves = { λ c old new told. Takes c.buf old new told };

    fn make<'r, L: Ledger>(
        self,
        core: &mut BusCore<'r>,
        app: AppNo,
        bag: &mut Held<'r>,
        steps: &mut Steps<L>,
    ) -> Result<Sent, SbStatus> {
        core.transmit_buffer(app, self.buf, self.inc, bag, steps)
    }
}

/// [`BusPort::release`].
#[derive(Drop)]
pub(crate) struct Release {
    // The buffer's number.
    buf: u32,
}

impl PortCall for Release {
    type Told = Result<(), SbStatus>;

    ghost call = { λ c bag. made.Release c.buf };

    ghost answer = { done };

    ghost leaves = { λ c old new told. Takes c.buf old new told };

    fn make<'r, L: Ledger>(
        self,
        core: &mut BusCore<'r>,
        app: AppNo,
        bag: &mut Held<'r>,
        steps: &mut Steps<L>,
    ) -> Result<(), SbStatus> {
        core.release(app, self.buf, bag, steps)
    }
}

impl<'r> BusPort<'r> {
    /// Gives the application a buffer of `size` bytes, all zeros, for which its bag has room,
    /// as [`BusCore::allocate`] does at the application's turn, which it waits for.
    ///
    /// # Errors
    /// Those of [`BusCore::allocate`], at the turn.
    pub fn allocate<R: Wait>(&mut self, bus: &Bus<'r>, rt: &R, size: u32) -> Result<u32, SbStatus>
        requires bus { self.old.lock ≡ bus.now }
        requires may { MayCall self.old.seen self.old.app (made.Allocate size) }
        requires room { length self.old.bag.buffers < self.old.bag.buffer_room }
        ensures answers { Answers self.old self.new (made.Allocate size) (numbered result) }
        ensures zeros { IfOk result (λ number. bytes_at self.new.bag number ≡ replicate size 0) }
        ensures buffers { IfOk result (KeepsBuffers self.old.bag self.new.bag) }
        ensures count { length self.new.bag.buffers ≤ length self.old.bag.buffers + 1 }
        ensures views { self.new.bag ≡ record self.old.bag { buffers = self.new.bag.buffers } }
        ensures bag_refused { OnErr result (self.new.bag ≡ self.old.bag) }
    {
        self.visit(bus, rt, Allocate { size })
    }

    /// Sends the message that a buffer of the application's begins with, without a copy, as
    /// [`BusCore::transmit_buffer`] does at the application's turn, which it waits for.
    ///
    /// # Errors
    /// Those of [`BusCore::transmit_buffer`], at the turn.
    pub fn transmit_buffer<R: Wait>(
        &mut self,
        bus: &Bus<'r>,
        rt: &R,
        buf: u32,
        inc: bool,
    ) -> Result<Sent, SbStatus>
        requires bus { self.old.lock ≡ bus.now }
        requires may { MayCall self.old.seen self.old.app
            (made.TransmitBuffer buf (bytes_at self.old.bag buf) inc) }
        ensures answers { Answers self.old self.new
            (made.TransmitBuffer buf (bytes_at self.old.bag buf) inc) (sent result) }
        ensures buffers { KeepsBuffers self.old.bag self.new.bag buf }
        ensures count { length self.new.bag.buffers ≤ length self.old.bag.buffers }
        ensures views { self.new.bag ≡ record self.old.bag { buffers = self.new.bag.buffers } }
        ensures bag_refused { OnErr result (self.new.bag ≡ self.old.bag) }
    {
        self.visit(bus, rt, TransmitBuffer { buf, inc })
    }

    /// Gives a buffer of the application's back unsent, as [`BusCore::release`] does at the
    /// application's turn, which it waits for.
    ///
    /// # Errors
    /// Those of [`BusCore::release`], at the turn.
    pub fn release<R: Wait>(&mut self, bus: &Bus<'r>, rt: &R, buf: u32) -> Result<(), SbStatus>
        requires bus { self.old.lock ≡ bus.now }
        requires may { MayCall self.old.seen self.old.app (made.Release buf) }
        ensures answers { Answers self.old self.new (made.Release buf) (done result) }
        ensures buffers { KeepsBuffers self.old.bag self.new.bag buf }
        ensures count { length self.new.bag.buffers ≤ length self.old.bag.buffers }
        ensures views { self.new.bag ≡ record self.old.bag { buffers = self.new.bag.buffers } }
        ensures bag_refused { OnErr result (self.new.bag ≡ self.old.bag) }
    {
        self.visit(bus, rt, Release { buf })
    }
}
