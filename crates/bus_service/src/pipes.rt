//! Calls about pipes, by ports.
ghost use Rattle.std.specs.Prelude.{◌≡◌, OnErr};
ghost use Rattle.bus_words.specs.declared.history.Call.TheVariants as made;
ghost use Rattle.bus_core.specs.Answers.{numbered, done, named};
ghost use Rattle.sb_calls.specs.Core.{MayCall};
ghost use Rattle.bus_service.specs.Ports.{Answers};

use crate::bus::Bus;
use crate::calls::PortCall;
use crate::ports::BusPort;
use buf_desc::Held;
use bus_words::PipeText;
use fsw_base::{AppNo, SbStatus};
use sb_calls::BusCore;
use std::sync::Wait;
use step_count::{Ledger, Steps};

/// [`BusPort::create_pipe`].
#[derive(Drop)]
pub(crate) struct CreatePipe<'a> {
    // How many messages it may hold.
    depth: u32,
    // Its name.
    name: &'a [u8],
}

impl PortCall for CreatePipe<'_> {
    type Told = Result<u32, SbStatus>;

    ghost call = { λ c bag. made.Create c.depth c.name.now };

    ghost answer = { numbered };

    ghost leaves = { λ c old new told. new ≡ old };

    fn make<'r, L: Ledger>(
        self,
        core: &mut BusCore<'r>,
        app: AppNo,
        _bag: &mut Held<'r>,
        _steps: &mut Steps<L>,
    ) -> Result<u32, SbStatus> {
        core.create_pipe(app, self.depth, self.name)
    }
}

/// [`BusPort::delete_pipe`].
#[derive(Drop)]
pub(crate) struct DeletePipe {
    // The pipe's number.
    pipe: u32,
}

impl PortCall for DeletePipe {
    type Told = Result<(), SbStatus>;

    ghost call = { λ c bag. made.Delete c.pipe };

    ghost answer = { done };

    ghost leaves = { λ c old new told.
        (new ≡ record old { views = new.views }) × OnErr told (new ≡ old) };

    fn make<'r, L: Ledger>(
        self,
        core: &mut BusCore<'r>,
        app: AppNo,
        bag: &mut Held<'r>,
        steps: &mut Steps<L>,
    ) -> Result<(), SbStatus> {
        core.delete_pipe(app, self.pipe, bag, steps)
    }
}

/// [`BusPort::set_opts`].
#[derive(Drop)]
pub(crate) struct SetOpts {
    // The pipe's number.
    pipe: u32,
    // Its option bits.
    bits: u8,
}

impl PortCall for SetOpts {
    type Told = Result<(), SbStatus>;

    ghost call = { λ c bag. made.SetOpts c.pipe c.bits };

    ghost answer = { done };

    ghost leaves = { λ c old new told. new ≡ old };

    fn make<'r, L: Ledger>(
        self,
        core: &mut BusCore<'r>,
        app: AppNo,
        _bag: &mut Held<'r>,
        _steps: &mut Steps<L>,
    ) -> Result<(), SbStatus> {
        core.set_opts(app, self.pipe, self.bits)
    }
}

/// [`BusPort::get_opts`].
#[derive(Drop)]
pub(crate) struct GetOpts {
    // The pipe's number.
    pipe: u32,
}

impl PortCall for GetOpts {
    type Told = Result<u8, SbStatus>;

    ghost call = { λ c bag. made.GetOpts c.pipe };

    ghost answer = { numbered };

    ghost leaves = { λ c old new told. new ≡ old };

    fn make<'r, L: Ledger>(
        self,
        core: &mut BusCore<'r>,
        app: AppNo,
        _bag: &mut Held<'r>,
        _steps: &mut Steps<L>,
    ) -> Result<u8, SbStatus> {
        core.get_opts(app, self.pipe)
    }
}

/// [`BusPort::find_pipe`].
#[derive(Drop)]
pub(crate) struct FindPipe<'a> {
    // The pipe's name.
    name: &'a [u8],
}

impl PortCall for FindPipe<'_> {
    type Told = Result<u32, SbStatus>;

    ghost call = { λ c bag. made.Find c.name.now };

    ghost answer = { numbered };

    ghost leaves = { λ c old new told. new ≡ old };

    fn make<'r, L: Ledger>(
        self,
        core: &mut BusCore<'r>,
        app: AppNo,
        _bag: &mut Held<'r>,
        _steps: &mut Steps<L>,
    ) -> Result<u32, SbStatus> {
        core.find_pipe(app, self.name)
    }
}

/// [`BusPort::pipe_name`].
#[derive(Drop)]
pub(crate) struct PipeName {
    // The pipe's number.
    pipe: u32,
}

impl PortCall for PipeName {
    type Told = Result<PipeText, SbStatus>;

    ghost call = { λ c bag. made.PipeName c.pipe };

    ghost answer = { named };

    ghost leaves = { λ c old new told. new ≡ old };

    fn make<'r, L: Ledger>(
        self,
        core: &mut BusCore<'r>,
        app: AppNo,
        _bag: &mut Held<'r>,
        _steps: &mut Steps<L>,
    ) -> Result<PipeText, SbStatus> {
        core.pipe_name(app, self.pipe)
    }
}

impl<'r> BusPort<'r> {
    /// Creates a pipe for the port's application, as [`BusCore::create_pipe`] does at the
    /// application's turn, which it waits for.
    ///
    /// # Errors
    /// Those of [`BusCore::create_pipe`], at the turn.
    pub fn create_pipe<R: Wait>(
        &mut self,
        bus: &Bus<'r>,
        rt: &R,
        depth: u32,
        name: &[u8],
    ) -> Result<u32, SbStatus>
        requires bus { self.old.lock ≡ bus.now }
        requires may { MayCall self.old.seen self.old.app (made.Create depth name.now) }
        ensures answers { Answers self.old self.new (made.Create depth name.now) (numbered result) }
        ensures bag { self.new.bag ≡ self.old.bag }
    {
        self.visit(bus, rt, CreatePipe { depth, name })
    }

    /// Ends a pipe of the application's, as [`BusCore::delete_pipe`] does at the application's
    /// turn, which it waits for.
    ///
    /// # Errors
    /// Those of [`BusCore::delete_pipe`], at the turn.
    pub fn delete_pipe<R: Wait>(&mut self, bus: &Bus<'r>, rt: &R, pipe: u32) -> Result<(), SbStatus>
        requires bus { self.old.lock ≡ bus.now }
        requires may { MayCall self.old.seen self.old.app (made.Delete pipe) }
        ensures answers { Answers self.old self.new (made.Delete pipe) (done result) }
        ensures buffers { self.new.bag ≡ record self.old.bag { views = self.new.bag.views } }
        ensures bag_refused { OnErr result (self.new.bag ≡ self.old.bag) }
    {
        self.visit(bus, rt, DeletePipe { pipe })
    }

    /// Sets the option bits of a pipe of the application's, as [`BusCore::set_opts`] does at
    /// the application's turn, which it waits for.
    ///
    /// # Errors
    /// Those of [`BusCore::set_opts`], at the turn.
    pub fn set_opts<R: Wait>(
        &mut self,
        bus: &Bus<'r>,
        rt: &R,
        pipe: u32,
        bits: u8,
    ) -> Result<(), SbStatus>
        requires bus { self.old.lock ≡ bus.now }
        requires may { MayCall self.old.seen self.old.app (made.SetOpts pipe bits) }
        ensures answers { Answers self.old self.new (made.SetOpts pipe bits) (done result) }
        ensures bag { self.new.bag ≡ self.old.bag }
    {
        self.visit(bus, rt, SetOpts { pipe, bits })
    }

    /// Answers the option bits of a pipe, as [`BusCore::get_opts`] does at the application's
    /// turn, which it waits for.
    ///
    /// # Errors
    /// Those of [`BusCore::get_opts`], at the turn.
    pub fn get_opts<R: Wait>(&mut self, bus: &Bus<'r>, rt: &R, pipe: u32) -> Result<u8, SbStatus>
        requires bus { self.old.lock ≡ bus.now }
        requires may { MayCall self.old.seen self.old.app (made.GetOpts pipe) }
        ensures answers { Answers self.old self.new (made.GetOpts pipe) (numbered result) }
        ensures bag { self.new.bag ≡ self.old.bag }
    {
        self.visit(bus, rt, GetOpts { pipe })
    }

    /// Answers the number of the live pipe of this name, as [`BusCore::find_pipe`] does at the
    /// application's turn, which it waits for.
    ///
    /// # Errors
    /// Those of [`BusCore::find_pipe`], at the turn.
    pub fn find_pipe<R: Wait>(
        &mut self,
        bus: &Bus<'r>,
        rt: &R,
        name: &[u8],
    ) -> Result<u32, SbStatus>
        requires bus { self.old.lock ≡ bus.now }
        requires may { MayCall self.old.seen self.old.app (made.Find name.now) }
        ensures answers { Answers self.old self.new (made.Find name.now) (numbered result) }
        ensures bag { self.new.bag ≡ self.old.bag }
    {
        self.visit(bus, rt, FindPipe { name })
    }

    /// Answers the name of a pipe, as [`BusCore::pipe_name`] does at the application's turn,
    /// which it waits for.
    ///
    /// # Errors
    /// Those of [`BusCore::pipe_name`], at the turn.
    pub fn pipe_name<R: Wait>(
        &mut self,
        bus: &Bus<'r>,
        rt: &R,
        pipe: u32,
    ) -> Result<PipeText, SbStatus>
        requires bus { self.old.lock ≡ bus.now }
        requires may { MayCall self.old.seen self.old.app (made.PipeName pipe) }
        ensures answers { Answers self.old self.new (made.PipeName pipe) (named result) }
        ensures bag { self.new.bag ≡ self.old.bag }
    {
        self.visit(bus, rt, PipeName { pipe })
    }
}
