//! Event services, by ports.
ghost use Rattle.std.specs.Prelude.{◌≡◌};
ghost use Rattle.bus_words.specs.declared.history.Call.TheVariants as made;
ghost use Rattle.bus_words.specs.declared.calls.BusAnswer.TheVariants.{Done};
ghost use Rattle.bus_core.specs.Answers.{event_told};
ghost use Rattle.sb_calls.specs.Core.{MayCall};
ghost use Rattle.bus_service.specs.Ports.{Answers};

use crate::bus::Bus;
use crate::calls::PortCall;
use crate::ports::BusPort;
use buf_desc::Held;
use fsw_base::{AppNo, EventKind, EvsStatus, FilterList};
use sb_calls::BusCore;
use std::sync::Wait;
use step_count::{Ledger, Steps};

/// [`BusPort::evs_register`].
#[derive(Drop)]
pub(crate) struct RegisterFilters<'a> {
    // Its filters.
    filters: &'a FilterList,
}

impl PortCall for RegisterFilters<'_> {
    type Told = ();

    ghost call = { λ c bag. made.Register c.filters.now };

    ghost answer = { λ told. Done };

    ghost leaves = { λ c old new told. new ≡ old };

    fn make<'r, L: Ledger>(
        self,
        core: &mut BusCore<'r>,
        app: AppNo,
        _bag: &mut Held<'r>,
        _steps: &mut Steps<L>,
    ) {
        core.evs_register(app, self.filters);
    }
}

/// [`BusPort::send_event`].
#[derive(Drop)]
pub(crate) struct SendEvent<'a> {
    // The event's id.
    id: u16,
    // Its kind.
    kind: EventKind,
    // Its text.
    text: &'a [u8],
}

impl PortCall for SendEvent<'_> {
    type Told = Result<(), EvsStatus>;

    ghost call = { λ c bag. made.SendEvent c.id c.kind c.text.now };

    ghost answer = { event_told };

    ghost leaves = { λ c old new told. new ≡ old };

    fn make<'r, L: Ledger>(
        self,
        core: &mut BusCore<'r>,
        app: AppNo,
        _bag: &mut Held<'r>,
        _steps: &mut Steps<L>,
    ) -> Result<(), EvsStatus> {
        core.send_event(app, self.id, self.kind, self.text)
    }
}

/// [`BusPort::reset_filter`].
#[derive(Drop)]
pub(crate) struct ResetFilter {
    // The event's id.
    id: u16,
}

impl PortCall for ResetFilter {
    type Told = Result<(), EvsStatus>;

    ghost call = { λ c bag. made.ResetFilter c.id };

    ghost answer = { event_told };

    ghost leaves = { λ c old new told. new ≡ old };

    fn make<'r, L: Ledger>(
        self,
        core: &mut BusCore<'r>,
        app: AppNo,
        _bag: &mut Held<'r>,
        _steps: &mut Steps<L>,
    ) -> Result<(), EvsStatus> {
        core.reset_filter(app, self.id)
    }
}

/// [`BusPort::set_log_mode`].
#[derive(Drop)]
pub(crate) struct LogMode {
    // What a full log drops.
    mode: u8,
}

impl PortCall for LogMode {
    type Told = ();

    ghost call = { λ c bag. made.LogMode c.mode };

    ghost answer = { λ told. Done };

    ghost leaves = { λ c old new told. new ≡ old };

    fn make<'r, L: Ledger>(
        self,
        core: &mut BusCore<'r>,
        app: AppNo,
        _bag: &mut Held<'r>,
        _steps: &mut Steps<L>,
    ) {
        core.set_log_mode(app, self.mode);
    }
}

/// [`BusPort::clear_log`].
#[derive(Drop)]
pub(crate) struct ClearLog;

impl PortCall for ClearLog {
    type Told = ();

    ghost call = { λ c bag. made.ClearLog };

    ghost answer = { λ told. Done };

    ghost leaves = { λ c old new told. new ≡ old };

    fn make<'r, L: Ledger>(
        self,
        core: &mut BusCore<'r>,
        app: AppNo,
        _bag: &mut Held<'r>,
        _steps: &mut Steps<L>,
    ) {
        core.clear_log(app);
    }
}

impl<'r> BusPort<'r> {
    /// Registers the application with the event services, with these filters, as
    /// [`BusCore::evs_register`] does at the application's turn, which it waits for.
    pub fn evs_register<R: Wait>(&mut self, bus: &Bus<'r>, rt: &R, filters: &FilterList)
        requires bus { self.old.lock ≡ bus.now }
        requires may { MayCall self.old.seen self.old.app (made.Register filters.now) }
        ensures answers { Answers self.old self.new (made.Register filters.now) Done }
        ensures bag { self.new.bag ≡ self.old.bag }
    {
        self.visit(bus, rt, RegisterFilters { filters });
    }

    /// Sends an event, as [`BusCore::send_event`] does at the application's turn, which it
    /// waits for.
    ///
    /// # Errors
    /// Those of [`BusCore::send_event`], at the turn.
    pub fn send_event<R: Wait>(
        &mut self,
        bus: &Bus<'r>,
        rt: &R,
        id: u16,
        kind: EventKind,
        text: &[u8],
    ) -> Result<(), EvsStatus>
        requires bus { self.old.lock ≡ bus.now }
        requires may { MayCall self.old.seen self.old.app (made.SendEvent id kind text.now) }
        ensures answers { Answers self.old self.new (made.SendEvent id kind text.now)
            (event_told result) }
        ensures bag { self.new.bag ≡ self.old.bag }
    {
        self.visit(bus, rt, SendEvent { id, kind, text })
    }

    /// Has the application's filter for an event id count from 0 again, as
    /// [`BusCore::reset_filter`] does at the application's turn, which it waits for.
    ///
    /// # Errors
    /// Those of [`BusCore::reset_filter`], at the turn.
    pub fn reset_filter<R: Wait>(&mut self, bus: &Bus<'r>, rt: &R, id: u16) -> Result<(), EvsStatus>
        requires bus { self.old.lock ≡ bus.now }
        requires may { MayCall self.old.seen self.old.app (made.ResetFilter id) }
        ensures answers { Answers self.old self.new (made.ResetFilter id) (event_told result) }
        ensures bag { self.new.bag ≡ self.old.bag }
    {
        self.visit(bus, rt, ResetFilter { id })
    }

    /// Sets what a full log drops from then on, as [`BusCore::set_log_mode`] does at the
    /// application's turn, which it waits for.
    pub fn set_log_mode<R: Wait>(&mut self, bus: &Bus<'r>, rt: &R, mode: u8)
        requires bus { self.old.lock ≡ bus.now }
        requires may { MayCall self.old.seen self.old.app (made.LogMode mode) }
        ensures answers { Answers self.old self.new (made.LogMode mode) Done }
        ensures bag { self.new.bag ≡ self.old.bag }
    {
        self.visit(bus, rt, LogMode { mode });
    }

    /// Empties the log, as [`BusCore::clear_log`] does at the application's turn, which it
    /// waits for.
    pub fn clear_log<R: Wait>(&mut self, bus: &Bus<'r>, rt: &R)
        requires bus { self.old.lock ≡ bus.now }
        requires may { MayCall self.old.seen self.old.app made.ClearLog }
        ensures answers { Answers self.old self.new made.ClearLog Done }
        ensures bag { self.new.bag ≡ self.old.bag }
    {
        self.visit(bus, rt, ClearLog);
    }
}
