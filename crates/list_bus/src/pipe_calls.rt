//! The calls of pipes and subscriptions, and the last call.
ghost use Rattle.std.specs.Prelude.{◌≡◌, IfOk};
ghost use Rattle.bus_words.specs.declared.calls.BusAnswer.TheVariants.{Done};
ghost use Rattle.bus_words.specs.declared.history.Call.TheVariants.{Create, Delete, SetOpts, GetOpts, Find, PipeName, Subscribe, Unsubscribe, End};
ghost use Rattle.bus_words.specs.Machine.{bits_of, number_of};
ghost use Rattle.list_bus.specs.Decided.{Decides, HasEvents};
ghost use Rattle.list_bus.specs.Played.{IsPlayed};

use crate::bus::ListBus;
use crate::decisions::{Decision, event_if, silent};
use crate::standings::{ListStanding, set_standing};
use bus_events::ServiceEvent;
use bus_words::{BusAnswer, PipeText};
use fsw_base::{AppNo, SbStatus, Scope};
use list_pipes::{ListPipe, number_named, pipe_at};
use std::alloc::{AllocError, Global};

impl ListBus {
    /// A new pipe.
    pub(crate) fn create(
        &mut self,
        alloc: Global,
        app: AppNo,
        depth: u32,
        name: &[u8],
    ) -> Result<BusAnswer, AllocError>
        requires { IsPlayed self.old }
        ensures { IfOk result
            (λ answer. Decides self.old self.new app (Create depth name.now) answer) }
    {
        if let Some(why) = self.create_cause(depth, name) {
            return Ok(BusAnswer::Sb(why));
        }
        let text = pipe_text(name)?;
        let number = self.messages.create(alloc, app, depth, text)?;
        Ok(BusAnswer::Number(number))
    }

    /// The pipe and its subscriptions leave.
    pub(crate) fn delete(
        &mut self,
        alloc: Global,
        app: AppNo,
        pipe: u32,
    ) -> Result<BusAnswer, AllocError>
        requires { IsPlayed self.old }
        ensures { IfOk result (λ answer. Decides self.old self.new app (Delete pipe) answer) }
    {
        if let Some(why) = self.unowned_cause(app, pipe) {
            return Ok(BusAnswer::Sb(why));
        }
        self.messages.delete(alloc, pipe)?;
        self.subs.leave_pipe(pipe);
        Ok(BusAnswer::Done)
    }

    /// The pipe has these option bits.
    pub(crate) fn set_opts(&mut self, app: AppNo, pipe: u32, bits: u8) -> BusAnswer
        requires { IsPlayed self.old }
        ensures { Decides self.old self.new app (SetOpts pipe bits) result }
    {
        if let Some(why) = self.set_opts_cause(app, pipe, bits) {
            return BusAnswer::Sb(why);
        }
        self.messages.set_bits(pipe, bits);
        BusAnswer::Done
    }

    /// The pipe's option bits.
    pub(crate) fn get_opts(&self, app: AppNo, pipe: u32) -> BusAnswer
        requires { IsPlayed self.now }
        ensures { Decides self.now self.now app (GetOpts pipe) result }
    {
        if let Some(why) = self.dead_cause(pipe) {
            return BusAnswer::Sb(why);
        }
        BusAnswer::Number(bits_of(self.messages.pipes(), pipe))
    }

    /// The number of the pipe of a name.
    pub(crate) fn find(&self, app: AppNo, name: &[u8]) -> BusAnswer
        requires { IsPlayed self.now }
        ensures { Decides self.now self.now app (Find name.now) result }
    {
        if let Some(why) = self.find_cause(name) {
            return BusAnswer::Sb(why);
        }
        BusAnswer::Number(number_of(self.messages.pipes(), name))
    }

    /// The pipe's name.
    pub(crate) fn pipe_name(&self, app: AppNo, pipe: u32) -> BusAnswer
        requires { IsPlayed self.now }
        ensures { Decides self.now self.now app (PipeName pipe) result }
    {
        match pipe_at(self.messages.pipes(), pipe) {
            Some(pipe) => BusAnswer::Name(pipe.name().again()),
            None => BusAnswer::Sb(SbStatus::BadArgument),
        }
    }

    /// The pipe is subscribed to the id; a pair that is live has an event instead.
    #[tactic(auto, unfolding(bus_words::specs::Events::call_events))]
    pub(crate) fn subscribe(
        &mut self,
        alloc: Global,
        app: AppNo,
        id: u16,
        pipe: u32,
        limit: u32,
        scope: Scope,
    ) -> Result<Decision, AllocError>
        requires { IsPlayed self.old }
        ensures made { IfOk result
            (λ made.
            Decides self.old self.new app (Subscribe id pipe limit scope) made.answer) }
        ensures events { IfOk result
            (λ made.
            HasEvents self.old app (Subscribe id pipe limit scope) made.answer made.events.items) }
    {
        if let Some(why) = self.subscribe_cause(app, id, pipe) {
            return Ok(silent(alloc, BusAnswer::Sb(why)));
        }
        let was_live = self.subs.is_subscribed(id, pipe);
        let start = self.config.starts.start_of(id);
        self.nexts.start(id, start)?;
        self.subs.subscribe(id, pipe, limit, scope)?;
        let event = ServiceEvent::DuplicateSubscription { id, pipe };
        let decision = event_if(alloc, BusAnswer::Done, was_live, event)?;
        Ok(decision)
    }

    /// The subscription of the pair ends; if there was none, an event says so.
    #[tactic(auto, unfolding(bus_words::specs::Events::call_events))]
    pub(crate) fn unsubscribe(
        &mut self,
        alloc: Global,
        app: AppNo,
        id: u16,
        pipe: u32,
    ) -> Result<Decision, AllocError>
        requires { IsPlayed self.old }
        ensures made { IfOk result
            (λ made. Decides self.old self.new app (Unsubscribe id pipe) made.answer) }
        ensures events { IfOk result
            (λ made. HasEvents self.old app (Unsubscribe id pipe) made.answer made.events.items) }
    {
        if let Some(why) = self.unsubscribe_cause(app, id, pipe) {
            return Ok(silent(alloc, BusAnswer::Sb(why)));
        }
        let was_live = self.subs.is_subscribed(id, pipe);
        self.subs.unsubscribe(id, pipe);
        let event = ServiceEvent::NotSubscribed { id, pipe };
        let decision = event_if(alloc, BusAnswer::Done, !was_live, event)?;
        Ok(decision)
    }

    /// The application's pipes, subscriptions, buffers and grants leave, and it has ended.
    pub(crate) fn end(&mut self, alloc: Global, app: AppNo) -> Result<BusAnswer, AllocError>
        requires { IsPlayed self.old }
        ensures { IfOk result (λ answer. Decides self.old self.new app End answer) }
    {
        self.subs.leave_pipes_of(self.messages.pipes(), app);
        self.messages.end(alloc, app)?;
        self.pools.end(app);
        set_standing(&mut self.standings, app, ListStanding::Ended);
        Ok(BusAnswer::Done)
    }
}

// A pipe's name. That it is 1 to 19 bytes was checked before.
fn pipe_text(name: &[u8]) -> Result<PipeText, AllocError>
    ensures { IfOk result (λ text. text ≡ name.now) }
{
    match PipeText::try_new(name) {
        Some(text) => Ok(text),
        None => Err(AllocError),
    }
}

// The option bits of the pipe of a number; 0 if there is none.
fn bits_of(pipes: &[ListPipe], number: u32) -> u32
    ensures { result ≡ bits_of pipes.now number }
{
    match pipe_at(pipes, number) {
        Some(pipe) => u32::from(pipe.bits()),
        None => 0,
    }
}

// The number of the pipe of a name; 0 if there is none.
fn number_of(pipes: &[ListPipe], name: &[u8]) -> u32
    ensures { result ≡ number_of pipes.now name.now }
{
    match number_named(pipes, name) {
        Some(number) => number,
        None => 0,
    }
}
