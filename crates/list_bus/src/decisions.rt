//! What a call is answered, what it changes, and its events.
ghost use Rattle.std.specs.Prelude.{◌≡◌, [], ◌∷◌, if◌then◌else◌, IsTrue, IfOk};
ghost use Rattle.bus_words.specs.Entries.{call_of};
ghost use Rattle.list_bus.specs.Decided.{Decides, HasEvents, is_silent, is_of_services, is_of_events};
ghost use Rattle.list_bus.specs.Played.{IsPlayed, is_playable};

use crate::bus::ListBus;
use bus_events::ServiceEvent;
use bus_words::{BusAnswer, BusCall};
use fsw_base::AppNo;
use std::alloc::{AllocError, Global};

/// What a call was answered, and its events, in order.
#[derive(Drop)]
pub(crate) struct Decision {
    /// The answer.
    pub(crate) answer: BusAnswer,
    /// The events.
    pub(crate) events: Vec<ServiceEvent>,
}

/// An answer of a call without events.
pub(crate) fn silent(alloc: Global, answer: BusAnswer) -> Decision
    ensures answer { result.answer ≡ answer }
    ensures events { result.events.items ≡ [] }
{
    Decision {
        answer,
        events: Vec::new(alloc),
    }
}

/// An answer of a call with one event.
pub(crate) fn with_event(
    alloc: Global,
    answer: BusAnswer,
    event: ServiceEvent,
) -> Result<Decision, AllocError>
    ensures answer { IfOk result (λ made. made.answer ≡ answer) }
    ensures events { IfOk result (λ made. made.events.items ≡ event ∷ []) }
{
    let mut events = Vec::new(alloc);
    events.push(event)?;
    Ok(Decision { answer, events })
}

/// An answer of a call with one event, if the test is true, and else without events.
pub(crate) fn event_if(
    alloc: Global,
    answer: BusAnswer,
    test: bool,
    event: ServiceEvent,
) -> Result<Decision, AllocError>
    ensures answer { IfOk result (λ made. made.answer ≡ answer) }
    ensures events { IfOk result
        (λ made. made.events.items ≡ (if test then event ∷ [] else [])) }
{
    if test {
        with_event(alloc, answer, event)
    } else {
        Ok(silent(alloc, answer))
    }
}

impl ListBus {
    /// What a call answers and changes, but for the event desk and the counters.
    #[tactic(auto, unfolding(bus_words::specs::Events::call_events))]
    pub(crate) fn decide(
        &mut self,
        alloc: Global,
        app: AppNo,
        call: &BusCall<'_>,
    ) -> Result<Decision, AllocError>
        requires kept { IsPlayed self.old }
        requires call { IsTrue (is_playable (call_of call.now)) }
        ensures made { IfOk result
            (λ made. Decides self.old self.new app (call_of call.now) made.answer) }
        ensures events { IfOk result
            (λ made. HasEvents self.old app (call_of call.now) made.answer made.events.items) }
    {
        match call {
            BusCall::Subscribe {
                id,
                pipe,
                limit,
                scope,
            } => self.subscribe(alloc, app, *id, *pipe, *limit, *scope),
            BusCall::Unsubscribe { id, pipe } => self.unsubscribe(alloc, app, *id, *pipe),
            BusCall::Transmit { bytes, inc } => self.transmit(alloc, app, bytes, *inc),
            BusCall::TransmitBuffer { buf, bytes, inc } => {
                self.transmit_buffer(alloc, app, *buf, bytes, *inc)
            }
            BusCall::Housekeeping => self.send_housekeeping(alloc, app),
            _ => Ok(silent(alloc, self.decide_quiet(alloc, app, call)?)),
        }
    }

    // The same of a call that never has an event.
    fn decide_quiet(
        &mut self,
        alloc: Global,
        app: AppNo,
        call: &BusCall<'_>,
    ) -> Result<BusAnswer, AllocError>
        requires kept { IsPlayed self.old }
        requires call { IsTrue (is_silent (call_of call.now)) }
        ensures { IfOk result
            (λ answer. Decides self.old self.new app (call_of call.now) answer) }
    {
        match call {
            BusCall::Create { depth, name } => self.create(alloc, app, *depth, name),
            BusCall::Delete { pipe } => self.delete(alloc, app, *pipe),
            BusCall::SetOpts { pipe, bits } => Ok(self.set_opts(app, *pipe, *bits)),
            BusCall::GetOpts { pipe } => Ok(self.get_opts(app, *pipe)),
            BusCall::Find { name } => Ok(self.find(app, name)),
            BusCall::PipeName { pipe } => Ok(self.pipe_name(app, *pipe)),
            BusCall::Receive { pipe } => self.receive(alloc, app, *pipe),
            BusCall::Pend { pipe } => self.pend(alloc, app, *pipe),
            BusCall::Look { pipe } => self.look(alloc, app, *pipe),
            BusCall::Allocate { size } => self.allocate(app, *size),
            BusCall::Release { buf } => self.release(alloc, app, *buf),
            BusCall::Figures => Ok(self.figures(app)),
            BusCall::End => self.end(alloc, app),
            _ => self.decide_pools(alloc, app, call),
        }
    }

    // The same of a call of the memory pools or of the event services.
    fn decide_pools(
        &mut self,
        alloc: Global,
        app: AppNo,
        call: &BusCall<'_>,
    ) -> Result<BusAnswer, AllocError>
        requires kept { IsPlayed self.old }
        requires call { IsTrue (is_of_services (call_of call.now)) }
        ensures { IfOk result
            (λ answer. Decides self.old self.new app (call_of call.now) answer) }
    {
        match call {
            BusCall::PoolCreate { bytes } => self.pool_create(alloc, app, *bytes),
            BusCall::PoolGet { pool, size } => self.pool_get(app, *pool, *size),
            BusCall::PoolPut { pool, grant } => Ok(self.pool_put(app, *pool, *grant)),
            BusCall::PoolFigures { pool } => Ok(self.pool_figures(app, *pool)),
            _ => Ok(self.decide_event(app, call)),
        }
    }
}
