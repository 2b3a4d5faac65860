//! The calls of the event services: what they are answered. The event desk changes later, with the
//! call's events.
ghost use Rattle.std.specs.Prelude.{◌≡◌, IsTrue};
ghost use Rattle.std.specs.Option.{option_map_or};
ghost use Rattle.bus_words.specs.Entries.{call_of};
ghost use Rattle.list_bus.specs.Decided.{Decides, is_of_events};
ghost use Rattle.list_bus.specs.Played.{IsPlayed};

use crate::bus::ListBus;
use bus_words::{BusAnswer, BusCall};
use fsw_base::{AppNo, EvsStatus};

impl ListBus {
    /// What a call of the event services is answered.
    pub(crate) fn decide_event(&self, app: AppNo, call: &BusCall<'_>) -> BusAnswer
        requires kept { IsPlayed self.now }
        requires call { IsTrue (is_of_events (call_of call.now)) }
        ensures { Decides self.now self.now app (call_of call.now) result }
    {
        match call {
            BusCall::SendEvent { .. } => answer_by(self.desk.send_refusal(app)),
            BusCall::ResetFilter { id } => answer_by(self.desk.reset_refusal(app, *id)),
            _ => BusAnswer::Done,
        }
    }
}

// The answer of a call that is refused for this cause, or is done.
fn answer_by(why: Option<EvsStatus>) -> BusAnswer
    ensures { result ≡ option_map_or (λ status. BusAnswer.Evs status) why BusAnswer.Done }
{
    match why {
        Some(status) => BusAnswer::Evs(status),
        None => BusAnswer::Done,
    }
}
