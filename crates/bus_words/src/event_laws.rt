//! What holds of the event desk of every history of the bus.
ghost use Rattle.std.specs.Prelude.{◌≡◌, ℕ, List};
ghost use Rattle.fsw_base.specs.Limits.{Limits};
ghost use Rattle.bus_words.specs.declared.history.Entry.{Entry};
ghost use Rattle.bus_words.specs.Machine.{IsLegal, state_after};
ghost use Rattle.bus_words.specs.Readings.{is_refused_event, count_of};

/// The event desk's count of refusals is that of the history: the events and the resets that were
/// refused. It stops at 4294967295. Does nothing.
pub fn event_refusals_are_read()
    ensures { (limits : Limits) (apps : ℕ) (history : List Entry) → IsLegal limits apps history →
        (state_after limits apps history).events.refused ≡ count_of is_refused_event history }
{}
