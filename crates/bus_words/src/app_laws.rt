//! What holds of the applications of the bus, whatever is called.
ghost use Rattle.std.specs.Prelude.{◌≡◌, ℕ, length};
ghost use Rattle.fsw_base.specs.Limits.{Limits};
ghost use Rattle.bus_words.specs.declared.history.Call.{Call};
ghost use Rattle.bus_words.specs.Acts.{Whole, act};

/// There are as many applications after a call as before it: one that ends keeps its place. Does
/// nothing.
pub fn applications_stay()
    ensures { (limits : Limits) (w : Whole) (app : ℕ) (call : Call) →
        length ((act limits w app call).1).bus.standings ≡ length w.bus.standings }
{}
