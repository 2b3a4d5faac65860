//! What the lock has to know of the value that it guards.
ghost use Rattle.std.specs.Prelude.{ℕ, Bool, List};

/// A value with a fixed part and a history: a list of entries, each beside the number of the
/// application that made it. It is also seen whether an application sleeps until there is news, and
/// whether there is news. These meanings are of the proof alone, so there are no methods.
///
/// `Fixed` and `Event` name no lifetime, even if the value borrows: what seats know of a history
/// outlives the borrow. No value of either needs to be made.
pub trait Historied {
    /// What never changes while the lock stands, as a configuration.
    type Fixed;

    /// What one entry of the history tells.
    type Event;

    ghost fixed: { Self → Self.Fixed };

    ghost history: { Self → List (ℕ × Self.Event) };

    ghost awaited: { Self → Bool };

    ghost news: { Self → Bool };
}
