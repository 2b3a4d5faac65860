//! What is said of a core with a history.
ghost use Rattle.core_port.specs.Words.{Words, Laws};

/// The types and words of a core with a history, and their laws, which are all that a port knows of
/// it. They name no lifetime, even if the core borrows: what a port has seen of a history
/// outlives the borrow.
pub trait Kind {
    /// The core, as contracts see it. No value of it is made.
    type Seen;

    /// An entry of its history. No value of it is made.
    type Entry;

    /// A call. No value of it is made.
    type Call;

    /// What a call is answered. No value of it is made.
    type Answer;

    /// What a port tells of its application without the lock: what it may still add, and which
    /// calls it may make.
    type Permits: Drop;

    ghost words: { Words Self.Seen Self.Entry Self.Call Self.Answer Self.Permits };

    /// The laws of these words. Does nothing.
    fn laws()
        ensures { Laws words };
}
