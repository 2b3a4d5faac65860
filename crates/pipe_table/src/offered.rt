//! What became of a message that a pipe was offered.
ghost use Rattle.std.specs.Prelude.{◌≡◌, None};

use bus_words::Verdict;
use pipe_queue::Item;

/// What became of a message that a pipe was offered.
#[derive(Clone, Copy, Debug, PartialEq, Eq)]
pub struct OfferOutcome {
    /// Whether the pipe queued it; if not, why.
    pub verdict: Verdict,
    /// The message that left for it, which waited longest: one if and only if the verdict is
    /// Oldest.
    pub dropped: Option<Item>,
}

impl OfferOutcome {
    /// This verdict, for which no message left.
    pub(crate) fn dropping_none(verdict: Verdict) -> OfferOutcome
        ensures { result ≡ record { verdict = verdict; dropped = None } }
    {
        OfferOutcome {
            verdict,
            dropped: None,
        }
    }
}
