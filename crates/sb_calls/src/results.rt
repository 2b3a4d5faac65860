//! What sends and receives are answered, with their numbers in 32 bits: budgets are below 2^32, so
//! no journal gives more.
ghost use Rattle.std.specs.Prelude.{◌≡◌};
ghost use Rattle.sb_calls.specs.Answers.{waited, is_pending};

use bus_words::BusAnswer;

/// What an accepted send was answered.
#[derive(Clone, Copy, Debug, PartialEq, Eq)]
pub struct Sent {
    /// The number of the message, from 1; 0 if nobody subscribes to its id.
    pub number: u32,
    /// How many pipes it reached.
    pub reached: u32,
}

/// What a receive that may wait was answered.
#[derive(Clone, Copy, Debug, PartialEq, Eq)]
pub enum Pended {
    /// The number of the message received.
    Got(u32),
    /// No message waits, and every other application has ended or waits on an empty pipe.
    TimeOut,
    /// No message waits yet. The application waits on the pipe and may only look again, or end.
    Pending,
}

impl Pended {
    /// Whether the application is to wait.
    pub fn is_pending(&self) -> bool
        ensures { result ≡ is_pending self.now }
    {
        matches!(self, Pended::Pending)
    }

    /// The answer as entries of a history have it.
    pub fn told(&self) -> BusAnswer
        ensures { result ≡ waited self.now }
    {
        match self {
            Pended::Got(number) => BusAnswer::Got(*number),
            Pended::TimeOut => BusAnswer::TimeOut,
            Pended::Pending => BusAnswer::Pending,
        }
    }
}
