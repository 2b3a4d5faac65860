//! What calls take and answer.
ghost use Rattle.std.specs.Prelude.{◌≡◌};
ghost use Rattle.subscriptions.specs.Subs.{admission_of};

use fsw_base::Scope;

/// What a subscription goes by.
#[derive(Clone, Copy, Debug, PartialEq, Eq)]
pub struct SubNo {
    /// The slot that holds it while it is live.
    pub slot: u32,
    /// From 1, by order of making; never given again.
    pub number: u32,
}

/// What a subscription was made with, and how many of its messages wait.
#[derive(Clone, Copy, Debug, PartialEq, Eq)]
pub struct SubRow {
    /// The message id.
    pub id: u16,
    /// The number of the pipe.
    pub pipe: u32,
    /// The place where the pipe lies, as the caller told it.
    pub place: u32,
    /// How many of its messages may wait in the pipe at once.
    pub limit: u32,
    /// Kept, and of no effect here.
    pub scope: Scope,
    /// How many of its messages wait now.
    pub waiting: u32,
}

impl SubRow {
    /// What the limit says of one message more.
    pub fn admission(self) -> Admission
        ensures { result ≡ admission_of self }
    {
        if self.limit <= self.waiting {
            Admission::OverLimit
        } else {
            Admission::Inside
        }
    }
}

/// What a subscription's limit says of one message more.
#[derive(Clone, Copy, Debug, PartialEq, Eq)]
pub enum Admission {
    /// Fewer messages wait than the limit.
    Inside,
    /// At least as many messages wait as the limit says.
    OverLimit,
}
