//! What a slot holds.
ghost use Rattle.std.specs.Prelude.{◌≡◌};
ghost use Rattle.subscriptions.specs.Inside.{row_in};

use crate::words::SubRow;
use fsw_base::Scope;

/// A live subscription.
#[derive(Clone, Copy, Debug)]
pub(crate) struct Place {
    // From 1, by order of making.
    pub(crate) number: u32,
    // The message id.
    pub(crate) id: u16,
    // The pipe's number.
    pub(crate) pipe: u32,
    // Where the pipe lies.
    pub(crate) place: u32,
    // How many of its messages may wait.
    pub(crate) limit: u32,
    // Global or local.
    pub(crate) scope: Scope,
    // How many of its messages wait.
    pub(crate) waiting: u32,
}

impl Place {
    /// What others are told of it.
    pub(crate) fn row(self) -> SubRow
        ensures { result ≡ row_in self }
    {
        SubRow {
            id: self.id,
            pipe: self.pipe,
            place: self.place,
            limit: self.limit,
            scope: self.scope,
            waiting: self.waiting,
        }
    }
}
