//! What the lock knows of a core. No value of these types is made.
use fsw_base::{Budget, Config};
use lend_block::Note;
use std::collections::LinkedList;
use std::marker::Model;

/// What never changes while a service is open: the limits of a configuration, and the budgets.
pub struct Opening {
    /// The configuration.
    pub config: Config,
    /// The budgets of the applications 1, 2, 3 and so on.
    pub budgets: LinkedList<Budget>,
}

impl Model for Opening {
    ghost use Rattle.fsw_base.specs.Limits.{limits_of};
    ghost use Rattle.core_port.specs.Words.{Fixed};

    ghost Value = { Fixed };

    ghost view = { λ o. record { limits = limits_of o.config; budgets = o.budgets } };
}

/// An entry of a journal with its note, but for the application, which the lock's history has
/// beside it.
pub struct NotedCall<C, A> {
    /// The call.
    pub call: C,
    /// What it was answered.
    pub answer: A,
    /// What was noted beside it.
    pub note: Note,
}
