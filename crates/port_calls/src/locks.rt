//! Which two services an application's ports are of.

use std::marker::Brand;

/// The locks of two services, as a type: who makes calls by ports of these two, and has the ports
/// again, knows that they are of these two still.
///
/// At a call that passes [`Brand`] the caller picks the two locks.
pub trait Locks {
    ghost use Rattle.atomic_table.specs.Seated.{TableId};

    /// The lock of the software bus.
    ghost bus: { TableId };

    /// The lock of Table Services.
    ghost tables: { TableId };
}

impl Locks for Brand {
    ghost use Rattle.port_calls.specs.Locks.{no_lock};

    ghost bus = { no_lock };

    ghost tables = { no_lock };
}
