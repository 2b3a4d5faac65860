//! What the main part learns of a port while no port was joined.
ghost use Rattle.std.specs.Prelude.{◌≡◌, []};
ghost use mathlib.Core.List.{IsPrefix};
ghost use Rattle.bus_words.specs.Runs.{own_entries};
ghost use Rattle.bus_service.specs.Ports.{KeepsLongerOf};

use crate::bus::{Bus, BusMain};
use crate::ports::BusPort;
use std::sync::Wait;

impl<'r> Bus<'r> {
    /// Has the main part see what a port has seen, while no port was joined. It keeps the longer of
    /// the two histories, which has of the port's application none but the port's own entries. The
    /// port stays as it was. If its last look was in vain, it first sleeps until a waiting
    /// application has news, as [`BusPort::look`] does.
    pub fn meet<R: Wait>(&self, rt: &R, main: &mut BusMain, port: &mut BusPort<'r>)
        requires main { main.old.lock ≡ self.now }
        requires none { main.old.ended ≡ [] }
        requires port { port.old.lock ≡ self.now }
        requires limits { port.old.seen.limits ≡ main.old.seen.limits }
        requires budgets { port.old.seen.log.budgets ≡ main.old.seen.log.budgets }
        ensures main { main.new ≡ record main.old { seen = main.new.seen } }
        ensures seen { KeepsLongerOf main.old.seen port.old.seen main.new.seen }
        ensures own { IsPrefix (own_entries port.old.app main.new.seen.log.entries)
            port.old.mine }
        ensures port { port.new ≡ port.old }
    {
        self.service.meet(rt, main, &mut port.port);
    }
}
