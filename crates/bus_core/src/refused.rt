//! Refused calls.
ghost use Rattle.std.specs.Prelude.{◌≡◌};
ghost use Rattle.bus_core.specs.Core.{with_tick};
ghost use Rattle.bus_core.specs.Inside.{IsCovered};
ghost use Rattle.bus_core.specs.Bags.{KeepsBags, KeepsAllLoans, KeepsAllDescs};

use crate::plain::PlainBus;
use housekeeping::CounterName;

impl<'r> PlainBus<'r> {
    /// Counts a call that is refused.
    pub(crate) fn refuse(&mut self, which: CounterName)
        ensures ticked { self.new ≡ with_tick self.old which }
        ensures covered { IsCovered self.old }
        ensures bags { KeepsBags self.old self.new }
        ensures loans { KeepsAllLoans self.old self.new }
        ensures descs { KeepsAllDescs self.old self.new }
    {
        self.records.count(which);
    }
}
