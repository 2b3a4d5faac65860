//! What the main part of the bus learns of applications that have made no call.
ghost use Rattle.std.specs.Prelude.{◌≡◌, ℕ, ◌≤◌, [], length, vec_capacity};
ghost use Rattle.app_run.specs.Openings.{budgets_for};
ghost use Rattle.bus_words.specs.Runs.{own_entries};
ghost use Rattle.thread_run.specs.Whole.{whole};
ghost use Rattle.thread_run.specs.Works.{MayWork, Numbered};

use crate::lists::take_last;
use crate::opening::note_work;
use crate::works::{RunParts, Work};
use bus_service::BusMain;
use std::sync::Wait;

/// Has the main part of the bus, to which no port was joined, see what the ports of these
/// applications have seen, which is nothing. So it learns that what it has seen has no entry of
/// theirs. It and the applications stay as they were.
pub fn meet_works<'e, 'r, R: Wait>(
    rt: &R,
    shared: RunParts<'e, 'r>,
    bus_main: &mut BusMain,
    works: &mut Vec<Work<'e, 'r>>,
)
    requires main { bus_main.old.lock ≡ shared.bus.now }
    requires limits { bus_main.old.seen.limits ≡ (whole shared).limits }
    requires budgets { bus_main.old.seen.log.budgets ≡ budgets_for (whole shared) }
    requires none { bus_main.old.ended ≡ [] }
    requires works { Numbered (MayWork (whole shared) shared.bus.now shared.tables.now) 1
        works.old.items }
    requires room { length works.old.items ≤ vec_capacity works.old }
    ensures main { bus_main.new ≡ bus_main.old }
    ensures quiet { (app : ℕ) → 1 ≤ app → app ≤ length works.old.items →
        own_entries app bus_main.new.seen.log.entries ≡ [] }
    ensures works { Numbered (MayWork (whole shared.entry) shared.entry.bus.now
        shared.entry.tables.now) 1 works.new.items }
    ensures all { length works.new.items ≡ length works.old.items }
    ensures room { vec_capacity works.new ≡ vec_capacity works.old }
{
    let Some(mut work) = take_last(works, shared) else {
        return;
    };
    meet_works(rt, shared, bus_main, works);
    shared.bus.meet(rt, bus_main, &mut work.port);
    note_work(works, shared, work);
}
