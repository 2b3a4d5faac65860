//! The callers that the heads of crates show, proved here.
ghost use Rattle.std.specs.Prelude.{◌≡◌, ◌<◌, ◌≤◌, true, false, None, codes, length, IfOk};
ghost use Rattle.fsw_base.specs.EventDesk.{registered, served};
ghost use Rattle.bus_events.specs.Events.{served_event};
ghost use Rattle.bus_events.specs.declared.event.ServiceEvent.{ServiceEvent};
ghost use Rattle.bus_counts.specs.Records.{told_event};
ghost use Rattle.housekeeping.specs.Counters.{ticked};
ghost use Rattle.housekeeping.specs.Peaks.{greater};
ghost use Rattle.tbl_registry.specs.Listing.{is_live};
ghost use Rattle.table_blocks.specs.Contents.{is_open};

use bus_counts::Records;
use bus_events::ServiceEvent;
use evs_events::EventDesk;
use fsw_base::{AppNo, EsStatus, EventKind, FilterList};
use housekeeping::{CounterName, Counters, InUse};
use step_count::{Ledger, Steps};
use table_blocks::TableBlocks;
use tbl_registry::{HandleRow, Registry};

/// Registers an application, and logs a service event that it is ready.
pub fn start(desk: &mut EventDesk, app: AppNo, filters: &FilterList)
    ensures { desk.new ≡
        served (registered desk.old app filters.now) 1 EventKind.Information (codes "ready") }
{
    desk.register(app, filters);
    desk.service(1, EventKind::Information, b"ready");
}

/// Tells an event to the event desk.
pub fn tell(desk: &mut EventDesk, event: ServiceEvent)
    ensures { desk.new ≡ served_event desk.old event }
{
    let text = event.text();
    desk.service(event.number(), event.kind(), text.as_slice());
}

/// Tells that a pipe was subscribed to an id already; what is in use stays.
pub fn tell_duplicate(records: &mut Records, id: u16, pipe: u32)
    ensures { records.new ≡
        told_event records.old (ServiceEvent.DuplicateSubscription id pipe) }
{
    records.tell(ServiceEvent::DuplicateSubscription { id, pipe });
}

/// Counts a subscription that stood already, and looks at what is in use.
pub fn note_duplicate(counters: &mut Counters, now: InUse)
    ensures counts { counters.new.counts ≡ ticked counters.old.counts CounterName.Dup }
    ensures peak { counters.new.peak ≡ greater counters.old.peak now }
{
    counters.tick(CounterName::Dup);
    counters.seen(now);
}

/// A handle that was dropped is found no more.
#[tactic(auto, using(tbl_registry::proofs::HandleNumbers::gone))]
pub fn look_for_dropped(registry: &mut Registry, handle: u32) -> Option<HandleRow>
    requires { is_live registry.old.handles handle ≡ true }
    ensures { result ≡ None }
{
    registry.drop_handle(handle);
    registry.by_handle(handle)
}

/// Holds a version of a new table while the next one is loaded.
///
/// # Errors
/// What `open` answers if a block can't be had.
pub fn held_through_a_load<L: Ledger>(
    tables: &mut TableBlocks<'_>,
    steps: &mut Steps<L>,
) -> Result<u8, EsStatus>
    requires room { (0 < length tables.old.tables) × (2 ≤ tables.old.most) }
    requires new { is_open tables.old.tables 0 ≡ false }
    ensures { IfOk result (λ byte. byte ≡ 2) }
{
    tables.open(0, 2, 1, steps)?;
    tables.load(0, 0, &[1, 2]);
    let view = tables.view(0);
    tables.load(0, 1, &[9]);
    let held = view.bytes()[1];
    tables.give_back(0, 1, view);
    tables.close(0, steps);
    Ok(held)
}
