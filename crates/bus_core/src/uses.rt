//! What is told and seen behind a call: an event of it, and what is in use, which is looked at
//! after each call that may change it.
ghost use Rattle.std.specs.Prelude.{◌≡◌, if◌then◌else◌};
ghost use Rattle.bus_counts.specs.Records.{told_event, peaks_raised};
ghost use Rattle.bus_messages.specs.Words.{with_held};
ghost use Rattle.bus_core.specs.Rows.{in_use_at, blocks_in_use_at};

use bus_counts::Records;
use bus_events::ServiceEvent;
use bus_messages::BusStore;
use housekeeping::InUse;

/// What is in use at the store.
pub(crate) fn in_use_at(store: &BusStore<'_>) -> InUse
    ensures now { result ≡ in_use_at store.now }
    ensures held { store.now.account ≡
        with_held store.now.account store.now.pipes store.now.unsent store.now.numbers_given }
{
    // Does nothing; the proof learns of it which blocks are out.
    store.recall_held();
    InUse {
        msgids: store.routes_len(),
        pipes: store.pipes_len() as u32,
        subs: store.subscriptions_len(),
        buffers: store.sends_held(),
        bytes: store.bytes_in_use(),
    }
}

/// Raises each peak that what is in use at the store exceeds.
pub(crate) fn see(records: &mut Records, store: &BusStore<'_>)
    ensures seen { records.new ≡ peaks_raised records.old (in_use_at store.now) }
    ensures held { store.now.account ≡
        with_held store.now.account store.now.pipes store.now.unsent store.now.numbers_given }
{
    records.see(in_use_at(store));
}

/// Raises the peaks of the blocks in use and of their bytes, if what is in use at the store
/// exceeds them. It is for a call that makes no pipe, no subscription and no route.
pub(crate) fn see_blocks(records: &mut Records, store: &BusStore<'_>)
    ensures seen { records.new ≡ peaks_raised records.old (blocks_in_use_at store.now) }
    ensures held { store.now.account ≡
        with_held store.now.account store.now.pipes store.now.unsent store.now.numbers_given }
{
    // Does nothing; the proof learns of it which blocks are out.
    store.recall_held();
    records.see(InUse {
        msgids: 0,
        pipes: 0,
        subs: 0,
        buffers: store.sends_held(),
        bytes: store.bytes_in_use(),
    });
}

/// Tells the event if the test is false.
pub(crate) fn tell_unless(records: &mut Records, test: bool, event: ServiceEvent)
    ensures { records.new ≡ (if test then records.old else told_event records.old event) }
{
    if !test {
        records.tell(event);
    }
}
