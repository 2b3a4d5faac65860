//! Writing a whole report, and its end alone.
ghost use Rattle.std.specs.Prelude.{◌≡◌, ℕ, ◌≤◌, false, true, OnOk, OnErr};
ghost use Rattle.fsw_base.specs.Outside.{Rose};
ghost use Rattle.text_page.specs.Pieces.{Grew, CutShort, Puts};
ghost use Rattle.run_report.specs.Report.{ending_text, figures_read, table_figures_read, report_of};

use crate::counters::{put_counts, put_desk, put_table_uses, put_uses};
use crate::entries::put_entries;
use crate::events::put_log;
use crate::pools::{PoolName, put_account, put_app_pools};
use crate::readings::{BusReadings, TableReadings};
use crate::receipts::put_receipts;
use crate::table_entries::put_table_entries;
use bus_words::ReceiptList;
use fsw_base::{Sink, SinkGuard, WriteFault};
use text_page::{Page, finish, put, put_number};

/// Writes the report of what was read off a bus and off its tables, and of the receipts of the
/// applications 1, 2, 3 and so on.
///
/// The sink is given the text in pages of 4096 bytes, of which it may take less at a time. No
/// memory is taken. No write through this guard may have failed before.
///
/// # Errors
/// `WriteFault` only if a write failed, so that the sink's count of faults rose in this call (or
/// stands at its last value); the sink then has a front of the text, and after the failed write
/// nothing more is written.
pub fn write_report<K: Sink>(
    bus: &BusReadings<'_>,
    tables: &TableReadings<'_>,
    receipts: &[ReceiptList],
    sink: &mut SinkGuard<'_, K>,
) -> Result<(), WriteFault>
    requires { sink.old.failed ≡ false }
    ensures ok { OnOk result (Grew sink.old.written sink.new.written
        (report_of bus.now tables.now receipts.now)) }
    ensures none_failed { OnOk result (sink.new.failed ≡ false) }
    ensures err { OnErr result (CutShort sink.old.written sink.new.written
        (report_of bus.now tables.now receipts.now)) }
    ensures failed { OnErr result (sink.new.failed ≡ true) }
    ensures cause { OnErr result (Rose sink.old.faults sink.new.faults) }
    ensures never_falls { sink.old.faults ≤ sink.new.faults }
    ensures same_sink { sink.new.sink ≡ sink.old.sink }
{
    let mut page = Page::new();
    put(sink, &mut page, b"fsw ");
    put_number(sink, &mut page, bus.version);
    put(sink, &mut page, b"\nbus\n");
    put_entries(sink, &mut page, bus.journal);
    put(sink, &mut page, b"tables\n");
    put_table_entries(sink, &mut page, tables.journal);
    put(sink, &mut page, b"receipts\n");
    put_receipts(sink, &mut page, receipts);
    put(sink, &mut page, b"events\n");
    put_log(sink, &mut page, bus.events);
    put_ending(sink, &mut page, bus, tables);
    finish(sink, &mut page)
}

/// Writes the end of a report alone: its lines from `counters` on.
///
/// # Errors
/// `WriteFault` as [`write_report`].
pub fn write_ending<K: Sink>(
    bus: &BusReadings<'_>,
    tables: &TableReadings<'_>,
    sink: &mut SinkGuard<'_, K>,
) -> Result<(), WriteFault>
    requires { sink.old.failed ≡ false }
    ensures ok { OnOk result (Grew sink.old.written sink.new.written
        (ending_text (figures_read bus.now) (table_figures_read tables.now))) }
    ensures none_failed { OnOk result (sink.new.failed ≡ false) }
    ensures err { OnErr result (CutShort sink.old.written sink.new.written
        (ending_text (figures_read bus.now) (table_figures_read tables.now))) }
    ensures failed { OnErr result (sink.new.failed ≡ true) }
    ensures cause { OnErr result (Rose sink.old.faults sink.new.faults) }
    ensures never_falls { sink.old.faults ≤ sink.new.faults }
    ensures same_sink { sink.new.sink ≡ sink.old.sink }
{
    let mut page = Page::new();
    put_ending(sink, &mut page, bus, tables);
    finish(sink, &mut page)
}

// Puts the lines on the counters, and the last line.
fn put_ending<K: Sink>(
    sink: &mut SinkGuard<'_, K>,
    page: &mut Page,
    bus: &BusReadings<'_>,
    tables: &TableReadings<'_>,
)
    ensures { Puts sink.old sink.new page.old page.new
        (ending_text (figures_read bus.now) (table_figures_read tables.now)) }
{
    put(sink, page, b"counters\n");
    put_counts(sink, page, bus.version, bus.counters);
    put_uses(sink, page, bus.in_use, bus.counters.peak());
    put_account(sink, page, PoolName::Bus, bus.pool);
    put_app_pools(sink, page, bus.pools);
    put_desk(sink, page, bus.events);
    put_table_uses(sink, page, tables.in_use, tables.peak);
    put_account(sink, page, PoolName::Tables, tables.pool);
    put(sink, page, b"end\n");
}
