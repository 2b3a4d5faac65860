//! The report of the run that both services show, or its end alone.
ghost use Rattle.std.specs.Prelude.{◌≡◌, ◌≤◌, false, true, OnOk, OnErr};
ghost use Rattle.fsw_base.specs.Outside.{Rose};
ghost use Rattle.text_page.specs.Pieces.{Grew, CutShort};
ghost use Rattle.run_report.specs.Report.{figures_read, figures_shown, table_figures_read, table_figures_shown};
ghost use Rattle.sb_calls.specs.Core.{state_of};
ghost use Rattle.tbl_load.specs.Core.{apps_of as table_apps_of};
ghost use Rattle.host_report.specs.Parts.{both_shown, part_shown, side_shown};

use app_run::Finished;
use bus_words::ReceiptList;
use fsw_base::{Sink, SinkGuard, WriteFault};
use run_report::{BusReadings, TableReadings, write_ending, write_report};
use sb_calls::BusCore;
use tbl_load::TblCore;
use text_page::write_text;

/// How much of a report is written.
#[derive(Clone, Copy, Debug)]
pub enum Part {
    /// All of it.
    Whole,
    /// Its lines from `counters` on.
    Ending,
}

/// Writes the report of a bus and its tables, which is that of their journals, of the receipts of
/// the applications 1, 2, 3 and so on, and of the figures of both as they are now; or the end of
/// this report. No write through this guard may have failed before.
///
/// # Errors
/// `WriteFault` only if a write failed, so that the sink's count of faults rose in this call (or
/// stands at its last value); the sink then has a front of the text, and after the failed write
/// nothing more is written.
pub fn write_part<K: Sink>(
    bus: &BusCore<'_>,
    tables: &TblCore<'_>,
    receipts: &[ReceiptList],
    part: Part,
    sink: &mut SinkGuard<'_, K>,
) -> Result<(), WriteFault>
    requires { sink.old.failed ≡ false }
    ensures ok { OnOk result (Grew sink.old.written sink.new.written
        (part_shown part bus.now tables.now receipts.now)) }
    ensures none_failed { OnOk result (sink.new.failed ≡ false) }
    ensures err { OnErr result (CutShort sink.old.written sink.new.written
        (part_shown part bus.now tables.now receipts.now)) }
    ensures failed { OnErr result (sink.new.failed ≡ true) }
    ensures cause { OnErr result (Rose sink.old.faults sink.new.faults) }
    ensures never_falls { sink.old.faults ≤ sink.new.faults }
    ensures same_sink { sink.new.sink ≡ sink.old.sink }
{
    let of_bus = bus_readings(bus);
    let of_tables = table_readings(tables);
    match part {
        Part::Whole => write_report(&of_bus, &of_tables, receipts, sink),
        Part::Ending => write_ending(&of_bus, &of_tables, sink),
    }
}

/// Writes the reports of both sides of a bridge, each behind a line with its side. No write through
/// this guard may have failed before.
///
/// # Errors
/// Those of [`write_part`]: after the failed write nothing more is written.
pub fn write_both<K: Sink>(
    one: &Finished<'_>,
    two: &Finished<'_>,
    sink: &mut SinkGuard<'_, K>,
) -> Result<(), WriteFault>
    requires { sink.old.failed ≡ false }
    ensures ok { OnOk result (Grew sink.old.written sink.new.written
        (both_shown one.now two.now)) }
    ensures none_failed { OnOk result (sink.new.failed ≡ false) }
    ensures err { OnErr result (CutShort sink.old.written sink.new.written
        (both_shown one.now two.now)) }
    ensures failed { OnErr result (sink.new.failed ≡ true) }
    ensures cause { OnErr result (Rose sink.old.faults sink.new.faults) }
    ensures never_falls { sink.old.faults ≤ sink.new.faults }
    ensures same_sink { sink.new.sink ≡ sink.old.sink }
{
    write_side(b"side 1\n", one, sink)?;
    write_side(b"side 2\n", two, sink)
}

// Writes a line, and behind it the report of a side of a bridge.
fn write_side<K: Sink>(
    line: &[u8],
    side: &Finished<'_>,
    sink: &mut SinkGuard<'_, K>,
) -> Result<(), WriteFault>
    requires { sink.old.failed ≡ false }
    ensures ok { OnOk result (Grew sink.old.written sink.new.written
        (side_shown line.now side.now)) }
    ensures none_failed { OnOk result (sink.new.failed ≡ false) }
    ensures err { OnErr result (CutShort sink.old.written sink.new.written
        (side_shown line.now side.now)) }
    ensures failed { OnErr result (sink.new.failed ≡ true) }
    ensures cause { OnErr result (Rose sink.old.faults sink.new.faults) }
    ensures never_falls { sink.old.faults ≤ sink.new.faults }
    ensures same_sink { sink.new.sink ≡ sink.old.sink }
{
    write_text(sink, line)?;
    let receipts = side.receipts.as_slice();
    write_part(&side.bus, &side.tables, receipts, Part::Whole, sink)
}

// What a report shows of a bus.
fn bus_readings<'a>(bus: &'a BusCore<'_>) -> BusReadings<'a>
    ensures journal { result.journal.now ≡ bus.now.log }
    ensures figures { figures_read result ≡ figures_shown bus.now.limits (state_of bus.now) }
{
    BusReadings {
        version: bus.version(),
        journal: bus.journal(),
        events: bus.events(),
        counters: bus.counters(),
        in_use: bus.in_use(),
        pool: bus.pool(),
        pools: bus.pools(),
    }
}

// What a report shows of the tables.
fn table_readings<'a>(tables: &'a TblCore<'_>) -> TableReadings<'a>
    ensures journal { result.journal.now ≡ tables.now.log }
    ensures figures { table_figures_read result ≡ table_figures_shown tables.now.limits
        (table_apps_of tables.now) tables.now.log.entries }
{
    TableReadings {
        journal: tables.journal(),
        in_use: tables.tables_now(),
        peak: tables.tables_peak(),
        pool: tables.pool(),
    }
}
