//! The lines on what each application received and held.
ghost use Rattle.std.specs.Prelude.{◌≡◌, ◌<◌, ◌≤◌, ◌↔◌, drop, length, map, IsTrue};
ghost use Rattle.std.specs.List.{range_with_len};
ghost use Rattle.text_page.specs.Pieces.{Puts};
ghost use Rattle.run_check.specs.Merged.{merged, receipts_in};
ghost use Rattle.run_report.specs.ReceiptText.{application_text, receipt_text, receipts_text};
ghost use Rattle.report_check.specs.Tails.{receipts_kept};

use bus_replay::BusReplay;
use fsw_base::{AppNo, Sink, SinkGuard};
use replay_parts::MadeReceipt;
use run_report::put_receipt;
use table_replay::TableReplay;
use text_page::Page;

/// Puts the receipts of so many applications, number 1 first.
pub(crate) fn put_receipts<K: Sink>(
    sink: &mut SinkGuard<'_, K>,
    page: &mut Page,
    apps: u32,
    bus: &BusReplay<'_>,
    tables: &TableReplay<'_>,
)
    requires few { apps ≤ 16 }
    requires bus { apps ≤ length bus.now.places }
    requires tables { apps ≤ length tables.now.places }
    ensures { Puts sink.old sink.new page.old page.new
        (receipts_text
        (map (receipts_kept bus.now.places tables.now.places) (range_with_len 1 apps))) }
{
    for i in 0..apps {
        put_application(sink, page, i + 1, bus, tables);
    }
}

// Puts the receipts of the application of a number.
fn put_application<K: Sink>(
    sink: &mut SinkGuard<'_, K>,
    page: &mut Page,
    number: u32,
    bus: &BusReplay<'_>,
    tables: &TableReplay<'_>,
)
    requires first { 1 ≤ number }
    requires few { number ≤ 16 }
    requires bus { number ≤ length bus.now.places }
    requires tables { number ≤ length tables.now.places }
    ensures { Puts sink.old sink.new page.old page.new
        (application_text number (receipts_kept bus.now.places tables.now.places number)) }
{
    let Some(app) = AppNo::try_new(number) else {
        unreachable!();
    };
    put_merged(
        sink,
        page,
        number as usize,
        bus.receipts(app),
        tables.receipts(app),
    );
}

// Puts an application's receipts of both services, in the order of the lines that made them.
fn put_merged<K: Sink>(
    sink: &mut SinkGuard<'_, K>,
    page: &mut Page,
    app: usize,
    bus: &[MadeReceipt],
    tables: &[MadeReceipt],
)
    ensures { Puts sink.old sink.new page.old page.new
        (application_text app (merged bus.now tables.now)) }
{
    let mut of_bus = bus;
    let mut of_tables = tables;
    while are_both_left(of_bus, of_tables) {
        let made = &of_bus[0];
        let other = &of_tables[0];
        if comes_first(made, other) {
            put_made(sink, page, app, made);
            of_bus = behind_first(of_bus);
        } else {
            put_made(sink, page, app, other);
            of_tables = behind_first(of_tables);
        }
    }
    put_all(sink, page, app, of_bus);
    put_all(sink, page, app, of_tables);
}

// Whether there are receipts of both services.
fn are_both_left(bus: &[MadeReceipt], tables: &[MadeReceipt]) -> bool
    ensures { IsTrue result ↔ ((0 < length bus.now) × (0 < length tables.now)) }
{
    !bus.is_empty() && !tables.is_empty()
}

// Whether the line of one receipt comes before that of another.
fn comes_first(one: &MadeReceipt, other: &MadeReceipt) -> bool
    ensures { IsTrue result ↔ (one.now.place < other.now.place) }
{
    one.place < other.place
}

// All receipts but the first.
fn behind_first<'a>(made: &'a [MadeReceipt]) -> &'a [MadeReceipt]
    requires { 0 < length made.now }
    ensures { result.now ≡ drop 1 made.entry.now }
{
    &made[1..]
}

// Puts these receipts of an application.
fn put_all<K: Sink>(sink: &mut SinkGuard<'_, K>, page: &mut Page, app: usize, made: &[MadeReceipt])
    ensures { Puts sink.old sink.new page.old page.new
        (application_text app (receipts_in made.now)) }
{
    for i in 0..made.len() {
        put_made(sink, page, app, &made[i]);
    }
}

// Puts a receipt of an application.
fn put_made<K: Sink>(sink: &mut SinkGuard<'_, K>, page: &mut Page, app: usize, made: &MadeReceipt)
    ensures { Puts sink.old sink.new page.old page.new (receipt_text app made.now.receipt) }
{
    put_receipt(sink, page, app, &made.receipt);
}
