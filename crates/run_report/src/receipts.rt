//! The lines on what each application received and held.
ghost use Rattle.std.specs.Prelude.{◌≡◌, ℕ, ◌≤◌, false, true, map, OnOk, OnErr};
ghost use Rattle.fsw_base.specs.Outside.{Rose};
ghost use Rattle.text_page.specs.Pieces.{CutShort, Grew, Puts};
ghost use Rattle.run_report.specs.ReceiptText.{seen_text, receipt_text, application_text, receipts_text};

use bus_words::{Receipt, ReceiptList};
use fsw_base::{AppNo, Sink, SinkGuard, WriteFault};
use text_page::{Page, finish, put, put_hex_bytes, put_hex_id, put_number};

/// Puts the receipts of the applications 1, 2, 3 and so on.
pub fn put_receipts<K: Sink>(sink: &mut SinkGuard<'_, K>, page: &mut Page, receipts: &[ReceiptList])
    ensures { Puts sink.old sink.new page.old page.new
        (receipts_text (map (λ list. list.receipts) receipts.now)) }
{
    for (i, list) in receipts.iter().enumerate() {
        put_application(sink, page, i + 1, list);
    }
}

/// Writes the line of one receipt of an application.
///
/// No memory is taken. No write through this guard may have failed before.
///
/// # Errors
/// `WriteFault` as [`crate::write_report`].
pub fn write_receipt<K: Sink>(
    app: AppNo,
    receipt: &Receipt,
    sink: &mut SinkGuard<'_, K>,
) -> Result<(), WriteFault>
    requires { sink.old.failed ≡ false }
    ensures ok { OnOk result (Grew sink.old.written sink.new.written
        (receipt_text app receipt.now)) }
    ensures none_failed { OnOk result (sink.new.failed ≡ false) }
    ensures err { OnErr result (CutShort sink.old.written sink.new.written
        (receipt_text app receipt.now)) }
    ensures failed { OnErr result (sink.new.failed ≡ true) }
    ensures cause { OnErr result (Rose sink.old.faults sink.new.faults) }
    ensures never_falls { sink.old.faults ≤ sink.new.faults }
    ensures same_sink { sink.new.sink ≡ sink.old.sink }
{
    let mut page = Page::new();
    put_receipt(sink, &mut page, app.get() as usize, receipt);
    finish(sink, &mut page)
}

// Puts the receipts of one application, in its own order.
fn put_application<K: Sink>(
    sink: &mut SinkGuard<'_, K>,
    page: &mut Page,
    app: usize,
    list: &ReceiptList,
)
    ensures { Puts sink.old sink.new page.old page.new (application_text app list.now.receipts) }
{
    for i in 0..list.len() {
        put_receipt(sink, page, app, list.get(i));
    }
}

/// Puts the line of one receipt of an application.
pub fn put_receipt<K: Sink>(
    sink: &mut SinkGuard<'_, K>,
    page: &mut Page,
    app: usize,
    receipt: &Receipt,
)
    ensures { Puts sink.old sink.new page.old page.new (receipt_text app receipt.now) }
{
    put(sink, page, b"a");
    put_number(sink, page, app);
    put(sink, page, b" ");
    put_seen(sink, page, receipt);
    put(sink, page, b"\n");
}

// Puts what a receipt says.
fn put_seen<K: Sink>(sink: &mut SinkGuard<'_, K>, page: &mut Page, receipt: &Receipt)
    ensures { Puts sink.old sink.new page.old page.new (seen_text receipt.now) }
{
    match receipt {
        Receipt::Nothing => put(sink, page, b"none"),
        Receipt::Message {
            pipe,
            number,
            id,
            count,
            size,
            sum,
            head,
        } => {
            put(sink, page, b"msg p");
            put_number(sink, page, *pipe);
            put(sink, page, b" n");
            put_number(sink, page, *number);
            put(sink, page, b" id=");
            put_hex_id(sink, page, *id);
            put(sink, page, b" seq=");
            put_number(sink, page, *count);
            put(sink, page, b" size=");
            put_number(sink, page, *size);
            put(sink, page, b" sum=");
            put_number(sink, page, *sum);
            put(sink, page, b" head=");
            put_hex_bytes(sink, page, head.as_slice());
        }
        Receipt::Table {
            handle,
            version,
            size,
            sum,
            head,
        } => {
            put(sink, page, b"tbl h");
            put_number(sink, page, *handle);
            put(sink, page, b" v");
            put_number(sink, page, *version);
            put(sink, page, b" size=");
            put_number(sink, page, *size);
            put(sink, page, b" sum=");
            put_number(sink, page, *sum);
            put(sink, page, b" head=");
            put_hex_bytes(sink, page, head.as_slice());
        }
    }
}
