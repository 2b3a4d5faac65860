//! The line on a table image, and the line of a fault.
ghost use Rattle.std.specs.Prelude.{◌≡◌, ◌≤◌, length, true, false, OnOk, OnErr};
ghost use Rattle.fsw_base.specs.Outside.{Rose};
ghost use Rattle.text_page.specs.Pieces.{Grew, CutShort};
ghost use Rattle.table_images.specs.Images.{image_text, image_fault_text};

use fsw_base::{Sink, SinkGuard, WriteFault, sum_of};
use tbl_file::{Image, ImageFault};
use text_page::{Page, finish, put, put_number};

/// Writes the line on an image: `name=NAME offset=N size=N sum=N sub=N`. No write through this
/// guard may have failed before.
///
/// # Errors
/// `WriteFault` only if a write failed, so that the sink's count of faults rose in this call, or
/// stands at its last value; a front of the line is then written.
pub fn write_image_line<K: Sink>(
    sink: &mut SinkGuard<'_, K>,
    image: &Image<'_>,
) -> Result<(), WriteFault>
    requires none_failed { sink.old.failed ≡ false }
    requires few { length image.now.bytes.now ≤ 1048576 }
    ensures ok { OnOk result (Grew sink.old.written sink.new.written (image_text
        image.now.name.now image.now.offset image.now.bytes.now image.now.sub)) }
    ensures none_failed { OnOk result (sink.new.failed ≡ false) }
    ensures err { OnErr result (CutShort sink.old.written sink.new.written (image_text
        image.now.name.now image.now.offset image.now.bytes.now image.now.sub)) }
    ensures failed { OnErr result (sink.new.failed ≡ true) }
    ensures cause { OnErr result (Rose sink.old.faults sink.new.faults) }
    ensures never_falls { sink.old.faults ≤ sink.new.faults }
    ensures same_sink { sink.new.sink ≡ sink.old.sink }
{
    let mut page = Page::new();
    put(sink, &mut page, b"name=");
    put(sink, &mut page, image.name);
    put(sink, &mut page, b" offset=");
    put_number(sink, &mut page, image.offset);
    put(sink, &mut page, b" size=");
    put_number(sink, &mut page, image.bytes.len());
    put(sink, &mut page, b" sum=");
    put_number(sink, &mut page, sum_of(image.bytes));
    put(sink, &mut page, b" sub=");
    put_number(sink, &mut page, image.sub);
    put(sink, &mut page, b"\n");
    finish(sink, &mut page)
}

/// Writes the line of a fault: `image:NAME`. No write through this guard may have failed before.
///
/// # Errors
/// `WriteFault` only if a write failed, so that the sink's count of faults rose in this call, or
/// stands at its last value; a front of the line is then written.
pub fn write_image_fault<K: Sink>(
    sink: &mut SinkGuard<'_, K>,
    fault: ImageFault,
) -> Result<(), WriteFault>
    requires { sink.old.failed ≡ false }
    ensures ok { OnOk result (Grew sink.old.written sink.new.written (image_fault_text fault)) }
    ensures none_failed { OnOk result (sink.new.failed ≡ false) }
    ensures err { OnErr result
        (CutShort sink.old.written sink.new.written (image_fault_text fault)) }
    ensures failed { OnErr result (sink.new.failed ≡ true) }
    ensures cause { OnErr result (Rose sink.old.faults sink.new.faults) }
    ensures never_falls { sink.old.faults ≤ sink.new.faults }
    ensures same_sink { sink.new.sink ≡ sink.old.sink }
{
    let mut page = Page::new();
    put(sink, &mut page, b"image:");
    put(sink, &mut page, fault.name().as_bytes());
    put(sink, &mut page, b"\n");
    finish(sink, &mut page)
}
