//! Table images: writing what one is, and packing one.
ghost use Rattle.std.specs.Prelude.{◌≡◌, ◌≤◌, ◌+◌, length, false, IsTrue};
ghost use Rattle.table_images.specs.Images.{image_text, packed_file};
ghost use Rattle.tbl_file.specs.Image.{image_fault, is_table_name};
ghost use Rattle.host_report.specs.Audit.{GuardedAudit};
ghost use Rattle.host_serve.specs.Serve.{Shows, Packs, EndsShown, EndsPacked, EndsNoImage, EndsText, MakesNothing, fed_through, made_through};
ghost use Rattle.host_serve.specs.Status.{is_read_fault, is_write_fault};

use crate::memory::Memory;
use crate::reading::{Reading, read_all};
use crate::status::HostStatus;
use fsw_base::{Sink, SinkGuard, Source, SourceGuard, WriteFault};
use table_images::{Head, fill_packed, write_image_fault, write_image_line};
use tbl_file::{HEADER_BYTES, Image, ImageFault, read_image};
use text_page::write_text;

// The most bytes of a table that `pack` takes: as many as a script has at most.
const MAX_TABLE: usize = fsw_base::MAX_SCRIPT_BYTES;

// The most bytes of an image that `image` takes.
const MAX_IMAGE: usize = MAX_TABLE + HEADER_BYTES;

/// Reads a table image of at most 1,048,692 bytes, and writes what it is:
/// `name=NAME offset=N size=N sum=N sub=N`. By the code, memory is taken for the input alone.
///
/// - `Image`, if the input is none; the fault's line is written. `TooLarge` is that it is
///   longer; at most one byte more is read.
/// - `ReadFault`, `WriteFault` and `NoMemory` as in `serve`.
pub(crate) fn show_image<S: Source, K: Sink>(
    memory: &mut Memory,
    source: &mut SourceGuard<'_, S>,
    sink: &mut SinkGuard<'_, K>,
) -> HostStatus
    requires no_read_failed { source.old.failed ≡ false }
    requires no_write_failed { sink.old.failed ≡ false }
    ensures end { (audit : GuardedAudit) →
        Shows result (fed_through source.old) (fed_through source.new)
        (made_through sink.old audit) (made_through sink.new audit) }
    ensures read_failed { source.new.failed ≡ is_read_fault result }
    ensures write_failed { sink.new.failed ≡ is_write_fault result }
    ensures same_source { source.new.source ≡ source.old.source }
    ensures same_sink { sink.new.sink ≡ sink.old.sink }
{
    let Some(room) = memory.room(MAX_IMAGE + 1) else {
        return HostStatus::NoMemory(memory.refusal());
    };
    match read_all(room, MAX_IMAGE, source) {
        Reading::Whole(file) => show_file(&file, sink),
        Reading::TooLarge => refuse_image(sink, ImageFault::TooLarge),
        Reading::Fault => HostStatus::ReadFault,
    }
}

// Writes what the image is that this file is, or its fault.
fn show_file<K: Sink>(file: &[u8], sink: &mut SinkGuard<'_, K>) -> HostStatus
    requires none_failed { sink.old.failed ≡ false }
    requires few { length file.now ≤ 1048692 }
    ensures end { (audit : GuardedAudit) →
        EndsShown result (image_fault file.now) file.now (made_through sink.old audit)
        (made_through sink.new audit) }
    ensures failed { sink.new.failed ≡ is_write_fault result }
    ensures no_read_fault { is_read_fault result ≡ false }
    ensures same_sink { sink.new.sink ≡ sink.old.sink }
{
    match read_image(file) {
        Ok(image) => tell_image(sink, &image),
        Err(fault) => refuse_image(sink, fault),
    }
}

// Writes the line on an image, behind which nothing is left to do.
fn tell_image<K: Sink>(sink: &mut SinkGuard<'_, K>, image: &Image<'_>) -> HostStatus
    requires none_failed { sink.old.failed ≡ false }
    requires few { length image.now.bytes.now ≤ 1048576 }
    ensures end { (audit : GuardedAudit) →
        EndsText HostStatus.Done result (image_text
        image.now.name.now image.now.offset image.now.bytes.now image.now.sub) ⊥
        (made_through sink.old audit) (made_through sink.new audit) }
    ensures failed { sink.new.failed ≡ is_write_fault result }
    ensures no_read_fault { is_read_fault result ≡ false }
    ensures same_sink { sink.new.sink ≡ sink.old.sink }
{
    match write_image_line(sink, image) {
        Ok(()) => HostStatus::Done,
        Err(WriteFault) => HostStatus::WriteFault,
    }
}

/// Reads a table's bytes, at most 1,048,576, and writes the image of them with this name, offset
/// and sub. Its length is 64, and all else is zero. By the code, memory is taken for the input, and
/// for the image after it was read.
///
/// - `Image`, if there is no byte (`Empty`) or more than these (`TooLarge`); the fault's line is
///   written.
/// - `ReadFault`, `WriteFault` and `NoMemory` as in `serve`.
pub(crate) fn pack<S: Source, K: Sink>(
    memory: &mut Memory,
    head: &Head<'_>,
    source: &mut SourceGuard<'_, S>,
    sink: &mut SinkGuard<'_, K>,
) -> HostStatus
    requires no_read_failed { source.old.failed ≡ false }
    requires no_write_failed { sink.old.failed ≡ false }
    requires name { IsTrue (is_table_name head.now.name.now) }
    ensures end { (audit : GuardedAudit) →
        Packs result head.now.name.now head.now.offset head.now.sub
        (fed_through source.old) (fed_through source.new)
        (made_through sink.old audit) (made_through sink.new audit) }
    ensures read_failed { source.new.failed ≡ is_read_fault result }
    ensures write_failed { sink.new.failed ≡ is_write_fault result }
    ensures same_source { source.new.source ≡ source.old.source }
    ensures same_sink { sink.new.sink ≡ sink.old.sink }
{
    let Some(room) = memory.room(MAX_TABLE + 1) else {
        return HostStatus::NoMemory(memory.refusal());
    };
    match read_all(room, MAX_TABLE, source) {
        Reading::Whole(bytes) => pack_bytes(memory, head, &bytes, sink),
        Reading::TooLarge => refuse_image(sink, ImageFault::TooLarge),
        Reading::Fault => HostStatus::ReadFault,
    }
}

// Writes the image of these bytes, if there is one.
fn pack_bytes<K: Sink>(
    memory: &mut Memory,
    head: &Head<'_>,
    bytes: &[u8],
    sink: &mut SinkGuard<'_, K>,
) -> HostStatus
    requires none_failed { sink.old.failed ≡ false }
    requires name { IsTrue (is_table_name head.now.name.now) }
    requires few { length bytes.now ≤ 1048576 }
    ensures end { (audit : GuardedAudit) →
        EndsPacked result head.now.name.now head.now.offset head.now.sub bytes.now
        (made_through sink.old audit) (made_through sink.new audit) }
    ensures failed { sink.new.failed ≡ is_write_fault result }
    ensures no_read_fault { is_read_fault result ≡ false }
    ensures same_sink { sink.new.sink ≡ sink.old.sink }
{
    if bytes.is_empty() {
        return refuse_image(sink, ImageFault::Empty);
    }
    let Some(file) = memory.zeros(HEADER_BYTES + bytes.len()) else {
        return HostStatus::NoMemory(memory.refusal());
    };
    write_packed(head, bytes, file, sink)
}

// Writes the image of these bytes, of which there is one at least, by a list that it fills.
fn write_packed<K: Sink>(
    head: &Head<'_>,
    bytes: &[u8],
    mut file: Vec<u8>,
    sink: &mut SinkGuard<'_, K>,
) -> HostStatus
    requires none_failed { sink.old.failed ≡ false }
    requires name { IsTrue (is_table_name head.now.name.now) }
    requires some { 1 ≤ length bytes.now }
    requires few { length bytes.now ≤ 1048576 }
    requires size { length file.items ≡ 116 + length bytes.now }
    ensures end { (audit : GuardedAudit) → EndsText HostStatus.Done result
        (packed_file head.now.name.now head.now.offset head.now.sub bytes.now)
        (MakesNothing (made_through sink.old audit) (made_through sink.new audit))
        (made_through sink.old audit) (made_through sink.new audit) }
    ensures failed { sink.new.failed ≡ is_write_fault result }
    ensures no_read_fault { is_read_fault result ≡ false }
    ensures same_sink { sink.new.sink ≡ sink.old.sink }
{
    fill_packed(head, bytes, &mut file);
    tell_file(sink, &file)
}

// Writes the file of an image, behind which nothing is left to do.
fn tell_file<K: Sink>(sink: &mut SinkGuard<'_, K>, file: &[u8]) -> HostStatus
    requires { sink.old.failed ≡ false }
    ensures end { (audit : GuardedAudit) →
        EndsText HostStatus.Done result file.now
        (MakesNothing (made_through sink.old audit) (made_through sink.new audit))
        (made_through sink.old audit) (made_through sink.new audit) }
    ensures failed { sink.new.failed ≡ is_write_fault result }
    ensures no_read_fault { is_read_fault result ≡ false }
    ensures same_sink { sink.new.sink ≡ sink.old.sink }
{
    match write_text(sink, file) {
        Ok(()) => HostStatus::Done,
        Err(WriteFault) => HostStatus::WriteFault,
    }
}

// Writes why there is no image.
fn refuse_image<K: Sink>(sink: &mut SinkGuard<'_, K>, fault: ImageFault) -> HostStatus
    requires { sink.old.failed ≡ false }
    ensures end { (audit : GuardedAudit) →
        EndsNoImage result fault (made_through sink.old audit) (made_through sink.new audit) }
    ensures failed { sink.new.failed ≡ is_write_fault result }
    ensures no_read_fault { is_read_fault result ≡ false }
    ensures same_sink { sink.new.sink ≡ sink.old.sink }
{
    match write_image_fault(sink, fault) {
        Ok(()) => HostStatus::Image(fault),
        Err(WriteFault) => HostStatus::WriteFault,
    }
}
