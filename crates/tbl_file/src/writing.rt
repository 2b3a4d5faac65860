//! Writing an image.
ghost use Rattle.std.specs.Prelude.{◌≡◌, ◌+◌, ◌<◌, ◌≤◌, ◌^◌, ◌++◌, length, take, IsTrue};
ghost use Rattle.std.specs.List.{flat_map};
ghost use Rattle.byteorder.specs.Endian.{big_bytes};
ghost use Rattle.tbl_file.specs.Image.{IsImage, image_file, is_table_name, file_numbers, table_numbers, name_field};
ghost use Rattle.tbl_file.specs.Inside.{HasShortNumbers};

use crate::image::{
    CONTENT_ID, DESCRIPTION_AT, HEADER_BYTES, Image, NAME_AT, NAME_BYTES, TABLE_AT,
};
use byteorder::{BigEndian, ByteOrder};

/// Writes the file of an image, which fills the whole slice: 116 bytes and the table's. The
/// description has 32 bytes, the name is 1 to 39 visible ASCII characters, and the table has a byte
/// at least. Zeros fill the name's field.
pub fn write_image(image: &Image<'_>, out: &mut [u8])
    requires description { length image.now.description.now ≡ 32 }
    requires name { IsTrue (is_table_name image.now.name.now) }
    requires some { 1 ≤ length image.now.bytes.now }
    requires size { length out.old ≡ 116 + length image.now.bytes.now }
    requires few { length out.old < 2 ^ 32 }
    ensures file { out.new ≡ image_file image.now }
    ensures reads_back { IsImage out.new image.now }
{
    recall_numbers(image);
    let size = image.bytes.len() as u32;
    put(out, 0, &file_header(image));
    put(out, DESCRIPTION_AT, image.description);
    put(out, TABLE_AT, &table_header(image, size));
    put(out, NAME_AT, &name_field(image.name));
    put(out, HEADER_BYTES, image.bytes);
}

// Does nothing; a proof learns of it that a number has 32 bits.
fn recall_number(number: u32)
    ensures { number < 2 ^ 32 }
{}

// Does nothing; a proof learns of it that each number has 32 bits.
fn recall_numbers(image: &Image<'_>)
    ensures { HasShortNumbers image.now }
{
    recall_number(image.sub);
    recall_number(image.length);
    recall_number(image.spacecraft);
    recall_number(image.processor);
    recall_number(image.application);
    recall_number(image.seconds);
    recall_number(image.subseconds);
    recall_number(image.reserved);
    recall_number(image.offset);
}

// The numbers of the file header.
fn file_header(image: &Image<'_>) -> [u8; DESCRIPTION_AT]
    ensures { result ≡ flat_map (big_bytes 4) (file_numbers image.now) }
{
    let mut bytes = [0; DESCRIPTION_AT];
    let numbers = [
        CONTENT_ID,
        image.sub,
        image.length,
        image.spacecraft,
        image.processor,
        image.application,
        image.seconds,
        image.subseconds,
    ];
    BigEndian::write_u32_into(&numbers, &mut bytes);
    bytes
}

// The numbers of the table's header.
fn table_header(image: &Image<'_>, size: u32) -> [u8; 12]
    requires { size ≡ length image.now.bytes.now }
    ensures { result ≡ flat_map (big_bytes 4) (table_numbers image.now) }
{
    let mut bytes = [0; 12];
    BigEndian::write_u32_into(&[image.reserved, image.offset, size], &mut bytes);
    bytes
}

// The name's field.
fn name_field(name: &[u8]) -> [u8; NAME_BYTES]
    requires { length name.now ≤ 40 }
    ensures { result ≡ name_field name.now }
{
    let mut bytes = [0; NAME_BYTES];
    bytes[..name.len()].copy_from_slice(name);
    bytes
}

// Puts bytes behind those that stand before a place.
fn put(out: &mut [u8], place: usize, part: &[u8])
    requires { place + length part.now ≤ length out.old }
    ensures front { take (place + length part.now) out.new ≡ take place out.old ++ part.now }
    ensures length { length out.new ≡ length out.old }
{
    out[place..place + part.len()].copy_from_slice(part);
}
