//! Reading an image.
ghost use Rattle.std.specs.Prelude.{◌≡◌, ◌+◌, ◌==◌, ◌<◌, ◌≤◌, ◌^◌, length, IfOk, IfErr, OnOk, Some, None};
ghost use Rattle.std.specs.List.{before_first, list_all, position};
ghost use Rattle.std.specs.Prelude.{nat_le, ◌&&◌};
ghost use Rattle.tbl_file.specs.Image.{IsImage, HasFields, image_fault, number_at, name_in, is_table_name};

use crate::image::{
    CONTENT_ID, DESCRIPTION_AT, HEADER_BYTES, Image, ImageFault, NAME_AT, NAME_BYTES, OFFSET_AT,
    SIZE_AT, TABLE_AT,
};
use byteorder::{BigEndian, ByteOrder};

/// Reads a table image, which is the whole file.
///
/// # Errors
/// `Short` for fewer than 116 bytes; `NotCfe` if the first field isn't 0x63464531; `BadName`
/// if the name isn't 1 to 39 visible ASCII characters with a zero byte behind them; `Empty`
/// if the header says no bytes; `Size` if it says another number of bytes than follow; the
/// first of these that applies.
#[tactic(auto, unfolding(crate::specs::Image::image_fault))]
pub fn read_image(file: &[u8]) -> Result<Image<'_>, ImageFault>
    requires { length file.now < 2 ^ 32 }
    ensures image { IfOk result (λ image. IsImage file.now image) }
    ensures sound { OnOk result (image_fault file.now ≡ None) }
    ensures refused { IfErr result (λ fault. image_fault file.now ≡ Some fault) }
{
    if file.len() < HEADER_BYTES {
        return Err(ImageFault::Short);
    }
    let id = number_at(file, 0);
    if id != CONTENT_ID {
        return Err(ImageFault::NotCfe(id));
    }
    let name = before_zero(&file[NAME_AT..NAME_AT + NAME_BYTES]);
    if !is_table_name(name) {
        return Err(ImageFault::BadName);
    }
    let said = number_at(file, SIZE_AT);
    if said == 0 {
        return Err(ImageFault::Empty);
    }
    let given = (file.len() - HEADER_BYTES) as u32;
    if said != given {
        return Err(ImageFault::Size { said, given });
    }
    Ok(fields(file, name))
}

// The fields of a file that has both headers, its name among them.
fn fields<'a>(file: &'a [u8], name: &'a [u8]) -> Image<'a>
    requires size { 116 ≤ length file.now }
    requires name { name.now ≡ name_in file.now }
    ensures { HasFields file.now result }
{
    Image {
        sub: number_at(file, 4),
        length: number_at(file, 8),
        spacecraft: number_at(file, 12),
        processor: number_at(file, 16),
        application: number_at(file, 20),
        seconds: number_at(file, 24),
        subseconds: number_at(file, 28),
        description: &file[DESCRIPTION_AT..TABLE_AT],
        reserved: number_at(file, TABLE_AT),
        offset: number_at(file, OFFSET_AT),
        name,
        bytes: &file[HEADER_BYTES..],
    }
}

// The number that begins at a place.
fn number_at(file: &[u8], place: usize) -> u32
    requires { place + 4 ≤ length file.now }
    ensures { result ≡ number_at place file.now }
{
    BigEndian::read_u32(&file[place..])
}

// What stands in a field before its first zero byte.
fn before_zero(field: &[u8]) -> &[u8]
    ensures { result.now ≡ before_first (λ byte. byte == 0) field.now }
{
    match first_zero(field) {
        Some(end) => &field[..end],
        None => field,
    }
}

// The place of the first zero byte.
fn first_zero(field: &[u8]) -> Option<usize>
    ensures { result ≡ position (λ byte. byte == 0) field.now }
{
    field.iter().position(|&byte| byte == 0)
}

/// Whether an image may have this name: 1 to 39 visible ASCII characters.
#[tactic(auto, unfolding(crate::specs::Image::is_table_name))]
pub fn is_table_name(name: &[u8]) -> bool
    ensures { result ≡ is_table_name name.now }
{
    1 <= name.len() && name.len() < NAME_BYTES && are_visible(name)
}

// Whether each byte is visible ASCII.
fn are_visible(name: &[u8]) -> bool
    ensures { result ≡ list_all (λ byte. nat_le 0x21 byte && nat_le byte 0x7e) name.now }
{
    name.iter().all(|&byte| 0x21 <= byte && byte <= 0x7e)
}
