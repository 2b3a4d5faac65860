//! Packets and table image files: calls on bytes, without a handle.
ghost use Rattle.std.specs.Prelude.{◌≡◌, ◌≢◌, ◌≤◌, ◌++◌, length, drop, Some};
ghost use Rattle.ccsds_msg.specs.Message.{message_flags, header_of, header_bytes, with_count, function_code_of, with_function_code};
ghost use Rattle.tbl_file.specs.Image.{name_in, table_in, offset_in};
ghost use Rattle.fsw_c.specs.Bytes.{read_code, write_code, count_code, code_read_code, code_set_code, fault_code, image_code, header_in, ShowsImage};

use crate::bus_codes::SB_BAD_ARGUMENT;
use crate::codes::SUCCESS;
use crate::seen::FswBytes;
use byteorder::{BigEndian, ByteOrder};
use ccsds_msg::{
    count_of, function_code, id_of, set_count, set_function_code, size_of, write_header,
};
use fsw_base::{MAX_COUNT, MAX_ID, MAX_MESSAGE_BYTES};
use tbl_file::{Image, ImageFault, read_image};

// How many sequence counts there are.
const COUNTS: u16 = 16384;

// The packet is no command with a secondary header.
const WRONG_MSG_TYPE: u32 = 0xca00_000d;

/// The primary header of a packet.
#[repr(C)]
#[derive(Clone, Copy)]
pub struct FswHeader {
    /// The whole packet, 7 to 65542 bytes.
    pub size: u32,
    /// The first 16 bits.
    pub id: u16,
    /// The sequence count, 0 to 16383.
    pub count: u16,
    /// The sequence flags, 0 to 3.
    pub flags: u8,
}

/// A table image file.
#[repr(C)]
#[derive(Clone, Copy)]
pub struct FswImage {
    /// 32 bytes for people.
    pub description: FswBytes,
    /// The table's name.
    pub name: FswBytes,
    /// What is loaded.
    pub bytes: FswBytes,
    /// Where in the table.
    pub offset: u32,
}

impl FswImage {
    // The fields of an image that a program in C reads, where they lie in the file.
    fn of(image: &Image<'_>) -> FswImage
        ensures description { result.description.len ≡ length image.now.description.now }
        ensures name { result.name.len ≡ length image.now.name.now }
        ensures bytes { result.bytes.len ≡ length image.now.bytes.now }
        ensures offset { result.offset ≡ image.now.offset }
    {
        FswImage {
            description: FswBytes::of(image.description),
            name: FswBytes::of(image.name),
            bytes: FswBytes::of(image.bytes),
            offset: image.offset,
        }
    }
}

// The sequence flags.
fn flags_of(bytes: &[u8]) -> u8
    requires { 6 ≤ length bytes.now }
    ensures { result ≡ message_flags bytes.now }
{
    (BigEndian::read_u16(&bytes[2..]) / COUNTS % 4) as u8
}

/// Reads the primary header that begins here. No field is tested.
#[unsafe(no_mangle)]
pub extern "C" fn fsw_raw_read_header(bytes: &[u8], header: &mut FswHeader) -> u32
    ensures status { result ≡ read_code bytes.now }
    ensures kept { result ≢ 0 → header.new ≡ header.old }
    ensures fields { result ≡ 0 → header_in header.new ≡ header_of bytes.now }
{
    if bytes.len() < 6 {
        return SB_BAD_ARGUMENT;
    }
    *header = FswHeader {
        size: size_of(bytes),
        id: id_of(bytes),
        count: count_of(bytes),
        flags: flags_of(bytes),
    };
    SUCCESS
}

/// Writes the primary header of a packet that fills the bytes.
#[unsafe(no_mangle)]
pub extern "C" fn fsw_raw_write_header(bytes: &mut [u8], id: u16, count: u16) -> u32
    ensures status { result ≡ write_code id count bytes.old }
    ensures kept { result ≢ 0 → bytes.new ≡ bytes.old }
    ensures written { result ≡ 0 →
        bytes.new ≡ header_bytes id count (length bytes.old) ++ drop 6 bytes.old }
{
    let fits = 7 <= bytes.len() && bytes.len() <= MAX_MESSAGE_BYTES as usize;
    if !fits || id == 0 || id > MAX_ID || count > MAX_COUNT {
        return SB_BAD_ARGUMENT;
    }
    write_header(bytes, id, count);
    SUCCESS
}

/// Sets the sequence count.
#[unsafe(no_mangle)]
pub extern "C" fn fsw_raw_set_count(bytes: &mut [u8], count: u16) -> u32
    ensures status { result ≡ count_code count bytes.old }
    ensures kept { result ≢ 0 → bytes.new ≡ bytes.old }
    ensures written { result ≡ 0 → bytes.new ≡ with_count bytes.old count }
{
    if bytes.len() < 6 || count > MAX_COUNT {
        return SB_BAD_ARGUMENT;
    }
    set_count(bytes, count);
    SUCCESS
}

/// Gives the function code of a command.
#[unsafe(no_mangle)]
pub extern "C" fn fsw_raw_function_code(bytes: &[u8], code: &mut u8) -> u32
    ensures status { result ≡ code_read_code bytes.now }
    ensures kept { result ≢ 0 → code.new ≡ code.old }
    ensures code { result ≡ 0 → function_code_of bytes.now ≡ Some code.new }
{
    if bytes.len() < 7 {
        return SB_BAD_ARGUMENT;
    }
    match function_code(bytes) {
        Some(read) => {
            *code = read;
            SUCCESS
        }
        None => WRONG_MSG_TYPE,
    }
}

/// Sets the function code of a command.
#[unsafe(no_mangle)]
pub extern "C" fn fsw_raw_set_function_code(bytes: &mut [u8], code: u8) -> u32
    ensures status { result ≡ code_set_code code bytes.old }
    ensures kept { result ≢ 0 → bytes.new ≡ bytes.old }
    ensures written { result ≡ 0 → bytes.new ≡ with_function_code bytes.old code }
{
    if bytes.len() < 7 || code > 127 {
        return SB_BAD_ARGUMENT;
    }
    if set_function_code(bytes, code) {
        SUCCESS
    } else {
        WRONG_MSG_TYPE
    }
}

// The number of what is wrong with an image.
fn code_of_fault(fault: ImageFault) -> u32
    ensures { result ≡ fault_code fault }
{
    match fault {
        ImageFault::TooLarge | ImageFault::Empty | ImageFault::Size { .. } => 0xcc00_001c,
        ImageFault::Short => 0xcc00_001d,
        ImageFault::NotCfe(_) => 0xcc00_0016,
        ImageFault::BadName => 0xcc00_001e,
    }
}

/// Reads a table image file.
#[unsafe(no_mangle)]
pub extern "C" fn fsw_raw_read_image(file: &[u8], image: &mut FswImage) -> u32
    ensures status { result ≡ image_code file.now }
    ensures kept { result ≢ 0 → image.new ≡ image.old }
    ensures shown { result ≡ 0 → ShowsImage file.now image.new }
{
    if file.len() > u32::MAX as usize {
        return code_of_fault(ImageFault::TooLarge);
    }
    match read_image(file) {
        Ok(read) => {
            *image = FswImage::of(&read);
            SUCCESS
        }
        Err(fault) => code_of_fault(fault),
    }
}
