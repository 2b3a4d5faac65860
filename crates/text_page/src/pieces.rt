//! Numbers, ids, names and bytes as pieces of a text.
ghost use Rattle.std.specs.Prelude.{◌≡◌, ◌<◌, ◌≤◌, length};
ghost use Rattle.text_page.specs.Pieces.{Puts};
ghost use Rattle.text_page.specs.Texts.{hex_digit, hex_bytes, hex_id, name_text};

use crate::pages::{Page, put};
use fsw_base::{Sink, SinkGuard};

// So many bytes are put at a time as hexadecimal digits.
const PIECE: usize = 16;

/// Puts a name, or `-` for the empty one.
pub fn put_name<K: Sink>(sink: &mut SinkGuard<'_, K>, page: &mut Page, name: &[u8])
    ensures { Puts sink.old sink.new page.old page.new (name_text name.now) }
{
    if name.is_empty() {
        put(sink, page, b"-");
    } else {
        put(sink, page, name);
    }
}

/// Puts a message id as `0x` and four hexadecimal digits.
pub fn put_hex_id<K: Sink>(sink: &mut SinkGuard<'_, K>, page: &mut Page, id: u16)
    ensures { Puts sink.old sink.new page.old page.new (hex_id id) }
{
    put(sink, page, &hex_id(id));
}

/// A message id as `0x` and four hexadecimal digits, for a text that no page has.
pub fn hex_id(id: u16) -> [u8; 6]
    ensures { result ≡ hex_id id }
{
    let high = (id / 256) as u8;
    let low = (id % 256) as u8;
    [
        b'0',
        b'x',
        hex_digit(high / 16),
        hex_digit(high % 16),
        hex_digit(low / 16),
        hex_digit(low % 16),
    ]
}

/// Puts bytes as two hexadecimal digits each.
pub fn put_hex_bytes<K: Sink>(sink: &mut SinkGuard<'_, K>, page: &mut Page, bytes: &[u8])
    ensures { Puts sink.old sink.new page.old page.new (hex_bytes bytes.now) }
{
    for piece in bytes.chunks(PIECE) {
        put_hex_piece(sink, page, piece);
    }
}

// Puts a few bytes as two hexadecimal digits each.
fn put_hex_piece<K: Sink>(sink: &mut SinkGuard<'_, K>, page: &mut Page, bytes: &[u8])
    requires { length bytes.now ≤ 16 }
    ensures { Puts sink.old sink.new page.old page.new (hex_bytes bytes.now) }
{
    let mut digits = [0; 2 * PIECE];
    for (i, byte) in bytes.iter().enumerate() {
        digits[2 * i] = hex_digit(*byte / 16);
        digits[2 * i + 1] = hex_digit(*byte % 16);
    }
    put(sink, page, &digits[..2 * bytes.len()]);
}

// The hexadecimal digit of a number below 16.
fn hex_digit(number: u8) -> u8
    requires { number < 16 }
    ensures { result ≡ hex_digit number }
{
    if number < 10 {
        b'0' + number
    } else {
        b'a' - 10 + number
    }
}
