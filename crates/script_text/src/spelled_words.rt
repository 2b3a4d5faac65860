//! The words of a line, each behind a space.
ghost use Rattle.std.specs.Prelude.{ℕ, List, ◌∷◌, [], codes, decimal};
ghost use Rattle.text_page.specs.Pieces.{Puts};
ghost use Rattle.text_page.specs.Texts.{hex_id, hex_bytes, name_text};
ghost use Rattle.script_text.specs.Spelling.{spaced, scope_text, mode_text, content_text, filter_text, rule_text};

use fsw_base::{Scope, Sink, SinkGuard};
use script_lines::{Content, Rule};
use text_page::{Number, Page, put, put_hex_bytes, put_hex_id, put_name, put_number};

/// Puts a word.
pub(crate) fn put_word<K: Sink>(sink: &mut SinkGuard<'_, K>, page: &mut Page, word: &[u8])
    ensures { Puts sink.old sink.new page.old page.new (32 ∷ word.now) }
{
    put(sink, page, b" ");
    put(sink, page, word);
}

/// Puts a register: its letter and its number.
pub(crate) fn put_register<K: Sink>(
    sink: &mut SinkGuard<'_, K>,
    page: &mut Page,
    letter: u8,
    number: u32,
)
    ensures { Puts sink.old sink.new page.old page.new (32 ∷ letter ∷ decimal number) }
{
    put(sink, page, &[b' ', letter]);
    put_number(sink, page, number);
}

/// Puts a line of a first word and one register.
pub(crate) fn put_alone<K: Sink>(
    sink: &mut SinkGuard<'_, K>,
    page: &mut Page,
    word: &[u8],
    letter: u8,
    number: u32,
)
    ensures { Puts sink.old sink.new page.old page.new
        (spaced (word.now ∷ (letter ∷ decimal number) ∷ [])) }
{
    put(sink, page, word);
    put_register(sink, page, letter, number);
}

/// Puts a number in decimal.
pub(crate) fn put_figure<K: Sink, N: Number>(
    sink: &mut SinkGuard<'_, K>,
    page: &mut Page,
    number: N,
)
    ensures { Puts sink.old sink.new page.old page.new (32 ∷ N.text number) }
{
    put(sink, page, b" ");
    put_number(sink, page, number);
}

/// Puts a message id.
pub(crate) fn put_id_word<K: Sink>(sink: &mut SinkGuard<'_, K>, page: &mut Page, id: u16)
    ensures { Puts sink.old sink.new page.old page.new (32 ∷ hex_id id) }
{
    put(sink, page, b" ");
    put_hex_id(sink, page, id);
}

/// Puts a name, or a hyphen for the empty one.
pub(crate) fn put_name_word<K: Sink>(sink: &mut SinkGuard<'_, K>, page: &mut Page, name: &[u8])
    ensures { Puts sink.old sink.new page.old page.new (32 ∷ name_text name.now) }
{
    put(sink, page, b" ");
    put_name(sink, page, name);
}

/// Puts bytes as their digits.
pub(crate) fn put_bytes_word<K: Sink>(sink: &mut SinkGuard<'_, K>, page: &mut Page, bytes: &[u8])
    ensures { Puts sink.old sink.new page.old page.new (32 ∷ hex_bytes bytes.now) }
{
    put(sink, page, b" ");
    put_hex_bytes(sink, page, bytes);
}

/// Puts a subscription's scope.
pub(crate) fn put_scope_word<K: Sink>(sink: &mut SinkGuard<'_, K>, page: &mut Page, scope: Scope)
    ensures { Puts sink.old sink.new page.old page.new (32 ∷ scope_text scope) }
{
    match scope {
        Scope::Global => put(sink, page, b" global"),
        Scope::Local => put(sink, page, b" local"),
    }
}

/// Puts whether a send gives its message the next sequence count.
pub(crate) fn put_mode_word<K: Sink>(sink: &mut SinkGuard<'_, K>, page: &mut Page, inc: bool)
    ensures { Puts sink.old sink.new page.old page.new (32 ∷ mode_text inc) }
{
    if inc {
        put(sink, page, b" inc");
    } else {
        put(sink, page, b" keep");
    }
}

/// Puts the bytes of a load: their digits, or how many there are and the first one.
pub(crate) fn put_content_word<K: Sink>(
    sink: &mut SinkGuard<'_, K>,
    page: &mut Page,
    content: &Content,
)
    ensures { Puts sink.old sink.new page.old page.new (32 ∷ content_text content.now) }
{
    match content {
        Content::Hex(bytes) => put_bytes_word(sink, page, bytes.as_slice()),
        Content::Fill { len, byte } => {
            put(sink, page, b" fill:");
            put_number(sink, page, *len);
            put(sink, page, b":");
            put_number(sink, page, *byte);
        }
    }
}

/// Puts an event id and its mask.
pub(crate) fn put_filter_word<K: Sink>(
    sink: &mut SinkGuard<'_, K>,
    page: &mut Page,
    filter: (u16, u16),
)
    ensures { Puts sink.old sink.new page.old page.new (32 ∷ filter_text filter) }
{
    put(sink, page, b" ");
    put_number(sink, page, filter.0);
    put(sink, page, b":");
    put_hex_id(sink, page, filter.1);
}

/// Puts a rule: the place of a byte, and the least and the greatest value that it may have.
pub(crate) fn put_rule_word<K: Sink>(sink: &mut SinkGuard<'_, K>, page: &mut Page, rule: Rule)
    ensures { Puts sink.old sink.new page.old page.new (32 ∷ rule_text rule) }
{
    put(sink, page, b" ");
    put_number(sink, page, rule.offset);
    put(sink, page, b":");
    put_number(sink, page, rule.low);
    put(sink, page, b":");
    put_number(sink, page, rule.high);
}
