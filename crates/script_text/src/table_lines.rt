//! The lines of tables.
ghost use Rattle.std.specs.Prelude.{ℕ, List, ◌∷◌, [], map, codes, decimal};
ghost use Rattle.script_words.specs.declared.content.Content.{Content};
ghost use Rattle.text_page.specs.Pieces.{Puts};
ghost use Rattle.script_lines.specs.declared.line.Line.TheVariants.{TableRegister, TableShare};
ghost use Rattle.script_text.specs.Spelling.{line_text, spaced, behind, rule_text, content_text, table_word};

use crate::spelled_words::{
    put_content_word, put_figure, put_name_word, put_register, put_rule_word,
};
use fsw_base::{Sink, SinkGuard};
use script_lines::{Content, RuleList};
use text_page::{Page, put};
/// Puts the line of `treg`.
pub(crate) fn put_table_register<K: Sink>(
    sink: &mut SinkGuard<'_, K>,
    page: &mut Page,
    handle: u32,
    name: &[u8],
    size: u32,
    option: u32,
    rules: &RuleList,
)
    ensures { Puts sink.old sink.new page.old page.new
        (line_text (TableRegister handle name.now size option rules.now)) }
{
    put(sink, page, b"treg");
    put_register(sink, page, b't', handle);
    put_name_word(sink, page, name);
    put_figure(sink, page, size);
    put_figure(sink, page, option);
    put_rules(sink, page, rules);
}

// Puts rules, each behind a space.
fn put_rules<K: Sink>(sink: &mut SinkGuard<'_, K>, page: &mut Page, rules: &RuleList)
    ensures { Puts sink.old sink.new page.old page.new (behind (map rule_text rules.now)) }
{
    for i in 0..rules.count() {
        put_rule_word(sink, page, rules.at(i));
    }
}

/// Puts the line of a load, with its first word, `tstage` or `tload`.
pub(crate) fn put_load<K: Sink>(
    sink: &mut SinkGuard<'_, K>,
    page: &mut Page,
    word: &[u8],
    handle: u32,
    offset: u32,
    content: &Content,
)
    ensures { Puts sink.old sink.new page.old page.new
        (spaced (word.now ∷ table_word handle ∷ decimal offset ∷ content_text content.now ∷ [])) }
{
    put(sink, page, word);
    put_register(sink, page, b't', handle);
    put_figure(sink, page, offset);
    put_content_word(sink, page, content);
}

/// Puts the line of `tshare`.
pub(crate) fn put_table_share<K: Sink>(
    sink: &mut SinkGuard<'_, K>,
    page: &mut Page,
    handle: u32,
    name: &[u8],
)
    ensures { Puts sink.old sink.new page.old page.new (line_text (TableShare handle name.now)) }
{
    put(sink, page, b"tshare");
    put_register(sink, page, b't', handle);
    put_name_word(sink, page, name);
}
