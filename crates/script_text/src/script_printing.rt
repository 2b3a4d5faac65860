//! Printing a script.
ghost use Rattle.std.specs.Prelude.{◌≡◌, ℕ, ◌≤◌, false, true, List, ◌∷◌, [], ◌++◌, length, map, Ok, OnOk, OnErr, codes, decimal};
ghost use Rattle.std.specs.List.{flat_map};
ghost use Rattle.fsw_base.specs.Limits.{usual_limits, limits_of};
ghost use Rattle.fsw_base.specs.Blocks.{usual_sizes};
ghost use Rattle.fsw_base.specs.Outside.{Rose};
ghost use Rattle.script_words.specs.Text.{is_same};
ghost use Rattle.text_page.specs.Pieces.{Grew, CutShort, Puts};
ghost use Rattle.script_text.specs.Spelling.{behind, line_text};
ghost use Rattle.app_script.specs.Grammar.{grammar};
ghost use Rattle.app_script.specs.ScriptRanges.{limit_of};
ghost use Rattle.script_text.specs.ScriptSpelling.{version_lines, limit_word, set_lines_of, set_lines, sizes_lines, seq_text, app_lines, ended, spelled_script};

use crate::print_line;
use app_script::{App, Script};
use fsw_base::{BlockSizes, Config, CountStarts, Sink, SinkGuard, WriteFault};
use script_settings::LimitName;
use text_page::{Page, finish, put, put_hex_id, put_number};

/// Writes the one spelling of a script: the line `script 2` if it has version 2, each setting
/// that isn't the usual one, then the applications with their call lines, words with a space
/// between each two and a line feed at each line's end. If it has at most 1,048,576 bytes, as a
/// text may, it is read as this script again.
///
/// The sink is given the text in pages of 4096 bytes, of which it may take less at a time. No
/// memory is taken. No write through this guard may have failed before.
///
/// # Errors
/// `WriteFault` only if a write failed, so that the sink's count of faults rose in this call (or
/// stands at its last value); the sink then has a front of the text, and after the failed write
/// nothing more is written.
pub fn print_script<K: Sink>(script: &Script, sink: &mut SinkGuard<'_, K>) -> Result<(), WriteFault>
    requires { sink.old.failed ≡ false }
    ensures ok { OnOk result (Grew sink.old.written sink.new.written (spelled_script script.now)) }
    ensures none_failed { OnOk result (sink.new.failed ≡ false) }
    ensures err { OnErr result
        (CutShort sink.old.written sink.new.written (spelled_script script.now)) }
    ensures failed { OnErr result (sink.new.failed ≡ true) }
    ensures cause { OnErr result (Rose sink.old.faults sink.new.faults) }
    ensures never_falls { sink.old.faults ≤ sink.new.faults }
    ensures same_sink { sink.new.sink ≡ sink.old.sink }
    ensures reads_back { OnOk result
        (length (spelled_script script.now) ≤ 1048576 →
        grammar (spelled_script script.now) ≡ Ok script.now) }
{
    script.recall_ranges();
    let config = script.config();
    let mut page = Page::new();
    put_version(sink, &mut page, config.version);
    put_limits(sink, &mut page, config);
    put_sizes(sink, &mut page, &config.sizes);
    put_starts(sink, &mut page, &config.starts);
    put_applications(sink, &mut page, script.applications());
    finish(sink, &mut page)
}

// Puts the line of the version, if it isn't 1.
fn put_version<K: Sink>(sink: &mut SinkGuard<'_, K>, page: &mut Page, version: u32)
    ensures { Puts sink.old sink.new page.old page.new (ended (version_lines version)) }
{
    if version != 1 {
        put(sink, page, b"script ");
        put_number(sink, page, version);
        put(sink, page, b"\n");
    }
}

// Puts the lines of the limits that aren't the usual ones.
fn put_limits<K: Sink>(sink: &mut SinkGuard<'_, K>, page: &mut Page, config: &Config)
    ensures { Puts sink.old sink.new page.old page.new (ended (set_lines (limits_of config.now))) }
{
    put_limit(sink, page, LimitName::MsgIds, config.msgids);
    put_limit(sink, page, LimitName::Pipes, config.pipes);
    put_limit(sink, page, LimitName::Dests, config.dests);
    put_limit(sink, page, LimitName::Depth, config.depth);
    put_limit(sink, page, LimitName::MsgMax, config.msgmax);
    put_limit(sink, page, LimitName::Pool, config.pool);
    put_limit(sink, page, LimitName::AppPool, config.apppool);
    put_limit(sink, page, LimitName::Tables, config.tables);
    put_limit(sink, page, LimitName::Handles, config.handles);
    put_limit(sink, page, LimitName::TableMax, config.tablemax);
    put_limit(sink, page, LimitName::TablePool, config.tablepool);
}

// Puts the line of a limit, if it isn't the usual one.
fn put_limit<K: Sink>(sink: &mut SinkGuard<'_, K>, page: &mut Page, name: LimitName, value: u32)
    ensures { Puts sink.old sink.new page.old page.new (ended (set_lines_of name value)) }
{
    if value != usual_limit(name) {
        put(sink, page, b"set ");
        put(sink, page, limit_word(name));
        put(sink, page, b" ");
        put_number(sink, page, value);
        put(sink, page, b"\n");
    }
}

// The value of a limit if a script doesn't set it.
fn usual_limit(name: LimitName) -> u32
    ensures { result ≡ limit_of usual_limits name }
{
    match name {
        LimitName::MsgIds => 256,
        LimitName::Pipes => 64,
        LimitName::Dests => 16,
        LimitName::Depth => 256,
        LimitName::MsgMax => 32768,
        LimitName::Pool => 524288,
        LimitName::AppPool => 65536,
        LimitName::Tables => 128,
        LimitName::Handles => 256,
        LimitName::TableMax => 16384,
        LimitName::TablePool => 524288,
    }
}

// The word for a limit.
fn limit_word(name: LimitName) -> &'static [u8]
    ensures { result.now ≡ limit_word name }
{
    match name {
        LimitName::MsgIds => b"msgids",
        LimitName::Pipes => b"pipes",
        LimitName::Dests => b"dests",
        LimitName::Depth => b"depth",
        LimitName::MsgMax => b"msgmax",
        LimitName::Pool => b"pool",
        LimitName::AppPool => b"apppool",
        LimitName::Tables => b"tables",
        LimitName::Handles => b"handles",
        LimitName::TableMax => b"tablemax",
        LimitName::TablePool => b"tablepool",
    }
}

// Puts the line of the block sizes, if they aren't the usual ones.
fn put_sizes<K: Sink>(sink: &mut SinkGuard<'_, K>, page: &mut Page, sizes: &BlockSizes)
    ensures { Puts sink.old sink.new page.old page.new (ended (sizes_lines sizes.now)) }
{
    if !are_usual(sizes) {
        put(sink, page, b"sizes");
        put_each_size(sink, page, sizes);
        put(sink, page, b"\n");
    }
}

// Whether block sizes are the usual ones.
fn are_usual(sizes: &BlockSizes) -> bool
    ensures { result ≡ is_same sizes.now usual_sizes }
{
    let usual = BlockSizes::usual();
    if sizes.count() != usual.count() {
        return false;
    }
    for i in 0..sizes.count() {
        if sizes.at(i) != usual.at(i) {
            return false;
        }
    }
    true
}

// Puts block sizes, each behind a space.
fn put_each_size<K: Sink>(sink: &mut SinkGuard<'_, K>, page: &mut Page, sizes: &BlockSizes)
    ensures { Puts sink.old sink.new page.old page.new (behind (map decimal sizes.now)) }
{
    for i in 0..sizes.count() {
        put(sink, page, b" ");
        put_number(sink, page, sizes.at(i));
    }
}

// Puts the lines of the starts of counts.
fn put_starts<K: Sink>(sink: &mut SinkGuard<'_, K>, page: &mut Page, starts: &CountStarts)
    ensures { Puts sink.old sink.new page.old page.new (ended (map seq_text starts.now)) }
{
    for i in 0..starts.count() {
        put_start(sink, page, starts.at(i));
    }
}

// Puts the line of a count's start.
fn put_start<K: Sink>(sink: &mut SinkGuard<'_, K>, page: &mut Page, start: (u16, u16))
    ensures { Puts sink.old sink.new page.old page.new (seq_text start ++ codes "\n") }
{
    put(sink, page, b"seq ");
    put_hex_id(sink, page, start.0);
    put(sink, page, b" ");
    put_number(sink, page, start.1);
    put(sink, page, b"\n");
}

// Puts the lines of the applications.
fn put_applications<K: Sink>(sink: &mut SinkGuard<'_, K>, page: &mut Page, apps: &[App])
    ensures { Puts sink.old sink.new page.old page.new (ended (flat_map app_lines apps.now)) }
{
    for app in apps {
        put_application(sink, page, app);
    }
}

// Puts the lines of an application.
fn put_application<K: Sink>(sink: &mut SinkGuard<'_, K>, page: &mut Page, app: &App)
    ensures { Puts sink.old sink.new page.old page.new (ended (app_lines app.now)) }
{
    put(sink, page, b"app ");
    put(sink, page, app.name());
    put(sink, page, b"\n");
    put_lines(sink, page, app);
}

// Puts the call lines of an application.
fn put_lines<K: Sink>(sink: &mut SinkGuard<'_, K>, page: &mut Page, app: &App)
    ensures { Puts sink.old sink.new page.old page.new (ended (map line_text app.now.lines)) }
{
    for i in 0..app.lines() {
        print_line(sink, page, app.line(i));
        put(sink, page, b"\n");
    }
}
