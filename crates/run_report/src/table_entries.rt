//! The lines on the calls of the tables.
ghost use Rattle.std.specs.Prelude.{◌≡◌, ℕ, ◌≤◌, ◌++◌, false, true, decimal, OnOk, OnErr};
ghost use Rattle.fsw_base.specs.Outside.{Rose};
ghost use Rattle.tbl_words.specs.declared.history.Call.TheVariants.{Register, Share};
ghost use Rattle.tbl_words.specs.Entries.{call_of, entry_of};
ghost use Rattle.text_page.specs.Pieces.{CutShort, Grew, Puts};
ghost use Rattle.run_report.specs.TableText.{load_text, table_call_text, told_text, flag_text, table_figures_text, failed_rule_text, table_answer_text, table_entry_text, table_entries_text};

use crate::sums::sum_of;
use fsw_base::{Sink, SinkGuard, WriteFault};
use tbl_rules::RuleList;
use tbl_words::{TblAnswer, TblCall, TblEntry, TblJournal, TblState, TblStatus, Told};
use text_page::{Page, finish, put, put_name, put_number};

/// Puts the lines of a journal of the tables, whose entries are numbered from 1.
pub fn put_table_entries<K: Sink>(
    sink: &mut SinkGuard<'_, K>,
    page: &mut Page,
    journal: &TblJournal,
)
    ensures { Puts sink.old sink.new page.old page.new (table_entries_text journal.now.entries) }
{
    for i in 0..journal.len() {
        put_table_entry(sink, page, i + 1, &journal.get(i));
    }
}

/// Writes the line of one entry of the tables, under this number.
///
/// No memory is taken. No write through this guard may have failed before.
///
/// # Errors
/// `WriteFault` as [`crate::write_report`].
pub fn write_tbl_entry<K: Sink>(
    number: u32,
    entry: &TblEntry<'_>,
    sink: &mut SinkGuard<'_, K>,
) -> Result<(), WriteFault>
    requires { sink.old.failed ≡ false }
    ensures ok { OnOk result (Grew sink.old.written sink.new.written
        (table_entry_text number (entry_of entry.now))) }
    ensures none_failed { OnOk result (sink.new.failed ≡ false) }
    ensures err { OnErr result (CutShort sink.old.written sink.new.written
        (table_entry_text number (entry_of entry.now))) }
    ensures failed { OnErr result (sink.new.failed ≡ true) }
    ensures cause { OnErr result (Rose sink.old.faults sink.new.faults) }
    ensures never_falls { sink.old.faults ≤ sink.new.faults }
    ensures same_sink { sink.new.sink ≡ sink.old.sink }
{
    let mut page = Page::new();
    put_table_entry(sink, &mut page, number, entry);
    finish(sink, &mut page)
}

/// Puts the line of one entry of the tables, under this number.
pub fn put_table_entry<K: Sink>(
    sink: &mut SinkGuard<'_, K>,
    page: &mut Page,
    number: u32,
    entry: &TblEntry<'_>,
)
    ensures { Puts sink.old sink.new page.old page.new
        (table_entry_text number (entry_of entry.now)) }
{
    put_number(sink, page, number);
    put(sink, page, b" a");
    put_number(sink, page, entry.app.get());
    put(sink, page, b" ");
    put_table_call(sink, page, &entry.call);
    put(sink, page, b" -> ");
    put_table_answer(sink, page, &entry.answer);
    put(sink, page, b"\n");
}

// Puts a call.
fn put_table_call<K: Sink>(sink: &mut SinkGuard<'_, K>, page: &mut Page, call: &TblCall<'_>)
    ensures { Puts sink.old sink.new page.old page.new (table_call_text (call_of call.now)) }
{
    match call {
        TblCall::Register {
            name,
            size,
            option,
            rules,
        } => put_register(sink, page, name, *size, *option, rules),
        TblCall::Share { name } => put_share(sink, page, name),
        TblCall::Unregister { handle } => put_handle(sink, page, b"tunreg ", *handle),
        TblCall::Stage {
            handle,
            offset,
            bytes,
        } => put_load(sink, page, b"tstage ", *handle, *offset, bytes),
        TblCall::Validate { handle } => put_handle(sink, page, b"tval ", *handle),
        TblCall::Update { handle } => put_handle(sink, page, b"tupd ", *handle),
        TblCall::Abort { handle } => put_handle(sink, page, b"tabort ", *handle),
        TblCall::Load {
            handle,
            offset,
            bytes,
        } => put_load(sink, page, b"tload ", *handle, *offset, bytes),
        TblCall::GetAddress { handle } => put_handle(sink, page, b"tget ", *handle),
        TblCall::ReleaseAddress { handle } => put_handle(sink, page, b"trel ", *handle),
        TblCall::Status { handle } => put_handle(sink, page, b"tstat ", *handle),
        TblCall::End => put(sink, page, b"end"),
    }
}

// Puts a word, with the blank behind it, and a handle.
fn put_handle<K: Sink>(sink: &mut SinkGuard<'_, K>, page: &mut Page, word: &[u8], handle: u32)
    ensures { Puts sink.old sink.new page.old page.new (word.now ++ decimal handle) }
{
    put(sink, page, word);
    put_number(sink, page, handle);
}

// Puts a registration: of its rules how many there are.
fn put_register<K: Sink>(
    sink: &mut SinkGuard<'_, K>,
    page: &mut Page,
    name: &[u8],
    size: u32,
    option: u32,
    rules: &RuleList,
)
    ensures { Puts sink.old sink.new page.old page.new
        (table_call_text (Register name.now size option rules.now)) }
{
    put(sink, page, b"treg ");
    put_name(sink, page, name);
    put(sink, page, b" ");
    put_number(sink, page, size);
    put(sink, page, b" ");
    put_number(sink, page, option);
    put(sink, page, b" ");
    put_number(sink, page, rules.count());
}

// Puts a share.
fn put_share<K: Sink>(sink: &mut SinkGuard<'_, K>, page: &mut Page, name: &[u8])
    ensures { Puts sink.old sink.new page.old page.new (table_call_text (Share name.now)) }
{
    put(sink, page, b"tshare ");
    put_name(sink, page, name);
}

// Puts a load: its handle and place, and the number and the sum of its bytes.
fn put_load<K: Sink>(
    sink: &mut SinkGuard<'_, K>,
    page: &mut Page,
    word: &[u8],
    handle: u32,
    offset: u32,
    bytes: &[u8],
)
    ensures { Puts sink.old sink.new page.old page.new
        (load_text word.now handle offset bytes.now) }
{
    put_handle(sink, page, word, handle);
    put(sink, page, b" ");
    put_number(sink, page, offset);
    put(sink, page, b" ");
    put_number(sink, page, bytes.len());
    put(sink, page, b" ");
    put_number(sink, page, sum_of(bytes));
}

// Puts what an address is told with.
fn put_told<K: Sink>(sink: &mut SinkGuard<'_, K>, page: &mut Page, told: Told)
    ensures { Puts sink.old sink.new page.old page.new (told_text told) }
{
    match told {
        Told::Same => put(sink, page, b"CFE_SUCCESS"),
        Told::Updated => put(sink, page, b"CFE_TBL_INFO_UPDATED"),
        Told::NeverLoaded => put(sink, page, b"CFE_TBL_ERR_NEVER_LOADED"),
    }
}

// Puts 1 if it is so, else 0.
fn put_flag<K: Sink>(sink: &mut SinkGuard<'_, K>, page: &mut Page, flag: bool)
    ensures { Puts sink.old sink.new page.old page.new (flag_text flag) }
{
    if flag {
        put(sink, page, b"1");
    } else {
        put(sink, page, b"0");
    }
}

// Puts the figures of a table.
fn put_table_figures<K: Sink>(sink: &mut SinkGuard<'_, K>, page: &mut Page, figures: &TblState)
    ensures { Puts sink.old sink.new page.old page.new (table_figures_text figures.now) }
{
    put_number(sink, page, figures.version);
    put(sink, page, b" ");
    put_flag(sink, page, figures.loaded);
    put(sink, page, b" ");
    put_number(sink, page, figures.staged);
    put(sink, page, b" ");
    put_number(sink, page, figures.holds);
}

// Puts the number of the rule that a value failed, behind a blank; nothing of any other refusal.
fn put_failed_rule<K: Sink>(sink: &mut SinkGuard<'_, K>, page: &mut Page, status: TblStatus)
    ensures { Puts sink.old sink.new page.old page.new (failed_rule_text status) }
{
    if let TblStatus::Validation(rule) = status {
        put(sink, page, b" ");
        put_number(sink, page, rule);
    }
}

// Puts an answer.
fn put_table_answer<K: Sink>(sink: &mut SinkGuard<'_, K>, page: &mut Page, answer: &TblAnswer)
    ensures { Puts sink.old sink.new page.old page.new (table_answer_text answer.now) }
{
    match answer {
        TblAnswer::Done => put(sink, page, b"CFE_SUCCESS"),
        TblAnswer::Number(number) => put_handle(sink, page, b"CFE_SUCCESS ", *number),
        TblAnswer::Duplicate(number) => {
            put_handle(sink, page, b"CFE_TBL_WARN_DUPLICATE ", *number)
        }
        TblAnswer::Address { told, version } => {
            put_told(sink, page, *told);
            put(sink, page, b" ");
            put_number(sink, page, *version);
        }
        TblAnswer::State(figures) => {
            put(sink, page, b"CFE_SUCCESS ");
            put_table_figures(sink, page, figures);
        }
        TblAnswer::Refused(status) => {
            put(sink, page, status.name().as_bytes());
            put_failed_rule(sink, page, *status);
        }
    }
}
