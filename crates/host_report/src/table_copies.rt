//! Copies of journals of the tables.
ghost use Rattle.std.specs.Prelude.{◌≡◌, ◌<◌, [], length, IsTrue};
ghost use Rattle.journal_store.specs.Budgets.{allowances};
ghost use Rattle.tbl_words.specs.Entries.{call_of, call_bytes};
ghost use Rattle.tbl_words.specs.Log.{left_of};
ghost use Rattle.host_report.specs.Copies.{has_room, table_fits, CopiesTableEntry};

use fsw_base::AppNo;
use tbl_words::{TblCall, TblEntry, TblJournal};

/// Puts the journal's entries into an empty one; false if one of them isn't within the budgets.
pub(crate) fn copy_table_entries(target: &mut TblJournal, journal: &TblJournal) -> bool
    requires { target.old.entries ≡ [] }
    ensures fits { result ≡ table_fits (allowances target.old.budgets) journal.now.entries }
    ensures copied { IsTrue result → target.new.entries ≡ journal.now.entries }
{
    for i in 0..journal.len() {
        if !copy_table_entry(target, journal, i) {
            return false;
        }
    }
    true
}

// Adds the journal's entry at a place; false if it isn't within its application's budget.
fn copy_table_entry(target: &mut TblJournal, journal: &TblJournal, i: u32) -> bool
    requires { i < length journal.now.entries }
    ensures { CopiesTableEntry target.old target.new journal.now.entries i result }
{
    let TblEntry { app, call, answer } = journal.get(i);
    let fits = table_has_room(target, app, &call);
    if fits {
        target.push(&TblEntry { app, call, answer });
    }
    fits
}

// Whether the application may add this call.
fn table_has_room(journal: &TblJournal, app: AppNo, call: &TblCall<'_>) -> bool
    ensures { result ≡ has_room (left_of journal.now) app (call_bytes (call_of call.now)) }
{
    if app.get() > journal.apps() {
        return false;
    }
    let left = journal.left(app);
    1 <= left.entries && call.byte_count() <= left.bytes as usize
}
