//! The journal of the tables: every call with its answer, in the order in which they took effect.
ghost use Rattle.std.specs.Prelude.{◌≡◌, ◌+◌, ◌^◌, ◌<◌, ◌≤◌, [], length, slice_get, IfOk, Some};
ghost use Rattle.journal_store.specs.Budgets.{AreBudgets, HasRoom, allowance_of, entries_left};
ghost use Rattle.tbl_words.specs.Log.{Log, with_entry, left_of};
ghost use Rattle.tbl_words.specs.Entries.{call_of, entry_of, call_bytes};

use crate::calls::{TblAnswer, TblCall, TblEntry};
use fsw_base::{AppNo, Budget};
use journal_store::{Allowance, JournalStore};
use std::alloc::{AllocError, Global};
use std::marker::Model;

// An entry but for its application and its bytes.
#[derive(Debug, Drop)]
struct Row {
    // The call without its bytes, which lie beside the row.
    call: TblCall<'static>,
    answer: TblAnswer,
}

/// A list of entries with room for what each application's budget allows. By the code, all its
/// memory is taken when it is made.
pub struct TblJournal {
    // A row for each entry, in order.
    store: JournalStore<Row>,
}

impl Drop for TblJournal {
    fn drop(self) {
        let TblJournal { store: _store } = self;
    }
}

impl Model for TblJournal {
    ghost use Rattle.tbl_words.specs.Log.{Log};
    ghost use Rattle.tbl_words.specs.Inside.{entries_in, AreWhole};

    ghost Value = { Log };

    ghost view = { λ j.
        record { budgets = j.store.budgets; entries = entries_in j.store.rows } };

    ghost invariant = { λ j. AreWhole j.store.rows };
}

impl TblJournal {
    /// An empty journal of the applications 1, 2, 3 and so on that have these budgets.
    ///
    /// # Errors
    /// `AllocError` if memory runs out.
    pub fn new(alloc: Global, budgets: &[Budget]) -> Result<TblJournal, AllocError>
        requires { AreBudgets budgets.now }
        ensures { IfOk result
            (λ journal. journal ≡ record { budgets = budgets.now; entries = [] }) }
    {
        Ok(TblJournal {
            store: JournalStore::new(alloc, budgets)?,
        })
    }

    /// How many entries there are.
    pub fn len(&self) -> u32
        ensures len { result ≡ length self.now.entries }
        ensures few { length self.now.entries + entries_left (left_of self.now) < 2 ^ 32 }
        ensures applications { length self.now.budgets ≤ 16 }
    {
        self.store.len()
    }

    /// How many applications may have entries.
    pub fn apps(&self) -> u32
        ensures { result ≡ length self.now.budgets }
    {
        self.store.apps()
    }

    /// What the application may still add.
    pub fn left(&self, app: AppNo) -> Allowance
        requires { app ≤ length self.now.budgets }
        ensures { result ≡ allowance_of (left_of self.now) app }
    {
        self.store.left(app)
    }

    /// The entry at a place; places count from 0.
    pub fn get(&self, i: u32) -> TblEntry<'_>
        requires { i < length self.now.entries }
        ensures { slice_get self.now.entries i ≡ Some (entry_of result) }
    {
        let row = self.store.row(i);
        TblEntry {
            app: self.store.app(i),
            call: row.call.with_text(self.store.text(i)),
            answer: row.answer,
        }
    }

    /// Adds an entry at the end. Its application must have an entry left, and the bytes of its name
    /// or of what it loads.
    pub fn push(&mut self, entry: &TblEntry<'_>)
        requires { HasRoom (left_of self.old) entry.now.app (call_bytes (call_of entry.now.call)) }
        ensures { self.new ≡ with_entry self.old (entry_of entry.now) }
    {
        let row = Row {
            call: entry.call.with_text(b""),
            answer: entry.answer,
        };
        self.store.push(entry.app, row, entry.call.text());
    }
}
