//! A journal whose entries have notes, with the peak of what was in use.
ghost use Rattle.std.specs.Prelude.{◌≡◌, ◌<◌, [], ◌∷◌, ◌++◌, length, Some, slice_get, IfOk};
ghost use Rattle.journal_store.specs.Budgets.{AreBudgets, HasRoom};
ghost use Rattle.tbl_words.specs.declared.history.Entry.{Entry};
ghost use Rattle.tbl_words.specs.Entries.{call_of, call_bytes, entry_of};
ghost use Rattle.tbl_words.specs.Log.{left_of, with_entry};
ghost use Rattle.tbl_words.specs.Uses.{greater_of};
ghost use Rattle.table_blocks.specs.Held.{held_at};
ghost use Rattle.tbl_load.specs.Notes.{IsDue, AreDue, note_seen};

use crate::opening::total_entries;
use fsw_base::Budget;
use lend_block::Note;
use std::alloc::{AllocError, Global};
use std::marker::Model;
use table_blocks::HeldTables;
use tbl_words::{TblAnswer, TblEntry, TblJournal, TblUse};

/// Every call with its answer, what was noted of it, and the greatest numbers that were in use
/// after one of them.
#[derive(Drop)]
pub(crate) struct NotedJournal {
    // Every call with its answer, in order.
    journal: TblJournal,
    // The note of each entry; room for the notes of all that may come.
    notes: Vec<Note>,
    // The greatest numbers that were in use so far.
    peak: TblUse,
}

impl Model for NotedJournal {
    ghost use Rattle.tbl_load.specs.Notes.{NotedLog};

    ghost Value = { NotedLog };

    ghost use Rattle.tbl_load.specs.InsideNoted.{noted_log, HasDueNotes};

    ghost view = { noted_log };

    ghost invariant = { HasDueNotes };
}

impl NotedJournal {
    /// Without an entry, for the applications that have these budgets; nothing was in use.
    ///
    /// # Errors
    /// If memory runs out.
    pub(crate) fn new(alloc: Global, budgets: &[Budget]) -> Result<NotedJournal, AllocError>
        requires { AreBudgets budgets.now }
        ensures { IfOk result
            (λ noted. noted ≡
            record {
              log = record { budgets = budgets.now; entries = [] };
              notes = [];
              peak = record { tables = 0; handles = 0; bytes = 0 };
            }) }
    {
        let entries = total_entries(budgets);
        Ok(NotedJournal {
            journal: TblJournal::new(alloc, budgets)?,
            notes: Vec::with_capacity(alloc, entries as usize)?,
            peak: TblUse {
                tables: 0,
                handles: 0,
                bytes: 0,
            },
        })
    }

    /// One entry more, at the end, the note that is due to it, and what is in use behind it.
    pub(crate) fn push(&mut self, entry: &TblEntry<'_>, note: Note, now: TblUse)
        requires room { HasRoom (left_of self.old.log) entry.now.app
            (call_bytes (call_of entry.now.call)) }
        requires due { IsDue entry.now.answer note }
        ensures pushed { self.new ≡
            record {
              log = with_entry self.old.log (entry_of entry.now);
              notes = self.old.notes ++ note ∷ [];
              peak = greater_of self.old.peak now;
            } }
        ensures due { AreDue self.new.log.entries self.new.notes }
    {
        self.journal.push(entry);
        self.notes.push_reserved(note);
        self.peak = greater_of(self.peak, now);
    }

    /// The entries.
    pub(crate) fn journal(&self) -> &TblJournal
        ensures journal { result.now ≡ self.now.log }
        ensures due { AreDue self.now.log.entries self.now.notes }
    {
        &self.journal
    }

    /// The note of the entry of this number, from 0.
    pub(crate) fn note(&self, i: u32) -> Note
        requires { i < length self.now.log.entries }
        ensures note { Some result ≡ slice_get self.now.notes i }
        ensures due { (e : Entry) → Some e ≡ slice_get self.now.log.entries i →
            IsDue e.answer result }
    {
        self.notes[i as usize].again()
    }

    /// The greatest numbers that were in use so far.
    pub(crate) fn peak(&self) -> TblUse
        ensures { result ≡ self.now.peak }
    {
        self.peak
    }
}

// Of each number the greater one.
fn greater_of(one: TblUse, other: TblUse) -> TblUse
    ensures { result ≡ greater_of one other }
{
    TblUse {
        tables: one.tables.max(other.tables),
        handles: one.handles.max(other.handles),
        bytes: one.bytes.max(other.bytes),
    }
}

/// What is noted of a call that was so answered: if it gave an address, the loan of the view
/// that the bag has for the handle.
pub(crate) fn note_of(answer: TblAnswer, held: &HeldTables<'_>, handle: u32) -> Note
    ensures { result ≡ note_seen answer (held_at held.now handle) }
{
    match (answer, held.view_of(handle)) {
        (TblAnswer::Address { .. }, Some(view)) => Note::Loan(view.name()),
        _ => Note::Nothing,
    }
}
