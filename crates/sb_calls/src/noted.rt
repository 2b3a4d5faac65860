//! A journal whose entries have notes.
ghost use Rattle.std.specs.Prelude.{◌≡◌, ◌<◌, ◌≤◌, List, [], ◌∷◌, ◌++◌, length, Ok, Some, slice_get, IfOk};
ghost use Rattle.journal_store.specs.Budgets.{AreBudgets, HasRoom};
ghost use Rattle.buf_desc.specs.Held.{view_at, buffer_at, bytes_at};
ghost use Rattle.bus_words.specs.declared.history.Entry.{Entry};
ghost use Rattle.bus_words.specs.Entries.{call_of, call_bytes, entry_of};
ghost use Rattle.bus_words.specs.Log.{left_of, with_entry};
ghost use Rattle.sb_calls.specs.Notes.{note_seen, note_told};

use crate::opening::total_entries;
use buf_desc::Held;
use bus_words::{BusAnswer, BusEntry, BusJournal};
use fsw_base::{Budget, SbStatus};
use lend_block::Note;
use std::alloc::{AllocError, Global};
use std::marker::Model;

/// Every call with its answer, and what was noted of it.
#[derive(Drop)]
pub(crate) struct NotedJournal {
    // Every call with its answer, in order.
    journal: BusJournal,
    // The note of each entry; room for the notes of all that may come.
    notes: Vec<Note>,
}

impl Model for NotedJournal {
    ghost use Rattle.sb_calls.specs.Notes.{NotedLog};

    ghost Value = { NotedLog };

    ghost use Rattle.sb_calls.specs.InsideNoted.{noted_log, IsEven};

    ghost view = { noted_log };

    ghost invariant = { IsEven };
}

impl NotedJournal {
    /// Without an entry, for the applications that have these budgets.
    ///
    /// # Errors
    /// If memory runs out.
    pub(crate) fn new(alloc: Global, budgets: &[Budget]) -> Result<NotedJournal, AllocError>
        requires { AreBudgets budgets.now }
        ensures { IfOk result
            (λ noted. noted ≡
            record { log = record { budgets = budgets.now; entries = [] }; notes = [] }) }
    {
        let entries = total_entries(budgets);
        Ok(NotedJournal {
            journal: BusJournal::new(alloc, budgets)?,
            notes: Vec::with_capacity(alloc, entries as usize)?,
        })
    }

    /// One entry more, at the end, and its note.
    pub(crate) fn push(&mut self, entry: &BusEntry<'_>, note: Note)
        requires { HasRoom (left_of self.old.log) entry.now.app
            (call_bytes (call_of entry.now.call)) }
        ensures { self.new ≡
            record {
              log = with_entry self.old.log (entry_of entry.now);
              notes = self.old.notes ++ note ∷ [];
            } }
    {
        self.journal.push(entry);
        self.notes.push_reserved(note);
    }

    /// Gives the last entry another answer. There must be an entry.
    pub(crate) fn set_answer(&mut self, answer: BusAnswer)
        requires { 1 ≤ length self.old.log.entries }
        ensures entries { (front : List Entry) (last : Entry) →
            self.old.log.entries ≡ front ++ last ∷ [] →
            self.new.log.entries ≡ front ++ (record last { answer = answer }) ∷ [] }
        ensures budgets { self.new.log.budgets ≡ self.old.log.budgets }
        ensures notes { self.new.notes ≡ self.old.notes }
    {
        self.journal.set_answer(answer);
    }

    /// The entries.
    pub(crate) fn journal(&self) -> &BusJournal
        ensures { result.now ≡ self.now.log }
    {
        &self.journal
    }

    /// The note of the entry of this number, from 0.
    pub(crate) fn note(&self, i: u32) -> Note
        requires { i < length self.now.log.entries }
        ensures { Some result ≡ slice_get self.now.notes i }
    {
        self.notes[i as usize].again()
    }
}

/// What is noted of a call that was so answered: if it gave a message, the loan of the view that
/// the bag has of the pipe.
pub(crate) fn note_of(answer: &BusAnswer, held: &Held<'_>, pipe: u32) -> Note
    ensures { result ≡ note_seen answer.now (view_at held.now pipe) }
{
    match (answer, held.view_of(pipe)) {
        (BusAnswer::Got(_), Some(view)) => Note::Loan(view.name()),
        _ => Note::Nothing,
    }
}

/// What is noted of a request for a buffer that was so answered: if one was given, the number of
/// its block's descriptor.
pub(crate) fn note_of_buffer(told: &Result<u32, SbStatus>, held: &Held<'_>) -> Note
    ensures { result ≡ note_told told.now (buffer_at held.now) }
{
    let Ok(number) = told else {
        return Note::Nothing;
    };
    match held.buffer(*number as u64) {
        Some(block) => Note::Desc(block.desc()),
        None => Note::Nothing,
    }
}

/// All bytes of the bag's buffer of a number; none if it has no such buffer.
pub(crate) fn bytes_of<'a>(held: &'a Held<'_>, buf: u32) -> &'a [u8]
    ensures { result.now ≡ bytes_at held.now buf }
{
    match held.buffer(buf as u64) {
        Some(block) => block.bytes(),
        None => &[],
    }
}
