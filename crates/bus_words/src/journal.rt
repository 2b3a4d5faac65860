//! The journal of the bus: every call with its answer, in the order in which they took effect.
ghost use Rattle.std.specs.Prelude.{◌≡◌, ◌+◌, ◌^◌, ◌<◌, ◌≤◌, List, [], ◌∷◌, ◌++◌, length, slice_get, IfOk, Some};
ghost use Rattle.journal_store.specs.Budgets.{AreBudgets, HasRoom, allowance_of, entries_left};
ghost use Rattle.bus_words.specs.declared.calls.BusAnswer.TheVariants as BusAnswer;
ghost use Rattle.bus_words.specs.declared.history.Call.TheVariants as Call;
ghost use Rattle.bus_words.specs.declared.history.Entry.{Entry};
ghost use Rattle.bus_words.specs.Log.{Log, with_entry, left_of};
ghost use Rattle.bus_words.specs.Entries.{call_of, entry_of, lent_of, call_bytes};

use crate::calls::{BusAnswer, BusCall, BusEntry, LentEntry};
use fsw_base::{AppNo, Budget};
use journal_store::{Allowance, JournalStore};
use std::alloc::{AllocError, Global};
use std::marker::Model;

// An entry but for its application and its bytes.
#[derive(Debug, Drop)]
struct Row {
    // The call without its bytes, which lie beside the row.
    call: BusCall<'static>,
    answer: BusAnswer,
}

/// A list of entries with room for what each application's budget allows. By the code, all its
/// memory is taken when it is made.
pub struct BusJournal {
    // A row for each entry, in order.
    store: JournalStore<Row>,
}

impl Drop for BusJournal {
    fn drop(self) {
        let BusJournal { store: _store } = self;
    }
}

impl Model for BusJournal {
    ghost use Rattle.bus_words.specs.Log.{Log};
    ghost use Rattle.bus_words.specs.Inside.{entries_in, AreWhole};

    ghost Value = { Log };

    ghost view = { λ j.
        record { budgets = j.store.budgets; entries = entries_in j.store.rows } };

    ghost invariant = { λ j. AreWhole j.store.rows };
}

impl BusJournal {
    /// An empty journal of the applications 1, 2, 3 and so on that have these budgets.
    ///
    /// # Errors
    /// `AllocError` if memory runs out.
    pub fn new(alloc: Global, budgets: &[Budget]) -> Result<BusJournal, AllocError>
        requires { AreBudgets budgets.now }
        ensures { IfOk result
            (λ journal. journal ≡ record { budgets = budgets.now; entries = [] }) }
    {
        Ok(BusJournal {
            store: JournalStore::new(alloc, budgets)?,
        })
    }

    /// How many entries there are.
    pub fn len(&self) -> u32
        ensures len { result ≡ length self.now.entries }
        ensures few { length self.now.entries + entries_left (left_of self.now) < 2 ^ 32 }
        ensures applications { length self.now.budgets ≤ 16 }
    {
        self.store.len()
    }

    /// How many applications may have entries.
    pub fn apps(&self) -> u32
        ensures { result ≡ length self.now.budgets }
    {
        self.store.apps()
    }

    /// What the application may still add.
    pub fn left(&self, app: AppNo) -> Allowance
        requires { app ≤ length self.now.budgets }
        ensures { result ≡ allowance_of (left_of self.now) app }
    {
        self.store.left(app)
    }

    /// The entry at a place; places count from 0.
    pub fn get(&self, i: u32) -> BusEntry<'_>
        requires { i < length self.now.entries }
        ensures { slice_get self.now.entries i ≡ Some (entry_of result) }
    {
        let LentEntry { app, call, answer } = self.lent(i);
        BusEntry {
            app,
            call,
            answer: answer.again(),
        }
    }

    /// The entry at a place, its answer as it lies here.
    pub fn lent(&self, i: u32) -> LentEntry<'_>
        requires { i < length self.now.entries }
        ensures { slice_get self.now.entries i ≡ Some (lent_of result) }
    {
        let row = self.store.row(i);
        LentEntry {
            app: self.store.app(i),
            call: row.call.with_text(self.store.text(i)),
            answer: &row.answer,
        }
    }

    /// Adds an entry at the end. Its application must have an entry left, and the bytes of its
    /// name, message, buffer or event's text.
    pub fn push(&mut self, entry: &BusEntry<'_>)
        requires { HasRoom (left_of self.old) entry.now.app (call_bytes (call_of entry.now.call)) }
        ensures { self.new ≡ with_entry self.old (entry_of entry.now) }
    {
        // An accepted send goes by itself, and so does a receive that gave a message: their rows
        // are known, so they are made where they go.
        match (&entry.call, &entry.answer) {
            (BusCall::Transmit { bytes, inc }, BusAnswer::Sent { number, reached }) => {
                let row = Row {
                    call: BusCall::Transmit {
                        bytes: b"",
                        inc: *inc,
                    },
                    answer: BusAnswer::Sent {
                        number: *number,
                        reached: *reached,
                    },
                };
                self.store.push(entry.app, row, bytes);
            }
            (BusCall::Receive { pipe }, BusAnswer::Got(number)) => {
                self.push_received(entry.app, *pipe, *number);
            }
            _ => self.push_any(entry),
        }
    }

    // As `push`, for a receive that gave a message.
    #[inline(never)]
    fn push_received(&mut self, app: AppNo, pipe: u32, number: u32)
        requires { HasRoom (left_of self.old) app 0 }
        ensures { self.new ≡ with_entry self.old
            (record { app = app; call = Call.Receive pipe; answer = BusAnswer.Got number }) }
    {
        let row = Row {
            call: BusCall::Receive { pipe },
            answer: BusAnswer::Got(number),
        };
        self.store.push(app, row, b"");
    }

    // As `push`, for an entry of any call and answer.
    #[inline(never)]
    fn push_any(&mut self, entry: &BusEntry<'_>)
        requires { HasRoom (left_of self.old) entry.now.app (call_bytes (call_of entry.now.call)) }
        ensures { self.new ≡ with_entry self.old (entry_of entry.now) }
    {
        let row = Row {
            call: entry.call.with_text(b""),
            answer: entry.answer.again(),
        };
        self.store.push(entry.app, row, entry.call.text());
    }

    /// Gives the last entry another answer. Its application and its call stay, and so do all other
    /// entries. There must be an entry.
    pub fn set_answer(&mut self, answer: BusAnswer)
        requires { 1 ≤ length self.old.entries }
        ensures entries { (front : List Entry) (last : Entry) →
            self.old.entries ≡ front ++ last ∷ [] →
            self.new.entries ≡ front ++ (record last { answer = answer }) ∷ [] }
        ensures budgets { self.new.budgets ≡ self.old.budgets }
    {
        let call = self.store.row(self.store.len() - 1).call.with_text(b"");
        self.store.replace_last(Row { call, answer });
    }
}
