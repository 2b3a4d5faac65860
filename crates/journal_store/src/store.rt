//! Rows with their bytes.
ghost use Rattle.std.specs.Prelude.{◌≡◌, ◌+◌, ◌^◌, ◌<◌, ◌≤◌, List, [], ◌∷◌, ◌++◌, length, slice_get, vec_len, vec_capacity, IfOk, Some};
ghost use Rattle.std.specs.Option.{option_map};
ghost use Rattle.journal_store.specs.Budgets.{AreBudgets, HasRoom, allowance_of, charged, entries_left};
ghost use Rattle.journal_store.specs.Store.{Store, Stored, left_of, with_row};

use crate::allowance::Allowance;
use fsw_base::{AppNo, Budget};
use std::alloc::{AllocError, Global};
use std::marker::Model;

// A row whose bytes lie in the store.
#[derive(Debug, Drop)]
struct KeptRow<R> {
    // Who added it.
    app: AppNo,
    // What it says.
    row: R,
    // Where its bytes begin.
    start: u32,
    // How many they are.
    len: u32,
}

/// A list of rows, each of an application and with bytes of its own, with room for what each
/// application's budget allows. Contracts see the budgets, and the rows in order.
pub struct JournalStore<R: Drop> {
    // The rows in order.
    rows: Vec<KeptRow<R>>,
    // The bytes of all rows, one after another; none is ever changed.
    bytes: Vec<u8>,
    // What each application might add at first.
    budgets: Vec<Budget>,
    // What each application may still add; rows and bytes have room for all of it.
    left: Vec<Allowance>,
}

impl<R: Drop> Drop for JournalStore<R> {
    fn drop(self) {
        let JournalStore {
            rows: _rows,
            bytes: _bytes,
            budgets: _budgets,
            left: _left,
        } = self;
    }
}

impl<R: Drop> Model for JournalStore<R> {
    ghost use Rattle.std.specs.Prelude.{vec_capacity};
    ghost use Rattle.journal_store.specs.Store.{Store};
    ghost use Rattle.journal_store.specs.Inside.{stored_in, IsKept};

    ghost Value = { Store R };

    ghost view = { λ s.
        record { budgets = s.budgets.items; rows = stored_in s.bytes.items s.rows.items } };

    ghost invariant = { λ s. IsKept s.rows.items s.bytes.items (vec_capacity s.rows)
        (vec_capacity s.bytes) s.budgets.items s.left.items };
}

impl<R: Drop> JournalStore<R> {
    /// No rows yet, for the applications 1, 2, 3 and so on that have these budgets.
    ///
    /// # Errors
    /// `AllocError` if memory runs out.
    pub fn new(alloc: Global, budgets: &[Budget]) -> Result<JournalStore<R>, AllocError>
        requires { AreBudgets budgets.now }
        ensures { IfOk result (λ store. store ≡ record { budgets = budgets.now; rows = [] }) }
    {
        let mut given = Vec::with_capacity(alloc, budgets.len())?;
        let mut left = Vec::with_capacity(alloc, budgets.len())?;
        let mut entries = 0;
        let mut bytes = 0;
        for budget in budgets {
            given.push_reserved(*budget);
            left.push_reserved(Allowance {
                entries: budget.entries,
                bytes: budget.bytes,
            });
            entries += budget.entries as usize;
            bytes += budget.bytes as usize;
        }
        Ok(JournalStore {
            rows: Vec::with_capacity(alloc, entries)?,
            bytes: Vec::with_capacity(alloc, bytes)?,
            budgets: given,
            left,
        })
    }

    /// How many rows there are.
    pub fn len(&self) -> u32
        ensures len { result ≡ length self.now.rows }
        ensures few { length self.now.rows + entries_left (left_of self.now) < 2 ^ 32 }
        ensures applications { length self.now.budgets ≤ 16 }
    {
        self.rows.len() as u32
    }

    /// How many applications may have rows.
    pub fn apps(&self) -> u32
        ensures { result ≡ length self.now.budgets }
    {
        self.budgets.len() as u32
    }

    /// What the application may still add.
    pub fn left(&self, app: AppNo) -> Allowance
        requires { app ≤ length self.now.budgets }
        ensures { result ≡ allowance_of (left_of self.now) app }
    {
        self.left[(app.get() - 1) as usize]
    }

    /// Who added the row at a place; places count from 0.
    pub fn app(&self, i: u32) -> AppNo
        requires { i < length self.now.rows }
        ensures { option_map (λ stored. stored.app) (slice_get self.now.rows i) ≡ Some result }
    {
        self.rows[i as usize].app
    }

    /// The row at a place.
    pub fn row(&self, i: u32) -> &R
        requires { i < length self.now.rows }
        ensures { option_map (λ stored. stored.row) (slice_get self.now.rows i) ≡
            Some result.now }
    {
        &self.rows[i as usize].row
    }

    /// The bytes of the row at a place.
    pub fn text(&self, i: u32) -> &[u8]
        requires { i < length self.now.rows }
        ensures { option_map (λ stored. stored.text) (slice_get self.now.rows i) ≡
            Some result.now }
    {
        let row = &self.rows[i as usize];
        &self.bytes[row.start as usize..row.start as usize + row.len as usize]
    }

    /// Adds a row with its bytes behind all others. Its application must have a row left, and the
    /// bytes.
    #[inline(always)]
    pub fn push(&mut self, app: AppNo, row: R, text: &[u8])
        requires { HasRoom (left_of self.old) app (length text.now) }
        ensures { self.new ≡
            with_row self.old (record { app = app; row = row; text = text.now }) }
    {
        let start = self.bytes.len() as u32;
        let len = text.len() as u32;
        self.rows.push_reserved(KeptRow {
            app,
            row,
            start,
            len,
        });
        charge(&mut self.left, app, len);
        // There is room for them, so this takes no memory and doesn't fail.
        let _ = self.bytes.extend_from_slice(text);
    }

    /// Gives the last row another content. Its application and its bytes stay, and so do all other
    /// rows. There must be a row.
    pub fn replace_last(&mut self, row: R)
        requires { 1 ≤ length self.old.rows }
        ensures rows { (front : List (Stored R)) (last : Stored R) →
            self.old.rows ≡ front ++ last ∷ [] →
            self.new.rows ≡ front ++ (record last { row = row }) ∷ [] }
        ensures budgets { self.new.budgets ≡ self.old.budgets }
    {
        let last = self.rows.len() - 1;
        self.rows[last].row = row;
    }
}

// Takes one row of so many bytes from what the application may add.
fn charge(left: &mut Vec<Allowance>, app: AppNo, bytes: u32)
    requires { HasRoom left.old.items app bytes }
    ensures { left.new.items ≡ charged left.old.items app bytes }
{
    let allowance = &mut left[(app.get() - 1) as usize];
    allowance.entries -= 1;
    allowance.bytes -= bytes;
}
