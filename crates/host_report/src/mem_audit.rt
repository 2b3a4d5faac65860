//! An audit in memory: copies of the journals that it is shown.
ghost use Rattle.std.specs.Prelude.{◌≡◌, ℕ, ◌<◌, List, [], length, slice_get, All, IfOk, IsTrue, Some, vec_len};
ghost use Rattle.std.specs.Option.{option_map};
ghost use Rattle.journal_store.specs.Budgets.{AreBudgets};
ghost use Rattle.bus_words.specs.Log.{left_of};
ghost use Rattle.bus_words.specs.Entries.{call_of, call_bytes};
ghost use Rattle.host_report.specs.Audit.{IsShown};
ghost use Rattle.app_run.specs.Runners.{histories_of};
ghost use Rattle.host_report.specs.Copies.{shown, no_copies, has_room, fits, with_copy, are_within, CopiesEntry};
ghost use Rattle.journal_store.specs.Budgets.{allowances};

use crate::audit::Audit;
use crate::table_copies::copy_table_entries;
use bus_words::{BusCall, BusEntry, BusJournal};
use fsw_base::{AppNo, Budget};
use sb_calls::BusCore;
use std::alloc::{AllocError, Global};
use std::marker::Model;
use tbl_load::TblCore;
use tbl_words::TblJournal;

/// Copies of the pairs of journals that it was shown. By the code, all its memory is taken when it
/// is made.
///
/// It tells what it was shown until it is shown one pair more than it has room for, or one of which
/// a journal isn't within its budgets.
pub struct MemAudit {
    // Whether each pair shown was copied; else nothing is spare.
    told: bool,
    // The copies, in the order in which the pairs were shown, with room for the spare ones.
    copies: Vec<Pair>,
    // Empty journals, each with the whole budgets.
    spare: Vec<Pair>,
    // What each application may have in each journal of a pair.
    budgets: Vec<Budget>,
}

impl Drop for MemAudit {
    fn drop(self) {
        let MemAudit {
            told: _told,
            copies: _copies,
            spare: _spare,
            budgets: _budgets,
        } = self;
    }
}

// The journals of one run: of the bus, and of the tables.
#[derive(Drop)]
struct Pair {
    bus: BusJournal,
    tables: TblJournal,
}

impl Model for MemAudit {
    ghost use Rattle.std.specs.Prelude.{◌≡◌, ◌+◌, ◌^◌, ◌<◌, ◌≤◌, [], map, true, vec_len, vec_capacity, All};
    ghost use Rattle.host_report.specs.Copies.{Copies};

    ghost Value = { Copies };

    ghost view = { λ a.
        record {
          told = a.told;
          copies = map
              (λ pair. record { bus = pair.bus.entries; tables = pair.tables.entries })
              a.copies.items;
          room = vec_len a.spare;
          budgets = a.budgets.items;
        } };

    ghost invariant = { λ a. record {
      tells : 0 < vec_len a.spare → a.told ≡ true;
      empty : All (λ pair. pair.bus ≡ record { budgets = a.budgets.items; entries = [] })
          a.spare.items;
      empty_tables : All
          (λ pair. pair.tables ≡ record { budgets = a.budgets.items; entries = [] })
          a.spare.items;
      fits : vec_len a.copies + vec_len a.spare ≤ vec_capacity a.copies;
      few : vec_len a.copies + vec_len a.spare < 2 ^ 32;
    } };
}

impl MemAudit {
    /// An audit that was shown nothing, with room to copy so many pairs of journals, each journal
    /// within these budgets.
    ///
    /// # Errors
    /// `AllocError` if memory runs out.
    pub fn new(alloc: Global, budgets: &[Budget], pairs: u32) -> Result<MemAudit, AllocError>
        requires { AreBudgets budgets.now }
        ensures { IfOk result (λ audit. audit ≡ no_copies budgets.now pairs) }
    {
        let given = budgets.iter().map(|budget| *budget).collect(alloc)?;
        let spare = empty_pairs(alloc, budgets, pairs)?;
        Ok(MemAudit {
            told: true,
            copies: Vec::with_capacity(alloc, pairs as usize)?,
            spare,
            budgets: given,
        })
    }

    /// Whether each pair that it was shown was copied.
    pub fn tells(&self) -> bool
        ensures { result ≡ self.now.told }
    {
        self.told
    }

    /// How many pairs it has copied.
    pub fn pairs(&self) -> u32
        ensures { result ≡ length self.now.copies }
    {
        self.copies.len() as u32
    }

    /// The bus's journal of the copy at a place, in the order in which the pairs were shown; places
    /// count from 0.
    pub fn bus(&self, i: u32) -> &BusJournal
        requires { i < length self.now.copies }
        ensures { option_map (λ histories. histories.bus) (slice_get self.now.copies i) ≡
            Some result.now.entries }
    {
        &self.copies[i as usize].bus
    }

    /// The tables' journal of the copy at a place, in the same order.
    pub fn tables(&self, i: u32) -> &TblJournal
        requires { i < length self.now.copies }
        ensures { option_map (λ histories. histories.tables) (slice_get self.now.copies i) ≡
            Some result.now.entries }
    {
        &self.copies[i as usize].tables
    }

    // Copies the journals, or tells nothing from now on.
    fn copy(&mut self, bus: &BusJournal, tables: &TblJournal)
        ensures shown { IsShown (shown self.old) (shown self.new)
            (record { bus = bus.now.entries; tables = tables.now.entries }) }
        ensures copies { self.new ≡ with_copy self.old
            (record { bus = bus.now.entries; tables = tables.now.entries }) }
    {
        if let Some(mut pair) = self.spare.pop() {
            if copy_pair(&mut pair, bus, tables) {
                self.copies.push_reserved(pair);
                return;
            }
        }
        self.told = false;
        self.spare.clear();
    }
}

impl Audit for MemAudit {
    ghost shown = { shown };

    fn closed(&mut self, bus: &BusCore<'_>, tables: &TblCore<'_>)
        ensures told { IsShown (shown self.old) (shown self.new) (histories_of bus.now tables.now) }
        ensures copies { self.new ≡ with_copy self.old (histories_of bus.now tables.now) }
    {
        self.copy(bus.journal(), tables.journal());
    }
}

// So many pairs of journals without entries.
fn empty_pairs(alloc: Global, budgets: &[Budget], count: u32) -> Result<Vec<Pair>, AllocError>
    requires { AreBudgets budgets.now }
    ensures count { IfOk result (λ pairs. vec_len pairs ≡ count) }
    ensures empty { IfOk result
        (λ pairs. All
        (λ pair. pair.bus ≡ record { budgets = budgets.now; entries = [] })
        pairs.items) }
    ensures empty_tables { IfOk result
        (λ pairs. All
        (λ pair. pair.tables ≡ record { budgets = budgets.now; entries = [] })
        pairs.items) }
{
    let mut pairs = Vec::with_capacity(alloc, count as usize)?;
    for _ in 0..count {
        let bus = BusJournal::new(alloc, budgets)?;
        let tables = TblJournal::new(alloc, budgets)?;
        pairs.push_reserved(Pair { bus, tables });
    }
    Ok(pairs)
}

// Puts the entries of both journals into an empty pair; false if one of them isn't within the
// budgets.
fn copy_pair(target: &mut Pair, bus: &BusJournal, tables: &TblJournal) -> bool
    requires empty { target.old.bus.entries ≡ [] }
    requires empty_tables { target.old.tables.entries ≡ [] }
    requires same { target.old.tables.budgets ≡ target.old.bus.budgets }
    ensures fits { result ≡ are_within target.old.bus.budgets
        (record { bus = bus.now.entries; tables = tables.now.entries }) }
    ensures copied { IsTrue result → target.new.bus.entries ≡ bus.now.entries }
    ensures tables_copied { IsTrue result → target.new.tables.entries ≡ tables.now.entries }
{
    copy_entries(&mut target.bus, bus) && copy_table_entries(&mut target.tables, tables)
}

// Puts the journal's entries into an empty one; false if one of them isn't within the budgets.
fn copy_entries(target: &mut BusJournal, journal: &BusJournal) -> bool
    requires { target.old.entries ≡ [] }
    ensures fits { result ≡ fits (allowances target.old.budgets) journal.now.entries }
    ensures copied { IsTrue result → target.new.entries ≡ journal.now.entries }
{
    for i in 0..journal.len() {
        if !copy_entry(target, journal, i) {
            return false;
        }
    }
    true
}

// Adds the journal's entry at a place; false if it isn't within its application's budget.
fn copy_entry(target: &mut BusJournal, journal: &BusJournal, i: u32) -> bool
    requires { i < length journal.now.entries }
    ensures { CopiesEntry target.old target.new journal.now.entries i result }
{
    let BusEntry { app, call, answer } = journal.get(i);
    let fits = has_room(target, app, &call);
    if fits {
        target.push(&BusEntry { app, call, answer });
    }
    fits
}

// Whether the application may add this call.
fn has_room(journal: &BusJournal, app: AppNo, call: &BusCall<'_>) -> bool
    ensures { result ≡ has_room (left_of journal.now) app (call_bytes (call_of call.now)) }
{
    if app.get() > journal.apps() {
        return false;
    }
    let left = journal.left(app);
    1 <= left.entries && call.byte_count() <= left.bytes as usize
}
