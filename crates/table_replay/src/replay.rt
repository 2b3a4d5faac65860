//! The tables played again, line by line.
ghost use Rattle.std.specs.Prelude.{◌≡◌, ℕ, ◌+◌, ◌-◌, ◌≤◌, List, [], length, slice_get, Some, None, false, IfOk, IfSome};
ghost use Rattle.std.specs.Result.{OnOk};
ghost use Rattle.tbl_words.specs.declared.history.Entry.{Entry};
ghost use Rattle.tbl_words.specs.Entries.{entry_of};
ghost use Rattle.tbl_words.specs.Tables.{has_ended};
ghost use Rattle.tbl_words.specs.Uses.{greater_of};
ghost use Rattle.run_check.specs.Judged.{Begins, entry_head};
ghost use Rattle.table_replay.specs.Replays.{IsReplayed, IsUnderWay, IsNextCaller, Steps, first_place, have_all_ended, settled};

use crate::place::AppPlace;
use app_script::Script;
use fsw_base::AppNo;
use list_tables::ListTables;
use replay_parts::{ComparedText, EntryLine, MadeReceipt, one_more};
use std::alloc::{AllocError, Global};
use std::marker::Model;
use tbl_words::{TblEntry, TblUse};

/// The tables of a run of a script, as far as the lines of a report tell it.
pub struct TableReplay<'s> {
    // The script.
    script: &'s Script,
    // The tables.
    tables: ListTables,
    // The greatest numbers that were in use so far.
    peak: TblUse,
    // How many entries there were.
    entries: u32,
    // Where each application is among its lines, number 1 first.
    places: Vec<AppPlace>,
    // The line of the latest entry.
    line: EntryLine,
}

impl Drop for TableReplay<'_> {
    fn drop(self) {
        let TableReplay {
            script: _script,
            tables: _tables,
            peak: _peak,
            entries: _entries,
            places: _places,
            line: _line,
        } = self;
    }
}

impl<'s> Model for TableReplay<'s> {
    ghost use Rattle.table_replay.specs.Replays.{Replay};

    ghost Value = { Replay };

    ghost view = { λ r.
        record {
          script = r.script.now;
          limits = r.tables.limits;
          state = r.tables.state;
          peak = r.peak;
          entries = r.entries;
          places = r.places.items;
        } };
}

/// What the next line of a report is.
#[derive(Clone, Copy, Debug, PartialEq, Eq)]
pub enum TableStep {
    /// The line of an entry that may come next. The tables are behind it.
    Entered,
    /// It isn't a line of the tables: no entry of theirs is missing.
    Whole,
    /// No line of an entry that may come next. The number, from 1, is that of the first line with
    /// which no run begins.
    Wrong(u32),
}

impl<'s> TableReplay<'s> {
    /// Before the first line.
    ///
    /// # Errors
    /// `AllocError` if memory runs out.
    pub fn new(alloc: Global, script: &'s Script) -> Result<TableReplay<'s>, AllocError>
        ensures script { IfOk result (λ replay. replay.script ≡ script.now) }
        ensures first { IfOk result (λ replay. IsReplayed [] replay) }
    {
        let tables = ListTables::new(alloc, script.config(), script.apps())?;
        let peak = tables.in_use()?;
        let places = first_places(alloc, script, &tables)?;
        Ok(TableReplay {
            script,
            tables,
            peak,
            entries: 0,
            places,
            line: EntryLine::new(alloc),
        })
    }

    /// Judges the next line of the text, and goes past it if it is the line of an entry that may
    /// come next.
    ///
    /// # Errors
    /// `AllocError` if memory runs out, or if a number of 32 bits is spent. The contract
    /// doesn't describe the replay and the text then.
    pub fn step(
        &mut self,
        alloc: Global,
        text: &mut ComparedText<'_>,
    ) -> Result<TableStep, AllocError>
        requires { IsUnderWay self.old }
        ensures { IfOk result (λ step. (history : List Entry) → IsReplayed history self.old →
            Steps history self.old self.new text.old text.new step) }
    {
        let number = one_more(self.entries)?;
        match self.next_caller(number, text) {
            Some(app) => self.enter(alloc, number, app, text),
            None => {
                if self.have_all_ended() {
                    return Ok(TableStep::Whole);
                }
                Ok(TableStep::Wrong(text.wrong_line(&[])?))
            }
        }
    }

    // The application whose entry of this number the next line may be; None if it names none that
    // hasn't ended.
    fn next_caller(&self, number: u32, text: &ComparedText<'_>) -> Option<AppNo>
        requires { number ≡ self.now.entries + 1 }
        ensures some { IfSome result (λ app. IsNextCaller self.now app text.now) }
        ensures none { result ≡ None → (app : ℕ) → 1 ≤ app → app ≤ length self.now.script.apps →
            has_ended self.now.state app ≡ false →
            ¬ Begins text.now.rest (entry_head (self.now.entries + 1) app) }
    {
        let app = text.caller(number, self.script.apps())?;
        if self.tables.has_ended(app) {
            return None;
        }
        Some(app)
    }

    // Judges the line of the next entry, of this number, which is the application's.
    fn enter(
        &mut self,
        alloc: Global,
        number: u32,
        app: AppNo,
        text: &mut ComparedText<'_>,
    ) -> Result<TableStep, AllocError>
        requires replayed { IsUnderWay self.old }
        requires number { number ≡ self.old.entries + 1 }
        requires caller { IsNextCaller self.old app text.old }
        ensures { IfOk result (λ step. (history : List Entry) → IsReplayed history self.old →
            Steps history self.old self.new text.old text.new step) }
    {
        let lines = &self.script.applications()[(app.get() - 1) as usize];
        let place = &self.places[(app.get() - 1) as usize];
        let made = place.content(alloc, lines)?;
        let call = place.next_call(lines, &made).unwrap();
        let answer = self.tables.step(alloc, app, &call)?;
        let entry = TblEntry { app, call, answer };
        self.line.keep(number, &entry)?;
        if !text.take(self.line.as_slice()) {
            return Ok(TableStep::Wrong(text.wrong_line(self.line.as_slice())?));
        }
        self.settle(number, &entry)?;
        Ok(TableStep::Entered)
    }

    // Goes on behind an entry of this number, after which the tables are as they are.
    fn settle(&mut self, number: u32, entry: &TblEntry<'_>) -> Result<(), AllocError>
        requires lines { entry.now.app ≤ length self.old.script.apps }
        requires places { entry.now.app ≤ length self.old.places }
        ensures { OnOk result (self.new ≡ settled self.old number (entry_of entry.now)) }
    {
        let at = (entry.app.get() - 1) as usize;
        let lines = &self.script.applications()[at];
        self.places[at].settle(entry.app, &self.tables, lines, &entry.call, &entry.answer)?;
        self.peak = greater_of(self.peak, self.tables.in_use()?);
        self.entries = number;
        Ok(())
    }

    // Whether each application has ended.
    fn have_all_ended(&self) -> bool
        ensures { result ≡ have_all_ended self.now.state (length self.now.script.apps) }
    {
        for number in 1..self.script.apps() + 1 {
            if !has_ended(&self.tables, number) {
                return false;
            }
        }
        true
    }

    /// The tables.
    pub fn tables(&self) -> &ListTables
        ensures limits { result.now.limits ≡ self.now.limits }
        ensures state { result.now.state ≡ self.now.state }
    {
        &self.tables
    }

    /// The greatest numbers that were in use so far.
    pub fn peak(&self) -> TblUse
        ensures { result ≡ self.now.peak }
    {
        self.peak
    }

    /// The receipts that an application's lines made of the tables so far, with their places.
    pub fn receipts(&self, app: AppNo) -> &[MadeReceipt]
        requires { app ≤ length self.now.places }
        ensures { IfSome (slice_get self.now.places (app - 1))
            (λ place. result.now ≡ place.receipts) }
    {
        self.places[(app.get() - 1) as usize].receipts()
    }
}

// Whether the application of a number has ended.
fn has_ended(tables: &ListTables, number: u32) -> bool
    requires { (1 ≤ number) × (number ≤ 16) }
    ensures { result ≡ has_ended tables.now.state number }
{
    match AppNo::try_new(number) {
        Some(app) => tables.has_ended(app),
        None => true,
    }
}

// Of each number the greater one.
fn greater_of(one: TblUse, other: TblUse) -> TblUse
    ensures { result ≡ greater_of one other }
{
    TblUse {
        tables: one.tables.max(other.tables),
        handles: one.handles.max(other.handles),
        bytes: one.bytes.max(other.bytes),
    }
}

// Where each application is before its first entry.
fn first_places(
    alloc: Global,
    script: &Script,
    tables: &ListTables,
) -> Result<Vec<AppPlace>, AllocError>
    ensures { IfOk result (λ places. (app : ℕ) → 1 ≤ app → app ≤ length script.now.apps →
        slice_get places.items (app - 1) ≡
        Some (first_place tables.now.state script.now app)) }
{
    let mut places = Vec::new(alloc);
    for number in 1..script.apps() + 1 {
        places.push(first_place(alloc, script, tables, number)?)?;
    }
    Ok(places)
}

// Where the application of a number is before its first entry.
fn first_place(
    alloc: Global,
    script: &Script,
    tables: &ListTables,
    number: u32,
) -> Result<AppPlace, AllocError>
    requires { (1 ≤ number) × (number ≤ length script.now.apps) }
    ensures { IfOk result (λ place. place ≡ first_place tables.now.state script.now number) }
{
    let Some(app) = AppNo::try_new(number) else {
        return Err(AllocError);
    };
    let mut place = AppPlace::new(alloc);
    place.pass(app, tables, &script.applications()[(number - 1) as usize])?;
    Ok(place)
}
