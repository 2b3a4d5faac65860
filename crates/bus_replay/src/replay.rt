//! The bus played again, line by line.
ghost use Rattle.std.specs.Prelude.{◌≡◌, ℕ, ◌+◌, ◌-◌, ◌≤◌, List, [], length, slice_get, Some, None, IfOk, IfSome};
ghost use Rattle.std.specs.Option.{option_map};
ghost use Rattle.std.specs.Result.{OnOk};
ghost use Rattle.bus_words.specs.declared.history.Entry.{Entry};
ghost use Rattle.bus_words.specs.Bus.{Ended, has_ended, standing_of};
ghost use Rattle.bus_words.specs.Entries.{entry_of};
ghost use Rattle.run_check.specs.Judged.{Begins, entry_head};
ghost use Rattle.bus_replay.specs.Places.{place_of};
ghost use Rattle.bus_replay.specs.Replays.{IsNextCaller, IsReplayed, IsSettled, IsUnderWay, Steps, first_place, have_all_ended};

use crate::calls::{brings, check_playable, makes_entry};
use crate::place::AppPlace;
use app_script::Script;
use bus_words::BusEntry;
use fsw_base::AppNo;
use list_bus::{ListBus, ListStanding};
use replay_parts::{ComparedText, EntryLine, MadeReceipt, one_more};
use std::alloc::{AllocError, Global};
use std::marker::Model;

/// The bus of a run of a script, as far as the lines of a report tell it.
pub struct BusReplay<'s> {
    // The script.
    script: &'s Script,
    // The bus.
    bus: ListBus,
    // How many entries there were.
    entries: u32,
    // Where each application is among its lines, number 1 first.
    places: Vec<AppPlace>,
    // The line of the latest entry.
    line: EntryLine,
}

impl Drop for BusReplay<'_> {
    fn drop(self) {
        let BusReplay {
            script: _script,
            bus: _bus,
            entries: _entries,
            places: _places,
            line: _line,
        } = self;
    }
}

impl<'s> Model for BusReplay<'s> {
    ghost use Rattle.bus_replay.specs.Replays.{Replay};

    ghost Value = { Replay };

    ghost view = { λ r.
        record {
          script = r.script.now;
          played = r.bus;
          entries = r.entries;
          places = r.places.items;
        } };
}

/// What the next line of a report is.
#[derive(Clone, Copy, Debug, PartialEq, Eq)]
pub enum BusStep {
    /// The line of an entry that may come next. The bus is behind it.
    Entered,
    /// It isn't a line of the bus: no entry of it is missing.
    Whole,
    /// No line of an entry that may come next. The number, from 1, is that of the first line with
    /// which no run begins.
    Wrong(u32),
}

impl<'s> BusReplay<'s> {
    /// Before the first line.
    ///
    /// # Errors
    /// `AllocError` if memory runs out.
    pub fn new(alloc: Global, script: &'s Script) -> Result<BusReplay<'s>, AllocError>
        ensures script { IfOk result (λ replay. replay.script ≡ script.now) }
        ensures first { IfOk result (λ replay. IsReplayed [] replay) }
    {
        let bus = ListBus::new(alloc, script.config(), script.apps())?;
        let places = first_places(alloc, script, &bus)?;
        Ok(BusReplay {
            script,
            bus,
            entries: 0,
            places,
            line: EntryLine::new(alloc),
        })
    }

    /// Judges the next line of the text, and goes past it if it is the line of an entry that may
    /// come next.
    ///
    /// # Errors
    /// `AllocError` if memory runs out, or if a number of 32 bits is spent. The contract
    /// doesn't describe the replay and the text then.
    pub fn step(
        &mut self,
        alloc: Global,
        text: &mut ComparedText<'_>,
    ) -> Result<BusStep, AllocError>
        requires { IsUnderWay self.old }
        ensures { IfOk result (λ step. (history : List Entry) → IsReplayed history self.old →
            Steps history self.old self.new text.old text.new step) }
    {
        let number = one_more(self.entries)?;
        match self.next_caller(number, text) {
            Some(app) => self.enter(alloc, number, app, text),
            None => {
                if self.have_all_ended() {
                    return Ok(BusStep::Whole);
                }
                Ok(BusStep::Wrong(text.wrong_line(&[])?))
            }
        }
    }

    // The application whose entry of this number the next line may be; None if it names none that
    // hasn't ended.
    fn next_caller(&self, number: u32, text: &ComparedText<'_>) -> Option<AppNo>
        requires { number ≡ self.now.entries + 1 }
        ensures some { IfSome result (λ app. IsNextCaller self.now app text.now) }
        ensures none { result ≡ None → (app : ℕ) → 1 ≤ app → app ≤ length self.now.script.apps →
            Begins text.now.rest (entry_head (self.now.entries + 1) app) →
            standing_of self.now.played.whole.bus app ≡ Ended }
    {
        let app = text.caller(number, self.script.apps())?;
        if has_ended(&self.bus, app.get()) {
            return None;
        }
        Some(app)
    }

    // Judges the line of the next entry, of this number, which is the application's.
    fn enter(
        &mut self,
        alloc: Global,
        number: u32,
        app: AppNo,
        text: &mut ComparedText<'_>,
    ) -> Result<BusStep, AllocError>
        requires replayed { IsUnderWay self.old }
        requires number { number ≡ self.old.entries + 1 }
        requires caller { IsNextCaller self.old app text.old }
        ensures { IfOk result (λ step. (history : List Entry) → IsReplayed history self.old →
            Steps history self.old self.new text.old text.new step) }
    {
        let lines = &self.script.applications()[(app.get() - 1) as usize];
        let place = &self.places[(app.get() - 1) as usize];
        let made = place.content(alloc, lines)?;
        let standing = self.bus.standing(app);
        let call = place.next_call(standing, lines, &made).unwrap();
        check_playable(&call)?;
        if !brings(&self.bus, app, &call) {
            return Ok(BusStep::Wrong(text.wrong_line(&[])?));
        }
        let answer = self.bus.step(alloc, app, &call)?;
        if !makes_entry(&call, &answer) {
            return Ok(BusStep::Wrong(text.wrong_line(&[])?));
        }
        let entry = BusEntry { app, call, answer };
        self.line.keep(number, &entry)?;
        if !text.take(self.line.as_slice()) {
            return Ok(BusStep::Wrong(text.wrong_line(self.line.as_slice())?));
        }
        self.settle(alloc, number, &entry)?;
        Ok(BusStep::Entered)
    }

    // Goes on behind an entry of this number, after which the bus is as it is.
    fn settle(&mut self, alloc: Global, number: u32, entry: &BusEntry<'_>) -> Result<(), AllocError>
        requires lines { entry.now.app ≤ length self.old.script.apps }
        requires places { entry.now.app ≤ length self.old.places }
        ensures { OnOk result (IsSettled self.old self.new number (entry_of entry.now)) }
    {
        let at = (entry.app.get() - 1) as usize;
        let lines = &self.script.applications()[at];
        let place = &mut self.places[at];
        place.settle(
            alloc,
            entry.app,
            &self.bus,
            lines,
            &entry.call,
            &entry.answer,
        )?;
        self.entries = number;
        Ok(())
    }

    // Whether each application has ended.
    fn have_all_ended(&self) -> bool
        ensures { result ≡
            have_all_ended self.now.played.whole.bus (length self.now.script.apps) }
    {
        for number in 1..self.script.apps() + 1 {
            if !has_ended(&self.bus, number) {
                return false;
            }
        }
        true
    }

    /// The bus.
    pub fn bus(&self) -> &ListBus
        ensures { result.now ≡ self.now.played }
    {
        &self.bus
    }

    /// The receipts that an application's lines made of the bus so far, with their places.
    pub fn receipts(&self, app: AppNo) -> &[MadeReceipt]
        requires { app ≤ length self.now.places }
        ensures { IfSome (slice_get self.now.places (app - 1))
            (λ place. result.now ≡ place.receipts) }
    {
        self.places[(app.get() - 1) as usize].receipts()
    }
}

// Where each application is before its first entry.
fn first_places(alloc: Global, script: &Script, bus: &ListBus) -> Result<Vec<AppPlace>, AllocError>
    ensures { IfOk result (λ places. (app : ℕ) → 1 ≤ app → app ≤ length script.now.apps →
        option_map place_of (slice_get places.items (app - 1)) ≡
        Some (first_place bus.now.whole.bus script.now app)) }
{
    let mut places = Vec::new(alloc);
    for number in 1..script.apps() + 1 {
        places.push(first_place(alloc, script, bus, number)?)?;
    }
    Ok(places)
}

// Where the application of a number is before its first entry.
fn first_place(
    alloc: Global,
    script: &Script,
    bus: &ListBus,
    number: u32,
) -> Result<AppPlace, AllocError>
    requires { (1 ≤ number) × (number ≤ length script.now.apps) }
    ensures { IfOk result
        (λ place. place_of place ≡ first_place bus.now.whole.bus script.now number) }
{
    let Some(app) = AppNo::try_new(number) else {
        return Err(AllocError);
    };
    let mut place = AppPlace::new(alloc);
    place.pass(
        alloc,
        app,
        bus,
        &script.applications()[(number - 1) as usize],
    )?;
    Ok(place)
}

// Whether the application of a number has ended.
fn has_ended(bus: &ListBus, number: u32) -> bool
    requires { (1 ≤ number) × (number ≤ 16) }
    ensures { result ≡ has_ended (standing_of bus.now.whole.bus number) }
{
    match AppNo::try_new(number) {
        Some(app) => bus.standing(app) == ListStanding::Ended,
        None => true,
    }
}
