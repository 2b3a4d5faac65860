//! Reading a plan: its routes, then a script for each side.
ghost use Rattle.std.specs.Prelude.{◌≡◌, ◌≤◌, ◌&&◌, [], length, IfOk, IsTrue};
ghost use Rattle.std.specs.List.{list_all};
ghost use Rattle.script_words.specs.Readings.{Reads};
ghost use Rattle.script_words.specs.Text.{lines_of, is_text};
ghost use Rattle.app_script.specs.Grammar.{after_line};
ghost use Rattle.app_script.specs.Moves.{Moves};
ghost use Rattle.app_script.specs.Whole.{located, GivesScript, MovesScript};
ghost use Rattle.bridge_plan.specs.Faults.{GivesPlan};
ghost use Rattle.bridge_plan.specs.Grammar.{plan_read, plan_on, plan_of};
ghost use Rattle.bridge_plan.specs.Inside.{plan_opening, after_plan_line, after_plan_lines};
ghost use Rattle.bridge_plan.specs.Parts.{marks_in};
ghost use Rattle.bridge_plan.specs.Plan.{IsPlan};
ghost use Rattle.bridge_plan.specs.Sides.{with_room, after_side_line, script_read};

use crate::fail::{PlanFail, PlanFault};
use crate::parts::{has_parts, is_mark};
use crate::plan::BridgePlan;
use crate::routes::{MAX_ROUTES, Route, route_line};
use app_script::{ReadFail, Reading};
use arrayvec::ArrayVec;
use fsw_base::{FaultKind, MAX_SCRIPT_BYTES, ScriptFault};
use script_words::LineFail;
use script_words::text::{are_plain, first_line};
use std::alloc::{AllocError, Global};
use std::marker::Model;

/// How many bytes the text of a plan may have: those of two scripts.
pub const MAX_PLAN_BYTES: usize = 2 * MAX_SCRIPT_BYTES;

// How many applications the script of a side may have: the bridge is one more.
const MAX_SIDE_APPS: usize = 15;

/// A part of the text.
#[derive(Clone, Copy)]
pub(crate) enum Part {
    /// The routes.
    Routes,
    /// The script of side 1.
    One,
    /// The script of side 2.
    Two,
}

/// What was read of a plan so far.
#[derive(Drop)]
pub(crate) struct PlanReading {
    // The part that the next line stands in.
    part: Part,
    // The routes, in their order.
    routes: ArrayVec<Route, MAX_ROUTES>,
    // What was read of the script of side 1.
    one: Reading,
    // What was read of that of side 2.
    two: Reading,
}

impl Model for PlanReading {
    ghost use Rattle.bridge_plan.specs.Inside.{PlanProgress, progress_inside};

    ghost Value = { PlanProgress };

    ghost view = { progress_inside };
}

// Whether a side's script leaves room for the bridge.
#[tactic(auto, unfolding(crate::specs::Sides::with_room))]
fn check_room(reading: &Reading) -> Result<(), FaultKind>
    ensures { Reads (λ x. reading.now) result (with_room reading.now) }
{
    if reading.app_count() > MAX_SIDE_APPS {
        return Err(FaultKind::TooManyApps);
    }
    Ok(())
}

// The next line of a side's script.
#[tactic(auto, unfolding(crate::specs::Sides::after_side_line))]
fn side_line(alloc: Global, reading: &mut Reading, line: &[u8], plain: bool) -> Result<(), LineFail>
    requires { IsTrue plain → IsTrue (list_all is_text line.now) }
    ensures { Moves result reading.new (after_side_line reading.old line.now) }
{
    reading.line(alloc, line, plain)?;
    check_room(reading)?;
    Ok(())
}

impl PlanReading {
    ghost use Rattle.bridge_plan.specs.Inside.{plan_opening, after_part_line, after_plan_line};
    ghost use Rattle.bridge_plan.specs.declared.reading.Part.TheVariants.{Routes, One, Two};

    // Nothing was read yet.
    fn new(alloc: Global) -> Result<PlanReading, AllocError>
        ensures { IfOk result (λ reading. reading ≡ plan_opening) }
    {
        let one = Reading::new(alloc)?;
        let two = Reading::new(alloc)?;
        Ok(PlanReading {
            part: Part::Routes,
            routes: ArrayVec::new(),
            one,
            two,
        })
    }

    // The next line among the routes.
    #[tactic(auto, unfolding(crate::specs::Inside::after_part_line))]
    fn among_routes(&mut self, line: &[u8], plain: bool) -> Result<(), LineFail>
        requires { IsTrue plain → IsTrue (list_all is_text line.now) }
        ensures { Moves result self.new (after_part_line Routes self.old line.now) }
    {
        if is_mark(line) {
            self.part = Part::One;
            return Ok(());
        }
        route_line(&mut self.routes, line, plain)?;
        Ok(())
    }

    // The next line in the script of side 1.
    #[tactic(auto, unfolding(crate::specs::Inside::after_part_line))]
    fn in_one(&mut self, alloc: Global, line: &[u8], plain: bool) -> Result<(), LineFail>
        requires { IsTrue plain → IsTrue (list_all is_text line.now) }
        ensures { Moves result self.new (after_part_line One self.old line.now) }
    {
        if is_mark(line) {
            self.part = Part::Two;
            return Ok(());
        }
        side_line(alloc, &mut self.one, line, plain)
    }

    // The next line in that of side 2.
    #[tactic(auto, unfolding(crate::specs::Inside::after_part_line))]
    fn in_two(&mut self, alloc: Global, line: &[u8], plain: bool) -> Result<(), LineFail>
        requires { IsTrue plain → IsTrue (list_all is_text line.now) }
        ensures { Moves result self.new (after_part_line Two self.old line.now) }
    {
        side_line(alloc, &mut self.two, line, plain)
    }

    // The next line.
    fn line(&mut self, alloc: Global, line: &[u8], plain: bool) -> Result<(), LineFail>
        requires { IsTrue plain → IsTrue (list_all is_text line.now) }
        ensures { Moves result self.new (after_plan_line self.old line.now) }
    {
        match self.part {
            Part::Routes => self.among_routes(line, plain),
            Part::One => self.in_one(alloc, line, plain),
            Part::Two => self.in_two(alloc, line, plain),
        }
    }

    // Whether each script has an application.
    fn has_apps(&self) -> bool
        ensures { result ≡ (self.now.one.started && self.now.two.started) }
    {
        self.one.has_started() && self.two.has_started()
    }

    // The plan that was read.
    #[tactic(auto, unfolding(crate::specs::Grammar::plan_read))]
    fn into_plan(self) -> Result<BridgePlan, ReadFail>
        requires { IsTrue (self.one.started && self.two.started) → IsPlan
            (record {
              routes = self.routes;
              one = script_read self.one;
              two = script_read self.two;
            }) }
        ensures { GivesScript result (plan_read self.routes self.one self.two) }
    {
        if !self.has_apps() {
            return Err(ReadFail::Fault(ScriptFault {
                line: 0,
                kind: FaultKind::NoApp,
            }));
        }
        let PlanReading {
            part: _,
            routes,
            one,
            two,
        } = self;
        let one = one.into_script()?;
        let two = two.into_script()?;
        Ok(BridgePlan::new(routes, one, two))
    }
}

// A line's failure, with the line's number.
fn located_failure(number: u32, failure: LineFail) -> ReadFail
    ensures { result ≡ located number failure }
{
    match failure {
        LineFail::Memory(error) => ReadFail::Memory(error),
        LineFail::Fault(kind) => ReadFail::Fault(ScriptFault { line: number, kind }),
    }
}

// Reads line by line.
fn read_lines(alloc: Global, reading: &mut PlanReading, bytes: &[u8]) -> Result<(), ReadFail>
    requires { length bytes.now ≤ 2097152 }
    ensures { MovesScript result reading.new
        (after_plan_lines 1 reading.old (lines_of bytes.now)) }
{
    let plain = are_plain(bytes);
    let mut rest = bytes;
    let mut number = 1;
    while !rest.is_empty() {
        let (line, behind) = first_line(rest);
        match reading.line(alloc, line, plain) {
            Ok(()) => {}
            Err(failure) => return Err(located_failure(number, failure)),
        }
        number += 1;
        rest = behind;
    }
    Ok(())
}

// Reads the parts of a text that has all three.
fn read_parts(alloc: Global, bytes: &[u8]) -> Result<BridgePlan, ReadFail>
    requires size { length bytes.now ≤ 2097152 }
    requires parts { 2 ≤ marks_in (lines_of bytes.now) }
    ensures { GivesScript result (plan_on (lines_of bytes.now)) }
{
    let mut reading = PlanReading::new(alloc)?;
    read_lines(alloc, &mut reading, bytes)?;
    reading.into_plan()
}

/// Reads a plan: up to [`MAX_ROUTES`] lines `route ID LIMIT`, a line `---`, the script of side 1, a
/// line `---` and the script of side 2. ID is 1 to 0x1FFF and LIMIT 0 to 65535. Among the routes
/// blank lines and comments are skipped, as in a script. It takes memory in proportion to the text.
///
/// # Errors
/// `Fault` if the bytes are no plan: `TooLarge` past [`MAX_PLAN_BYTES`]; else `MissingPart` if
/// fewer than two lines are `---`; else that of the first faulty line, with the line's number from
/// 1 in the whole text; else `NoApp` if a script has no application. The sixteenth application of a
/// script is one too many. The faults that are no line's have the number 0. `Memory` if memory runs
/// out.
#[tactic(auto, unfolding(crate::specs::Grammar::plan_of))]
pub fn read_plan(alloc: Global, bytes: &[u8]) -> Result<BridgePlan, PlanFail>
    ensures { GivesPlan result (plan_of bytes.now) }
{
    if bytes.len() > MAX_PLAN_BYTES {
        return Err(PlanFail::Fault(PlanFault::Script(ScriptFault {
            line: 0,
            kind: FaultKind::TooLarge,
        })));
    }
    if !has_parts(bytes) {
        return Err(PlanFail::Fault(PlanFault::MissingPart));
    }
    Ok(read_parts(alloc, bytes)?)
}
