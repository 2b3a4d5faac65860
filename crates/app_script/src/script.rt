//! A script, and how it is read.
ghost use Rattle.std.specs.Prelude.{◌≡◌, ◌-◌, ◌<◌, ◌≤◌, length, slice_get, Some, OnOk, IsTrue};
ghost use Rattle.fsw_base.specs.Limits.{limits_of};
ghost use Rattle.app_script.specs.Ranges.{IsInRange};
ghost use Rattle.app_script.specs.ScriptRanges.{IsScript};
ghost use Rattle.app_script.specs.Grammar.{opening, after_lines, progress_of, grammar};
ghost use Rattle.script_words.specs.Text.{lines_of};
ghost use Rattle.app_script.specs.Whole.{located, GivesScript, MovesScript};

use crate::app::App;
use crate::fail::ReadFail;
use crate::reading::Reading;
use fsw_base::{AppNo, Budget, Config, FaultKind, MAX_SCRIPT_BYTES, ScriptFault};
use script_lines::Line;
use script_words::LineFail;
use script_words::text::{are_plain, first_line};
use std::alloc::Global;
use std::marker::Model;

/// A script: its version, the limits that it configures, and its applications with their call
/// lines.
pub struct Script {
    // Its version, and the limits that it configures.
    config: Config,
    // Its applications, in order of number.
    apps: Vec<App>,
}

impl Drop for Script {
    fn drop(self) {
        let Script {
            config: _config,
            apps: _apps,
        } = self;
    }
}

impl Model for Script {
    ghost use Rattle.app_script.specs.Script.{ScriptText};

    ghost Value = { ScriptText };

    ghost use Rattle.app_script.specs.Inside.{script_in, KeepsRanges};

    ghost view = { script_in };

    ghost invariant = { KeepsRanges };
}

impl Script {
    ghost use Rattle.app_script.specs.Script.{app_at};
    ghost use Rattle.script_settings.specs.Accounts.{budget_of};

    /// The script of these limits and applications, numbered in their order. Each limit, name and
    /// call line is in its range, and all of it within the bounds of a script.
    pub fn new(config: Config, apps: Vec<App>) -> Script
        requires { IsScript (record { limits = limits_of config; apps = apps.items }) }
        ensures { result ≡ record { limits = limits_of config; apps = apps.items } }
    {
        Script { config, apps }
    }

    /// Tells what is true of every script, and does nothing at run time: its limits, names and call
    /// lines are in the ranges of a text, and all of it is within the bounds of a run.
    pub fn recall_ranges(&self)
        ensures text { IsScript self.now }
        ensures run { IsInRange self.now }
    {
        let _ = &self.apps;
    }

    /// The limits that it configures, with the script's version: 2 after a line `script 2`, else 1.
    pub fn config(&self) -> &Config
        ensures { limits_of result.now ≡ self.now.limits }
    {
        &self.config
    }

    /// How many applications it has, 1 to 16.
    pub fn apps(&self) -> u32
        ensures count { result ≡ length self.now.apps }
        ensures some { 1 ≤ result }
        ensures few { result ≤ 16 }
    {
        self.apps.len() as u32
    }

    /// Its applications, in order of number.
    pub fn applications(&self) -> &[App]
        ensures { result.now ≡ self.now.apps }
    {
        self.apps.as_slice()
    }

    /// An application's name, 1 to 19 letters, digits or underscores.
    pub fn name(&self, app: AppNo) -> &[u8]
        requires { app ≤ length self.now.apps }
        ensures { result.now ≡ (app_at self.now app).name }
    {
        let app = &self.apps[(app.get() - 1) as usize];
        app.name()
    }

    /// What an application may add to a run: an entry for each of its call lines, one more for each
    /// that may wait, and one for its end; the sum of its charges in bytes; its `alloc` lines.
    pub fn budget(&self, app: AppNo) -> Budget
        requires { app ≤ length self.now.apps }
        ensures { result ≡ budget_of (app_at self.now app).lines }
    {
        let app = &self.apps[(app.get() - 1) as usize];
        app.budget()
    }

    /// How many call lines an application has, at most 20000.
    pub fn lines(&self, app: AppNo) -> u32
        requires { app ≤ length self.now.apps }
        ensures count { result ≡ length (app_at self.now app).lines }
        ensures few { result ≤ 20000 }
    {
        let app = &self.apps[(app.get() - 1) as usize];
        app.lines() as u32
    }

    /// An application's call line at a place, in the script's order; places count from 0.
    pub fn line(&self, app: AppNo, i: u32) -> &Line
        requires app { app ≤ length self.now.apps }
        requires line { i < length (app_at self.now app).lines }
        ensures { slice_get (app_at self.now app).lines i ≡ Some result.now }
    {
        let app = &self.apps[(app.get() - 1) as usize];
        app.line(i as usize)
    }
}

// A line's failure, with the line's number.
fn located_failure(number: u32, failure: LineFail) -> ReadFail
    ensures { result ≡ located number failure }
{
    match failure {
        LineFail::Memory(error) => ReadFail::Memory(error),
        LineFail::Fault(kind) => ReadFail::Fault(ScriptFault { line: number, kind }),
    }
}

// Reads line by line.
fn read_lines(alloc: Global, reading: &mut Reading, bytes: &[u8]) -> Result<(), ReadFail>
    requires { length bytes.now ≤ 1048576 }
    ensures { MovesScript result reading.new (after_lines 1 reading.old (lines_of bytes.now)) }
{
    let plain = are_plain(bytes);
    let mut rest = bytes;
    let mut number = 1;
    while !rest.is_empty() {
        let (line, behind) = first_line(rest);
        match reading.line(alloc, line, plain) {
            Ok(()) => {}
            Err(failure) => return Err(located_failure(number, failure)),
        }
        number += 1;
        rest = behind;
    }
    Ok(())
}

// Reads all lines, into a reading that is as it was opened.
#[tactic(auto, unfolding(crate::specs::Grammar::progress_of))]
fn read_all(alloc: Global, reading: &mut Reading, bytes: &[u8]) -> Result<(), ReadFail>
    requires { reading.old ≡ opening }
    ensures script { MovesScript result reading.new (progress_of bytes.now) }
    ensures started { OnOk result (IsTrue reading.new.started) }
{
    if bytes.len() > MAX_SCRIPT_BYTES {
        return Err(ReadFail::Fault(ScriptFault {
            line: 0,
            kind: FaultKind::TooLarge,
        }));
    }
    read_lines(alloc, reading, bytes)?;
    if reading.has_started() {
        Ok(())
    } else {
        Err(ReadFail::Fault(ScriptFault {
            line: 0,
            kind: FaultKind::NoApp,
        }))
    }
}

/// Reads a script of at most 1,048,576 bytes, in one pass, with memory in proportion to them.
///
/// # Errors
/// `Fault` if they are no script: that of the first faulty line, with the line's number from 1;
/// the first in the order of [`FaultKind`]. `TooLarge` and `NoApp` are faults of the whole, and
/// have the number 0. `Memory` if memory runs out.
#[tactic(auto, unfolding(crate::specs::Grammar::grammar))]
pub fn read_script(alloc: Global, bytes: &[u8]) -> Result<Script, ReadFail>
    ensures { GivesScript result (grammar bytes.now) }
{
    let mut reading = Reading::new(alloc)?;
    read_all(alloc, &mut reading, bytes)?;
    Ok(reading.into_script()?)
}
