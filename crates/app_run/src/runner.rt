//! One application of a script.
ghost use Rattle.std.specs.Prelude.{◌≡◌, ◌<◌, ◌≤◌, ◌-◌, ◌+◌, length, true, false, [], Some, None, All, IfOk};
ghost use Rattle.app_script.specs.Script.{app_at};
ghost use Rattle.app_run.specs.Lines.{made_size, filling_size, pipe_waited_for};
ghost use Rattle.app_run.specs.Runners.{beginning, begins_line};

use crate::line_calls::{run_line, write_line};
use crate::receipts::{show, take_address, take_got, take_receipt};
use crate::table_calls::run_table_line;
use app_calls::Calls;
use app_script::Script;
use bus_words::{BusAnswer, ReceiptList};
use fsw_base::AppNo;
use sb_calls::Pended;
use script_calls::{Handles, Registers};
use script_lines::{Content, Line};
use std::alloc::{AllocError, Global};
use std::marker::Model;

/// How an application stands after a turn.
#[derive(Clone, Copy, Debug, PartialEq, Eq)]
pub enum Turned {
    /// It makes calls.
    Went,
    /// It waits for a message.
    Waits,
    /// It has ended; it takes no more turns.
    Ended,
}

/// One application of a script: how far it has come, and its receipts so far.
pub struct Runner<'s> {
    // The script that it runs an application of.
    script: &'s Script,
    // Which of the script's applications.
    app: AppNo,
    // The place of its next line; how many lines there are once they are through.
    next: u32,
    // Its registers of what the bus numbers.
    registers: Registers,
    // Its registers of table handles.
    handles: Handles,
    // The pipe that it waits on.
    waits_on: Option<u32>,
    // Whether it made its end.
    ended: bool,
    // Room for the largest message of its `send` lines, and for the longest load that is told by
    // its first byte.
    made: Vec<u8>,
    // Its receipts so far, with room for one of each line left.
    receipts: ReceiptList,
}

impl Drop for Runner<'_> {
    fn drop(self) {
        let Runner {
            script: _script,
            app: _app,
            next: _next,
            registers: _registers,
            handles: _handles,
            waits_on: _waits_on,
            ended: _ended,
            made: _made,
            receipts: _receipts,
        } = self;
    }
}

impl<'s> Model for Runner<'s> {
    ghost use Rattle.app_run.specs.Runners.{Progress};

    ghost Value = { Progress };

    ghost use Rattle.app_run.specs.Inside.{progress_in, Keeps};

    ghost view = { progress_in };

    ghost invariant = { Keeps };
}

impl<'s> Runner<'s> {
    ghost use Rattle.app_run.specs.Turns.{AreFirst, IsReady, MayTurn, TakesTurnBy, Turns, turned_of};
    ghost use Rattle.app_calls.specs.Callers.{Caller, SameServices};

    /// The application before its first line: its registers are 0, and it has no receipt. By
    /// the code, all memory that its run takes is taken here.
    ///
    /// # Errors
    /// If memory runs out.
    pub fn new(alloc: Global, script: &'s Script, app: AppNo) -> Result<Runner<'s>, AllocError>
        requires { app ≤ length script.now.apps }
        ensures beginning { IfOk result (λ runner. runner ≡ beginning script.now app) }
        ensures may_turn { IfOk result
            (λ runner. (caller : Caller) → AreFirst script.now runner caller →
            MayTurn runner caller) }
    {
        script.recall_ranges();
        let size = largest_made(script, app);
        Ok(Runner {
            script,
            app,
            next: 0,
            registers: Registers::new(),
            handles: Handles::new(),
            waits_on: None,
            ended: false,
            made: vec![in alloc; 0; size as usize]?,
            receipts: ReceiptList::new(alloc, script.lines(app))?,
        })
    }

    /// One turn: the next line; or one look, while the application waits; or its end, once its
    /// lines are through, at the tables first and then at the bus.
    ///
    /// The application has not ended. The calls are its own, on services that were opened for its
    /// script, and have of the application just what its turns so far called; others may have
    /// called in between.
    pub fn turn<C: Calls>(&mut self, calls: &mut C) -> Turned
        requires { MayTurn self.old (C.caller calls.old) }
        ensures { Turns self.old self.new (C.caller calls.old) (C.caller calls.new) result }
    {
        self.make_turn(calls)
    }

    /// Whether the application has ended.
    pub fn has_ended(&self) -> bool
        ensures { result ≡ self.now.ended }
    {
        self.ended
    }

    /// Whether its next turn runs a line: it has one left, and waits for nothing. Who holds a run
    /// up at its lines asks this.
    pub fn begins_line(&self) -> bool
        ensures { result ≡ begins_line self.now }
    {
        self.waits_on.is_none() && self.next < self.script.lines(self.app)
    }

    /// How many of its lines it has begun; the last of them may still wait.
    pub fn lines_begun(&self) -> u32
        ensures exact { result ≡ self.now.running.begun }
        ensures few { result ≤ 20000 }
    {
        self.next
    }

    /// The application's number.
    pub fn app(&self) -> AppNo
        ensures { result ≡ self.now.running.app }
    {
        self.app
    }

    /// The receipts, once the application has ended.
    pub fn finish(self) -> ReceiptList
        requires { self.ended ≡ true }
        ensures { result.receipts ≡ self.entry.receipts }
    {
        let Runner {
            script: _script,
            app: _app,
            next: _next,
            registers: _registers,
            handles: _handles,
            waits_on: _waits_on,
            ended: _ended,
            made: _made,
            receipts,
        } = self;
        receipts
    }

    // One turn, by services that know the application as it is.
    fn make_turn<C: Calls>(&mut self, calls: &mut C) -> Turned
        requires { IsReady self.old (C.caller calls.old) }
        ensures turn { TakesTurnBy self.old self.new (C.caller calls.old) (C.caller calls.new) }
        ensures told { result ≡ turned_of self.new }
        ensures same { SameServices (C.caller calls.old) (C.caller calls.new) }
    {
        if let Some(pipe) = self.waits_on {
            self.look(calls, pipe);
        } else if self.next < self.script.lines(self.app) {
            self.run_next(calls);
        } else {
            self.end(calls);
        }
        self.turned()
    }

    // Looks again for a message on the pipe that it waits on.
    fn look<C: Calls>(&mut self, calls: &mut C, pipe: u32)
        requires may { IsReady self.old (C.caller calls.old) }
        requires waits { self.old.waits_on ≡ Some pipe }
        ensures turn { TakesTurnBy self.old self.new (C.caller calls.old) (C.caller calls.new) }
        ensures same { SameServices (C.caller calls.old) (C.caller calls.new) }
    {
        match calls.look() {
            Pended::Got(number) => {
                take_receipt(calls, pipe, number, &mut self.receipts);
                self.waits_on = None;
            }
            Pended::TimeOut => self.waits_on = None,
            Pended::Pending => {}
        }
    }

    // Runs the next line.
    fn run_next<C: Calls>(&mut self, calls: &mut C)
        requires may { IsReady self.old (C.caller calls.old) }
        requires active { self.old.waits_on ≡ None }
        requires left { 1 ≤ length self.old.running.lines }
        ensures turn { TakesTurnBy self.old self.new (C.caller calls.old) (C.caller calls.new) }
        ensures same { SameServices (C.caller calls.old) (C.caller calls.new) }
    {
        let line = self.script.line(self.app, self.next);
        self.next += 1;
        match run_line(calls, &self.registers, &mut self.made, line) {
            Some(answer) => {
                take_got(calls, &self.registers, line, &answer, &mut self.receipts);
                self.waits_on = pipe_waited_for(&self.registers, line, &answer);
                self.registers.note(line, &answer);
            }
            None => match run_table_line(calls, &self.handles, &mut self.made, line) {
                Some(answer) => {
                    take_address(calls, &self.handles, line, &answer, &mut self.receipts);
                    self.handles.note(line, &answer);
                }
                None => {
                    write_line(calls, &self.registers, line);
                    show(
                        calls,
                        &self.registers,
                        &self.handles,
                        line,
                        &mut self.receipts,
                    );
                }
            },
        }
    }

    // Makes the application's last calls: at the tables first, then at the bus.
    fn end<C: Calls>(&mut self, calls: &mut C)
        requires may { IsReady self.old (C.caller calls.old) }
        requires active { self.old.waits_on ≡ None }
        requires through { self.old.running.lines ≡ [] }
        ensures turn { TakesTurnBy self.old self.new (C.caller calls.old) (C.caller calls.new) }
        ensures same { SameServices (C.caller calls.old) (C.caller calls.new) }
    {
        calls.table_end();
        calls.bus_end();
        self.ended = true;
    }

    // How the application stands.
    fn turned(&self) -> Turned
        ensures { result ≡ turned_of self.now }
    {
        if self.ended {
            Turned::Ended
        } else if self.waits_on.is_some() {
            Turned::Waits
        } else {
            Turned::Went
        }
    }
}

// The most bytes that one of the application's lines has made; 0 if none has any.
fn largest_made(script: &Script, app: AppNo) -> u32
    requires { app ≤ length script.now.apps }
    ensures { All (λ line. made_size line ≤ result) (app_at script.now app).lines }
{
    let mut largest = 0;
    for i in 0..script.lines(app) {
        let size = made_size(script.line(app, i));
        largest = larger(largest, size);
    }
    largest
}

// The larger of two.
fn larger(one: u32, other: u32) -> u32
    ensures one { one ≤ result }
    ensures other { other ≤ result }
{
    if one < other { other } else { one }
}

// How many bytes a line has made: a message, or a load that is told by its first byte.
#[tactic(auto, unfolding(crate::specs::Lines::made_size))]
fn made_size(line: &Line) -> u32
    ensures { result ≡ made_size line.now }
{
    match line {
        Line::Send { size, .. } => *size,
        Line::Stage { content, .. } => filling_size(content),
        Line::Load { content, .. } => filling_size(content),
        _ => 0,
    }
}

// How many bytes of a content have to be made.
fn filling_size(content: &Content) -> u32
    ensures { result ≡ filling_size content.now }
{
    match content {
        Content::Hex(_) => 0,
        Content::Fill { len, .. } => *len,
    }
}

// The pipe that the application waits on after a line that was so answered.
#[tactic(auto, unfolding(crate::specs::Lines::pipe_waited_for))]
fn pipe_waited_for(registers: &Registers, line: &Line, answer: &BusAnswer) -> Option<u32>
    ensures { result ≡ pipe_waited_for registers.now line.now answer.now }
{
    let BusAnswer::Pending = answer else {
        return None;
    };
    match line {
        Line::Pend { pipe } => Some(registers.pipe(*pipe)),
        _ => None,
    }
}
