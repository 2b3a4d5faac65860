//! The log of the latest events (cFE Event Services, local event log).
ghost use Rattle.std.specs.Prelude.{◌≡◌, ◌==◌, ◌<◌, ◌≤◌, not, [], length, slice_get, Some, IfOk};
ghost use Rattle.fsw_base.specs.EventLog.{Log, empty_log, is_full, event_line, kept};
ghost use Rattle.evs_events.specs.Views.{drops_next, line_shown, mode_number};

use crate::line::{LogLine, MAX_TEXT, StoredLine};
use circular_buffer::HeapCircularBuffer;
use fsw_base::EventKind;
use std::alloc::{AllocError, Global};
use std::marker::Model;

/// How many lines the log has (cFE's CFE_PLATFORM_EVS_LOG_MAX).
pub const LOG_LINES: usize = 20;

/// What a full log drops for a new line.
#[derive(Clone, Copy)]
pub enum LogMode {
    /// Its oldest line, mode 0 (cFE's CFE_EVS_LogMode_OVERWRITE).
    Overwrite,
    /// The new line, mode 1 (cFE's CFE_EVS_LogMode_DISCARD).
    Discard,
}

impl LogMode {
    /// The mode of this number, 0 or 1.
    pub fn new(number: u8) -> LogMode
        requires { number ≤ 1 }
        ensures { mode_number result ≡ number }
    {
        if number == 0 {
            LogMode::Overwrite
        } else {
            LogMode::Discard
        }
    }

    /// The mode's number, 0 or 1.
    pub fn number(self) -> u8
        ensures number { result ≡ mode_number self }
        ensures last { result ≤ 1 }
    {
        match self {
            LogMode::Overwrite => 0,
            LogMode::Discard => 1,
        }
    }

    // Whether a full log drops the new line.
    fn drops_new(self) -> bool
        ensures { result ≡ not (mode_number self == 0) }
    {
        match self {
            LogMode::Overwrite => false,
            LogMode::Discard => true,
        }
    }
}

/// The latest events that passed, at most [`LOG_LINES`].
pub struct EventLog {
    // The oldest first.
    lines: HeapCircularBuffer<StoredLine>,
    // What a full log drops.
    mode: LogMode,
}

impl Drop for EventLog {
    fn drop(self) {
        let EventLog {
            lines: _lines,
            mode: _mode,
        } = self;
    }
}

impl Model for EventLog {
    ghost use Rattle.std.specs.Prelude.{◌≡◌};
    ghost use Rattle.fsw_base.specs.EventLog.{Log};
    ghost use Rattle.evs_events.specs.Views.{mode_number};
    ghost use Rattle.evs_events.specs.declared.log.TheConstants.{LOG_LINES};

    ghost Value = { Log };

    ghost view = { λ l. record { lines = l.lines.items; mode = mode_number l.mode } };

    ghost invariant = { λ l. l.lines.capacity ≡ LOG_LINES };
}

impl EventLog {
    /// A log without lines, in mode 1, with the memory for all its lines.
    ///
    /// # Errors
    /// `AllocError` if memory runs out.
    pub fn new(alloc: Global) -> Result<EventLog, AllocError>
        ensures { IfOk result (λ log. log ≡ empty_log) }
    {
        let lines = HeapCircularBuffer::with_capacity(alloc, LOG_LINES)?;
        Ok(EventLog {
            lines,
            mode: LogMode::Discard,
        })
    }

    /// Takes the line of an event last, and answers whether the log was full: then it drops its
    /// oldest line in mode 0, and the new one in mode 1. A line that is dropped is never made.
    pub fn keep(&mut self, app: u32, id: u16, kind: EventKind, text: &[u8]) -> bool
        ensures full { result ≡ is_full self.old }
        ensures log { self.new ≡ kept self.old (event_line app id kind text.now) }
    {
        if self.drops_next() {
            return true;
        }
        let was_full = self.lines.len() == LOG_LINES;
        let _ = self.lines.push_back(StoredLine::new(app, id, kind, text));
        was_full
    }

    /// Whether the log is full and would drop a new line.
    pub fn drops_next(&self) -> bool
        ensures { result ≡ drops_next self.now }
    {
        self.lines.len() == LOG_LINES && self.mode.drops_new()
    }

    /// From now on a full log drops what this mode says; the lines stay.
    pub fn set_mode(&mut self, mode: LogMode)
        ensures { self.new ≡ record self.old { mode = mode_number mode } }
    {
        self.mode = mode;
    }

    /// Drops all lines.
    pub fn clear(&mut self)
        ensures { self.new ≡ record self.old { lines = [] } }
    {
        self.lines.clear();
    }

    /// The mode.
    pub fn mode(&self) -> LogMode
        ensures { mode_number result ≡ self.now.mode }
    {
        self.mode
    }

    /// How many lines there are, at most [`LOG_LINES`].
    pub fn len(&self) -> u32
        ensures len { result ≡ length self.now.lines }
        ensures few { result ≤ LOG_LINES }
    {
        self.lines.len() as u32
    }

    /// The line at a place; places count from 0, the oldest line first.
    pub fn at(&self, i: u32) -> LogLine<'_>
        requires { i < length self.now.lines }
        ensures line { slice_get self.now.lines i ≡ Some (line_shown result) }
        ensures short { length result.text.now ≤ MAX_TEXT }
    {
        let line = self.lines.get(i as usize).unwrap();
        line.show()
    }
}
