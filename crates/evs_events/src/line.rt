//! A line of the event log.
ghost use Rattle.std.specs.Prelude.{◌≡◌, ◌≤◌, length, take};
ghost use Rattle.fsw_base.specs.EventLog.{event_line};
ghost use Rattle.evs_events.specs.Views.{line_shown};

use arrayvec::ArrayVec;
use fsw_base::EventKind;
use std::marker::Model;

/// The longest text of a log line, in bytes (cFE's CFE_MISSION_EVS_MAX_MESSAGE_LENGTH).
pub const MAX_TEXT: usize = 122;

/// An event as the log shows it.
#[derive(Clone, Copy, Debug, PartialEq, Eq)]
pub struct LogLine<'a> {
    /// The application's number, 1 to 16, or 0 if a service tells the event.
    pub app: u32,
    /// The event id.
    pub id: u16,
    /// What the event tells of.
    pub kind: EventKind,
    /// The text, at most [`MAX_TEXT`] bytes.
    pub text: &'a [u8],
}

/// An event as the log keeps it, with a text of its own.
#[derive(Drop)]
pub struct StoredLine {
    // The application's number; 0 for a service.
    app: u32,
    // The event id.
    id: u16,
    // The kind of the event.
    kind: EventKind,
    // The first bytes of the event's text, as many as fit.
    text: ArrayVec<u8, MAX_TEXT>,
}

impl Model for StoredLine {
    ghost use Rattle.fsw_base.specs.EventLog.{Line};

    ghost Value = { Line };

    ghost view = { λ l. record { app = l.app; id = l.id; kind = l.kind; text = l.text.items } };
}

impl StoredLine {
    /// The line of an event. Of a text past [`MAX_TEXT`] bytes it keeps the first [`MAX_TEXT`].
    pub fn new(app: u32, id: u16, kind: EventKind, text: &[u8]) -> StoredLine
        ensures { result ≡ event_line app id kind text.now }
    {
        let mut kept = ArrayVec::new();
        let _ = kept.try_extend_from_slice(cut(text));
        StoredLine {
            app,
            id,
            kind,
            text: kept,
        }
    }

    /// The line to show.
    pub fn show(&self) -> LogLine<'_>
        ensures line { line_shown result ≡ self.now }
        ensures short { length result.text.now ≤ MAX_TEXT }
    {
        LogLine {
            app: self.app,
            id: self.id,
            kind: self.kind,
            text: self.text.as_slice(),
        }
    }
}

// The first bytes of a text, at most as many as a line keeps.
fn cut(text: &[u8]) -> &[u8]
    ensures front { result.now ≡ take MAX_TEXT text.now }
    ensures fits { length result.now ≤ MAX_TEXT }
{
    if text.len() > MAX_TEXT {
        &text[..MAX_TEXT]
    } else {
        text
    }
}
