//! The texts of events, put together of pieces.
ghost use Rattle.std.specs.Prelude.{◌≡◌, ◌+◌, ◌≤◌, ◌++◌, [], length, codes, decimal};
ghost use Rattle.text_page.specs.Texts.{hex_id};
ghost use Rattle.bus_events.specs.Events.{pair_text, missed_text};
ghost use Rattle.bus_events.specs.declared.text.TheConstants.{TEXT_BYTES};

use arrayvec::ArrayVec;
use fsw_base::AppNo;
use itoa::Buffer;
use std::marker::Model;
use text_page::hex_id;

/// The room for an event's text, in bytes. The longest of all has 44.
pub const TEXT_BYTES: usize = 64;

/// The text of an event, at most [`TEXT_BYTES`] bytes.
#[derive(Debug, Drop)]
pub struct EventText {
    bytes: ArrayVec<u8, TEXT_BYTES>,
}

impl Model for EventText {
    ghost use Rattle.std.specs.Prelude.{ℕ, List};

    ghost Value = { List ℕ };

    ghost view = { λ t. t.bytes.items };
}

impl EventText {
    /// The text's bytes.
    pub fn as_slice(&self) -> &[u8]
        ensures text { result.now ≡ self.now }
        ensures short { length result.now ≤ TEXT_BYTES }
    {
        self.bytes.as_slice()
    }

    // A text that has no bytes yet.
    fn new() -> EventText
        ensures { result ≡ [] }
    {
        EventText {
            bytes: ArrayVec::new(),
        }
    }

    // Takes a piece behind what it has.
    fn put(&mut self, piece: &[u8])
        requires { length self.old + length piece.now ≤ TEXT_BYTES }
        ensures { self.new ≡ self.old ++ piece.now }
    {
        let _ = self.bytes.try_extend_from_slice(piece);
    }

    // Takes a number in decimal, at most 10 digits.
    fn put_number(&mut self, number: u32)
        requires { length self.old + 10 ≤ TEXT_BYTES }
        ensures text { self.new ≡ self.old ++ decimal number }
        ensures digits { length (decimal number) ≤ 10 }
    {
        let mut buffer = Buffer::new();
        self.put(buffer.format(number).as_bytes());
    }
}

/// Does nothing; a proof learns of it that a number has at most 10 digits.
pub(crate) fn recall_digits(number: u32)
    ensures { length (decimal number) ≤ 10 }
{}

/// An id behind what is told of it, which has at most 18 bytes.
pub(crate) fn id_text(front: &[u8], id: u16) -> EventText
    requires { length front.now ≤ 18 }
    ensures { result ≡ front.now ++ hex_id id }
{
    let mut text = EventText::new();
    text.put(front);
    text.put(&hex_id(id));
    text
}

/// An id and a pipe behind what is told of them, which has at most 18 bytes.
pub(crate) fn pair_text(front: &[u8], id: u16, pipe: u32) -> EventText
    requires { length front.now ≤ 18 }
    ensures text { result ≡ front.now ++ pair_text id pipe }
    ensures short { length result ≤ 40 }
{
    let mut text = id_text(front, id);
    text.put(b" pipe ");
    text.put_number(pipe);
    text
}

/// An id, a pipe and a sender behind what is told of them, which has at most 18 bytes.
pub(crate) fn missed_text(front: &[u8], id: u16, pipe: u32, sender: AppNo) -> EventText
    requires { length front.now ≤ 18 }
    ensures { result ≡ front.now ++ missed_text id pipe sender }
{
    let mut text = pair_text(front, id, pipe);
    text.put(b" sender ");
    text.put_number(sender.get());
    text
}
