//! The generator of pseudo-random numbers, and the messages that are drawn with it.
ghost use Rattle.std.specs.Prelude.{◌≡◌, ◌<◌, ◌≤◌, ◌%◌};
ghost use Rattle.script_text.specs.Draws.{first_number};
ghost use Rattle.script_text.specs.Generated.{kind_of};

use std::marker::Model;

// How many numbers the generator goes through: those of 31 bits.
const NUMBERS: u32 = 0x8000_0000;

// What the generator's number is multiplied by.
const MULTIPLIER: u64 = 1_103_515_245;

// What is added to it then.
const INCREMENT: u64 = 12345;

// How many of the lowest bits of the generator's number are left out.
const LOW_BITS: u32 = 16;

/// A message as it is drawn: what a `send` or a `form` line says of it.
#[derive(Clone, Copy)]
pub(crate) struct Draft {
    /// Its message id, 0x0801 to 0x0804.
    pub id: u16,
    /// Its bytes, 7 to 64.
    pub size: u32,
    /// Its first payload byte.
    pub fill: u8,
}

/// What an action does.
#[derive(Clone, Copy)]
pub(crate) enum Kind {
    /// It sends a message.
    Send,
    /// It makes a message in a buffer, and sends that without a copy.
    SendBuffer,
    /// It receives a message.
    Receive,
}

/// The kind of action that a number stands for, of the numbers 0 to 3.
pub(crate) fn kind_of(number: u32) -> Kind
    ensures { result ≡ kind_of number }
{
    match number {
        0 => Kind::Send,
        2 => Kind::SendBuffer,
        _ => Kind::Receive,
    }
}

/// A linear congruential generator of numbers below 2^31.
#[derive(Drop)]
pub(crate) struct Generator {
    // The number that it drew last.
    number: u32,
}

impl Model for Generator {
    ghost use Rattle.std.specs.Prelude.{ℕ};

    ghost Value = { ℕ };

    ghost use Rattle.script_text.specs.Inside.{number_in, IsShort};

    ghost view = { number_in };

    ghost invariant = { IsShort };
}

impl Generator {
    ghost use Rattle.script_text.specs.Draws.{draw};
    ghost use Rattle.script_text.specs.Generated.{draft};

    /// The generator before the first draw for the script of a number.
    pub(crate) fn new(script: u32) -> Generator
        ensures { result ≡ first_number script }
    {
        Generator {
            number: script % NUMBERS,
        }
    }

    /// Draws a number below a bound.
    #[tactic(auto, unfolding(crate::specs::Draws::draw))]
    pub(crate) fn draw(&mut self, bound: u32) -> u32
        requires { 0 < bound }
        ensures drawn { result ≡ (draw bound self.old).0 }
        ensures moved { self.new ≡ (draw bound self.old).1 }
        ensures below { result < bound }
    {
        let next = (self.number as u64 * MULTIPLIER + INCREMENT) % NUMBERS as u64;
        self.number = next as u32;
        (self.number >> LOW_BITS) % bound
    }

    /// Draws a message.
    #[tactic(auto, unfolding(crate::specs::Generated::draft))]
    pub(crate) fn draft(&mut self) -> Draft
        ensures drawn { result ≡ (draft self.old).0 }
        ensures moved { self.new ≡ (draft self.old).1 }
    {
        let app = self.draw(4);
        let more = self.draw(58);
        let fill = self.draw(256);
        Draft {
            id: 0x0801 + app as u16,
            size: 7 + more,
            fill: fill as u8,
        }
    }
}
