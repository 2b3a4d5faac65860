//! A buffer that its application writes in place.
ghost use Rattle.std.specs.Prelude.{◌≡◌, Some};
ghost use Rattle.std.specs.Option.{option_map, is_some};
ghost use Rattle.checked_bus.specs.Lent.{no_buffer, is_as_long};

use std::marker::Model;
use std::mem;

/// A buffer of the bus that its application has outside of its bag, to write it in place; or none.
///
/// Contracts see its number, 0 if there is none, and the bytes of its whole block.
#[derive(Drop)]
pub struct LentBuffer<'r> {
    // The number that its message will have.
    number: u64,
    // The whole block.
    space: Option<&'r mut [u8]>,
}

impl<'r> Model for LentBuffer<'r> {
    ghost use Rattle.std.specs.Option.{option_map};
    ghost use Rattle.checked_bus.specs.Lent.{Lent};

    ghost Value = { Lent };

    ghost view = { λ b. record { number = b.number; bytes = option_map (λ it. it.now) b.space } };
}

impl<'r> LentBuffer<'r> {
    /// None.
    pub fn none() -> LentBuffer<'r>
        ensures { result ≡ no_buffer }
    {
        LentBuffer {
            number: 0,
            space: None,
        }
    }

    /// The one of this number, with this memory.
    pub fn of(number: u64, space: &'r mut [u8]) -> LentBuffer<'r>
        ensures { result ≡ record { number = number; bytes = Some space.old } }
    {
        LentBuffer {
            number,
            space: Some(space),
        }
    }

    /// Its number; 0 if there is none.
    pub fn number(&self) -> u64
        ensures { result ≡ self.now.number }
    {
        self.number
    }

    /// Whether there is one.
    pub fn is_out(&self) -> bool
        ensures { result ≡ is_some self.now.bytes }
    {
        self.space.is_some()
    }

    /// Whether there is one, of a block of so many bytes.
    pub(crate) fn is_as_long(&self, size: usize) -> bool
        ensures { result ≡ is_as_long self.now size }
    {
        match &self.space {
            Some(space) => space.len() == size,
            None => false,
        }
    }

    /// Takes its memory out, if there is one.
    pub fn take(&mut self) -> Option<&'r mut [u8]>
        ensures value { option_map (λ it. it.now) result ≡ self.old.bytes }
        ensures gone { self.new ≡ no_buffer }
    {
        let LentBuffer { number: _, space } = mem::replace(self, LentBuffer::none());
        space
    }
}
