//! A block whose memory is lent out.
ghost use Rattle.std.specs.Prelude.{◌≡◌, ◌≤◌, length, take, replicate};
ghost use Rattle.buf_desc.specs.Block.{Unsent};

use crate::block::{Block, OpenBlock};
use std::marker::Model;

/// What stays of a block while its memory is lent out: all but the memory.
///
/// Contracts see the block with zeros for its open bytes.
pub struct Seat {
    // The number of its descriptor.
    desc: u32,
    // The number of its send.
    number: u64,
    // How many bytes are open, from the first on.
    len: u32,
    // How many bytes the whole block has.
    size: usize,
}

impl Drop for Seat {
    fn drop(self) {
        let Seat {
            desc: _desc,
            number: _number,
            len: _len,
            size: _size,
        } = self;
    }
}

impl Model for Seat {
    ghost use Rattle.std.specs.Prelude.{replicate, ◌≤◌};
    ghost use Rattle.buf_desc.specs.Block.{Unsent};

    ghost Value = { Unsent };

    ghost view = { λ s.
        record {
          desc = s.desc;
          number = s.number;
          size = s.size;
          bytes = replicate s.len 0;
        } };

    ghost invariant = { λ s. s.len ≤ s.size };
}

impl Seat {
    /// The seat of a block of this descriptor and send.
    pub(crate) fn new(desc: u32, number: u64, len: u32, size: usize) -> Seat
        requires { len ≤ size }
        ensures { result ≡
            record {
              desc = desc;
              number = number;
              size = size;
              bytes = replicate len 0;
            } }
    {
        Seat {
            desc,
            number,
            len,
            size,
        }
    }

    /// The number of its send.
    pub fn number(&self) -> u64
        ensures { result ≡ self.now.number }
    {
        self.number
    }

    /// How many bytes are open: as many as were asked for.
    pub fn len(&self) -> u32
        ensures { result ≡ length self.now.bytes }
    {
        self.len
    }

    /// How many bytes the whole block has.
    pub fn size(&self) -> usize
        ensures { result ≡ self.now.size }
    {
        self.size
    }

    /// The block with this memory, whose first bytes are its open ones.
    pub fn take_back<'r>(self, space: &'r mut [u8]) -> Block<'r>
        requires { length space.old ≡ self.size }
        ensures { result ≡ record self { bytes = take (length self.bytes) space.old } }
    {
        let Seat {
            desc,
            number,
            len,
            size: _,
        } = self;
        OpenBlock::new(desc, number, space, len)
    }
}
