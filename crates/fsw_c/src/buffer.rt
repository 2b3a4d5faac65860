//! A buffer that C has.
ghost use Rattle.std.specs.Prelude.{◌≡◌, ◌↔◌, None, IsSome};
ghost use Rattle.fsw_c.specs.Lent.{one_of};

use crate::lent::LentBlock;
use checked_bus::LentBuffer;
use std::mem;

/// A buffer of the bus that C has, to write a message where it lies: all zero while it is empty.
#[repr(C)]
#[derive(Drop)]
pub struct FswBuffer {
    // The whole block, or none.
    pub(crate) lent: LentBlock,
    /// The number that its message will have.
    pub number: u64,
    // 1 if there is one, else 0. It fills the struct, as in the handle.
    pub(crate) is_out: u64,
    /// There is one if there is a block.
    pub ghost told: { (is_out ≡ 1) ↔ IsSome lent.bytes },
}

impl FswBuffer {
    // An empty one.
    fn none() -> FswBuffer
        ensures { result.lent.bytes ≡ None }
    {
        FswBuffer {
            lent: LentBlock::none(),
            number: 0,
            is_out: 0,
        }
    }

    /// The buffer, if there is one.
    pub(crate) fn of(buffer: LentBuffer<'static>) -> FswBuffer
        ensures { one_of (record { number = result.number; bytes = result.lent.bytes }) ≡
            one_of buffer.entry }
    {
        let mut buffer = buffer;
        let number = buffer.number();
        match buffer.take() {
            Some(block) => FswBuffer {
                lent: LentBlock::of(block),
                number,
                is_out: 1,
            },
            None => FswBuffer::none(),
        }
    }

    /// Takes the buffer out, if there is one.
    pub(crate) fn take(&mut self) -> LentBuffer<'static>
        ensures { result ≡
            one_of (record { number = self.old.number; bytes = self.old.lent.bytes }) }
    {
        let FswBuffer {
            lent,
            number,
            is_out,
        } = mem::replace(self, FswBuffer::none());
        if is_out == 1 {
            LentBuffer::of(number, lent.into_block())
        } else {
            LentBuffer::none()
        }
    }
}
