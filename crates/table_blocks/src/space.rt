//! Memory that a table has to itself.
ghost use Rattle.std.specs.Prelude.{◌≡◌, ◌+◌, ◌-◌, ◌≤◌, ◌++◌, length, take, drop, replicate};
ghost use Rattle.tbl_words.specs.Machine.{with_range};

use std::marker::Model;
use std::mem;

/// Memory that nobody reads: a free block, the rest of the region, or a working buffer. Contracts
/// see its bytes.
pub struct Space<'r> {
    // All of it.
    bytes: &'r mut [u8],
}

impl Drop for Space<'_> {
    fn drop(self) {
        let Space { bytes: _bytes } = self;
    }
}

impl<'r> Model for Space<'r> {
    ghost use Rattle.std.specs.Prelude.{List, ℕ};

    ghost Value = { List ℕ };

    ghost view = { λ s. s.bytes.now };
}

impl<'r> Space<'r> {
    /// This memory.
    pub fn new(bytes: &'r mut [u8]) -> Space<'r>
        ensures { result ≡ bytes.old }
    {
        Space { bytes }
    }

    /// Its bytes, for what seals it.
    pub fn into_bytes(self) -> &'r mut [u8]
        ensures { result.now ≡ self.entry }
    {
        let Space { bytes } = self;
        bytes
    }

    /// Cuts the first `size` bytes off.
    pub fn cut(&mut self, size: usize) -> Space<'r>
        requires { size ≤ length self.old }
        ensures front { result ≡ take size self.old }
        ensures after { self.new ≡ drop size self.old }
    {
        let bytes = mem::take(&mut self.bytes);
        let (front, back) = bytes.split_at_mut(size);
        self.bytes = back;
        Space { bytes: front }
    }

    /// How many bytes it has.
    pub fn len(&self) -> usize
        ensures { result ≡ length self.now }
    {
        self.bytes.len()
    }

    /// The first `len` bytes.
    pub fn front(&self, len: usize) -> &[u8]
        requires { len ≤ length self.now }
        ensures { result.now ≡ take len self.now }
    {
        &self.bytes[..len]
    }

    /// The memory with zeros for its first `len` bytes.
    pub fn with_zeros(self, len: usize) -> Space<'r>
        requires { len ≤ length self }
        ensures front { take len result ≡ replicate len 0 }
        ensures whole { length result ≡ length self.entry }
    {
        let Space { bytes } = self;
        clear_front(bytes, len);
        Space { bytes }
    }

    /// The memory with this value for its first bytes.
    pub fn with_front(self, value: &[u8]) -> Space<'r>
        requires { length value.now ≤ length self }
        ensures front { take (length value.now) result ≡ value.now }
        ensures whole { length result ≡ length self.entry }
    {
        let Space { bytes } = self;
        copy_to_front(bytes, value);
        Space { bytes }
    }

    /// The memory with this value for its first bytes, a range of it replaced. Each byte is written
    /// once.
    pub fn with_copy(self, value: &[u8], offset: usize, range: &[u8]) -> Space<'r>
        requires fits { length value.now ≤ length self }
        requires range { offset + length range.now ≤ length value.now }
        ensures front { take (length value.now) result ≡ with_range value.now offset range.now }
        ensures whole { length result ≡ length self.entry }
    {
        let Space { bytes } = self;
        copy_with_range(bytes, value, offset, range);
        Space { bytes }
    }

    /// The memory with a range replaced of the value that its first `len` bytes are.
    pub fn with_range(self, len: usize, offset: usize, range: &[u8]) -> Space<'r>
        requires fits { len ≤ length self }
        requires range { offset + length range.now ≤ len }
        ensures front { take len result ≡ with_range (take len self.entry) offset range.now }
        ensures whole { length result ≡ length self.entry }
    {
        let Space { bytes } = self;
        write_range(bytes, len, offset, range);
        Space { bytes }
    }
}

// Writes zeros over the first bytes.
fn clear_front(space: &mut [u8], len: usize)
    requires { len ≤ length space.old }
    ensures { space.new ≡ replicate len 0 ++ drop len space.old }
{
    let (front, _) = space.split_at_mut(len);
    front.fill(0);
}

// Copies a value to the front.
fn copy_to_front(space: &mut [u8], value: &[u8])
    requires { length value.now ≤ length space.old }
    ensures { space.new ≡ value.now ++ drop (length value.now) space.old }
{
    let (front, _) = space.split_at_mut(value.len());
    front.copy_from_slice(value);
}

// Writes a range over a part of the front.
fn write_range(space: &mut [u8], len: usize, offset: usize, range: &[u8])
    requires fits { len ≤ length space.old }
    requires range { offset + length range.now ≤ len }
    ensures { space.new ≡ with_range (take len space.old) offset range.now ++ drop len space.old }
{
    let (front, _) = space.split_at_mut(len);
    let (_, back) = front.split_at_mut(offset);
    let (middle, _) = back.split_at_mut(range.len());
    middle.copy_from_slice(range);
}

// Copies a value to the front, with a range of it replaced.
fn copy_with_range(space: &mut [u8], value: &[u8], offset: usize, range: &[u8])
    requires fits { length value.now ≤ length space.old }
    requires range { offset + length range.now ≤ length value.now }
    ensures { space.new ≡
        with_range value.now offset range.now ++ drop (length value.now) space.old }
{
    let end = offset + range.len();
    let (front, _) = space.split_at_mut(value.len());
    let (before, rest) = front.split_at_mut(offset);
    let (middle, after) = rest.split_at_mut(range.len());
    before.copy_from_slice(&value[..offset]);
    middle.copy_from_slice(range);
    after.copy_from_slice(&value[end..]);
}
