//! A source and a sink in memory, read and written in small pieces, whose calls fail when they are
//! told to.
ghost use Rattle.std.specs.Prelude.{◌≡◌, ℕ, ◌+◌, ◌<◌, ◌≤◌, [], length, vec_len, vec_capacity, IfOk};
ghost use Rattle.fsw_base.specs.Outside.{Reads, Writes, Rose};
ghost use Rattle.fsw_base.specs.Memory.{Supply, Store, read_answer, after_read, write_answer, after_write, is_listed};

use crate::outside::{ReadAnswer, Sink, Source, WriteAnswer};
use crate::reserved::extend_reserved;
use std::alloc::{AllocError, Global};
use std::marker::Model;

/// A source over a slice that gives at most a piece at a time, and fails at the calls that it is
/// told.
#[derive(Drop)]
pub struct MemSource<'a> {
    // Not read yet.
    left: &'a [u8],
    // The most that one read gives.
    piece: usize,
    // The numbers of the calls that fail, from 1.
    fails: &'a [u32],
    // Calls so far.
    calls: u64,
    // Calls that failed.
    faults: u64,
}

impl<'a> Model for MemSource<'a> {
    ghost Value = { Supply };

    ghost view = { λ s.
        record {
          left = s.left.now;
          piece = s.piece;
          fails = s.fails.now;
          calls = s.calls;
          faults = s.faults;
        } };

    ghost invariant = { λ s. 1 ≤ s.piece };
}

impl<'a> MemSource<'a> {
    /// A source of these bytes. Call number n, from 1, fails if `fails` lists n.
    pub fn new(bytes: &'a [u8], piece: usize, fails: &'a [u32]) -> MemSource<'a>
        requires { 1 ≤ piece }
        ensures { result ≡
            record { left = bytes.now; piece = piece; fails = fails.now; calls = 0; faults = 0 } }
    {
        MemSource {
            left: bytes,
            piece,
            fails,
            calls: 0,
            faults: 0,
        }
    }
}

impl Source for MemSource<'_> {
    ghost use Rattle.std.specs.Prelude.{Some};

    ghost left = { λ s. Some s.left };

    ghost faults = { λ s. s.faults };

    fn read(&mut self, buf: &mut [u8]) -> ReadAnswer
        requires { 0 < length buf.old }
        ensures bytes { Reads result (Some self.old.left) (Some self.new.left) buf.new }
        ensures never_falls { self.old.faults ≤ self.new.faults }
        ensures cause { result ≡ ReadAnswer.Failed → Rose self.old.faults self.new.faults }
        ensures answer { result ≡ read_answer self.old (length buf.old) }
        ensures after { self.new ≡ after_read self.old (length buf.old) }
    {
        self.calls = self.calls.saturating_add(1);
        if is_listed(self.calls, self.fails) {
            self.faults = self.faults.saturating_add(1);
            return ReadAnswer::Failed;
        }
        let count = self.piece.min(buf.len().min(self.left.len()));
        if count == 0 {
            return ReadAnswer::End;
        }
        buf[..count].copy_from_slice(&self.left[..count]);
        self.left = &self.left[count..];
        ReadAnswer::Got(count)
    }
}

/// A sink of limited room that takes at most a piece at a time, and fails at the calls that it is
/// told.
#[derive(Drop)]
pub struct MemSink<'a> {
    // What was written.
    written: Vec<u8>,
    // The bytes that still fit; they were taken when the sink was made.
    room: usize,
    // The most that one write takes.
    piece: usize,
    // The numbers of the calls that fail, from 1.
    fails: &'a [u32],
    // Calls so far.
    calls: u64,
    // Calls that failed.
    faults: u64,
}

impl<'a> Model for MemSink<'a> {
    ghost Value = { Store };

    ghost view = { λ s.
        record {
          written = s.written.items;
          room = s.room;
          piece = s.piece;
          fails = s.fails.now;
          calls = s.calls;
          faults = s.faults;
        } };

    ghost invariant = { λ s. (1 ≤ s.piece) ×
        (vec_len s.written + s.room ≤ vec_capacity s.written) };
}

impl<'a> MemSink<'a> {
    /// A sink with room for so many bytes. Call number n, from 1, fails if `fails` lists n, and
    /// so does a call that finds no room left.
    ///
    /// # Errors
    /// `AllocError` if memory runs out.
    pub fn new(
        alloc: Global,
        room: usize,
        piece: usize,
        fails: &'a [u32],
    ) -> Result<MemSink<'a>, AllocError>
        requires { 1 ≤ piece }
        ensures { IfOk result
            (λ sink. sink ≡
            record {
              written = [];
              room = room;
              piece = piece;
              fails = fails.now;
              calls = 0;
              faults = 0;
            }) }
    {
        Ok(MemSink {
            written: Vec::with_capacity(alloc, room)?,
            room,
            piece,
            fails,
            calls: 0,
            faults: 0,
        })
    }

    /// What was written so far.
    pub fn written(&self) -> &[u8]
        ensures { result.now ≡ self.now.written }
    {
        self.written.as_slice()
    }
}

impl Sink for MemSink<'_> {
    ghost use Rattle.std.specs.Prelude.{Some};

    ghost written = { λ s. Some s.written };

    ghost faults = { λ s. s.faults };

    fn write(&mut self, bytes: &[u8]) -> WriteAnswer
        requires { 0 < length bytes.now }
        ensures bytes { Writes result (Some self.old.written) (Some self.new.written) bytes.now }
        ensures never_falls { self.old.faults ≤ self.new.faults }
        ensures cause { result ≡ WriteAnswer.Failed → Rose self.old.faults self.new.faults }
        ensures answer { result ≡ write_answer self.old (length bytes.now) }
        ensures after { self.new ≡ after_write self.old bytes.now }
    {
        self.calls = self.calls.saturating_add(1);
        let count = self.piece.min(bytes.len().min(self.room));
        if is_listed(self.calls, self.fails) || count == 0 {
            self.faults = self.faults.saturating_add(1);
            return WriteAnswer::Failed;
        }
        extend_reserved(&mut self.written, &bytes[..count]);
        self.room -= count;
        WriteAnswer::Took(count)
    }
}

// Whether the list has this number.
fn is_listed(call: u64, fails: &[u32]) -> bool
    ensures { result ≡ is_listed call fails.now }
{
    fails.iter().any(|&fail| fail as u64 == call)
}
