//! A source and a sink that never fail.
ghost use Rattle.std.specs.Prelude.{◌≡◌, ℕ, ◌<◌, ◌≤◌, List, length, Some, None};
ghost use Rattle.fsw_base.specs.Clean.{clean_answer};
ghost use Rattle.fsw_base.specs.Outside.{Reads, Writes, Rose};

use crate::outside::{ReadAnswer, Sink, Source, WriteAnswer};
use std::marker::Model;

/// A source over a slice, read in pieces as large as asked for.
#[derive(Debug, Drop)]
pub struct CleanSource<'a> {
    left: &'a [u8],
}

impl<'a> Model for CleanSource<'a> {
    ghost Value = { List ℕ };

    ghost view = { λ s. s.left.now };
}

impl<'a> CleanSource<'a> {
    /// A source of these bytes.
    pub fn new(bytes: &'a [u8]) -> CleanSource<'a>
        ensures { result ≡ bytes.now }
    {
        CleanSource { left: bytes }
    }
}

impl Source for CleanSource<'_> {
    ghost left = { λ s. Some s };

    ghost faults = { λ _. 0 };

    fn read(&mut self, buf: &mut [u8]) -> ReadAnswer
        requires { 0 < length buf.old }
        ensures bytes { Reads result (Some self.old) (Some self.new) buf.new }
        ensures never_falls { 0 ≤ 0 }
        ensures cause { result ≡ ReadAnswer.Failed → Rose 0 0 }
        ensures answer { result ≡ clean_answer (length self.old) (length buf.old) }
    {
        let count = buf.len().min(self.left.len());
        if count == 0 {
            return ReadAnswer::End;
        }
        buf[..count].copy_from_slice(&self.left[..count]);
        self.left = &self.left[count..];
        ReadAnswer::Got(count)
    }
}

/// A sink that drops what it takes.
#[derive(Debug, Drop)]
pub struct CleanSink;

impl CleanSink {
    /// A sink that tells nothing.
    pub fn new() -> CleanSink {
        CleanSink
    }
}

impl Sink for CleanSink {
    ghost written = { λ _. None };

    ghost faults = { λ _. 0 };

    fn write(&mut self, bytes: &[u8]) -> WriteAnswer
        requires { 0 < length bytes.now }
        ensures bytes { Writes result None None bytes.now }
        ensures never_falls { 0 ≤ 0 }
        ensures cause { result ≡ WriteAnswer.Failed → Rose 0 0 }
        ensures answer { result ≡ WriteAnswer.Took (length bytes.now) }
    {
        WriteAnswer::Took(bytes.len())
    }
}
