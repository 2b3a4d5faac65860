//! Standard input and output: the trusted edge of the program.
ghost use Rattle.std.specs.Prelude.{◌+◌, ◌-◌, ◌^◌, None, min};

use crate::outside::{ReadAnswer, Sink, Source, WriteAnswer};
use std::io::{Read, Stdin, Stdout, Write};

/// Standard input. It doesn't tell its bytes, so nothing is claimed of what it holds.
#[derive(Drop)]
pub struct StdSource {
    // What is read.
    input: Stdin,
    // How many reads have failed.
    faults: u64,
}

impl StdSource {
    /// A source over standard input that hasn't failed yet.
    pub fn new(input: Stdin) -> StdSource {
        StdSource { input, faults: 0 }
    }
}

impl Source for StdSource {
    ghost left = { λ _. None };

    ghost faults = { λ s. s.faults };

    fn read(&mut self, buf: &mut [u8]) -> ReadAnswer {
        match self.input.read(buf) {
            Ok(0) => ReadAnswer::End,
            Ok(count) => ReadAnswer::Got(count),
            Err(_) => {
                self.faults = self.faults.saturating_add(1);
                ReadAnswer::Failed
            }
        }
    }
}

/// Standard output. It doesn't tell its bytes, so nothing is claimed of what it received.
#[derive(Drop)]
pub struct StdSink {
    // What is written to.
    output: Stdout,
    // How many writes have failed.
    faults: u64,
}

impl StdSink {
    /// A sink over standard output that hasn't failed yet.
    pub fn new(output: Stdout) -> StdSink {
        StdSink { output, faults: 0 }
    }
}

impl Sink for StdSink {
    ghost written = { λ _. None };

    ghost faults = { λ s. s.faults };

    fn write(&mut self, bytes: &[u8]) -> WriteAnswer {
        match self.output.write(bytes) {
            Ok(count) if 0 < count => WriteAnswer::Took(count),
            // An output that takes nothing would never be done with.
            Ok(_) | Err(_) => {
                self.faults = self.faults.saturating_add(1);
                WriteAnswer::Failed
            }
        }
    }
}
