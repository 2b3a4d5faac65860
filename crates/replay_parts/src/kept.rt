//! Text that is kept in memory.
ghost use Rattle.std.specs.Prelude.{◌≡◌, ◌<◌, ◌≤◌, [], length};
ghost use Rattle.fsw_base.specs.Outside.{Writes, Rose};

use fsw_base::{Sink, WriteAnswer};
use std::alloc::Global;
use std::marker::Model;

/// A sink that keeps what is written. It fails only if memory runs out.
#[derive(Drop)]
pub struct KeptText {
    // What was written.
    text: Vec<u8>,
    // How often memory ran out.
    faults: u64,
}

impl Model for KeptText {
    ghost use Rattle.replay_parts.specs.Compared.{Kept};

    ghost Value = { Kept };

    ghost view = { λ k. record { text = k.text.items; faults = k.faults } };
}

impl KeptText {
    /// Nothing was written.
    pub fn new(alloc: Global) -> KeptText
        ensures { result ≡ record { text = []; faults = 0 } }
    {
        KeptText {
            text: Vec::new(alloc),
            faults: 0,
        }
    }

    /// What was written.
    pub fn as_slice(&self) -> &[u8]
        ensures { result.now ≡ self.now.text }
    {
        self.text.as_slice()
    }

    /// Drops what was written.
    pub fn clear(&mut self)
        ensures { self.new ≡ record self.old { text = [] } }
    {
        self.text.clear();
    }
}

impl Sink for KeptText {
    ghost use Rattle.std.specs.Prelude.{Some};

    ghost written = { λ s. Some s.text };

    ghost faults = { λ s. s.faults };

    fn write(&mut self, bytes: &[u8]) -> WriteAnswer
        requires { 0 < length bytes.now }
        ensures bytes { Writes result (Some self.old.text) (Some self.new.text) bytes.now }
        ensures never_falls { self.old.faults ≤ self.new.faults }
        ensures cause { result ≡ WriteAnswer.Failed → Rose self.old.faults self.new.faults }
    {
        match self.text.extend_from_slice(bytes) {
            Ok(()) => WriteAnswer::Took(bytes.len()),
            Err(_) => {
                self.faults = self.faults.saturating_add(1);
                WriteAnswer::Failed
            }
        }
    }
}
