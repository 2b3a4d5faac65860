//! Guards over a source and a sink: through them nothing is asked any more once a call has failed.
ghost use Rattle.std.specs.Prelude.{◌≡◌, ℕ, ◌<◌, ◌≤◌, true, false, length};
ghost use Rattle.fsw_base.specs.Guards.{is_failed_read, is_failed_write};
ghost use Rattle.fsw_base.specs.Outside.{Reads, Writes, Rose};

use crate::outside::{ReadAnswer, Sink, Source, WriteAnswer};
use std::marker::Model;

/// A source that is read no further once a read has failed.
///
/// Who has only the guard can't reach the source in another way.
#[derive(Drop)]
pub struct SourceGuard<'s, S: Source> {
    // What it guards.
    source: &'s mut S,
    // Whether a read has failed.
    failed: bool,
}

impl<'s, S: Source> Model for SourceGuard<'s, S> {
    ghost use Rattle.fsw_base.specs.Guards.{GuardedSource};

    ghost Value = { GuardedSource };

    ghost view = { λ g.
        record {
          source = g.source.ghost_name;
          left = S.left g.source.now;
          faults = S.faults g.source.now;
          failed = g.failed;
        } };
}

impl<'s, S: Source> SourceGuard<'s, S> {
    /// A guard through which nothing was read yet.
    pub fn new(source: &'s mut S) -> SourceGuard<'s, S>
        ensures { result ≡
            record {
              source = source.entry.ghost_name;
              left = S.left source.old;
              faults = S.faults source.old;
              failed = false;
            } }
    {
        SourceGuard {
            source,
            failed: false,
        }
    }

    /// Reads as the source does. No read through this guard may have failed before.
    pub fn read(&mut self, buf: &mut [u8]) -> ReadAnswer
        requires none_failed { self.old.failed ≡ false }
        requires some { 0 < length buf.old }
        ensures bytes { Reads result self.old.left self.new.left buf.new }
        ensures never_falls { self.old.faults ≤ self.new.faults }
        ensures cause { self.new.failed ≡ true → Rose self.old.faults self.new.faults }
        ensures failed { self.new.failed ≡ is_failed_read result }
        ensures same_source { self.new.source ≡ self.old.source }
    {
        let answer = self.source.read(buf);
        self.failed = matches!(answer, ReadAnswer::Failed);
        answer
    }

    /// Gives the source back.
    pub fn into_inner(self) -> &'s mut S
        ensures same_source { result.ghost_name ≡ self.entry.source }
        ensures left { S.left result.now ≡ self.entry.left }
        ensures faults { S.faults result.now ≡ self.entry.faults }
    {
        self.source
    }
}

/// A sink to which nothing more is written once a write has failed.
///
/// Who has only the guard can't reach the sink in another way.
#[derive(Drop)]
pub struct SinkGuard<'k, K: Sink> {
    // What it guards.
    sink: &'k mut K,
    // Whether a write has failed.
    failed: bool,
    // Whether no write was made so far.
    untouched: bool,
}

impl<'k, K: Sink> Model for SinkGuard<'k, K> {
    ghost use Rattle.fsw_base.specs.Guards.{GuardedSink};

    ghost Value = { GuardedSink };

    ghost view = { λ g.
        record {
          sink = g.sink.ghost_name;
          written = K.written g.sink.now;
          faults = K.faults g.sink.now;
          failed = g.failed;
          untouched = g.untouched;
        } };
}

impl<'k, K: Sink> SinkGuard<'k, K> {
    /// A guard through which nothing was written yet.
    pub fn new(sink: &'k mut K) -> SinkGuard<'k, K>
        ensures { result ≡
            record {
              sink = sink.entry.ghost_name;
              written = K.written sink.old;
              faults = K.faults sink.old;
              failed = false;
              untouched = true;
            } }
    {
        SinkGuard {
            sink,
            failed: false,
            untouched: true,
        }
    }

    /// Whether a write has failed.
    pub fn has_failed(&self) -> bool
        ensures { result ≡ self.now.failed }
    {
        self.failed
    }

    /// Writes as the sink does. No write through this guard may have failed before.
    pub fn write(&mut self, bytes: &[u8]) -> WriteAnswer
        requires none_failed { self.old.failed ≡ false }
        requires some { 0 < length bytes.now }
        ensures bytes { Writes result self.old.written self.new.written bytes.now }
        ensures never_falls { self.old.faults ≤ self.new.faults }
        ensures cause { self.new.failed ≡ true → Rose self.old.faults self.new.faults }
        ensures failed { self.new.failed ≡ is_failed_write result }
        ensures touched { self.new.untouched ≡ false }
        ensures same_sink { self.new.sink ≡ self.old.sink }
    {
        let answer = self.sink.write(bytes);
        self.untouched = false;
        self.failed = matches!(answer, WriteAnswer::Failed);
        answer
    }

    /// Gives the sink back.
    pub fn into_inner(self) -> &'k mut K
        ensures same_sink { result.ghost_name ≡ self.entry.sink }
        ensures written { K.written result.now ≡ self.entry.written }
        ensures faults { K.faults result.now ≡ self.entry.faults }
    {
        self.sink
    }
}
