//! The outside, as the core sees it: where bytes come from and go to, and who may hold a call.
ghost use Rattle.std.specs.Prelude.{◌≡◌, ℕ, ◌<◌, ◌≤◌, List, Option, length};
ghost use Rattle.fsw_base.specs.Outside.{Reads, Writes, Rose};

/// What a read answers.
#[derive(Clone, Copy, Debug, PartialEq, Eq)]
pub enum ReadAnswer {
    /// So many bytes, at least one, stand at the front of the buffer.
    Got(usize),
    /// No byte is left.
    End,
    /// The source failed, and no byte was taken.
    Failed,
}

/// What a write answers.
#[derive(Clone, Copy, Debug, PartialEq, Eq)]
pub enum WriteAnswer {
    /// So many bytes, at least one, were taken from the front of those given.
    Took(usize),
    /// The sink failed, and took no byte.
    Failed,
}

/// Where bytes come from.
pub trait Source {
    /// The bytes that are left, if this source tells them.
    ghost left: { Self → Option (List ℕ) };

    /// How often the source has failed.
    ghost faults: { Self → ℕ };

    /// Reads into the front of `buf`, which isn't empty.
    ///
    /// `Failed` comes only if the count of faults rose, or stands at its last value, 2^64 - 1.
    fn read(&mut self, buf: &mut [u8]) -> ReadAnswer
        requires { 0 < length buf.old }
        ensures bytes { Reads result (left self.old) (left self.new) buf.new }
        ensures never_falls { faults self.old ≤ faults self.new }
        ensures cause { result ≡ ReadAnswer.Failed → Rose (faults self.old) (faults self.new) };
}

/// Where bytes go to.
pub trait Sink {
    /// The bytes written, if this sink tells them.
    ghost written: { Self → Option (List ℕ) };

    /// How often the sink has failed.
    ghost faults: { Self → ℕ };

    /// Writes a front of `bytes`, which isn't empty.
    ///
    /// `Failed` comes only if the count of faults rose, or stands at its last value, 2^64 - 1.
    fn write(&mut self, bytes: &[u8]) -> WriteAnswer
        requires { 0 < length bytes.now }
        ensures bytes { Writes result (written self.old) (written self.new) bytes.now }
        ensures never_falls { faults self.old ≤ faults self.new }
        ensures cause { result ≡ WriteAnswer.Failed → Rose (faults self.old) (faults self.new) };
}

/// Who is told of each call line of a script, and may hold it, outside every lock.
///
/// The numbers are the application's and its call line's, both from 1.
pub trait Gate: Sync {
    /// The call is about to be made.
    fn before(&self, app: u32, call: u32);

    /// The call has been answered.
    fn after(&self, app: u32, call: u32);
}

/// A gate that holds nobody.
#[derive(Clone, Copy, Debug)]
pub struct OpenGate;

impl Gate for OpenGate {
    fn before(&self, _app: u32, _call: u32) {}

    fn after(&self, _app: u32, _call: u32) {}
}
