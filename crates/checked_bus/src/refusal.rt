//! Why the bus wasn't asked.

/// Why a call was refused before the bus was asked. Nothing changed then, and nothing was counted.
#[derive(Clone, Copy, Debug, PartialEq, Eq)]
pub enum Refusal {
    /// The bus serves no application of this number.
    NoApplication,
    /// A name has more than 64 bytes, a message more than 65542, an event's text more than 200, or
    /// there are more than 8 filters.
    TooLong,
    /// The application has ended, or waits; of a look: it doesn't wait.
    NotActive,
    /// No number is left for a pipe or a subscription.
    NoNumbers,
    /// The application has as many buffers out as it may have.
    NoRoom,
    /// An application that ends has a buffer out; or the place for a new buffer has one.
    BufferOut,
    /// The memory that comes back is no block of the buffer's size.
    NotItsBlock,
    /// A scope that is neither 0, local, nor 1, global.
    NoScope,
    /// A kind of event that isn't 1 to 4.
    NoKind,
    /// A mode of the log that is neither 0 nor 1.
    NoMode,
    /// Two filters of one event id.
    SameFilter,
}
