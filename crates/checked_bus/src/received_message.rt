//! A message where it lies.
ghost use Rattle.std.specs.Prelude.{◌≡◌, Some, length};
ghost use Rattle.std.specs.Ptr.{as_ptr};
ghost use Rattle.checked_bus.specs.Box.{last_message};

use bus_core::PlainBus;
use fsw_base::AppNo;

/// A message that an application received. Only this file makes one.
#[derive(Clone, Copy)]
pub struct ReceivedMessage {
    /// Its number.
    pub number: u64,
    /// Where its first byte lies.
    pub at: *const u8,
    /// How many bytes it has.
    pub len: usize,
    // Private, so that no other file makes one.
    _made: (),
}

impl ReceivedMessage {
    /// The message of this number, which has these bytes: the one that the application received
    /// last on the pipe.
    pub(crate) fn of(
        core: &PlainBus<'_>,
        app: AppNo,
        pipe: u32,
        number: u64,
        bytes: &[u8],
    ) -> ReceivedMessage
        requires { last_message core.now app pipe ≡ Some bytes.now }
        ensures number { result.number ≡ number }
        ensures begins { result.at ≡ as_ptr bytes.entry }
        ensures length { result.len ≡ length bytes.now }
    {
        ReceivedMessage {
            number,
            at: first_of(bytes),
            len: bytes.len(),
            _made: (),
        }
    }
}

/// Where bytes begin.
pub fn first_of(bytes: &[u8]) -> *const u8
    ensures { result ≡ as_ptr bytes.entry }
{
    bytes.as_ptr()
}
