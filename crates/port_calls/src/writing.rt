//! Writing into the unsent buffers of a port's bag.
ghost use Rattle.std.specs.Prelude.{◌≡◌, ℕ, ◌≤◌, List, length, Some};
ghost use Rattle.script_runs.specs.Messages.{sent_message};
ghost use Rattle.script_runs.specs.Written.{with_bytes, put_in};
ghost use Rattle.app_calls.specs.Buffers.{WritesBag};
ghost use Rattle.app_calls.specs.Callers.{written_in};

use app_calls::make_message;
use buf_desc::recall_written;
use bus_service::{BusPort, Writer};

// Writes a message over the whole of a buffer.
#[derive(Drop)]
struct FormMessage {
    // The message's id.
    id: u16,
    // What its payload counts up from.
    fill: u8,
}

impl Writer for FormMessage {
    ghost fits = { λ w bytes. (7 ≤ length bytes) × (length bytes ≤ 65542) };

    ghost left = { λ w bytes. sent_message w.id (length bytes) w.fill };

    fn write(self, bytes: &mut [u8]) {
        make_message(bytes, self.id, self.fill);
    }
}

// Writes bytes into a buffer, from an offset on.
#[derive(Drop)]
struct PutBytes<'a> {
    // Where the first byte goes.
    offset: u32,
    // The bytes.
    bytes: &'a [u8],
}

impl Writer for PutBytes<'_> {
    ghost fits = { λ w bytes. Unit {0} };

    ghost left = { λ w bytes. put_in bytes w.offset w.bytes.now };

    fn write(self, bytes: &mut [u8]) {
        put_in(bytes, self.offset, self.bytes);
    }
}

/// Makes the whole of a buffer a message of this id, with sequence count 0 and a payload that
/// counts up from `fill`; nothing if the port's bag has no buffer of this number.
pub(crate) fn form_in(port: &mut BusPort<'_>, buf: u32, id: u16, fill: u8)
    requires { (bytes : List ℕ) → written_in port.old.bag buf ≡ Some bytes →
        (7 ≤ length bytes) × (length bytes ≤ 65542) }
    ensures bag { WritesBag port.old.bag port.new.bag
        (with_bytes (written_in port.old.bag) buf (λ old. sent_message id (length old) fill)) }
    ensures rest { port.new ≡ record port.old { bag = port.new.bag } }
{
    // Does nothing; the proof learns of it that the other buffers stay.
    recall_written();
    if port.holds_buffer(buf) {
        port.write_buffer(buf, FormMessage { id, fill });
    }
}

/// Writes bytes into a buffer, from an offset on; nothing if they don't fit, or the port's bag
/// has no buffer of this number.
pub(crate) fn put_bytes_in(port: &mut BusPort<'_>, buf: u32, offset: u32, bytes: &[u8])
    ensures bag { WritesBag port.old.bag port.new.bag
        (with_bytes (written_in port.old.bag) buf (λ old. put_in old offset bytes.now)) }
    ensures rest { port.new ≡ record port.old { bag = port.new.bag } }
{
    // Does nothing; the proof learns of it that the other buffers stay.
    recall_written();
    if port.holds_buffer(buf) {
        port.write_buffer(buf, PutBytes { offset, bytes });
    }
}

// Writes the bytes from an offset on, if they fit.
fn put_in(target: &mut [u8], offset: u32, bytes: &[u8])
    ensures { target.new ≡ put_in target.old offset bytes.now }
{
    let start = offset as usize;
    if start <= target.len() && bytes.len() <= target.len() - start {
        target[start..start + bytes.len()].copy_from_slice(bytes);
    }
}
