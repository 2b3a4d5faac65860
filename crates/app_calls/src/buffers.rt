//! Writing into the unsent buffers of a bag.
ghost use Rattle.std.specs.Prelude.{◌≡◌, ℕ, ◌≤◌, List, length, Some};
ghost use Rattle.script_runs.specs.Messages.{sent_message};
ghost use Rattle.script_runs.specs.Written.{with_bytes, put_in};
ghost use Rattle.app_calls.specs.Callers.{written_in};
ghost use Rattle.app_calls.specs.Buffers.{WritesBag};

use crate::messages::{make_message, put_in};
use buf_desc::{Held, recall_written};

/// Makes the whole of a buffer a message of this id, with sequence count 0 and a payload that
/// counts up from `fill`; nothing if the bag has no buffer of this number.
pub(crate) fn form_in(held: &mut Held<'_>, buf: u32, id: u16, fill: u8)
    requires { (bytes : List ℕ) → written_in held.old buf ≡ Some bytes →
        (7 ≤ length bytes) × (length bytes ≤ 65542) }
    ensures { WritesBag held.old held.new
        (with_bytes (written_in held.old) buf (λ old. sent_message id (length old) fill)) }
{
    // Does nothing; the proof learns of it that the other buffers stay.
    recall_written();
    if held.buffer(buf as u64).is_some() {
        make_message(held.bytes_of_mut(buf as u64), id, fill);
    }
}

/// Writes bytes into a buffer, from an offset on; nothing if they don't fit, or the bag has no
/// buffer of this number.
pub(crate) fn put_bytes_in(held: &mut Held<'_>, buf: u32, offset: u32, bytes: &[u8])
    ensures { WritesBag held.old held.new
        (with_bytes (written_in held.old) buf (λ old. put_in old offset bytes.now)) }
{
    // Does nothing; the proof learns of it that the other buffers stay.
    recall_written();
    if held.buffer(buf as u64).is_some() {
        put_in(held.bytes_of_mut(buf as u64), offset, bytes);
    }
}
