//! What lines write: messages, and bytes.
ghost use Rattle.std.specs.Prelude.{◌≡◌, ◌≤◌, length};
ghost use Rattle.script_runs.specs.Messages.{filled, sent_message};
ghost use Rattle.script_runs.specs.Written.{put_in};

use ccsds_msg::write_header;

/// Makes the whole slice, of 7 to 65542 bytes, a message of this id: sequence count 0, and a
/// payload that counts up from `fill`.
pub fn make_message(message: &mut [u8], id: u16, fill: u8)
    requires least { 7 ≤ length message.old }
    requires most { length message.old ≤ 65542 }
    ensures { message.new ≡ sent_message id (length message.old) fill }
{
    write_header(message, id, 0);
    fill_payload(&mut message[6..], fill);
}

/// Writes bytes that count up from `fill`, modulo 256.
pub fn fill_payload(payload: &mut [u8], fill: u8)
    ensures { payload.new ≡ filled fill (length payload.old) }
{
    for i in 0..payload.len() {
        payload[i] = ((fill as usize + i % 256) % 256) as u8;
    }
}

/// Writes the bytes from an offset on, if they fit.
pub(crate) fn put_in(target: &mut [u8], offset: u32, bytes: &[u8])
    ensures { target.new ≡ put_in target.old offset bytes.now }
{
    let start = offset as usize;
    if start <= target.len() && bytes.len() <= target.len() - start {
        target[start..start + bytes.len()].copy_from_slice(bytes);
    }
}
