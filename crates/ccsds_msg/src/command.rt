//! The function code of a command: the cFE's use of the first byte of a command's secondary header.
ghost use Rattle.std.specs.Prelude.{◌≡◌, ◌<◌, ◌≤◌, length, Some};
ghost use Rattle.std.specs.Bool.{OnTrue, OnFalse};
ghost use Rattle.ccsds_msg.specs.Message.{has_function_code, function_code_of, with_function_code};

use crate::reading::id_of;

/// The function code of a command, 0 to 127. It is the low 7 bits of the byte behind the primary
/// header.
///
/// `None` if and only if there are fewer than 7 bytes, the packet is no command, or it has no
/// secondary header.
pub fn function_code(bytes: &[u8]) -> Option<u8>
    ensures { result ≡ function_code_of bytes.now }
{
    if holds_function_code(bytes) {
        Some(bytes[6] % 128)
    } else {
        None
    }
}

/// Replaces the function code of a command, 0 to 127. Every other bit stays.
///
/// `false` if and only if [`function_code`] gives `None`; then nothing changes.
pub fn set_function_code(bytes: &mut [u8], code: u8) -> bool
    requires { code < 128 }
    ensures told { result ≡ has_function_code bytes.old }
    ensures set { OnTrue result (bytes.new ≡ with_function_code bytes.old code) }
    ensures read_back { OnTrue result (function_code_of bytes.new ≡ Some code) }
    ensures refused { OnFalse result (bytes.new ≡ bytes.old) }
{
    if holds_function_code(bytes) {
        bytes[6] = bytes[6] / 128 * 128 + code;
        true
    } else {
        false
    }
}

// Whether the bytes are of a command with a secondary header.
fn holds_function_code(bytes: &[u8]) -> bool
    ensures { result ≡ has_function_code bytes.now }
{
    if bytes.len() < 7 {
        return false;
    }
    let id = id_of(bytes);
    id / 4096 % 2 == 1 && id / 2048 % 2 == 1
}
