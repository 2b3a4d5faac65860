//! Names, modes, scopes and contents.
ghost use Rattle.std.specs.Prelude.{◌≡◌, ℕ, ◌<◌, List, IfOk, length};
ghost use Rattle.std.specs.Option.{option_map};
ghost use Rattle.script_words.specs.Readings.{Reads, Gives};
ghost use Rattle.script_words.specs.Numbers.{hex_bytes};

use crate::numbers::digit_value;
use std::alloc::{AllocError, Global};
use std::marker::Model;

/// Bytes of a script: a name, a text, or what hexadecimal digits spell.
#[derive(Drop)]
pub struct ByteText {
    bytes: Vec<u8>,
}

impl Model for ByteText {
    ghost Value = { List ℕ };

    ghost view = { λ text. text.bytes.items };
}

impl ByteText {
    /// These bytes.
    ///
    /// # Errors
    /// `AllocError` if there is no memory for them.
    pub fn new(alloc: Global, bytes: &[u8]) -> Result<ByteText, AllocError>
        ensures { IfOk result (λ text. text ≡ bytes.now) }
    {
        let bytes = Vec::from_slice(alloc, bytes)?;
        Ok(ByteText { bytes })
    }

    /// The bytes that hexadecimal digits spell, two digits a byte.
    ///
    /// # Errors
    /// `AllocError` if there is no memory for them.
    pub fn from_hex(alloc: Global, word: &[u8]) -> Result<ByteText, AllocError>
        ensures { IfOk result (λ text. text ≡ hex_bytes word.now) }
    {
        let bytes = bytes_spelled(alloc, word)?;
        Ok(ByteText { bytes })
    }

    /// The bytes.
    pub fn as_slice(&self) -> &[u8]
        ensures { result.now ≡ self.now }
    {
        self.bytes.as_slice()
    }
}

// The bytes that hexadecimal digits spell, two digits a byte.
fn bytes_spelled(alloc: Global, word: &[u8]) -> Result<Vec<u8>, AllocError>
    ensures { IfOk result (λ bytes. bytes.items ≡ hex_bytes word.now) }
{
    let mut bytes = Vec::with_capacity(alloc, word.len() / 2)?;
    let mut rest = word;
    while rest.len() >= 2 {
        let (pair, digits) = rest.split_at(2);
        bytes.push(16 * digit_value(pair[0]) + digit_value(pair[1]))?;
        rest = digits;
    }
    Ok(bytes)
}

/// The bytes of a table load: spelled out, or counting up from a first byte.
#[derive(Drop)]
pub enum Content {
    /// These bytes, 1 to 256.
    Hex(ByteText),
    /// So many bytes, each one more than the one before, modulo 256.
    Fill {
        /// How many bytes, 1 to 65536.
        len: u32,
        /// The first byte.
        byte: u8,
    },
}
