//! The name of a pipe, as answers carry it.
ghost use Rattle.std.specs.Prelude.{◌≡◌, ◌≤◌, ◌↔◌, length, IsSome, IfSome};

use arrayvec::ArrayVec;
use std::marker::Model;

/// How many bytes a pipe's name has at most.
pub const NAME_BYTES: usize = 19;

/// A pipe's name: 1 to [`NAME_BYTES`] bytes, which contracts see as a list.
#[derive(Debug, Drop)]
pub struct PipeText {
    bytes: ArrayVec<u8, NAME_BYTES>,
}

impl Model for PipeText {
    ghost use Rattle.std.specs.Prelude.{ℕ, ◌≤◌, List, length};

    ghost Value = { List ℕ };

    ghost view = { λ t. t.bytes.items };

    ghost invariant = { λ t. (1 ≤ length t.bytes.items) × (length t.bytes.items ≤ 19) };
}

impl PipeText {
    /// These bytes; None if and only if there is no byte or more than [`NAME_BYTES`].
    pub fn try_new(bytes: &[u8]) -> Option<PipeText>
        ensures valid { IsSome result ↔ ((1 ≤ length bytes.now) × (length bytes.now ≤ 19)) }
        ensures value { IfSome result (λ text. text ≡ bytes.now) }
    {
        if bytes.is_empty() || bytes.len() > NAME_BYTES {
            return None;
        }
        let mut kept = ArrayVec::new();
        let _ = kept.try_extend_from_slice(bytes);
        Some(PipeText { bytes: kept })
    }

    /// The same name once more.
    pub fn again(&self) -> PipeText
        ensures { result ≡ self.now }
    {
        let mut kept = ArrayVec::new();
        let _ = kept.try_extend_from_slice(self.bytes.as_slice());
        PipeText { bytes: kept }
    }

    /// The bytes.
    pub fn as_slice(&self) -> &[u8]
        ensures bytes { result.now ≡ self.now }
        ensures some { 1 ≤ length result.now }
        ensures few { length result.now ≤ 19 }
    {
        self.bytes.as_slice()
    }
}
