//! The name of a table.
ghost use Rattle.std.specs.Prelude.{◌≡◌, ◌==◌, ◌≤◌, length, Bool};
ghost use Rattle.std.specs.Str.{bytes_eq};

use arrayvec::ArrayVec;
use std::marker::Model;

/// How many bytes a table's name has at most.
pub(crate) const NAME_BYTES: usize = 15;

/// A table's name: at most [`NAME_BYTES`] bytes, which contracts see as a list.
#[derive(Drop)]
pub(crate) struct TableName {
    bytes: ArrayVec<u8, NAME_BYTES>,
}

impl Model for TableName {
    ghost use Rattle.std.specs.Prelude.{ℕ, List};

    ghost Value = { List ℕ };

    ghost view = { λ n. n.bytes.items };
}

impl TableName {
    /// These bytes.
    pub(crate) fn new(bytes: &[u8]) -> TableName
        requires { length bytes.now ≤ 15 }
        ensures { result ≡ bytes.now }
    {
        let mut kept = ArrayVec::new();
        let _ = kept.try_extend_from_slice(bytes);
        TableName { bytes: kept }
    }

    /// Whether these are its bytes.
    pub(crate) fn is(&self, bytes: &[u8]) -> bool
        ensures { result ≡ bytes_eq self.now bytes.now }
    {
        self.bytes.as_slice() == bytes
    }
}
