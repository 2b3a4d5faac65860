//! What an application tells of a table that it holds.
ghost use Rattle.std.specs.Prelude.{◌≡◌, ◌≤◌, ◌*◌, length};
ghost use Rattle.tbl_words.specs.Receipts.{receipt_of, table_receipt};

use fsw_base::sum_of;

/// How many of a table's first bytes a receipt has at most.
pub const HEAD_BYTES: usize = 16;

/// What an application saw when it looked at a table that it holds.
#[derive(Clone, Copy, Debug)]
pub struct TableReceipt<'a> {
    /// The handle's number.
    pub handle: u32,
    /// The version held.
    pub version: u32,
    /// The table's size in bytes.
    pub size: u32,
    /// The sum of all its bytes.
    pub sum: u32,
    /// Its first bytes, at most [`HEAD_BYTES`].
    pub head: &'a [u8],
}

impl<'a> TableReceipt<'a> {
    /// The receipt of a version that a handle holds: of its bytes, at most 65536.
    pub fn new(handle: u32, version: u32, bytes: &'a [u8]) -> TableReceipt<'a>
        requires { length bytes.now ≤ 65536 }
        ensures { receipt_of result ≡ table_receipt handle version bytes.entry.now }
    {
        let len = bytes.len().min(HEAD_BYTES);
        TableReceipt {
            handle,
            version,
            size: bytes.len() as u32,
            sum: sum_of(bytes),
            head: &bytes[..len],
        }
    }
}
