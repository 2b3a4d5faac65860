//! What an application tells of what it received.
ghost use Rattle.std.specs.Prelude.{◌≡◌, ℕ, ◌+◌, ◌-◌, ◌^◌, ◌<◌, ◌≤◌, ◌↔◌, List, [], ◌∷◌, ◌++◌, length, vec_len, vec_capacity, slice_get, IsSome, IfSome, IfOk, Some};
ghost use Rattle.bus_words.specs.declared.receipts.TheConstants.{HEAD_BYTES};

use arrayvec::ArrayVec;
use std::alloc::{AllocError, Global};
use std::marker::Model;

/// How many of the first bytes of a message or of a table a receipt has at most.
pub const HEAD_BYTES: usize = 16;

/// The first bytes of a message or of a table, at most [`HEAD_BYTES`].
#[derive(Drop)]
pub struct Head {
    bytes: ArrayVec<u8, HEAD_BYTES>,
}

impl Model for Head {
    ghost Value = { List ℕ };

    ghost view = { λ h. h.bytes.items };

    ghost invariant = { λ h. length h.bytes.items ≤ HEAD_BYTES };
}

impl Head {
    /// These bytes; None if and only if there are more than [`HEAD_BYTES`].
    pub fn try_new(bytes: &[u8]) -> Option<Head>
        ensures valid { IsSome result ↔ (length bytes.now ≤ HEAD_BYTES) }
        ensures value { IfSome result (λ head. head ≡ bytes.now) }
    {
        if bytes.len() > HEAD_BYTES {
            return None;
        }
        let mut kept = ArrayVec::new();
        let _ = kept.try_extend_from_slice(bytes);
        Some(Head { bytes: kept })
    }

    /// The same bytes once more.
    pub fn again(&self) -> Head
        ensures { result ≡ self.now }
    {
        let mut kept = ArrayVec::new();
        let _ = kept.try_extend_from_slice(self.bytes.as_slice());
        Head { bytes: kept }
    }

    /// The bytes.
    pub fn as_slice(&self) -> &[u8]
        ensures bytes { result.now ≡ self.now }
        ensures few { length result.now ≤ HEAD_BYTES }
    {
        self.bytes.as_slice()
    }
}

/// What an application saw at one receive, or at one look at what it holds.
#[derive(Drop)]
pub enum Receipt {
    /// Nothing was there.
    Nothing,
    /// A message.
    Message {
        /// The pipe's number.
        pipe: u32,
        /// The send number.
        number: u32,
        /// The packet's message id.
        id: u16,
        /// Its sequence count, 0 to 16383.
        count: u16,
        /// Its size in bytes.
        size: u32,
        /// The sum of all its bytes.
        sum: u32,
        /// Its first bytes.
        head: Head,
    },
    /// A version of a table.
    Table {
        /// The handle's number.
        handle: u32,
        /// The version held.
        version: u32,
        /// The table's size in bytes.
        size: u32,
        /// The sum of all its bytes.
        sum: u32,
        /// Its first bytes.
        head: Head,
    },
}

impl Receipt {
    /// The same receipt once more.
    pub fn again(&self) -> Receipt
        ensures { result ≡ self.now }
    {
        match self {
            Receipt::Nothing => Receipt::Nothing,
            Receipt::Message {
                pipe,
                number,
                id,
                count,
                size,
                sum,
                head,
            } => Receipt::Message {
                pipe: *pipe,
                number: *number,
                id: *id,
                count: *count,
                size: *size,
                sum: *sum,
                head: head.again(),
            },
            Receipt::Table {
                handle,
                version,
                size,
                sum,
                head,
            } => Receipt::Table {
                handle: *handle,
                version: *version,
                size: *size,
                sum: *sum,
                head: head.again(),
            },
        }
    }
}

/// The receipts of one application, in its own order. All its memory is taken when it is made.
pub struct ReceiptList {
    // In order.
    receipts: Vec<Receipt>,
    // How many more fit.
    room: usize,
}

impl Drop for ReceiptList {
    fn drop(self) {
        let ReceiptList {
            receipts: _receipts,
            room: _room,
        } = self;
    }
}

impl Model for ReceiptList {
    ghost use Rattle.std.specs.Prelude.{◌+◌, ◌≤◌, ◌^◌, ◌<◌, vec_len, vec_capacity};
    ghost use Rattle.bus_words.specs.ReceiptLists.{Receipts};

    ghost Value = { Receipts };

    ghost view = { λ l. record { receipts = l.receipts.items; room = l.room } };

    ghost invariant = { λ l. (vec_len l.receipts + l.room ≤ vec_capacity l.receipts) ×
        (vec_len l.receipts + l.room < 2 ^ 32) };
}

impl ReceiptList {
    /// An empty list with room for so many receipts.
    ///
    /// # Errors
    /// `AllocError` if memory runs out.
    pub fn new(alloc: Global, room: u32) -> Result<ReceiptList, AllocError>
        ensures { IfOk result (λ list. list ≡ record { receipts = []; room = room }) }
    {
        Ok(ReceiptList {
            receipts: Vec::with_capacity(alloc, room as usize)?,
            room: room as usize,
        })
    }

    /// Adds a receipt at the end.
    pub fn push(&mut self, receipt: Receipt)
        requires { 1 ≤ self.old.room }
        ensures receipts { self.new.receipts ≡ self.old.receipts ++ receipt ∷ [] }
        ensures room { self.new.room + 1 ≡ self.old.room }
    {
        self.receipts.push_reserved(receipt);
        self.room -= 1;
    }

    /// How many receipts there are.
    pub fn len(&self) -> u32
        ensures { result ≡ length self.now.receipts }
    {
        self.receipts.len() as u32
    }

    /// The receipt at a place; places count from 0.
    pub fn get(&self, i: u32) -> &Receipt
        requires { i < length self.now.receipts }
        ensures { slice_get self.now.receipts i ≡ Some result.now }
    {
        &self.receipts[i as usize]
    }
}
