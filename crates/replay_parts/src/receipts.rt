//! Receipts with the places of the lines that made them.

use bus_words::Receipt;
use std::marker::Model;

/// A receipt, and the place of the line that made it among its application's, from 0.
#[derive(Drop)]
pub struct MadeReceipt {
    /// The place.
    pub place: usize,
    /// The receipt.
    pub receipt: Receipt,
}

impl Model for MadeReceipt {
    ghost use Rattle.run_check.specs.Places.{Made};

    ghost Value = { Made };

    ghost view = { λ m. record { place = m.place; receipt = m.receipt } };
}
