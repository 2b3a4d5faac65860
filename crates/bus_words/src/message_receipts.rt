//! Receipts of messages.
ghost use Rattle.std.specs.Prelude.{◌≡◌};
ghost use Rattle.ccsds_msg.specs.Message.{IsMessage};
ghost use Rattle.bus_words.specs.Receipts.{message_receipt};

use crate::receipts::{HEAD_BYTES, Head, Receipt};
use ccsds_msg::{count_of, id_of};
use fsw_base::sum_of;

impl Receipt {
    /// The receipt of a message of these bytes, which was received from the pipe under this send
    /// number.
    pub fn of_message(pipe: u32, number: u32, message: &[u8]) -> Receipt
        requires { IsMessage message.now }
        ensures { result ≡ message_receipt pipe number message.now }
    {
        let first = message.len().min(HEAD_BYTES);
        Receipt::Message {
            pipe,
            number,
            id: id_of(message),
            count: count_of(message),
            size: message.len() as u32,
            sum: sum_of(message),
            head: Head::try_new(&message[..first]).unwrap(),
        }
    }
}
