//! What is sent, and what a pipe keeps of it.
ghost use Rattle.std.specs.Prelude.{◌≡◌, ◌==◌, IfOk};
ghost use Rattle.bus_words.specs.Bus.{item_for};

use crate::subscriptions::ListSubscription;
use fsw_base::AppNo;
use std::alloc::{AllocError, Global};
use std::marker::Model;
use std::rc::Rc;

/// A message that waits on a pipe or was received last. Its bytes are shared with the other pipes
/// that queue it.
#[derive(Drop)]
pub struct ListItem {
    // Its send number.
    number: u32,
    // The size first asked for.
    asked: u32,
    // The subscription that it was queued for.
    subscription: u32,
    // Its bytes.
    message: Rc<Vec<u8>>,
}

impl Model for ListItem {
    ghost use Rattle.bus_words.specs.Bus.{Item};

    ghost Value = { Item };

    ghost view = { λ i.
        record {
          number = i.number;
          asked = i.asked;
          subscription = i.subscription;
          message = i.message.value.items;
        } };
}

impl ListItem {
    /// Its send number.
    pub fn number(&self) -> u32
        ensures { result ≡ self.now.number }
    {
        self.number
    }

    /// Its bytes.
    pub fn message(&self) -> &[u8]
        ensures { result.now ≡ self.now.message }
    {
        self.message.as_ref().as_slice()
    }

    /// Whether it was queued for a subscription.
    pub(crate) fn is_of(&self, subscription: u32) -> bool
        ensures { result ≡ (self.now.subscription == subscription) }
    {
        self.subscription == subscription
    }
}

/// What is sent: by whom, under which number, the size first asked for, and the message.
#[derive(Drop)]
pub struct ListSending {
    // Who sends it.
    sender: AppNo,
    // Its number.
    number: u32,
    // The size first asked for.
    asked: u32,
    // Its bytes.
    message: Rc<Vec<u8>>,
}

impl Model for ListSending {
    ghost use Rattle.bus_words.specs.Bus.{Sending};

    ghost Value = { Sending };

    ghost view = { λ s.
        record {
          sender = s.sender;
          number = s.number;
          asked = s.asked;
          message = s.message.value.items;
        } };
}

impl ListSending {
    /// A message to be sent.
    ///
    /// # Errors
    /// `AllocError` if memory runs out.
    pub fn new(
        alloc: Global,
        sender: AppNo,
        number: u32,
        asked: u32,
        message: Vec<u8>,
    ) -> Result<ListSending, AllocError>
        ensures { IfOk result
            (λ sending. sending ≡
            record {
              sender = sender;
              number = number;
              asked = asked;
              message = message.items;
            }) }
    {
        let message = Rc::new(alloc, message)?;
        Ok(ListSending {
            sender,
            number,
            asked,
            message,
        })
    }

    /// Its number.
    pub fn number(&self) -> u32
        ensures { result ≡ self.now.number }
    {
        self.number
    }

    /// Who sends it.
    pub fn sender(&self) -> AppNo
        ensures { result ≡ self.now.sender }
    {
        self.sender
    }

    /// What a subscription queues of it.
    pub(crate) fn item_for(&self, sub: &ListSubscription) -> Result<ListItem, AllocError>
        ensures { IfOk result (λ item. item ≡ item_for self.now sub.now) }
    {
        let message = self.message.clone()?;
        Ok(ListItem {
            number: self.number,
            asked: self.asked,
            subscription: sub.number(),
            message,
        })
    }
}
