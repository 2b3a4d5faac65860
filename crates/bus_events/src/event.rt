//! The events, and what each is told by.
ghost use Rattle.std.specs.Prelude.{◌≡◌, ◌≤◌, length};
ghost use Rattle.bus_events.specs.Events.{event_number, event_kind, event_text};

use crate::text::{EventText, TEXT_BYTES, id_text, missed_text, pair_text, recall_digits};
use fsw_base::{AppNo, EventKind};

/// An event that the software bus tells of a call. Beside each stands the event of cFE's Software
/// Bus that it is like.
#[derive(Clone, Copy, Debug, PartialEq, Eq)]
pub enum ServiceEvent {
    /// A pipe was subscribed to an id that it is subscribed to already
    /// (`CFE_SB_DUP_SUBSCRIP_EID`).
    DuplicateSubscription {
        /// The message id.
        id: u16,
        /// The pipe.
        pipe: u32,
    },
    /// A subscription was to end that the pipe doesn't have (`CFE_SB_UNSUB_NO_SUBS_EID`).
    NotSubscribed {
        /// The message id.
        id: u16,
        /// The pipe.
        pipe: u32,
    },
    /// A message was sent to an id that nobody subscribes to (`CFE_SB_SEND_NO_SUBS_EID`).
    NoSubscribers {
        /// The message id.
        id: u16,
    },
    /// A subscription's limit kept a message from its pipe (`CFE_SB_MSGID_LIM_ERR_EID`).
    MessageLimit {
        /// The message id.
        id: u16,
        /// The pipe that missed the message.
        pipe: u32,
        /// Who sent it.
        sender: AppNo,
    },
    /// A full pipe kept a message out (`CFE_SB_Q_FULL_ERR_EID`).
    PipeOverflow {
        /// The message id.
        id: u16,
        /// The pipe that missed the message.
        pipe: u32,
        /// Who sent it.
        sender: AppNo,
    },
    /// A full pipe dropped its oldest message and took a new one. cFE has no such event and no
    /// such pipe: both are of our own.
    OldestDropped {
        /// The new message's id.
        id: u16,
        /// The pipe that dropped its oldest message.
        pipe: u32,
        /// Who sent the new one.
        sender: AppNo,
    },
}

impl ServiceEvent {
    /// The event's id, 1 to 6.
    pub fn number(&self) -> u16
        ensures { result ≡ event_number self.now }
    {
        match self {
            ServiceEvent::DuplicateSubscription { .. } => 1,
            ServiceEvent::NotSubscribed { .. } => 2,
            ServiceEvent::NoSubscribers { .. } => 3,
            ServiceEvent::MessageLimit { .. } => 4,
            ServiceEvent::PipeOverflow { .. } => 5,
            ServiceEvent::OldestDropped { .. } => 6,
        }
    }

    /// The event's kind: an error if a pipe missed a message, else information.
    pub fn kind(&self) -> EventKind
        ensures { result ≡ event_kind self.now }
    {
        match self {
            ServiceEvent::DuplicateSubscription { .. } => EventKind::Information,
            ServiceEvent::NotSubscribed { .. } => EventKind::Information,
            ServiceEvent::NoSubscribers { .. } => EventKind::Information,
            ServiceEvent::MessageLimit { .. } => EventKind::Error,
            ServiceEvent::PipeOverflow { .. } => EventKind::Error,
            ServiceEvent::OldestDropped { .. } => EventKind::Information,
        }
    }

    /// Does nothing; a proof learns of it that the text is short, also if it isn't made.
    #[tactic(auto, unfolding(crate::specs::Events::event_text))]
    pub fn recall_text(&self)
        ensures { length (event_text self.now) ≤ TEXT_BYTES }
    {
        match *self {
            ServiceEvent::DuplicateSubscription { pipe, .. } => recall_digits(pipe),
            ServiceEvent::NotSubscribed { pipe, .. } => recall_digits(pipe),
            ServiceEvent::NoSubscribers { .. } => {}
            ServiceEvent::MessageLimit { pipe, sender, .. } => {
                recall_digits(pipe);
                recall_digits(sender.get());
            }
            ServiceEvent::PipeOverflow { pipe, sender, .. } => {
                recall_digits(pipe);
                recall_digits(sender.get());
            }
            ServiceEvent::OldestDropped { pipe, sender, .. } => {
                recall_digits(pipe);
                recall_digits(sender.get());
            }
        }
    }

    /// The event's text, as `limit id 0x0801 pipe 1 sender 2`, at most 44 bytes: no log cuts it.
    #[tactic(auto, unfolding(crate::specs::Events::event_text))]
    pub fn text(&self) -> EventText
        ensures { result ≡ event_text self.now }
    {
        match *self {
            ServiceEvent::DuplicateSubscription { id, pipe } => {
                pair_text(b"duplicate id ", id, pipe)
            }
            ServiceEvent::NotSubscribed { id, pipe } => pair_text(b"not subscribed id ", id, pipe),
            ServiceEvent::NoSubscribers { id } => id_text(b"no subscribers id ", id),
            ServiceEvent::MessageLimit { id, pipe, sender } => {
                missed_text(b"limit id ", id, pipe, sender)
            }
            ServiceEvent::PipeOverflow { id, pipe, sender } => {
                missed_text(b"overflow id ", id, pipe, sender)
            }
            ServiceEvent::OldestDropped { id, pipe, sender } => {
                missed_text(b"oldest id ", id, pipe, sender)
            }
        }
    }
}
