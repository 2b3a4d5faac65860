//! Receives: the message that waits longest leaves its pipe's queue.
ghost use Rattle.std.specs.Prelude.{◌≡◌};
ghost use Rattle.bus_words.specs.Pipes.{oldest_on, last_on, with_pipe, after_receive, without_front, without_last};

use crate::making::{count_down, item_row};
use crate::tables::{BusTables, ItemRow, LastItems};

impl BusTables {
    /// Lets the last message of the live pipe of this number go, and takes the one that waits
    /// longest, if any, in its place. Answers both. By the code, the number is looked up by halves.
    pub fn take(&mut self, number: u32) -> LastItems
        ensures before { result.before ≡ last_on self.old.pipes number }
        ensures oldest { result.after ≡ oldest_on self.old.pipes number }
        ensures rows { self.new ≡
            record self.old { pipes = with_pipe after_receive number self.old.pipes } }
    {
        let (before, after) = self.pipes.take(number);
        count_down(&mut self.subs, after);
        LastItems {
            before: item_row(before),
            after: item_row(after),
        }
    }

    /// Takes what waits longest out of the live pipe of this number, for whoever empties it; None
    /// if and only if nothing waits there. By the code, the number is looked up by halves.
    pub fn take_front(&mut self, number: u32) -> Option<ItemRow>
        ensures oldest { result ≡ oldest_on self.old.pipes number }
        ensures rows { self.new ≡
            record self.old { pipes = with_pipe without_front number self.old.pipes } }
    {
        let item = self.pipes.take_front(number);
        count_down(&mut self.subs, item);
        item_row(item)
    }

    /// Takes what was received last out of the live pipe of this number, for whoever empties it;
    /// None if and only if there is no such message. By the code, the number is looked up by
    /// halves.
    pub fn take_last(&mut self, number: u32) -> Option<ItemRow>
        ensures last { result ≡ last_on self.old.pipes number }
        ensures rows { self.new ≡
            record self.old { pipes = with_pipe without_last number self.old.pipes } }
    {
        item_row(self.pipes.take_last(number))
    }
}
