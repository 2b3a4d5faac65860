//! The count of steps. It exists in contracts alone: at run time it takes no bytes and no time.
ghost use Rattle.std.specs.Prelude.{◌≡◌, ℕ, ◌+◌, ◌<◌};

use std::marker::Model;
use std::sync::ledger::{Blank, Book, Ledger, Share};

/// How many steps were taken: contracts see the number.
///
/// One step is one reading or writing of a link or of a list's head. A call that takes `steps: &mut
/// Steps<L>` says in its contract how far it moves the number. Only [`Steps::tick`] moves it, and
/// it cannot be set back or copied.
#[derive(Drop)]
pub struct Steps<L: Ledger> {
    // Its total is the number of steps.
    book: Book<L>,
    // What every step is added to. It has a part of the ledger, without which nothing can be
    // added.
    share: Share<L>,
}

impl<L: Ledger> Model for Steps<L> {
    ghost Value = { ℕ };

    ghost view = { λ s. s.book.total };

    ghost invariant = { λ s. 0 < s.share.parts };
}

impl<L: Ledger> Steps<L> {
    /// A count of no steps, over a fresh ledger of at least one part: `Steps::new(Blank::new(1))`,
    /// in a function that is generic over `L: Ledger` and that is called with `Brand` for `L`.
    pub fn new(blank: Blank) -> Steps<L>
        requires name { blank.name ≡ L.name }
        requires parts { blank.parts ≡ L.parts }
        requires some_part { 0 < blank.parts }
        ensures { result ≡ 0 }
    {
        let (book, share) = blank.open::<L>();
        Steps { book, share }
    }

    /// Counts one step.
    pub fn tick(&mut self)
        ensures { self.new ≡ self.old + 1 }
    {
        self.book.add(&mut self.share, 1);
    }
}
