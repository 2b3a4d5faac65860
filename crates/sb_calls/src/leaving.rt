//! The end of an application: the core's call and one entry of the journal.
ghost use Rattle.std.specs.Prelude.{◌≡◌, []};
ghost use Rattle.sb_calls.specs.Bags.{HasBag, KeepsOtherBags};
ghost use Rattle.sb_calls.specs.Core.{MayCall, Does};

use crate::journalled::BusCore;
use buf_desc::Held;
use bus_words::{BusAnswer, BusCall, BusEntry, Call};
use fsw_base::AppNo;
use lend_block::Note;
use step_count::{Ledger, Steps};

impl<'r> BusCore<'r> {
    /// The caller's last call: its pipes leave with their subscriptions and messages, and so do its
    /// unsent buffers, so its bag is empty then; and its grants of memory pools are given back.
    pub fn end<L: Ledger>(&mut self, app: AppNo, held: &mut Held<'r>, steps: &mut Steps<L>)
        requires may { MayCall self.old app Call.End }
        requires bag { HasBag self.old app held.old }
        ensures does { Does self.old self.new app Call.End BusAnswer.Done }
        ensures bag { HasBag self.new app held.new }
        ensures other_bags { KeepsOtherBags self.old self.new app }
        ensures empty { held.new ≡ record held.old { views = []; buffers = [] } }
    {
        self.core.end(app, held, steps);
        let entry = BusEntry {
            app,
            call: BusCall::End,
            answer: BusAnswer::Done,
        };
        self.noted.push(&entry, Note::Nothing);
    }
}
