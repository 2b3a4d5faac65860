//! Handles that leave, and tables with their last one.
ghost use Rattle.std.specs.Prelude.{◌≡◌, ℕ, ◌==◌, ◌+◌, ◌*◌, ◌≤◌, false, [], OnErr, count_by};
ghost use Rattle.tbl_words.specs.declared.history.Call.TheVariants.{Unregister, End};
ghost use Rattle.tbl_words.specs.declared.calls.TblAnswer.TheVariants.{Done};
ghost use Rattle.table_blocks.specs.Held.{held_at};
ghost use Rattle.table_core.specs.Answers.{done};
ghost use Rattle.tbl_load.specs.Bags.{HasBag, KeepsOtherBags};
ghost use Rattle.tbl_load.specs.Core.{MayCall, Does, state_of};

use crate::answers::of_done;
use crate::tables::TblCore;
use fsw_base::AppNo;
use lend_block::Note;
use step_count::{Ledger, Steps};
use table_blocks::HeldTables;
use tbl_words::{TblAnswer, TblCall, TblEntry, TblStatus};

impl<'r> TblCore<'r> {
    /// Gives a handle of the caller's back, with what it holds. If it is the owner's, the table
    /// is registered no more: its name is free, and what was staged for it is dropped. With its
    /// last handle a table leaves, and its blocks go back to the pool. At most 16 steps.
    ///
    /// # Errors
    /// `ErrInvalidHandle` for a handle that isn't live; `ErrNoAccess` for one of another
    /// application. The first that applies; the bag stays as it was.
    pub fn unregister<L: Ledger>(
        &mut self,
        app: AppNo,
        handle: u32,
        held: &mut HeldTables<'r>,
        steps: &mut Steps<L>,
    ) -> Result<(), TblStatus>
        requires may { MayCall self.old app (Unregister handle) }
        requires bag { HasBag self.old app held.old }
        ensures does { Does self.old self.new app (Unregister handle) (done result) }
        ensures bag { HasBag self.new app held.new }
        ensures others { (other : ℕ) → (handle == other) ≡ false →
            held_at held.new other ≡ held_at held.old other }
        ensures room { held.new.room ≡ held.old.room }
        ensures unchanged { OnErr result (held.new ≡ held.old) }
        ensures other_bags { KeepsOtherBags self.old self.new app }
        ensures cost { steps.new ≤ steps.old + 16 }
    {
        let result = self.core.unregister(app, handle, held, steps);
        let entry = TblEntry {
            app,
            call: TblCall::Unregister { handle },
            answer: of_done(&result),
        };
        let now = self.core.in_use();
        self.noted.push(&entry, Note::Nothing, now);
        result
    }

    /// The caller's last call: its handles are given back, each with what it holds, so that its bag
    /// is empty. At most 16 steps for each.
    pub fn end<L: Ledger>(&mut self, app: AppNo, held: &mut HeldTables<'r>, steps: &mut Steps<L>)
        requires may { MayCall self.old app End }
        requires bag { HasBag self.old app held.old }
        ensures does { Does self.old self.new app End Done }
        ensures bag { HasBag self.new app held.new }
        ensures other_bags { KeepsOtherBags self.old self.new app }
        ensures empty { held.new ≡ record held.old { views = [] } }
        ensures cost { steps.new ≤
            steps.old + 16 * count_by (λ h. h.app == app) (state_of self.old).handles }
    {
        self.core.end(app, held, steps);
        let entry = TblEntry {
            app,
            call: TblCall::End,
            answer: TblAnswer::Done,
        };
        let now = self.core.in_use();
        self.noted.push(&entry, Note::Nothing, now);
    }
}
