//! Handles that leave, and tables with their last one.
ghost use Rattle.std.specs.Prelude.{◌≡◌, ◌≢◌, ℕ, ◌==◌, ◌+◌, ◌*◌, ◌≤◌, ◌<◌, true, false, None, [], OnOk, OnErr, IsSomeAnd, option_map, find, count_by};
ghost use Rattle.std.specs.List.{AllPairs};
ghost use Rattle.tbl_words.specs.declared.history.Call.TheVariants.{Unregister, End};
ghost use Rattle.tbl_words.specs.declared.calls.TblAnswer.TheVariants.{Done};
ghost use Rattle.tbl_words.specs.Tables.{handle_at};
ghost use Rattle.tbl_words.specs.Machine.{without_handles};
ghost use Rattle.table_blocks.specs.Contents.{is_open, content_at, older_in};
ghost use Rattle.table_blocks.specs.Held.{HeldViews, held_at};
ghost use Rattle.table_core.specs.Core.{Holds, MayAct, Acts};
ghost use Rattle.table_core.specs.Answers.{done};
ghost use Rattle.table_core.specs.Views.{after_owner};

use crate::plain::PlainTables;
use fsw_base::AppNo;
use step_count::{Ledger, Steps};
use table_blocks::{HeldTables, TableBlocks};
use tbl_words::TblStatus;

impl<'r> PlainTables<'r> {
    /// Gives a handle of the caller's back, with what it holds. If it is the owner's, the table
    /// is registered no more: its name is free, and what was staged for it is dropped. With its
    /// last handle a table leaves, and its blocks go back to the pool. At most 16 steps.
    ///
    /// # Errors
    /// `ErrInvalidHandle` for a handle that isn't live; `ErrNoAccess` for one of another
    /// application. The first that applies; the bag stays as it was.
    pub fn unregister<L: Ledger>(
        &mut self,
        app: AppNo,
        handle: u32,
        held: &mut HeldTables<'r>,
        steps: &mut Steps<L>,
    ) -> Result<(), TblStatus>
        requires may { MayAct self.old app (Unregister handle) }
        requires bag { Holds self.old app held.old }
        ensures does { Acts self.old self.new app (Unregister handle) (done result) }
        ensures bag { Holds self.new app held.new }
        ensures others { (other : ℕ) → (handle == other) ≡ false →
            held_at held.new other ≡ held_at held.old other }
        ensures gone { OnOk result (held_at held.new handle ≡ None) }
        ensures room { held.new.room ≡ held.old.room }
        ensures unchanged { OnErr result (held.new ≡ held.old) }
        ensures cost { steps.new ≤ steps.old + 16 }
    {
        self.release_address(app, handle, held)?;
        self.drop_handle(handle, steps);
        Ok(())
    }

    /// The application's last call: its handles are given back, each with what it holds, so that
    /// its bag is empty. At most 16 steps for each.
    pub fn end<L: Ledger>(&mut self, app: AppNo, held: &mut HeldTables<'r>, steps: &mut Steps<L>)
        requires may { MayAct self.old app End }
        requires bag { Holds self.old app held.old }
        ensures does { Acts self.old self.new app End Done }
        ensures bag { Holds self.new app held.new }
        ensures empty { held.new ≡ record held.old { views = [] } }
        ensures cost { steps.new ≤
            steps.old + 16 * count_by (λ h. h.app == app) self.old.state.handles }
    {
        self.unregister_all(app, held, steps);
        self.ended[(app.get() - 1) as usize] = true;
    }

    // Gives the handles of an application back.
    fn unregister_all<L: Ledger>(
        &mut self,
        app: AppNo,
        held: &mut HeldTables<'r>,
        steps: &mut Steps<L>,
    )
        requires may { MayAct self.old app End }
        requires bag { Holds self.old app held.old }
        ensures after { self.new.state ≡ without_handles (λ h. h.app == app) self.old.state }
        ensures limits { self.new.limits ≡ self.old.limits }
        ensures bag { Holds self.new app held.new }
        ensures other_bags { (other : ℕ) (bag : HeldViews) → other ≢ app →
            Holds self.old other bag → Holds self.new other bag }
        ensures room { held.new.room ≡ held.old.room }
        ensures cost { steps.new ≤
            steps.old + 16 * count_by (λ h. h.app == app) self.old.state.handles }
    {
        while let Some(handle) = self.first_of(app) {
            // Does nothing; the proof learns of it, here and below, how handles stand.
            self.recall_handles();
            self.unregister(app, handle, held, steps).unwrap();
        }
        self.recall_handles();
    }

    // The number of the application's first live handle.
    fn first_of(&self, app: AppNo) -> Option<u32>
        ensures { result ≡
            option_map (λ h. h.number) (find (λ h. h.app == app) self.now.state.handles) }
    {
        self.registry.first_of(app)
    }

    // Handles stand in order of number, and if none leaves nothing changes. Does nothing.
    fn recall_handles(&self)
        ensures rise { AllPairs
            (λ earlier later. earlier.number < later.number)
            self.now.state.handles }
        ensures still { without_handles (λ h. false) self.now.state ≡ self.now.state }
    {
        self.registry.recall_ties();
    }

    // Drops a live handle, which holds nothing, and with a table's last one the table.
    fn drop_handle<L: Ledger>(&mut self, handle: u32, steps: &mut Steps<L>)
        requires idle { IsSomeAnd (handle_at self.old.state.handles handle) (λ h. h.hold ≡ None) }
        ensures after { self.new.state ≡
            without_handles (λ h. h.number == handle) self.old.state }
        ensures limits { self.new.limits ≡ self.old.limits }
        ensures bags { (app : ℕ) (bag : HeldViews) → Holds self.old app bag →
            Holds self.new app bag }
        ensures cost { steps.new ≤ steps.old + 16 }
    {
        self.registry.recall_ties();
        let row = self.registry.find(handle).unwrap();
        let key = row.key as u32;
        drop_staged(&mut self.blocks, key, handle == row.table);
        if !self.registry.drop_handle(handle) {
            return;
        }
        self.registry.remove(row.key);
        self.blocks.recall_table(key);
        self.blocks.pool().recall_whole();
        self.blocks.close(key, steps);
    }
}

// Drops what is staged for a table, if its owner's handle leaves.
fn drop_staged(blocks: &mut TableBlocks<'_>, key: u32, owner: bool)
    requires { is_open blocks.old.tables key ≡ true }
    ensures { blocks.new ≡
        after_owner owner blocks.old key (older_in (content_at blocks.new.tables key).next).loan }
{
    if owner && blocks.is_staged(key) {
        blocks.abort(key);
    }
}
