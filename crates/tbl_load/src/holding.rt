//! Addresses: what applications hold of tables. An address is noted with the loan of the view that
//! was given.
ghost use Rattle.std.specs.Prelude.{◌≡◌, ℕ, ◌==◌, false, OnErr};
ghost use Rattle.tbl_words.specs.declared.history.Call.TheVariants.{GetAddress, ReleaseAddress};
ghost use Rattle.table_blocks.specs.Held.{held_at};
ghost use Rattle.table_core.specs.Answers.{addressed, done};
ghost use Rattle.tbl_load.specs.Bags.{HasBag, KeepsOtherBags};
ghost use Rattle.tbl_load.specs.Core.{MayCall, Does};

use crate::answers::{of_addressed, of_done};
use crate::noted::note_of;
use crate::short::get_address;
use crate::tables::TblCore;
use fsw_base::AppNo;
use lend_block::Note;
use table_blocks::HeldTables;
use tbl_words::{Address, TblCall, TblEntry, TblStatus};

impl<'r> TblCore<'r> {
    /// Puts a view of the present version of the table of a handle of the caller's into the
    /// caller's bag; one that the handle has already goes back first. Answers the version, and
    /// whether it changed since the handle's last address. The view shows this version until the
    /// handle's next address, its release or its end, whatever is loaded meanwhile.
    ///
    /// # Errors
    /// `ErrInvalidHandle` for a handle that isn't live; `ErrNoAccess` for one of another
    /// application; `ErrUnregistered` if the table is registered no more. The first that
    /// applies; the bag stays as it was.
    pub fn get_address(
        &mut self,
        app: AppNo,
        handle: u32,
        held: &mut HeldTables<'r>,
    ) -> Result<Address, TblStatus>
        requires may { MayCall self.old app (GetAddress handle) }
        requires bag { HasBag self.old app held.old }
        ensures does { Does self.old self.new app (GetAddress handle) (addressed result) }
        ensures bag { HasBag self.new app held.new }
        ensures others { (other : ℕ) → (handle == other) ≡ false →
            held_at held.new other ≡ held_at held.old other }
        ensures room { held.new.room ≡ held.old.room }
        ensures unchanged { OnErr result (held.new ≡ held.old) }
        ensures other_bags { KeepsOtherBags self.old self.new app }
    {
        let result = get_address(&mut self.core, app, handle, held);
        let answer = of_addressed(&result);
        let note = note_of(answer, held, handle);
        let entry = TblEntry {
            app,
            call: TblCall::GetAddress { handle },
            answer,
        };
        let now = self.core.in_use();
        self.noted.push(&entry, note, now);
        result
    }

    /// Takes the view that a handle of the caller's has, if any, out of the caller's bag: the
    /// handle holds nothing any more.
    ///
    /// # Errors
    /// `ErrInvalidHandle` for a handle that isn't live; `ErrNoAccess` for one of another
    /// application. The first that applies; the bag stays as it was.
    pub fn release_address(
        &mut self,
        app: AppNo,
        handle: u32,
        held: &mut HeldTables<'r>,
    ) -> Result<(), TblStatus>
        requires may { MayCall self.old app (ReleaseAddress handle) }
        requires bag { HasBag self.old app held.old }
        ensures does { Does self.old self.new app (ReleaseAddress handle) (done result) }
        ensures bag { HasBag self.new app held.new }
        ensures others { (other : ℕ) → (handle == other) ≡ false →
            held_at held.new other ≡ held_at held.old other }
        ensures room { held.new.room ≡ held.old.room }
        ensures unchanged { OnErr result (held.new ≡ held.old) }
        ensures other_bags { KeepsOtherBags self.old self.new app }
    {
        let result = self.core.release_address(app, handle, held);
        let entry = TblEntry {
            app,
            call: TblCall::ReleaseAddress { handle },
            answer: of_done(&result),
        };
        let now = self.core.in_use();
        self.noted.push(&entry, Note::Nothing, now);
        result
    }
}
