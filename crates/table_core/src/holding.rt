//! Addresses: what applications hold of tables.
ghost use Rattle.std.specs.Prelude.{◌≡◌, ℕ, ◌==◌, ◌+◌, ◌≤◌, ◌<◌, ◌^◌, if◌then◌else◌, true, false, None, length, OnOk, OnErr, IsSome, IfSome};
ghost use Rattle.tbl_words.specs.declared.history.Call.TheVariants.{GetAddress, ReleaseAddress};
ghost use Rattle.table_blocks.specs.Contents.{is_open, content_at, version_at};
ghost use Rattle.table_blocks.specs.Held.{held_at};
ghost use Rattle.table_core.specs.Core.{Holds, MayAct, Acts};
ghost use Rattle.table_core.specs.Answers.{plain_addressed, told_by, done};
ghost use Rattle.table_core.specs.Views.{held_by, views_of, after_back};

use crate::answers::PlainAddress;
use crate::handles::{own_handle, own_table};
use crate::plain::PlainTables;
use fsw_base::AppNo;
use table_blocks::{HeldTables, TableBlocks};
use tbl_registry::Handle;
use tbl_words::{TblStatus, Told};

impl<'r> PlainTables<'r> {
    /// Puts a view of the present version of the table of a handle of the caller's into the
    /// caller's bag; one that the handle has already goes back first. Answers the version, and
    /// whether it changed since the handle's last address.
    ///
    /// # Errors
    /// `ErrInvalidHandle` for a handle that isn't live; `ErrNoAccess` for one of another
    /// application; `ErrUnregistered` if the table is registered no more. The first that
    /// applies; the bag stays as it was.
    pub fn get_address(
        &mut self,
        app: AppNo,
        handle: u32,
        held: &mut HeldTables<'r>,
    ) -> Result<PlainAddress, TblStatus>
        requires may { MayAct self.old app (GetAddress handle) }
        requires bag { Holds self.old app held.old }
        ensures does { Acts self.old self.new app (GetAddress handle)
            (plain_addressed result) }
        ensures bag { Holds self.new app held.new }
        ensures others { (other : ℕ) → (handle == other) ≡ false →
            held_at held.new other ≡ held_at held.old other }
        ensures given { OnOk result (IsSome (held_at held.new handle)) }
        ensures room { held.new.room ≡ held.old.room }
        ensures unchanged { OnErr result (held.new ≡ held.old) }
    {
        self.registry.recall_ties();
        let row = own_table(&self.registry, app, handle)?;
        let key = row.key as u32;
        let before = row.told;
        give_back(&mut self.blocks, held, row);
        let version = self.blocks.version(key);
        let view = self.blocks.view(key);
        held.put(handle, view);
        self.registry.hold(handle, version);
        let told = told_by(before, version);
        Ok(PlainAddress { told, version })
    }

    /// Takes the view that a handle of the caller's has, if any, out of the caller's bag: the
    /// handle holds nothing any more.
    ///
    /// # Errors
    /// `ErrInvalidHandle` for a handle that isn't live; `ErrNoAccess` for one of another
    /// application. The first that applies; the bag stays as it was.
    pub fn release_address(
        &mut self,
        app: AppNo,
        handle: u32,
        held: &mut HeldTables<'r>,
    ) -> Result<(), TblStatus>
        requires may { MayAct self.old app (ReleaseAddress handle) }
        requires bag { Holds self.old app held.old }
        ensures does { Acts self.old self.new app (ReleaseAddress handle) (done result) }
        ensures bag { Holds self.new app held.new }
        ensures others { (other : ℕ) → (handle == other) ≡ false →
            held_at held.new other ≡ held_at held.old other }
        ensures gone { OnOk result (held_at held.new handle ≡ None) }
        ensures room { held.new.room ≡ held.old.room }
        ensures unchanged { OnErr result (held.new ≡ held.old) }
    {
        self.registry.recall_ties();
        let row = own_handle(&self.registry, app, handle)?;
        give_back(&mut self.blocks, held, row);
        self.registry.let_go(handle);
        Ok(())
    }
}

// Gives the view that a handle has, if any, back to its table.
fn give_back<'r>(blocks: &mut TableBlocks<'r>, held: &mut HeldTables<'r>, row: Handle)
    requires key { row.key < 2 ^ 32 }
    requires open { is_open blocks.old.tables row.key ≡ true }
    requires view { held_at held.old row.number ≡
        held_by (content_at blocks.old.tables row.key) row }
    requires some { IfSome row.held (λ version.
        1 ≤ (version_at (content_at blocks.old.tables row.key) version).views) }
    ensures blocks { blocks.new ≡ after_back blocks.old row.key row.held }
    ensures seen { (other : ℕ) → held_at held.new other ≡
        (if row.number == other then None else held_at held.old other) }
    ensures fewer { length held.new.views + views_of row ≡ length held.old.views }
    ensures room { held.new.room ≡ held.old.room }
{
    let Some(version) = row.held else {
        return;
    };
    let view = held.take(row.number).unwrap();
    blocks.give_back(row.key as u32, version, view);
}

// What an address is told with, by the version that the handle was told of last.
fn told_by(before: u64, version: u64) -> Told
    ensures { result ≡ told_by before version }
{
    if version == 0 {
        return Told::NeverLoaded;
    }
    if before == version {
        Told::Same
    } else {
        Told::Updated
    }
}
