//! The calls of the plain tables whose answers have a version, with that in 32 bits: budgets are
//! below 2^32, so no table of a journal has more versions.
ghost use Rattle.std.specs.Prelude.{◌≡◌, ℕ, ◌==◌, ◌+◌, ◌^◌, ◌<◌, false, All, OnOk, OnErr, IsSome};
ghost use Rattle.tbl_words.specs.declared.history.Call.TheVariants.{GetAddress, Status};
ghost use Rattle.table_blocks.specs.Held.{held_at};
ghost use Rattle.table_core.specs.Answers.{addressed, figures_told};
ghost use Rattle.table_core.specs.Core.{Holds, MayAct, Acts};

use fsw_base::AppNo;
use table_blocks::HeldTables;
use table_core::PlainTables;
use tbl_words::{Address, TblState, TblStatus};

/// `PlainTables::get_address`.
pub(crate) fn get_address<'r>(
    core: &mut PlainTables<'r>,
    app: AppNo,
    handle: u32,
    held: &mut HeldTables<'r>,
) -> Result<Address, TblStatus>
    requires may { MayAct core.old app (GetAddress handle) }
    requires bag { Holds core.old app held.old }
    requires few { All (λ t. t.version + 1 < 2 ^ 32) core.old.state.tables }
    ensures does { Acts core.old core.new app (GetAddress handle) (addressed result) }
    ensures bag { Holds core.new app held.new }
    ensures others { (other : ℕ) → (handle == other) ≡ false →
        held_at held.new other ≡ held_at held.old other }
    ensures given { OnOk result (IsSome (held_at held.new handle)) }
    ensures room { held.new.room ≡ held.old.room }
    ensures unchanged { OnErr result (held.new ≡ held.old) }
{
    match core.get_address(app, handle, held) {
        Ok(address) => Ok(Address {
            told: address.told,
            version: address.version as u32,
        }),
        Err(status) => Err(status),
    }
}

/// `PlainTables::status`.
pub(crate) fn status(core: &PlainTables<'_>, app: AppNo, handle: u32) -> Result<TblState, TblStatus>
    requires may { MayAct core.now app (Status handle) }
    requires few { All (λ t. t.version + 1 < 2 ^ 32) core.now.state.tables }
    ensures { Acts core.now core.now app (Status handle) (figures_told result) }
{
    match core.status(app, handle) {
        Ok(figures) => Ok(TblState {
            version: figures.version as u32,
            loaded: figures.loaded,
            staged: figures.staged,
            holds: figures.holds,
        }),
        Err(status) => Err(status),
    }
}
