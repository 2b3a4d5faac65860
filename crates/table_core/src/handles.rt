//! Who may use a handle.
ghost use Rattle.std.specs.Prelude.{◌≡◌};
ghost use Rattle.tbl_registry.specs.Listing.{handle_at};
ghost use Rattle.table_core.specs.Refusals.{own_handle, own_table};

use fsw_base::AppNo;
use tbl_registry::{Handle, Registry};
use tbl_words::TblStatus;

/// The live handle of this number, if it is the application's.
pub(crate) fn own_handle(registry: &Registry, app: AppNo, handle: u32) -> Result<Handle, TblStatus>
    ensures { result ≡ own_handle app (handle_at registry.now.handles handle) }
{
    match registry.find(handle) {
        None => Err(TblStatus::ErrInvalidHandle),
        Some(row) if row.app == app => Ok(row),
        Some(_) => Err(TblStatus::ErrNoAccess),
    }
}

/// The live handle of this number, if it is the application's and its table is registered.
pub(crate) fn own_table(registry: &Registry, app: AppNo, handle: u32) -> Result<Handle, TblStatus>
    ensures { result ≡ own_table app handle registry.now.handles }
{
    let row = own_handle(registry, app, handle)?;
    if registry.find(row.table).is_none() {
        return Err(TblStatus::ErrUnregistered);
    }
    Ok(row)
}
