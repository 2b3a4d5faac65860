//! The memory of a core.
ghost use Rattle.std.specs.Prelude.{◌≡◌, ◌*◌, ◌≤◌, length, replicate, IfOk, box_value};
ghost use Rattle.fsw_base.specs.Limits.{limits_of};
ghost use Rattle.checked_bus.specs.Box.{opened, empty_bags};
ghost use Rattle.checked_tables.specs.Box.{opened as opened_tables, empty_bags as empty_table_bags};

use crate::Core;
use checked_bus::SbBox;
use checked_tables::TblBox;
use fsw_base::Config;
use std::alloc::{AllocError, Global};

/// That a request for memory was refused. Only this file makes one.
#[derive(Clone, Copy, Debug, PartialEq, Eq)]
pub struct MemoryRefusal {
    // Private, so that no other file makes one.
    _refused: (),
}

impl MemoryRefusal {
    // The evidence, of what a call answered that asked for memory. By the code, the allocator
    // refused.
    fn of(_answer: AllocError) -> MemoryRefusal {
        MemoryRefusal { _refused: () }
    }
}

/// A list of so many zeros.
pub(crate) fn zeros(alloc: Global, bytes: usize) -> Result<Vec<u8>, MemoryRefusal>
    ensures { IfOk result (λ v. v.items ≡ replicate bytes 0) }
{
    let taken = vec![in alloc; 0; bytes];
    taken.map_err(MemoryRefusal::of)
}

/// [`SbBox::new`].
pub(crate) fn bus(
    alloc: Global,
    cfg: &Config,
    apps: u32,
    buffers: u32,
    region: &'static mut [u8],
) -> Result<SbBox<'static>, MemoryRefusal>
    requires apps { apps ≤ 16 }
    requires region { cfg.now.pool ≤ length region.old }
    ensures core { IfOk result
        (λ bus. bus.core ≡ opened (limits_of cfg.now) apps) }
    ensures bags { IfOk result
        (λ bus. bus.bags ≡ empty_bags apps cfg.now.pipes buffers) }
{
    SbBox::new(alloc, cfg, apps, buffers, region).map_err(MemoryRefusal::of)
}

/// [`TblBox::new`].
pub(crate) fn tables(
    alloc: Global,
    cfg: &Config,
    apps: u32,
    region: &'static mut [u8],
    work: &'static mut [u8],
) -> Result<TblBox<'static>, MemoryRefusal>
    requires apps { apps ≤ 16 }
    requires region { cfg.now.tablepool ≤ length region.old }
    requires work { 4 * cfg.now.tablemax ≤ length work.old }
    ensures core { IfOk result
        (λ tables. tables.core ≡ opened_tables (limits_of cfg.now) apps) }
    ensures bags { IfOk result
        (λ tables. tables.bags ≡ empty_table_bags apps cfg.now.handles) }
{
    TblBox::new(alloc, cfg, apps, region, work).map_err(MemoryRefusal::of)
}

/// The core in a box.
pub(crate) fn box_of(alloc: Global, core: Core) -> Result<Box<Core>, MemoryRefusal>
    ensures { IfOk result (λ it. box_value it ≡ core.entry) }
{
    in_box(alloc, core).map_err(MemoryRefusal::of)
}

// The core in a box.
fn in_box(alloc: Global, core: Core) -> Result<Box<Core>, AllocError>
    ensures { IfOk result (λ it. box_value it ≡ core.entry) }
{
    Ok(Box::new(alloc, core)?)
}
