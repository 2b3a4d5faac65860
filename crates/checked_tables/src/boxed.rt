//! The box: what it keeps, and how it opens.
ghost use Rattle.std.specs.Prelude.{◌≡◌, ◌*◌, ◌≤◌, length, IfOk};
ghost use Rattle.fsw_base.specs.Limits.{limits_of};
ghost use Rattle.checked_tables.specs.Box.{Keeps, opened, empty_bags};

use fsw_base::Config;
use std::alloc::{AllocError, Global};
use std::marker::Model;
use table_blocks::HeldTables;
use table_core::PlainTables;

/// The tables of up to 16 applications, with a bag for each. By the code, all their memory is taken
/// when they are made.
///
/// Contracts see the tables, and the bags from application 1 on.
pub struct TblBox<'r> {
    // The tables.
    pub(crate) core: PlainTables<'r>,
    // The bag of each application, from application 1.
    pub(crate) bags: Vec<HeldTables<'r>>,
}

impl Drop for TblBox<'_> {
    fn drop(self) {
        let TblBox {
            core: _core,
            bags: _bags,
        } = self;
    }
}

impl<'r> Model for TblBox<'r> {
    ghost use Rattle.checked_tables.specs.Box.{Boxed, Keeps};

    ghost Value = { Boxed };

    ghost view = { λ b. record { core = b.core; bags = b.bags.items } };

    ghost invariant = { λ b. Keeps (record { core = b.core; bags = b.bags.items }) };
}

impl<'r> TblBox<'r> {
    /// Tables on which no call was made, for so many applications, at most 16. The blocks of the
    /// tables are cut from `region`, the four working buffers from `work`.
    ///
    /// # Errors
    /// `AllocError` if memory runs out.
    pub fn new(
        alloc: Global,
        cfg: &Config,
        apps: u32,
        region: &'r mut [u8],
        work: &'r mut [u8],
    ) -> Result<TblBox<'r>, AllocError>
        requires apps { apps ≤ 16 }
        requires region { cfg.now.tablepool ≤ length region.old }
        requires work { 4 * cfg.now.tablemax ≤ length work.old }
        ensures core { IfOk result
            (λ tables. tables.core ≡ opened (limits_of cfg.now) apps) }
        ensures bags { IfOk result
            (λ tables. tables.bags ≡ empty_bags apps cfg.now.handles) }
    {
        let bags = bags_of(alloc, cfg.handles, apps)?;
        let core = PlainTables::new(alloc, cfg, apps as usize, region, work)?;
        Ok(TblBox { core, bags })
    }

    /// There are 16 applications at most, and each has its bag: a view of what each of its handles
    /// holds, and nothing else. Does nothing.
    pub fn recall_bags(&self)
        ensures { Keeps self.now }
    {
        // The proof learns of it what is always true of the box.
        let _ = self.bags.len();
    }

    /// The tables, to be read.
    pub fn core(&self) -> &PlainTables<'r>
        ensures { result.now ≡ self.now.core }
    {
        &self.core
    }
}

// The bags of so many applications, empty, each with room for so many views.
fn bags_of<'r>(alloc: Global, views: u32, apps: u32) -> Result<Vec<HeldTables<'r>>, AllocError>
    ensures { IfOk result
        (λ bags. bags.items ≡ empty_bags apps views) }
{
    let mut bags = Vec::with_capacity(alloc, apps as usize)?;
    for _app in 0..apps {
        let bag: HeldTables<'r> = HeldTables::new(alloc, views)?;
        bags.push_reserved(bag);
    }
    Ok(bags)
}
