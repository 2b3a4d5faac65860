//! The box: what it keeps, and how it opens.
ghost use Rattle.std.specs.Prelude.{◌≡◌, ◌≤◌, length, IfOk};
ghost use Rattle.fsw_base.specs.Limits.{limits_of};
ghost use Rattle.checked_bus.specs.Box.{Keeps, opened, empty_bags};

use crate::lent_bag::LentBag;
use bus_core::PlainBus;
use fsw_base::Config;
use std::alloc::{AllocError, Global};
use std::marker::Model;

/// The software bus of up to 16 applications, with a bag for each. By the code, all its memory is
/// taken when it is made.
///
/// Contracts see the bus, and the bags from application 1 on. The block of an unsent buffer is
/// outside of its bag, if its application writes it: the bag has zeros for its bytes.
pub struct SbBox<'r> {
    // The bus.
    pub(crate) core: PlainBus<'r>,
    // The bag of each application, from application 1.
    pub(crate) bags: Vec<LentBag<'r>>,
}

impl Drop for SbBox<'_> {
    fn drop(self) {
        let SbBox {
            core: _core,
            bags: _bags,
        } = self;
    }
}

impl<'r> Model for SbBox<'r> {
    ghost use Rattle.checked_bus.specs.Box.{Boxed, Keeps};

    ghost Value = { Boxed };

    ghost view = { λ b. record { core = b.core; bags = b.bags.items } };

    ghost invariant = { λ b. Keeps (record { core = b.core; bags = b.bags.items }) };
}

impl<'r> SbBox<'r> {
    /// A bus on which no call was made, for so many applications, at most 16, each of which may
    /// hold so many unsent buffers. The blocks of the bus's pool are cut from the region.
    ///
    /// # Errors
    /// `AllocError` if memory runs out.
    pub fn new(
        alloc: Global,
        cfg: &Config,
        apps: u32,
        buffers: u32,
        region: &'r mut [u8],
    ) -> Result<SbBox<'r>, AllocError>
        requires apps { apps ≤ 16 }
        requires region { cfg.now.pool ≤ length region.old }
        ensures core { IfOk result
            (λ bus. bus.core ≡ opened (limits_of cfg.now) apps) }
        ensures bags { IfOk result
            (λ bus. bus.bags ≡ empty_bags apps cfg.now.pipes buffers) }
    {
        let bags = bags_of(alloc, cfg.pipes, apps, buffers)?;
        let core = PlainBus::new(alloc, cfg, apps as usize, region)?;
        Ok(SbBox { core, bags })
    }

    /// There are 16 applications at most, and each has its bag: a view of the last message of each
    /// of its pipes, a seat of each of its unsent buffers, and nothing else. Each of these has a
    /// number that was given. Does nothing.
    pub fn recall_bags(&self)
        ensures { Keeps self.now }
    {
        // The proof learns of it what is always true of the box.
        let _ = self.core.apps();
    }

    /// The bus, to be read.
    pub fn core(&self) -> &PlainBus<'r>
        ensures { result.now ≡ self.now.core }
    {
        &self.core
    }
}

// The bags of so many applications, empty, each with room for so many views and buffers.
fn bags_of<'r>(
    alloc: Global,
    views: u32,
    apps: u32,
    buffers: u32,
) -> Result<Vec<LentBag<'r>>, AllocError>
    ensures { IfOk result
        (λ bags. bags.items ≡ empty_bags apps views buffers) }
{
    let mut bags = Vec::with_capacity(alloc, apps as usize)?;
    for _app in 0..apps {
        let bag: LentBag<'r> = LentBag::new(alloc, views, buffers)?;
        bags.push_reserved(bag);
    }
    Ok(bags)
}
