//! The store: what it keeps, and how it opens.
ghost use Rattle.std.specs.Prelude.{◌≡◌, ◌≤◌, length, IfOk};
ghost use Rattle.fsw_base.specs.Limits.{limits_of};
ghost use Rattle.bus_messages.specs.Store.{opened};

use buf_desc::Desk;
use bus_routes::{BusTables, Misses};
use fsw_base::Config;
use std::alloc::{AllocError, Global};
use std::marker::Model;
use zero_copy::HeldLists;

/// The pipes of a bus with their messages, the subscriptions, the routes, and the buffers that
/// applications were given and haven't sent. Each message lies in one block of the pool, whoever
/// receives it, and so does each unsent buffer.
///
/// Contracts see pipes whose items carry copies of their messages, each application's unsent
/// buffers with their numbers and sizes, how many send numbers were given, the account of the pool,
/// the loan of each pipe's last message, and the descriptor of each unsent buffer. By the code, all
/// its memory is taken when it is made.
pub struct BusStore<'r> {
    // The pipes with the descriptors of what waits on them, the subscriptions and the routes.
    pub(crate) tables: BusTables,
    // The blocks.
    pub(crate) desk: Desk<'r>,
    // The pipes that missed the message sent last or dropped one for it, and those that they
    // dropped; room for as many as an id may have subscriptions.
    pub(crate) misses: Misses,
    // The blocks that are unsent buffers, by application; room for all that may be cut.
    pub(crate) lists: HeldLists,
    // How many send numbers were given.
    pub(crate) given: u64,
}

impl Drop for BusStore<'_> {
    fn drop(self) {
        let BusStore {
            tables: _tables,
            desk: _desk,
            misses: _misses,
            lists: _lists,
            given: _given,
        } = self;
    }
}

impl<'r> Model for BusStore<'r> {
    ghost use Rattle.bus_messages.specs.Store.{Store};

    ghost Value = { Store };

    ghost use Rattle.bus_messages.specs.Inside.{store_of, Keeps};

    ghost view = { store_of };

    ghost invariant = { Keeps };
}

impl<'r> BusStore<'r> {
    /// Nothing was created or sent, and none of so many applications, at most 16, was given a
    /// buffer. The blocks are cut from the region.
    ///
    /// # Errors
    /// If memory runs out.
    pub fn new(
        alloc: Global,
        cfg: &Config,
        apps: u32,
        region: &'r mut [u8],
    ) -> Result<BusStore<'r>, AllocError>
        requires region { cfg.now.pool ≤ length region.old }
        requires apps { apps ≤ 16 }
        ensures { IfOk result (λ store. store ≡ opened (limits_of cfg.now) apps) }
    {
        let desk = Desk::new(alloc, cfg.pool, cfg.sizes.again(), region)?;
        let blocks = desk.pool().most_blocks();
        Ok(BusStore {
            tables: BusTables::new(alloc, cfg)?,
            desk,
            misses: Misses::new(alloc, cfg.dests)?,
            lists: HeldLists::new(alloc, apps, blocks)?,
            given: 0,
        })
    }
}
