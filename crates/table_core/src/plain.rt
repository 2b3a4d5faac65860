//! The core: what it keeps, and how it opens.
ghost use Rattle.std.specs.Prelude.{◌≡◌, ◌*◌, ◌≤◌, [], false, length, replicate, IfOk};
ghost use Rattle.fsw_base.specs.Limits.{limits_of};
ghost use Rattle.tbl_words.specs.Tables.{opening};

use fsw_base::Config;
use std::alloc::{AllocError, Global};
use std::marker::Model;
use table_blocks::TableBlocks;
use tbl_registry::Registry;

/// The tables of up to 16 applications, without a journal. By the code, all its memory is taken
/// when it is made.
pub struct PlainTables<'r> {
    // The limits that it was made with.
    pub(crate) config: Config,
    // For each application, from 1, whether it has ended.
    pub(crate) ended: Vec<bool>,
    // The tables and the live handles.
    pub(crate) registry: Registry,
    // What the tables contain, by the registry's keys.
    pub(crate) blocks: TableBlocks<'r>,
}

impl Drop for PlainTables<'_> {
    fn drop(self) {
        let PlainTables {
            config: _config,
            ended: _ended,
            registry: _registry,
            blocks: _blocks,
        } = self;
    }
}

impl<'r> Model for PlainTables<'r> {
    ghost use Rattle.table_core.specs.Core.{Plain};

    ghost Value = { Plain };

    ghost use Rattle.table_core.specs.Inside.{plain_of, Keeps};

    ghost view = { plain_of };

    ghost invariant = { Keeps };
}

impl<'r> PlainTables<'r> {
    /// Table Services on which no call was made, for so many applications, at most 16. The blocks
    /// of the tables are cut from `region`, the four working buffers from `work`.
    ///
    /// # Errors
    /// If memory runs out.
    pub fn new(
        alloc: Global,
        cfg: &Config,
        apps: usize,
        region: &'r mut [u8],
        work: &'r mut [u8],
    ) -> Result<PlainTables<'r>, AllocError>
        requires apps { apps ≤ 16 }
        requires region { cfg.now.tablepool ≤ length region.old }
        requires work { 4 * cfg.now.tablemax ≤ length work.old }
        ensures { IfOk result
            (λ core. core ≡
            record {
              limits = limits_of cfg.now;
              state = opening (limits_of cfg.now) apps;
              lent = [];
            }) }
    {
        Ok(PlainTables {
            config: cfg.again(),
            ended: none_ended(alloc, apps)?,
            registry: Registry::new(alloc, cfg.tables, cfg.handles)?,
            blocks: TableBlocks::new(
                alloc,
                cfg.tables,
                cfg.tablemax,
                cfg.tablepool,
                cfg.sizes.again(),
                region,
                work,
            )?,
        })
    }
}

// So many applications, none of which has ended.
fn none_ended(alloc: Global, apps: usize) -> Result<Vec<bool>, AllocError>
    ensures { IfOk result (λ ended. ended.items ≡ replicate apps false) }
{
    let mut ended = Vec::with_capacity(alloc, apps)?;
    for _ in 0..apps {
        ended.push_reserved(false);
    }
    Ok(ended)
}
