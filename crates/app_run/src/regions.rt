//! The memory that the messages and the tables of a run lie in.
ghost use Rattle.std.specs.Prelude.{◌≡◌, ◌*◌, length, IfOk};

use fsw_base::Config;
use std::alloc::{AllocError, Global};
use std::marker::Model;

// How many working buffers the tables have.
const WORK_BUFFERS: usize = 4;

// How many zeros are copied at a time.
const PAGE: usize = 4096;

/// The memory that the messages and the tables of a run lie in: three blocks, for the bus's pool,
/// for the tables' pool, and for the tables' working buffers. It outlives the run, and the next run
/// may take it again.
pub struct Regions {
    // For the bus's pool.
    pool: Vec<u8>,
    // For the tables' pool.
    tables: Vec<u8>,
    // For the tables' working buffers.
    work: Vec<u8>,
}

impl Drop for Regions {
    fn drop(self) {
        let Regions {
            pool: _pool,
            tables: _tables,
            work: _work,
        } = self;
    }
}

impl Model for Regions {
    ghost use Rattle.std.specs.Prelude.{length};
    ghost use Rattle.app_run.specs.Openings.{RegionSizes};

    ghost Value = { RegionSizes };

    ghost view = { λ r.
        record {
          pool = length r.pool.items;
          tables = length r.tables.items;
          work = length r.work.items;
        } };
}

/// The three blocks of a run's regions.
pub struct Blocks<'r> {
    /// For the bus's pool.
    pub pool: &'r mut [u8],
    /// For the tables' pool.
    pub tables: &'r mut [u8],
    /// For the tables' working buffers.
    pub work: &'r mut [u8],
}

impl Regions {
    /// As large as the configuration's pools, and four working buffers of its largest table.
    ///
    /// # Errors
    /// If memory runs out.
    pub fn new(alloc: Global, cfg: &Config) -> Result<Regions, AllocError>
        ensures { IfOk result
            (λ regions. regions ≡
            record {
              pool = cfg.now.pool;
              tables = cfg.now.tablepool;
              work = 4 * cfg.now.tablemax;
            }) }
    {
        Ok(Regions {
            pool: zeros(alloc, cfg.pool as usize)?,
            tables: zeros(alloc, cfg.tablepool as usize)?,
            work: zeros(alloc, WORK_BUFFERS * cfg.tablemax as usize)?,
        })
    }

    /// The three blocks, for who opens both services in them.
    pub fn blocks_mut(&mut self) -> Blocks<'_>
        ensures pool { length result.pool.now ≡ self.old.pool }
        ensures tables { length result.tables.now ≡ self.old.tables }
        ensures work { length result.work.now ≡ self.old.work }
    {
        Blocks {
            pool: &mut self.pool,
            tables: &mut self.tables,
            work: &mut self.work,
        }
    }
}

// So many zeros, a page at a time: if nothing is optimized, a copy takes far less than a loop
// over the bytes.
fn zeros(alloc: Global, count: usize) -> Result<Vec<u8>, AllocError>
    ensures { IfOk result (λ block. length block.items ≡ count) }
{
    let page = [0; PAGE];
    let mut block = Vec::with_capacity(alloc, count)?;
    while block.len() < count {
        let more = usize::min(PAGE, count - block.len());
        block.extend_from_slice(&page[..more])?;
    }
    Ok(block)
}
