//! The limits of a run, and what one application may use of it.
ghost use Rattle.std.specs.Prelude.{◌≡◌, ◌≤◌, [], true, false};
ghost use Rattle.fsw_base.specs.Blocks.{usual_sizes};

use crate::blocks::BlockSizes;
use crate::starts::CountStarts;

/// The limits of a run. Each number keeps its range.
#[derive(Drop)]
pub struct Config {
    /// How many message ids may have a route, 1 to 1024.
    pub msgids: u32,
    /// How many pipes may be live at once, 1 to 256.
    pub pipes: u32,
    /// How many subscriptions a message id may have, 1 to 64.
    pub dests: u32,
    /// The greatest depth of a pipe, 1 to 1024 messages.
    pub depth: u32,
    /// The largest message, 7 to 65542 bytes.
    pub msgmax: u32,
    /// The bus's memory pool, 24 to 16777216 bytes.
    pub pool: u32,
    /// The largest memory pool of an application, 24 to 1048576 bytes.
    pub apppool: u32,
    /// How many tables may have a handle, registered or not, 1 to 256.
    pub tables: u32,
    /// How many table handles may be live at once, 1 to 1024.
    pub handles: u32,
    /// The largest table, 1 to 65536 bytes.
    pub tablemax: u32,
    /// The memory pool of the tables, 24 to 16777216 bytes.
    pub tablepool: u32,
    /// The block sizes of every pool.
    pub sizes: BlockSizes,
    /// The sequence counts at which message ids start.
    pub starts: CountStarts,
    /// The version of the bus, 1 or 2. In version 2 a pipe may drop its oldest message when it is
    /// full.
    pub version: u32,

    pub ghost msgids_in_range: { (1 ≤ msgids) × (msgids ≤ 1024) },
    pub ghost pipes_in_range: { (1 ≤ pipes) × (pipes ≤ 256) },
    pub ghost dests_in_range: { (1 ≤ dests) × (dests ≤ 64) },
    pub ghost depth_in_range: { (1 ≤ depth) × (depth ≤ 1024) },
    pub ghost msgmax_in_range: { (7 ≤ msgmax) × (msgmax ≤ 65542) },
    pub ghost pool_in_range: { (24 ≤ pool) × (pool ≤ 16777216) },
    pub ghost apppool_in_range: { (24 ≤ apppool) × (apppool ≤ 1048576) },
    pub ghost tables_in_range: { (1 ≤ tables) × (tables ≤ 256) },
    pub ghost handles_in_range: { (1 ≤ handles) × (handles ≤ 1024) },
    pub ghost tablemax_in_range: { (1 ≤ tablemax) × (tablemax ≤ 65536) },
    pub ghost tablepool_in_range: { (24 ≤ tablepool) × (tablepool ≤ 16777216) },
    pub ghost version_in_range: { (1 ≤ version) × (version ≤ 2) },
}

impl Config {
    ghost use Rattle.fsw_base.specs.Limits.{limits_of, usual_limits};

    /// The usual limits of a mission, the usual block sizes, every count starting at 0, and
    /// version 1.
    pub fn usual() -> Config
        ensures { limits_of result ≡ usual_limits }
    {
        Config {
            msgids: 256,
            pipes: 64,
            dests: 16,
            depth: 256,
            msgmax: 32768,
            pool: 524288,
            apppool: 65536,
            tables: 128,
            handles: 256,
            tablemax: 16384,
            tablepool: 524288,
            sizes: BlockSizes::usual(),
            starts: CountStarts::none(),
            version: 1,
        }
    }

    /// The same limits once more.
    pub fn again(&self) -> Config
        ensures { limits_of result ≡ limits_of self.now }
    {
        Config {
            msgids: self.msgids,
            pipes: self.pipes,
            dests: self.dests,
            depth: self.depth,
            msgmax: self.msgmax,
            pool: self.pool,
            apppool: self.apppool,
            tables: self.tables,
            handles: self.handles,
            tablemax: self.tablemax,
            tablepool: self.tablepool,
            sizes: self.sizes.again(),
            starts: self.starts.again(),
            version: self.version,
        }
    }
}

/// What one application may add to a run.
#[derive(Clone, Copy, Debug, PartialEq, Eq)]
pub struct Budget {
    /// Journal entries.
    pub entries: u32,
    /// Bytes of journal entries: names, texts, messages, buffers and loads.
    pub bytes: u32,
    /// Buffers taken for sending without a copy.
    pub buffers: u32,
}

/// How far a subscription reaches. It is kept and told, and has no other effect here.
#[derive(Clone, Copy, Debug, PartialEq, Eq)]
pub enum Scope {
    /// Messages from other processors too.
    Global,
    /// Messages of this processor alone.
    Local,
}

/// The figures of a memory pool.
#[derive(Clone, Copy, Debug, PartialEq, Eq)]
pub struct PoolStats {
    /// The pool's bytes.
    pub size: u32,
    /// How many blocks were drawn.
    pub requests: u32,
    /// How many puts were refused.
    pub errors: u32,
    /// The bytes never cut.
    pub free: u32,
}

/// The figures of the bus.
#[derive(Clone, Copy, Debug, PartialEq, Eq)]
pub struct BusStats {
    /// Sends without a subscriber.
    pub nosub: u32,
    /// Messages kept back by a message limit.
    pub limit: u32,
    /// Messages kept back by a full pipe.
    pub overflow: u32,
    /// Buffers in use.
    pub buffers: u32,
    /// Bytes of the buffers in use.
    pub bytes: u32,
}
