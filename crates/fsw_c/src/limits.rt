//! The limits of a core.
ghost use Rattle.std.specs.Prelude.{◌≡◌, ◌≤◌, IfSome, is_some};
ghost use Rattle.fsw_base.specs.Limits.{limits_of};
ghost use Rattle.fsw_base.specs.declared.blocks.TheConstants.{MAX_BLOCK_SIZE};
ghost use Rattle.fsw_c.specs.Limits.{is_in, are_bus_limits, are_other_limits, are_limits, limits_in, sizes_from};

use arrayvec::ArrayVec;
use fsw_base::{
    BlockSizes, Config, CountStarts, MAX_APPS, MAX_BLOCK_SIZE, MAX_BLOCK_SIZES, MAX_MESSAGE_BYTES,
    MAX_TABLE_BYTES,
};

// The greatest of the limits that have no name elsewhere.
const MAX_MSGIDS: u32 = 1024;

const MAX_PIPES: u32 = 256;

const MAX_DESTS: u32 = 64;

const MAX_DEPTH: u32 = 1024;

const MAX_POOL_BYTES: u32 = 16_777_216;

const MAX_APP_POOL_BYTES: u32 = 1_048_576;

const MAX_TABLES: u32 = 256;

const MAX_HANDLES: u32 = 1024;

const MAX_BUFFERS: u32 = 65535;

const MAX_VERSION: u32 = 2;
// The least bytes of a pool and of a message.
const MIN_POOL_BYTES: u32 = 24;

const MIN_MESSAGE_BYTES: u32 = 7;

/// The limits of a core, each in the range that stands in the header.
#[repr(C)]
#[derive(Clone, Copy)]
pub struct FswLimits {
    /// Applications, 1 to 16.
    pub apps: u32,
    /// Unsent buffers that one application may hold, 0 to 65535.
    pub buffers: u32,
    /// Message ids that may have a route, 1 to 1024.
    pub msgids: u32,
    /// Live pipes, 1 to 256.
    pub pipes: u32,
    /// Subscriptions of a message id, 1 to 64.
    pub dests: u32,
    /// The greatest depth of a pipe, 1 to 1024 messages.
    pub depth: u32,
    /// The largest message, 7 to 65542 bytes.
    pub msgmax: u32,
    /// The bus's memory pool, 24 to 16777216 bytes.
    pub pool: u32,
    /// The largest memory pool of an application, 24 to 1048576 bytes.
    pub apppool: u32,
    /// Tables that have a handle, 1 to 256.
    pub tables: u32,
    /// Live table handles, 1 to 1024.
    pub handles: u32,
    /// The largest table, 1 to 65536 bytes.
    pub tablemax: u32,
    /// The memory pool of the tables, 24 to 16777216 bytes.
    pub tablepool: u32,
    /// The version of the bus, 1 or 2.
    pub version: u32,
    /// The smallest block of each pool, 0 to 80000 bytes: the usual sizes below it are left out.
    pub blockmin: u32,
}

// Whether a number is in a range.
fn is_in(least: u32, number: u32, most: u32) -> bool
    ensures { result ≡ is_in least number most }
{
    least <= number && number <= most
}

// Whether the limits of the bus are in their ranges.
fn are_bus_limits(limits: &FswLimits) -> bool
    ensures { result ≡ are_bus_limits limits.now }
{
    is_in(1, limits.msgids, MAX_MSGIDS)
        && is_in(1, limits.pipes, MAX_PIPES)
        && is_in(1, limits.dests, MAX_DESTS)
        && is_in(1, limits.depth, MAX_DEPTH)
        && is_in(MIN_MESSAGE_BYTES, limits.msgmax, MAX_MESSAGE_BYTES)
        && is_in(MIN_POOL_BYTES, limits.pool, MAX_POOL_BYTES)
        && is_in(MIN_POOL_BYTES, limits.apppool, MAX_APP_POOL_BYTES)
        && is_in(1, limits.version, MAX_VERSION)
}

// Whether all other limits are.
fn are_other_limits(limits: &FswLimits) -> bool
    ensures { result ≡ are_other_limits limits.now }
{
    is_in(1, limits.apps, MAX_APPS)
        && limits.buffers <= MAX_BUFFERS
        && is_in(1, limits.tables, MAX_TABLES)
        && is_in(1, limits.handles, MAX_HANDLES)
        && is_in(1, limits.tablemax, MAX_TABLE_BYTES)
        && is_in(MIN_POOL_BYTES, limits.tablepool, MAX_POOL_BYTES)
        && limits.blockmin <= MAX_BLOCK_SIZE
}

// The usual block sizes of so many bytes or more. The largest is always one of them.
fn sizes_from(least: u32) -> BlockSizes
    requires { least ≤ MAX_BLOCK_SIZE }
    ensures { result ≡ sizes_from least }
{
    let usual = BlockSizes::usual();
    let mut kept: ArrayVec<u32, MAX_BLOCK_SIZES> = ArrayVec::new();
    for place in 0..usual.count() {
        let size = usual.at(place);
        if least <= size {
            kept.push(size);
        }
    }
    BlockSizes::try_new(kept.as_slice()).unwrap()
}

/// The configuration of these limits, with each sequence count at 0; None if a limit isn't in
/// its range.
pub(crate) fn config_of(limits: &FswLimits) -> Option<Config>
    ensures valid { is_some result ≡ are_limits limits.now }
    ensures value { IfSome result (λ cfg. limits_of cfg ≡ limits_in limits.now) }
    ensures apps { IfSome result (λ cfg. limits.now.apps ≤ 16) }
{
    if !are_bus_limits(limits) || !are_other_limits(limits) {
        return None;
    }
    Some(Config {
        msgids: limits.msgids,
        pipes: limits.pipes,
        dests: limits.dests,
        depth: limits.depth,
        msgmax: limits.msgmax,
        pool: limits.pool,
        apppool: limits.apppool,
        tables: limits.tables,
        handles: limits.handles,
        tablemax: limits.tablemax,
        tablepool: limits.tablepool,
        sizes: sizes_from(limits.blockmin),
        starts: CountStarts::none(),
        version: limits.version,
    })
}
