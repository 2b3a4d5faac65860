//! The blocks of the tables' pool, which are counted and not kept.
ghost use Rattle.std.specs.Prelude.{◌≡◌, ◌==◌, ◌*◌, ◌<◌, ◌≤◌, ◌^◌, if◌then◌else◌, length, slice_index};
ghost use Rattle.tbl_words.specs.Tables.{blocks_for, block_size, blocks_out, bytes_in_use};

use crate::rows::ListTable;
use fsw_base::BlockSizes;

/// How many blocks a table with this option takes.
pub(crate) fn blocks_for(option: u32) -> u32
    ensures value { result ≡ blocks_for option }
    ensures few { result ≤ 2 }
{
    if option == 1 { 2 } else { 1 }
}

// The block size at a place.
#[tactic(auto, using(list_pool::proofs::Costs::size_small))]
fn size_at(sizes: &BlockSizes, class: u32) -> u32
    requires { class < length sizes.now }
    ensures value { result ≡ slice_index sizes.now class }
    ensures few { result ≤ 80000 }
{
    let _ = sizes.count();
    sizes.at(class)
}

// The block size that a table of this size takes; 0 if there is none.
fn block_size(sizes: &BlockSizes, size: u32) -> u32
    ensures value { result ≡ block_size sizes.now size }
    ensures few { result ≤ 80000 }
{
    match sizes.class_of(size) {
        Some(class) => size_at(sizes, class),
        None => 0,
    }
}

// How many blocks of this size a table has.
fn blocks_of(sizes: &BlockSizes, table: &ListTable, block: u32) -> u64
    ensures value { result ≡
        (if block_size sizes.now table.now.size == block then blocks_for table.now.option else 0) }
    ensures few { result ≤ 2 }
{
    if block_size(sizes, table.size) == block {
        u64::from(blocks_for(table.option))
    } else {
        0
    }
}

/// How many blocks of this size the tables have.
pub(crate) fn blocks_out(sizes: &BlockSizes, tables: &[ListTable], block: u32) -> u64
    requires { length tables.now < 2 ^ 32 }
    ensures value { result ≡ blocks_out sizes.now tables.now block }
    ensures few { result ≤ 2 * length tables.now }
{
    let mut count = 0;
    for table in tables {
        count += blocks_of(sizes, table, block);
    }
    count
}

// The bytes of the blocks that a table has.
fn bytes_of(sizes: &BlockSizes, table: &ListTable) -> u32
    ensures value { result ≡
        block_size sizes.now table.now.size * blocks_for table.now.option }
    ensures few { result ≤ 160000 }
{
    block_size(sizes, table.size) * blocks_for(table.option)
}

/// The bytes of the blocks that the tables have.
pub(crate) fn bytes_in_use(sizes: &BlockSizes, tables: &[ListTable]) -> u64
    requires { length tables.now < 2 ^ 32 }
    ensures { result ≡ bytes_in_use sizes.now tables.now }
{
    let mut bytes = 0;
    for table in tables {
        bytes += u64::from(bytes_of(sizes, table));
    }
    bytes
}
