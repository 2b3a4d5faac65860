//! Whether bytes can be staged for a table.
ghost use Rattle.std.specs.Prelude.{◌≡◌, ◌+◌, ◌≤◌, ◌^◌, ◌<◌, None, true, length};
ghost use Rattle.table_blocks.specs.Contents.{is_open, content_at};
ghost use Rattle.tbl_words.specs.Machine.{barred_cause};
ghost use Rattle.table_core.specs.Refusals.{is_partial, is_lent_apart, is_lent, lacks_buffer, bars_in};

use table_blocks::TableBlocks;
use tbl_words::TblStatus;

/// Why bytes can't be staged from an offset on for the table of a key.
pub(crate) fn unstaged_cause(
    blocks: &TableBlocks<'_>,
    key: u32,
    offset: u32,
    bytes: &[u8],
) -> Option<TblStatus>
    requires open { is_open blocks.now.tables key ≡ true }
    requires offset { offset ≤ 65536 }
    requires few { length bytes.now ≤ 65536 }
    ensures { result ≡
        barred_cause
        (bars_in blocks.now.free (content_at blocks.now.tables key) offset bytes.now)
        None }
{
    if blocks.option(key) == 2 {
        return Some(TblStatus::ErrDumpOnly);
    }
    if blocks.size(key) < offset + bytes.len() as u32 {
        return Some(TblStatus::ErrFileTooLarge);
    }
    if is_partial(blocks, key, offset, bytes) {
        return Some(TblStatus::ErrPartialLoad);
    }
    if blocks.is_staged(key) {
        return Some(TblStatus::ErrLoadInProgress);
    }
    if is_lent_apart(blocks, key) {
        return Some(TblStatus::InfoTableLocked);
    }
    if lacks_buffer(blocks, key) {
        return Some(TblStatus::ErrNoBufferAvail);
    }
    None
}

/// Whether a view is out of the one block that a single-buffered table has.
pub(crate) fn is_lent(blocks: &TableBlocks<'_>, key: u32) -> bool
    requires { is_open blocks.now.tables key ≡ true }
    ensures { result ≡ is_lent (content_at blocks.now.tables key) }
{
    blocks.option(key) != 1 && blocks.views(key) > 0
}

// Whether the bytes aren't all of the table, of which none were ever loaded.
fn is_partial(blocks: &TableBlocks<'_>, key: u32, offset: u32, bytes: &[u8]) -> bool
    requires { is_open blocks.now.tables key ≡ true }
    ensures { result ≡ is_partial (content_at blocks.now.tables key) offset bytes.now }
{
    blocks.version(key) == 0 && !(offset == 0 && bytes.len() == blocks.size(key) as usize)
}

// Whether a view is out of the version that lies if a double-buffered table stages.
fn is_lent_apart(blocks: &TableBlocks<'_>, key: u32) -> bool
    requires { is_open blocks.now.tables key ≡ true }
    ensures { result ≡ is_lent_apart (content_at blocks.now.tables key) }
{
    blocks.option(key) == 1 && blocks.older_views(key) > 0
}

// Whether the table stages in a working buffer, and none is free.
fn lacks_buffer(blocks: &TableBlocks<'_>, key: u32) -> bool
    requires { is_open blocks.now.tables key ≡ true }
    ensures { result ≡ lacks_buffer blocks.now.free (content_at blocks.now.tables key) }
{
    blocks.option(key) != 1 && blocks.free_buffers() == 0
}
