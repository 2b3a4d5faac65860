//! Loads: a value is staged, validated and made the table's.
ghost use Rattle.std.specs.Prelude.{◌≡◌, ◌+◌, ◌<◌, ◌≤◌, true, false, length};
ghost use Rattle.tbl_words.specs.Machine.{with_range};
ghost use Rattle.table_blocks.specs.Contents.{is_open, content_at, is_double, is_staged, older_in, staged_in, validated, with_value};
ghost use Rattle.table_blocks.specs.Blocks.{with_content, after_stage, after_abort, after_update};

use crate::blocks::TableBlocks;
use crate::rows::{
    abort_in, abort_inactive, copy_over, exchange, load_inactive, stage_in, stage_inactive,
    table_at, validate, write_over,
};

impl<'r> TableBlocks<'r> {
    /// Stages the present value with the bytes from `offset` on replaced by these: in the inactive
    /// block of a double-buffered table, of which no view is out, else in a working buffer, of
    /// which one is free. Each byte is written once.
    pub fn stage(&mut self, key: u32, offset: u32, bytes: &[u8])
        requires open { is_open self.old.tables key ≡ true }
        requires range { offset + length bytes.now ≤ (content_at self.old.tables key).size }
        requires not_staged { is_staged (content_at self.old.tables key).next ≡ false }
        requires older_back { (older_in (content_at self.old.tables key).next).views ≡ 0 }
        requires buffer { is_double (content_at self.old.tables key) ≡ false →
            1 ≤ self.old.free }
        ensures { self.new ≡ after_stage self.old key offset bytes.now }
    {
        if table_at(&self.tables, key).is_double() {
            stage_inactive(&mut self.tables, key, offset, bytes);
            return;
        }
        let buffer = self.work.pop().unwrap();
        stage_in(&mut self.tables, key, buffer, offset, bytes);
    }

    /// The staged value of a table.
    pub fn staged_value(&self, key: u32) -> &[u8]
        requires open { is_open self.now.tables key ≡ true }
        requires staged { is_staged (content_at self.now.tables key).next ≡ true }
        ensures { result.now ≡ (staged_in (content_at self.now.tables key).next).bytes }
    {
        table_at(&self.tables, key).staged_bytes()
    }

    /// Marks the staged value of a table as validated.
    pub fn set_validated(&mut self, key: u32)
        requires open { is_open self.old.tables key ≡ true }
        requires staged { is_staged (content_at self.old.tables key).next ≡ true }
        ensures { self.new ≡
            with_content self.old key (validated (content_at self.old.tables key)) }
    {
        validate(&mut self.tables, key);
    }

    /// Drops the staged value of a table; a working buffer that it lay in is free again.
    pub fn abort(&mut self, key: u32)
        requires open { is_open self.old.tables key ≡ true }
        requires staged { is_staged (content_at self.old.tables key).next ≡ true }
        ensures { self.new ≡
            after_abort self.old key (older_in (content_at self.new.tables key).next).loan }
    {
        if table_at(&self.tables, key).is_double() {
            abort_inactive(&mut self.tables, key);
            return;
        }
        let buffer = abort_in(&mut self.tables, key);
        self.work.push_reserved(buffer);
    }

    /// Makes the staged value of a table its present one, a version later. A double-buffered table
    /// exchanges its blocks, and copies nothing. A single-buffered one, of which no view is out,
    /// copies the value over its block, and its working buffer is free again.
    pub fn update(&mut self, key: u32)
        requires open { is_open self.old.tables key ≡ true }
        requires staged { is_staged (content_at self.old.tables key).next ≡ true }
        requires all_back { is_double (content_at self.old.tables key) ≡ false →
            (content_at self.old.tables key).present.views ≡ 0 }
        requires room { (content_at self.old.tables key).version < 18446744073709551615 }
        ensures { self.new ≡
            after_update self.old key (content_at self.new.tables key).present.loan }
    {
        if table_at(&self.tables, key).is_double() {
            exchange(&mut self.tables, key);
            return;
        }
        let buffer = copy_over(&mut self.tables, key);
        self.work.push_reserved(buffer);
    }

    /// Stages and updates at once, with nothing staged before: the present value, with the bytes
    /// from `offset` on replaced by these, is the present one, a version later. A single-buffered
    /// table, of which no view is out, has these bytes alone written over; a double-buffered one,
    /// of whose version before no view is out, has each byte of the other block written once.
    pub fn load(&mut self, key: u32, offset: u32, bytes: &[u8])
        requires open { is_open self.old.tables key ≡ true }
        requires range { offset + length bytes.now ≤ (content_at self.old.tables key).size }
        requires not_staged { is_staged (content_at self.old.tables key).next ≡ false }
        requires older_back { (older_in (content_at self.old.tables key).next).views ≡ 0 }
        requires all_back { is_double (content_at self.old.tables key) ≡ false →
            (content_at self.old.tables key).present.views ≡ 0 }
        requires room { (content_at self.old.tables key).version < 18446744073709551615 }
        ensures { self.new ≡
            with_content self.old key
            (with_value
            (content_at self.old.tables key)
            (content_at self.new.tables key).present.loan
            (with_range (content_at self.old.tables key).present.bytes offset bytes.now)) }
    {
        if table_at(&self.tables, key).is_double() {
            load_inactive(&mut self.tables, key, offset, bytes);
            return;
        }
        write_over(&mut self.tables, key, offset, bytes);
    }
}
