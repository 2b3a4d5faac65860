//! Views of versions, which go out and come back.
ghost use Rattle.std.specs.Prelude.{◌≡◌, ◌<◌, ◌≤◌, true};
ghost use Rattle.table_blocks.specs.Contents.{is_open, content_at, version_at, view_given, view_back};
ghost use Rattle.table_blocks.specs.Blocks.{with_content};

use crate::blocks::TableBlocks;
use crate::rows::{lend_view, return_view};
use lend_block::View;

impl<'r> TableBlocks<'r> {
    /// Gives a view of a table's present version.
    pub fn view(&mut self, key: u32) -> View<'r>
        requires open { is_open self.old.tables key ≡ true }
        requires room { (content_at self.old.tables key).present.views < 4294967295 }
        ensures view { result ≡
            record {
              loan = (content_at self.old.tables key).present.loan;
              bytes = (content_at self.old.tables key).present.bytes;
            } }
        ensures after { self.new ≡
            with_content self.old key (view_given (content_at self.old.tables key)) }
    {
        lend_view(&mut self.tables, key)
    }

    /// Takes back a view of a table's version of this number: the present one, or else the one
    /// before.
    pub fn give_back(&mut self, key: u32, version: u64, view: View<'r>)
        requires open { is_open self.old.tables key ≡ true }
        requires of_this_loan { view.loan ≡
            (version_at (content_at self.old.tables key) version).loan }
        requires some { 1 ≤ (version_at (content_at self.old.tables key) version).views }
        ensures { self.new ≡
            with_content self.old key (view_back (content_at self.old.tables key) version) }
    {
        return_view(&mut self.tables, key, version, view);
    }
}
