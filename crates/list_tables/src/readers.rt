//! What a report shows of the tables.
ghost use Rattle.std.specs.Prelude.{◌≡◌, ◌<◌, ◌^◌, length, map, IfOk};
ghost use Rattle.std.specs.Option.{option_map};
ghost use Rattle.fsw_base.specs.Limits.{limits_of};
ghost use Rattle.tbl_words.specs.Tables.{account_of, blocks_out};
ghost use Rattle.tbl_words.specs.Receipts.{receipt_in, receipt_of};
ghost use Rattle.tbl_words.specs.Uses.{use_of};

use crate::handles::{handle_at, owns};
use crate::machine::ListTables;
use crate::numbers::narrow;
use crate::room::{blocks_out, bytes_in_use};
use crate::rows::ListTable;
use fsw_base::{AppNo, BlockSizes};
use list_pool::ListAccount;
use std::alloc::{AllocError, Global};
use tbl_words::{TableReceipt, TblUse};

impl ListTables {
    /// How much is in use: tables, handles, and the bytes of the tables' blocks.
    ///
    /// # Errors
    /// `AllocError` if a number doesn't have 32 bits.
    pub fn in_use(&self) -> Result<TblUse, AllocError>
        ensures { IfOk result (λ now. now ≡ use_of self.now.limits self.now.state) }
    {
        let tables = narrow(self.tables.len() as u64)?;
        let handles = narrow(self.handles.len() as u64)?;
        let bytes = narrow(bytes_in_use(&self.config.sizes, &self.tables))?;
        Ok(TblUse {
            tables,
            handles,
            bytes,
        })
    }

    /// The account of the tables' pool.
    ///
    /// # Errors
    /// `AllocError` if memory runs out, or a number doesn't have 32 bits.
    pub fn account(&self, alloc: Global) -> Result<ListAccount, AllocError>
        ensures { IfOk result (λ account. account ≡ account_of self.now.limits self.now.state) }
    {
        let _ = narrow(self.tables.len() as u64)?;
        let made = Vec::from_slice(alloc, &self.made)?;
        let out = all_out(alloc, &self.config.sizes, &self.tables)?;
        let sizes = self.config.sizes.again();
        Ok(ListAccount::read(self.config.tablepool, sizes, made, out, self.drawn, 0))
    }

    /// The receipt of what a live handle of the application holds; None if it holds nothing.
    ///
    /// # Errors
    /// `AllocError` if that is longer than a table can be, 65536 bytes.
    pub fn held_receipt(
        &self,
        app: AppNo,
        handle: u32,
    ) -> Result<Option<TableReceipt<'_>>, AllocError>
        ensures { IfOk result
            (λ receipt. option_map receipt_of receipt ≡ receipt_in self.now.state app handle) }
    {
        if !owns(&self.handles, app, handle) {
            return Ok(None);
        }
        match handle_at(&self.handles, handle) {
            Some(found) => found.receipt(handle),
            None => Ok(None),
        }
    }
}

// Of each block size how many blocks the tables have.
fn all_out(alloc: Global, sizes: &BlockSizes, tables: &[ListTable]) -> Result<Vec<u32>, AllocError>
    requires { length tables.now < 2 ^ 32 }
    ensures { IfOk result (λ out. out.items ≡ map (blocks_out sizes.now tables.now) sizes.now) }
{
    let mut out = Vec::new(alloc);
    for class in 0..sizes.count() {
        let count = narrow(blocks_out(sizes, tables, sizes.at(class)))?;
        out.push(count)?;
    }
    Ok(out)
}
