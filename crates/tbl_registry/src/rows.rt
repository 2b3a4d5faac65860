//! What the registry tells of handles and tables.

use fsw_base::AppNo;
use tbl_rules::RuleList;

/// A live handle.
#[derive(Clone, Copy, Debug, PartialEq, Eq)]
pub struct Handle {
    /// From 1, in order of making; never given again.
    pub number: u32,
    /// The application that it was given to.
    pub app: AppNo,
    /// The number of its table, which is that of the handle that the registration gave.
    pub table: u32,
    /// The key of its table.
    pub key: usize,
    /// The version that its application was told of last; 0 at first.
    pub told: u64,
    /// The version that its application holds.
    pub held: Option<u64>,
}

/// What a handle's number tells.
#[derive(Clone, Copy, Debug, PartialEq, Eq)]
pub struct HandleRow {
    /// The key of its table.
    pub key: usize,
    /// The application that it was given to.
    pub app: AppNo,
    /// Whether it is the owner's, which the table's registration gave.
    pub owner: bool,
}

/// What a table's key tells.
#[derive(Drop)]
pub struct TableRow<'a> {
    /// Who registered it.
    pub app: AppNo,
    /// The owner's handle, as long as the table is registered.
    pub handle: Option<u32>,
    /// Its bytes.
    pub size: u32,
    /// 0 single buffered, 1 double buffered, 2 single buffered and dump only.
    pub option: u32,
    /// What its validation asks.
    pub rules: &'a RuleList,
}
