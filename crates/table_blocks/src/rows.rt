//! The tables by key, and the changes of one of them.
ghost use Rattle.std.specs.Prelude.{◌≡◌, ◌≢◌, ◌+◌, ◌<◌, ◌≤◌, ℕ, Some, None, true, false, length, replicate, slice_set, IfOk};
ghost use Rattle.tbl_words.specs.Machine.{with_range};
ghost use Rattle.table_blocks.specs.Contents.{is_open, content_at, is_double, is_staged, older_in, staged_in, version_at, view_given, view_back, validated, staged_by, without_staged, with_value, HasTwoLoans, ShareNoLoan};

use crate::space::Space;
use crate::table::Table;
use lend_block::View;
use std::alloc::{AllocError, Global};

/// No table, under so many keys.
///
/// # Errors
///
/// `AllocError` if memory runs out.
pub fn no_tables<'r>(alloc: Global, keys: u32) -> Result<Vec<Option<Table<'r>>>, AllocError>
    ensures { IfOk result (λ tables. tables.items ≡ replicate keys None) }
{
    let mut tables = Vec::with_capacity(alloc, keys as usize)?;
    for _key in 0..keys {
        tables.push_reserved(None);
    }
    Ok(tables)
}

/// The table of a key.
pub fn table_at<'a, 'r>(tables: &'a Vec<Option<Table<'r>>>, key: u32) -> &'a Table<'r>
    requires within { key < length tables.now.items }
    requires open { is_open tables.now.items key ≡ true }
    ensures { result.now ≡ content_at tables.now.items key }
{
    match &tables[key as usize] {
        Some(table) => table,
        None => unreachable!(),
    }
}

/// Takes a table out.
pub fn take_table<'r>(tables: &mut Vec<Option<Table<'r>>>, key: u32) -> Table<'r>
    requires within { key < length tables.old.items }
    requires open { is_open tables.old.items key ≡ true }
    ensures table { result ≡ content_at tables.old.items key }
    ensures after { tables.new.items ≡ slice_set tables.old.items key None }
{
    match tables[key as usize].take() {
        Some(table) => table,
        None => unreachable!(),
    }
}

/// Puts a table under a key.
pub fn put_table<'r>(tables: &mut Vec<Option<Table<'r>>>, key: u32, table: Table<'r>)
    requires within { key < length tables.old.items }
    ensures after { tables.new.items ≡ slice_set tables.old.items key (Some table.entry) }
{
    tables[key as usize] = Some(table);
}

/// The two versions of a table, if it has two, are of two loans. Does nothing.
pub fn tell_versions(tables: &mut Vec<Option<Table<'_>>>, key: u32)
    requires within { key < length tables.old.items }
    requires open { is_open tables.old.items key ≡ true }
    ensures apart { HasTwoLoans (content_at tables.old.items key) }
    ensures same { tables.new.items ≡ tables.old.items }
{
    let mut table = take_table(tables, key);
    table.tell_versions();
    put_table(tables, key, table);
}

/// Two tables share no loan. Does nothing.
pub fn tell_tables_apart(tables: &mut Vec<Option<Table<'_>>>, key: u32, other: u32)
    requires within { key < length tables.old.items }
    requires open { is_open tables.old.items key ≡ true }
    requires other_within { other < length tables.old.items }
    requires other_open { is_open tables.old.items other ≡ true }
    requires two { key ≢ other }
    ensures apart { ShareNoLoan
        (content_at tables.old.items key)
        (content_at tables.old.items other) }
    ensures same { tables.new.items ≡ tables.old.items }
{
    let mut table = take_table(tables, key);
    let mut other_table = take_table(tables, other);
    table.tell_apart(&mut other_table);
    put_table(tables, other, other_table);
    put_table(tables, key, table);
}

/// Gives a view of a table's present version.
#[tactic(auto, using(crate::proofs::Sets::set_set))]
pub fn lend_view<'r>(tables: &mut Vec<Option<Table<'r>>>, key: u32) -> View<'r>
    requires within { key < length tables.old.items }
    requires open { is_open tables.old.items key ≡ true }
    requires room { (content_at tables.old.items key).present.views < 4294967295 }
    ensures view { result ≡
        record {
          loan = (content_at tables.old.items key).present.loan;
          bytes = (content_at tables.old.items key).present.bytes;
        } }
    ensures after { tables.new.items ≡
        slice_set tables.old.items key (Some (view_given (content_at tables.old.items key))) }
{
    let mut table = take_table(tables, key);
    let view = table.view();
    put_table(tables, key, table);
    view
}

/// Takes back a view of a table's version of this number.
#[tactic(auto, using(crate::proofs::Sets::set_set))]
pub fn return_view<'r>(tables: &mut Vec<Option<Table<'r>>>, key: u32, version: u64, view: View<'r>)
    requires within { key < length tables.old.items }
    requires open { is_open tables.old.items key ≡ true }
    requires of_this_loan { view.loan ≡
        (version_at (content_at tables.old.items key) version).loan }
    requires some { 1 ≤ (version_at (content_at tables.old.items key) version).views }
    ensures after { tables.new.items ≡
        slice_set tables.old.items key
        (Some (view_back (content_at tables.old.items key) version)) }
{
    let mut table = take_table(tables, key);
    table.give_back(version, view);
    put_table(tables, key, table);
}

/// Marks a table's staged value as validated.
#[tactic(auto, using(crate::proofs::Sets::set_set))]
pub fn validate(tables: &mut Vec<Option<Table<'_>>>, key: u32)
    requires within { key < length tables.old.items }
    requires open { is_open tables.old.items key ≡ true }
    requires staged { is_staged (content_at tables.old.items key).next ≡ true }
    ensures after { tables.new.items ≡
        slice_set tables.old.items key (Some (validated (content_at tables.old.items key))) }
{
    let mut table = take_table(tables, key);
    table.set_validated();
    put_table(tables, key, table);
}

/// Stages a value in the inactive block of a double-buffered table.
#[tactic(auto, using(crate::proofs::Sets::set_set))]
pub fn stage_inactive(tables: &mut Vec<Option<Table<'_>>>, key: u32, offset: u32, range: &[u8])
    requires within { key < length tables.old.items }
    requires open { is_open tables.old.items key ≡ true }
    requires double { is_double (content_at tables.old.items key) ≡ true }
    requires not_staged { is_staged (content_at tables.old.items key).next ≡ false }
    requires all_back { (older_in (content_at tables.old.items key).next).views ≡ 0 }
    requires range { offset + length range.now ≤ (content_at tables.old.items key).size }
    ensures after { tables.new.items ≡
        slice_set tables.old.items key
        (Some
        (staged_by
        (content_at tables.old.items key)
        offset
        range.now
        (content_at tables.old.items key).present.whole)) }
{
    let table = take_table(tables, key);
    put_table(tables, key, table.stage_inactive(offset, range));
}

/// Stages a value of a single-buffered table in a working buffer.
#[tactic(auto, using(crate::proofs::Sets::set_set))]
pub fn stage_in<'r>(
    tables: &mut Vec<Option<Table<'r>>>,
    key: u32,
    buffer: Space<'r>,
    offset: u32,
    range: &[u8],
)
    requires within { key < length tables.old.items }
    requires open { is_open tables.old.items key ≡ true }
    requires single { is_double (content_at tables.old.items key) ≡ false }
    requires room { (content_at tables.old.items key).size ≤ length buffer }
    requires range { offset + length range.now ≤ (content_at tables.old.items key).size }
    ensures after { tables.new.items ≡
        slice_set tables.old.items key
        (Some
        (staged_by (content_at tables.old.items key) offset range.now (length buffer.entry))) }
{
    let table = take_table(tables, key);
    put_table(tables, key, table.stage_in(buffer, offset, range));
}

/// Drops the staged value of a double-buffered table.
#[tactic(auto, using(crate::proofs::Sets::set_set))]
pub fn abort_inactive(tables: &mut Vec<Option<Table<'_>>>, key: u32)
    requires within { key < length tables.old.items }
    requires open { is_open tables.old.items key ≡ true }
    requires double { is_double (content_at tables.old.items key) ≡ true }
    requires staged { is_staged (content_at tables.old.items key).next ≡ true }
    ensures after { tables.new.items ≡
        slice_set tables.old.items key
        (Some
        (without_staged
        (content_at tables.old.items key)
        (older_in (content_at tables.new.items key).next).loan)) }
{
    let table = take_table(tables, key);
    put_table(tables, key, table.abort_inactive());
}

/// Drops the staged value of a single-buffered table, and answers its working buffer.
#[tactic(auto, using(crate::proofs::Sets::set_set))]
pub fn abort_in<'r>(tables: &mut Vec<Option<Table<'r>>>, key: u32) -> Space<'r>
    requires within { key < length tables.old.items }
    requires open { is_open tables.old.items key ≡ true }
    requires single { is_double (content_at tables.old.items key) ≡ false }
    requires staged { is_staged (content_at tables.old.items key).next ≡ true }
    ensures buffer { length result ≡ (staged_in (content_at tables.old.items key).next).whole }
    ensures after { (loan : ℕ) →
        tables.new.items ≡
        slice_set tables.old.items key
        (Some (without_staged (content_at tables.old.items key) loan)) }
{
    let (table, buffer) = take_table(tables, key).abort_in();
    put_table(tables, key, table);
    buffer
}

/// Updates a double-buffered table to its staged value.
#[tactic(auto, using(crate::proofs::Sets::set_set))]
pub fn exchange(tables: &mut Vec<Option<Table<'_>>>, key: u32)
    requires within { key < length tables.old.items }
    requires open { is_open tables.old.items key ≡ true }
    requires double { is_double (content_at tables.old.items key) ≡ true }
    requires staged { is_staged (content_at tables.old.items key).next ≡ true }
    requires room { (content_at tables.old.items key).version < 18446744073709551615 }
    ensures after { tables.new.items ≡
        slice_set tables.old.items key
        (Some
        (with_value
        (content_at tables.old.items key)
        (content_at tables.new.items key).present.loan
        (staged_in (content_at tables.old.items key).next).bytes)) }
{
    let table = take_table(tables, key);
    put_table(tables, key, table.exchange());
}

/// Updates a single-buffered table to its staged value, and answers its working buffer.
#[tactic(auto, using(crate::proofs::Sets::set_set))]
pub fn copy_over<'r>(tables: &mut Vec<Option<Table<'r>>>, key: u32) -> Space<'r>
    requires within { key < length tables.old.items }
    requires open { is_open tables.old.items key ≡ true }
    requires single { is_double (content_at tables.old.items key) ≡ false }
    requires staged { is_staged (content_at tables.old.items key).next ≡ true }
    requires all_back { (content_at tables.old.items key).present.views ≡ 0 }
    requires room { (content_at tables.old.items key).version < 18446744073709551615 }
    ensures buffer { length result ≡ (staged_in (content_at tables.old.items key).next).whole }
    ensures after { tables.new.items ≡
        slice_set tables.old.items key
        (Some
        (with_value
        (content_at tables.old.items key)
        (content_at tables.new.items key).present.loan
        (staged_in (content_at tables.old.items key).next).bytes)) }
{
    let (table, buffer) = take_table(tables, key).copy_over();
    put_table(tables, key, table);
    buffer
}

/// Updates a double-buffered table with a range of its value replaced.
#[tactic(auto, using(crate::proofs::Sets::set_set))]
pub fn load_inactive(tables: &mut Vec<Option<Table<'_>>>, key: u32, offset: u32, range: &[u8])
    requires within { key < length tables.old.items }
    requires open { is_open tables.old.items key ≡ true }
    requires double { is_double (content_at tables.old.items key) ≡ true }
    requires not_staged { is_staged (content_at tables.old.items key).next ≡ false }
    requires all_back { (older_in (content_at tables.old.items key).next).views ≡ 0 }
    requires range { offset + length range.now ≤ (content_at tables.old.items key).size }
    requires room { (content_at tables.old.items key).version < 18446744073709551615 }
    ensures after { tables.new.items ≡
        slice_set tables.old.items key
        (Some
        (with_value
        (content_at tables.old.items key)
        (content_at tables.new.items key).present.loan
        (with_range (content_at tables.old.items key).present.bytes offset range.now))) }
{
    let table = take_table(tables, key);
    put_table(tables, key, table.stage_inactive(offset, range).exchange());
}

/// Updates a single-buffered table with a range of its value replaced.
#[tactic(auto, using(crate::proofs::Sets::set_set))]
pub fn write_over(tables: &mut Vec<Option<Table<'_>>>, key: u32, offset: u32, range: &[u8])
    requires within { key < length tables.old.items }
    requires open { is_open tables.old.items key ≡ true }
    requires single { is_double (content_at tables.old.items key) ≡ false }
    requires not_staged { is_staged (content_at tables.old.items key).next ≡ false }
    requires all_back { (content_at tables.old.items key).present.views ≡ 0 }
    requires range { offset + length range.now ≤ (content_at tables.old.items key).size }
    requires room { (content_at tables.old.items key).version < 18446744073709551615 }
    ensures after { tables.new.items ≡
        slice_set tables.old.items key
        (Some
        (with_value
        (content_at tables.old.items key)
        (content_at tables.new.items key).present.loan
        (with_range (content_at tables.old.items key).present.bytes offset range.now))) }
{
    let table = take_table(tables, key);
    put_table(tables, key, table.write_over(offset, range));
}
