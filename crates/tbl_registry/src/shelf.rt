//! The places of the tables.
ghost use Rattle.std.specs.Prelude.{◌≡◌, ◌<◌, true, length, replicate, count_by, is_some, slice_set, slice_index_or, All, IfOk, IfSome, None, Some};
ghost use Rattle.tbl_registry.specs.Inside.{table_in};

use crate::name::TableName;
use fsw_base::AppNo;
use slab::Slab;
use std::alloc::{AllocError, Global};
use std::marker::Model;
use tbl_rules::RuleList;

/// A table, as it was registered.
#[derive(Drop)]
pub(crate) struct TableEntry {
    // The number of its owner's handle.
    pub(crate) number: u32,
    // Its place.
    pub(crate) key: usize,
    // 1 to 15 bytes.
    pub(crate) name: TableName,
    // Who registered it.
    pub(crate) owner: AppNo,
    // Its bytes.
    pub(crate) size: u32,
    // 0 single buffered, 1 double buffered, 2 single buffered and dump only.
    pub(crate) option: u32,
    // What its validation asks.
    pub(crate) rules: RuleList,
}

impl Model for TableEntry {
    ghost use Rattle.tbl_registry.specs.Listing.{Table};

    ghost Value = { Table };

    ghost view = { λ e. record {
      number = e.number;
      key = e.key;
      name = e.name;
      owner = e.owner;
      size = e.size;
      option = e.option;
      rules = e.rules;
    } };
}

/// Places for tables. Contracts see what each place has.
#[derive(Drop)]
pub(crate) struct Shelf {
    // The tables. The slab bounds its keys by nothing that its maker knows.
    slab: Slab<TableEntry>,
    // For each place the slab's key of its table; None if the place is free.
    at: Vec<Option<usize>>,
}

impl Model for Shelf {
    ghost use Rattle.std.specs.Prelude.{List, Option};
    ghost use Rattle.tbl_registry.specs.Listing.{Table};

    ghost Value = { List (Option Table) };

    ghost use Rattle.tbl_registry.specs.Inside.{shelf_of, IsShelf};

    ghost view = { λ s. shelf_of s.slab s.at.items };

    ghost invariant = { λ s. IsShelf s.slab s.at.items };
}

impl Shelf {
    /// So many free places.
    pub(crate) fn new(alloc: Global, places: u32) -> Result<Shelf, AllocError>
        ensures { IfOk result (λ shelf. shelf ≡ replicate places None) }
    {
        let slab = Slab::with_capacity(alloc, places as usize)?;
        let at = free_places(alloc, places)?;
        Ok(Shelf { slab, at })
    }

    /// The first free place. For a registration: it looks at the places one after another.
    pub(crate) fn vacant(&self) -> usize
        requires { count_by is_some self.now < length self.now }
        ensures within { result < length self.now }
        ensures free { table_in self.now result ≡ None }
    {
        first_free(&self.at).unwrap()
    }

    /// The table in a place.
    pub(crate) fn get(&self, key: usize) -> Option<&TableEntry>
        ensures some { IfSome result (λ entry. Some entry.now ≡ table_in self.now key) }
        ensures none { result ≡ None → table_in self.now key ≡ None }
    {
        match self.at.get(key) {
            Some(Some(at)) => self.slab.get(*at),
            _ => None,
        }
    }

    /// Puts a table into a free place.
    pub(crate) fn put(&mut self, key: usize, entry: TableEntry)
        requires within { key < length self.old }
        requires free { table_in self.old key ≡ None }
        ensures { self.new ≡ slice_set self.old key (Some entry) }
    {
        let at = self.slab.insert_reserved(entry);
        self.at[key] = Some(at);
    }

    /// Frees a place.
    pub(crate) fn clear(&mut self, key: usize)
        requires within { key < length self.old }
        ensures { self.new ≡ slice_set self.old key None }
    {
        if let Some(at) = self.at[key] {
            self.slab.remove(at);
            self.at[key] = None;
        }
    }
}

// The first free one of these places.
fn first_free(at: &[Option<usize>]) -> Option<usize>
    ensures some { IfSome result
        (λ i. (i < length at.now) × (slice_index_or at.now i None ≡ None)) }
    ensures none { result ≡ None → All (λ place. is_some place ≡ true) at.now }
{
    at.iter().position(|place| place.is_none())
}

// So many free places.
fn free_places(alloc: Global, places: u32) -> Result<Vec<Option<usize>>, AllocError>
    ensures { IfOk result (λ at. at.items ≡ replicate places None) }
{
    let mut at = Vec::with_capacity(alloc, places as usize)?;
    for _ in 0..places {
        at.push_reserved(None);
    }
    Ok(at)
}
