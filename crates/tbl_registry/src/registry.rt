//! The registry.
ghost use Rattle.std.specs.Prelude.{◌≡◌, ◌+◌, ◌&&◌, ◌<◌, ◌≤◌, ◌^◌, true, false, not, if◌then◌else◌, [], length, find, IfOk, IsSome, IsSomeAnd, None, Some, option_map};
ghost use Rattle.std.specs.Option.{option_to_list};
ghost use Rattle.std.specs.Str.{bytes_eq};
ghost use Rattle.tbl_registry.specs.Listing.{handle_at, is_live, has_handle, table_under, made_handle, is_registered, first_owned, with_handle, without_handle, with_hold, without_hold, handle_row, table_at, number_at, table_named, without_table, Tells, AddsTable, AddsHandle, IsTied};
ghost use Rattle.tbl_registry.specs.Inside.{table_in, AreRising};

use crate::handles;
use crate::name::TableName;
use crate::rows::{Handle, HandleRow, TableRow};
use crate::shelf::{Shelf, TableEntry};
use fsw_base::AppNo;
use std::alloc::{AllocError, Global};
use std::marker::Model;
use tbl_rules::RuleList;

/// The tables that there are, and the live handles. Contracts see both in order of number.
pub struct Registry {
    // The tables, each in the place that is its key.
    shelf: Shelf,
    // The keys of the tables, in order of registration. There is room for all places.
    keys: Vec<usize>,
    // The live handles, by rising number, so that one is found by halves. There is room for `room`.
    handles: Vec<Handle>,
    // How many handles were made, which is the newest one's number.
    made: u32,
    // How many handles may be live.
    room: u32,
}

impl Drop for Registry {
    fn drop(self) {
        let Registry {
            shelf: _shelf,
            keys: _keys,
            handles: _handles,
            made: _made,
            room: _room,
        } = self;
    }
}

impl Model for Registry {
    ghost use Rattle.std.specs.Prelude.{◌≤◌, ◌<◌, ◌^◌, length, vec_capacity};
    ghost use Rattle.tbl_registry.specs.Listing.{Listing};

    ghost Value = { Listing };

    ghost use Rattle.tbl_registry.specs.Inside.{listing_of, IsKept};

    ghost view = { λ r. listing_of r.shelf r.keys.items r.handles.items r.made r.room };

    ghost invariant = { λ r. IsKept r.shelf r.keys.items r.handles.items r.made r.room
        × (length r.shelf < 2 ^ 32) × (length r.shelf ≤ vec_capacity r.keys) ×
        (r.room ≤ vec_capacity r.handles) × (r.room < 2 ^ 32) };
}

impl Registry {
    /// No table, with room for `tables` tables and `handles` live handles. By the code, no later
    /// call takes memory.
    ///
    /// # Errors
    /// `AllocError` if memory runs out.
    pub fn new(alloc: Global, tables: u32, handles: u32) -> Result<Registry, AllocError>
        ensures { IfOk result (λ registry. registry ≡
            record {
              tables = [];
              handles = [];
              made = 0;
              table_room = tables;
              handle_room = handles;
            }) }
    {
        Ok(Registry {
            shelf: Shelf::new(alloc, tables)?,
            keys: Vec::with_capacity(alloc, tables as usize)?,
            handles: Vec::with_capacity(alloc, handles as usize)?,
            made: 0,
            room: handles,
        })
    }

    /// How many tables there are: those that have a handle, and one whose last handle was dropped
    /// and that wasn't removed yet.
    pub fn tables(&self) -> u32
        ensures { result ≡ length self.now.tables }
    {
        self.keys.len() as u32
    }

    /// How many handles are live.
    pub fn handles(&self) -> u32
        ensures { result ≡ length self.now.handles }
    {
        self.handles.len() as u32
    }

    /// How many handles were given.
    pub fn made(&self) -> u32
        ensures { result ≡ self.now.made }
    {
        self.made
    }

    /// How handles and tables are tied: what is true of every registry. Does nothing.
    pub fn recall_ties(&self)
        ensures { IsTied self.now }
    {
        let _ = &self.keys;
    }

    /// The key of the registered table of this name. It looks at the names of the tables, and at
    /// the handles of those of this name alone.
    pub fn by_name(&self, name: &[u8]) -> Option<usize>
        ensures { result ≡ option_map (λ t. t.key) (table_named self.now name.now) }
    {
        for key in &self.keys {
            if let Some(found) = key_where_named(&self.shelf, &self.handles, *key, name) {
                return Some(found);
            }
        }
        None
    }

    /// The live handle of this number, with all that is kept of it. Found by halves.
    pub fn find(&self, handle: u32) -> Option<Handle>
        ensures { result ≡ handle_at self.now.handles handle }
    {
        handles::find(&self.handles, handle)
    }

    /// What the live handle of this number tells. Found by halves.
    pub fn by_handle(&self, handle: u32) -> Option<HandleRow>
        ensures { result ≡ option_map handle_row (handle_at self.now.handles handle) }
    {
        match handles::find(&self.handles, handle) {
            Some(row) => Some(HandleRow {
                key: row.key,
                app: row.app,
                owner: row.number == row.table,
            }),
            None => None,
        }
    }

    /// What is kept of the table with this key.
    pub fn table(&self, key: usize) -> TableRow<'_>
        requires { IsSome (table_at self.now.tables key) }
        ensures { Tells self.now key result }
    {
        let entry = self.shelf.get(key).unwrap();
        TableRow {
            app: entry.owner,
            handle: owner_of(&self.handles, entry.number),
            size: entry.size,
            option: entry.option,
            rules: &entry.rules,
        }
    }

    /// Registers a table of `size` bytes, in a place of its own, and answers its owner's handle,
    /// numbered one more than were made. Whether a registered table has the name isn't asked.
    pub fn add_table(
        &mut self,
        app: AppNo,
        name: &[u8],
        size: u32,
        option: u32,
        rules: &RuleList,
    ) -> u32
        requires tables { length self.old.tables < self.old.table_room }
        requires handles { length self.old.handles < self.old.handle_room }
        requires number { self.old.made + 1 < 2 ^ 32 }
        requires some { 1 ≤ length name.now }
        requires few { length name.now ≤ 15 }
        ensures number { result ≡ self.old.made + 1 }
        ensures after { AddsTable self.old self.new app name.now size option rules.now }
    {
        let key = self.shelf.vacant();
        let number = self.made + 1;
        let entry = TableEntry {
            number,
            key,
            name: TableName::new(name),
            owner: app,
            size,
            option,
            rules: rules.again(),
        };
        self.shelf.put(key, entry);
        self.keys.push_reserved(key);
        self.handles
            .push_reserved(new_handle(number, app, number, key));
        self.made = number;
        number
    }

    /// Gives an application a handle of the table with this key, numbered one more than were made.
    pub fn add_handle(&mut self, app: AppNo, key: usize) -> u32
        requires there { IsSome (table_at self.old.tables key) }
        requires handles { length self.old.handles < self.old.handle_room }
        requires number { self.old.made + 1 < 2 ^ 32 }
        ensures number { result ≡ self.old.made + 1 }
        ensures after { AddsHandle self.old self.new app key }
    {
        let table = self.shelf.get(key).unwrap().number;
        self.made += 1;
        self.handles
            .push_reserved(new_handle(self.made, app, table, key));
        self.made
    }

    /// Drops a live handle; its number is never given again. Answers whether it was its table's
    /// last one: then the table is to be removed.
    pub fn drop_handle(&mut self, handle: u32) -> bool
        requires { is_live self.old.handles handle ≡ true }
        ensures last { result ≡
            not (has_handle self.new.handles (table_under self.old.handles handle)) }
        ensures after { self.new ≡
            record self.old { handles = without_handle handle self.old.handles } }
    {
        let place = handles::place_of(&self.handles, handle).unwrap();
        let left = self.handles.remove(place);
        !handles::any_of(&self.handles, left.table)
    }

    /// Removes the table with this key, which has no handle; its key is free then.
    pub fn remove(&mut self, key: usize)
        requires { IsSomeAnd (number_at self.old.tables key)
            (λ number. has_handle self.old.handles number ≡ false) }
        ensures { self.new ≡ record self.old { tables = without_table key self.old.tables } }
    {
        self.shelf.clear(key);
        self.keys.retain(|other| *other != key);
    }

    /// The number of the application's first live handle. For its end: it looks at the handles one
    /// after another.
    pub fn first_of(&self, app: AppNo) -> Option<u32>
        ensures { result ≡ option_map (λ h. h.number) (first_owned self.now.handles app) }
    {
        handles::first_of(&self.handles, app)
    }

    /// The application of the live handle of this number is told of a version of its table, and
    /// holds it; no effect if none is live.
    pub fn hold(&mut self, handle: u32, version: u64)
        ensures { self.new ≡
            record self.old {
              handles =
                  with_handle (with_hold version) handle self.old.handles;
            } }
    {
        if let Some(place) = handles::place_of(&self.handles, handle) {
            self.handles[place] = Handle {
                told: version,
                held: Some(version),
                ..self.handles[place]
            };
        }
    }

    /// The live handle of this number holds nothing any more; no effect if none is live.
    pub fn let_go(&mut self, handle: u32)
        ensures { self.new ≡
            record self.old { handles = with_handle without_hold handle self.old.handles } }
    {
        if let Some(place) = handles::place_of(&self.handles, handle) {
            self.handles[place] = Handle {
                held: None,
                ..self.handles[place]
            };
        }
    }
}

// A handle that was never told of a version.
fn new_handle(number: u32, app: AppNo, table: u32, key: usize) -> Handle
    ensures { result ≡ made_handle number app table key }
{
    Handle {
        number,
        app,
        table,
        key,
        told: 0,
        held: None,
    }
}

// The owner's handle, if it is live.
fn owner_of(handles: &[Handle], number: u32) -> Option<u32>
    requires { AreRising handles.now }
    ensures { result ≡ (if is_live handles.now number then Some number else None) }
{
    if handles::is_among(handles, number) {
        Some(number)
    } else {
        None
    }
}

// The key of the table in a place, if it is registered and has the name.
fn key_where_named(shelf: &Shelf, handles: &[Handle], key: usize, name: &[u8]) -> Option<usize>
    requires { AreRising handles.now }
    ensures { result ≡
        option_map (λ t. t.key)
        (find (λ t. is_registered handles.now t && bytes_eq t.name name.now)
        (option_to_list (table_in shelf.now key))) }
{
    let entry = shelf.get(key)?;
    if entry.name.is(name) && handles::is_among(handles, entry.number) {
        Some(entry.key)
    } else {
        None
    }
}
