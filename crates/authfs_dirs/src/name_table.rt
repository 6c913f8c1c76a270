// The names of one directory, found by name and by cookie.
ghost use Rattle.std.specs.Prelude.{◌≡◌, ◌≤◌, ◌<◌, ◌+◌, ◌^◌, [], length, drop, slice_get, IfSome, None, OnOk};
ghost use Rattle.std.specs.Option.{option_map};
ghost use Rattle.authfs_dirs.specs.Names.{Entry, named, unnamed};
ghost use Rattle.authfs_dirs.specs.Tables.{Table, with_entry, IsRising, after, entry_by, living, living_at};

use crate::new_name::NewName;
use crate::rows::{Row, mark, place_after, sweep};
use indexmap::IndexMap;
use mg_base::Memory;
use std::alloc::Global;
use std::marker::Model;

/// The cookie of a name, and the node that it names.
#[derive(Clone, Copy, Debug, PartialEq, Eq, Drop)]
pub(crate) struct Spot {
    pub(crate) cookie: u64,
    pub(crate) node: u64,
}

/// A name as it is lent.
#[derive(Clone, Copy, Drop)]
pub(crate) struct Named<'a> {
    pub(crate) cookie: u64,
    pub(crate) name: &'a [u8],
    pub(crate) node: u64,
}

/// The names of a directory: a map to find one, and rows in the order of their making to list them. A name that was
/// removed is marked in its row; once more than half of the rows are marked, these are let go.
#[derive(Drop)]
pub(crate) struct NameTable {
    spots: IndexMap<Vec<u8>, Spot>,
    rows: Vec<Row>,
    dead: usize,
    next: u64,
}

impl Model for NameTable {
    ghost use Rattle.std.specs.HashMap.{spare};
    ghost use Rattle.authfs_dirs.specs.Tables.{Table, table_of, IsKept};

    ghost Value = { Table };

    ghost view = { λ a. table_of a.rows a.next (spare a.spots) };

    ghost invariant = { λ a. IsKept a.spots.entries a.rows.items a.dead a.next };
}

impl NameTable {
    /// No names. It takes no memory.
    pub(crate) fn new(alloc: Global) -> NameTable
        ensures entries { result.entries ≡ [] }
        ensures next { result.next ≡ 3 }
    {
        NameTable {
            spots: IndexMap::new(alloc),
            rows: Vec::new(alloc),
            dead: 0,
            next: 3,
        }
    }

    /// How many names there are.
    pub(crate) fn len(&self) -> usize
        ensures { result ≡ length self.now.entries }
    {
        self.rows.len() - self.dead
    }

    /// The node that has this name.
    pub(crate) fn node(&self, name: &[u8]) -> Option<u64>
        ensures { result ≡ option_map (λ (e : Entry). e.node) (named name.now self.now.entries) }
    {
        match self.spots.get(name) {
            Some(spot) => Some(spot.node),
            None => None,
        }
    }

    /// Takes memory for one more name.
    pub(crate) fn reserve(&mut self) -> Result<(), Memory>
        ensures entries { self.new.entries ≡ self.old.entries }
        ensures next { self.new.next ≡ self.old.next }
        ensures room { OnOk result (0 < self.new.spare) }
    {
        match self.spots.reserve(1) {
            Ok(()) => {}
            Err(_) => return Err(Memory),
        }
        match self.rows.reserve(1) {
            Ok(()) => Ok(()),
            Err(_) => Err(Memory),
        }
    }

    /// Adds a name behind the others. It takes no memory.
    pub(crate) fn add(&mut self, new: NewName, node: u64)
        requires room { 0 < self.old.spare }
        requires new { named new self.old.entries ≡ None }
        requires cookie { self.old.next + 1 < 2 ^ 64 }
        ensures entries { self.new.entries ≡ with_entry self.old new node }
        ensures next { self.new.next ≡ self.old.next + 1 }
    {
        let cookie = self.next;
        let (key, name) = new.into_copies();
        let _ = self.spots.insert(key, Spot { cookie, node });
        self.rows.push_reserved(Row {
            cookie,
            name,
            node,
            live: true,
        });
        self.next += 1;
    }

    /// Takes a name away. It takes no memory.
    pub(crate) fn remove(&mut self, name: &[u8])
        ensures entries { self.new.entries ≡ unnamed name.now self.old.entries }
        ensures next { self.new.next ≡ self.old.next }
    {
        let Some(spot) = self.spots.swap_remove(name) else {
            return;
        };
        mark(&mut self.rows, spot.cookie);
        self.dead += 1;
        if self.dead > self.rows.len() / 2 {
            sweep(&mut self.rows);
            self.dead = 0;
        }
    }

    /// How many rows there are, those of removed names among them.
    pub(crate) fn rows(&self) -> usize
        ensures value { result ≡ length self.now.slots }
        ensures small { result < 2 ^ 63 }
    {
        self.rows.len()
    }

    /// The first row whose cookie is above this one, or the number of rows.
    pub(crate) fn place_after(&self, cookie: u64) -> usize
        ensures place { after cookie self.now.entries ≡ living (drop result self.now.slots) }
        ensures bound { result ≤ length self.now.slots }
        ensures entries { self.now.entries ≡ living self.now.slots }
        ensures rising { IsRising 3 self.now.slots self.now.next }
    {
        place_after(self.rows.as_slice(), cookie)
    }

    /// The name in a row; None where it was removed.
    pub(crate) fn at(&self, place: usize) -> Option<Named<'_>>
        ensures entry { option_map entry_by result ≡ living_at (slice_get self.now.slots place) }
        ensures short { IfSome result (λ n. length n.name.now ≤ 255) }
    {
        match self.rows.get(place) {
            Some(row) => {
                if row.live {
                    Some(Named {
                        cookie: row.cookie,
                        name: row.name.as_slice(),
                        node: row.node,
                    })
                } else {
                    None
                }
            }
            None => None,
        }
    }
}
