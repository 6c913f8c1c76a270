// A disk in memory.
ghost use Rattle.std.specs.Prelude.{◌≡◌, ◌≤◌, ◌+◌, ◌<◌, ◌^◌, List, ℕ, length, take, drop, ◌++◌, true, false, MatchBool, OnOk, OnErr, IfOk};
ghost use Rattle.host_traits.specs.Held.{over, all_writable};
ghost use Rattle.block_map.specs.Disk.{contents, disk_bytes};
ghost use Rattle.host_mem.specs.Mem.{plain_of, composite_of, disk_of, IsDisk, IsMapped};
ghost use Rattle.host_mem.specs.Stores.{disk_data};

use block_map::Map;
use host_traits::Raw;
use mg_base::Memory;
use std::alloc::Global;
use std::marker::Model;

/// What a disk is made of.
#[derive(Drop)]
enum Store {
    /// Its bytes, each of which may be written.
    Plain(Vec<u8>),
    /// The map of a composite disk, and the files of its components.
    Composite(Map, Vec<Vec<u8>>),
}

/// A disk.
#[derive(Drop)]
pub(crate) struct MemDisk {
    store: Store,
}

impl Model for MemDisk {
    ghost use Rattle.host_mem.specs.Mem.{DiskData, IsDisk};

    ghost Value = { DiskData };

    ghost use Rattle.host_mem.specs.Stores.{disk_data};

    ghost view = { λ d. disk_data d.store };

    ghost invariant = { λ d. IsDisk (disk_data d.store) };
}

// Fills a slice with the bytes of a composite disk from a place on.
fn fill(map: &Map, files: &[Vec<u8>], at: u64, out: &mut [u8])
    requires count { length files.now ≡ length map.now.components }
    requires inside { at + length out.old ≤ map.now.length }
    ensures { out.new ≡ take (length out.old) (drop at (disk_bytes map.now (contents files.now))) }
{
    match map.read(files, at, out) {
        Ok(()) => {}
        Err(_) => unreachable!(),
    }
}

// So many bytes of a composite disk from a place on.
fn copy(alloc: Global, map: &Map, files: &[Vec<u8>], at: u64, len: usize) -> Result<Vec<u8>, Memory>
    requires count { length files.now ≡ length map.now.components }
    requires inside { at + len ≤ map.now.length }
    ensures { IfOk result
        (λ v. v.items ≡ take len (drop at (disk_bytes map.now (contents files.now)))) }
{
    let mut out = match vec![in alloc; 0u8; len] {
        Ok(out) => out,
        Err(_) => return Err(Memory),
    };
    match map.read(files, at, &mut out) {
        Ok(()) => Ok(out),
        Err(_) => unreachable!(),
    }
}

// Puts bytes over others.
fn put(bytes: &mut Vec<u8>, at: usize, piece: &[u8])
    requires { at + length piece.now ≤ length bytes.old.items }
    ensures { bytes.new.items ≡ take at bytes.old.items ++ piece.now ++ drop (at + length piece.now)
        bytes.old.items }
{
    let end = at + piece.len();
    let all = bytes.as_mut_slice();
    all[at..end].copy_from_slice(piece);
}

// Writes bytes from a place on, where each of them may be written, and nothing else. May they be?
fn write(store: &mut Store, at: u64, bytes: &[u8]) -> bool
    requires is { IsDisk (disk_data store.old) }
    requires inside { at + length bytes.now ≤ length (disk_of (disk_data store.old)).bytes }
    ensures is { IsDisk (disk_data store.new) }
    ensures judged { result ≡ all_writable (disk_of (disk_data store.old)).writable at
        (length bytes.now) }
    ensures wrote { MatchBool result
        (disk_of (disk_data store.new) ≡ record (disk_of (disk_data store.old))
        { bytes = over (disk_of (disk_data store.old)).bytes at bytes.now })
        (disk_data store.new ≡ disk_data store.old) }
{
    match store {
        Store::Plain(all) => {
            put(all, at as usize, bytes);
            true
        }
        Store::Composite(map, files) => match map.write(files.as_mut_slice(), at, bytes) {
            Ok(()) => true,
            Err(_) => false,
        },
    }
}

impl MemDisk {
    /// A disk of these bytes.
    pub(crate) fn plain(bytes: Vec<u8>) -> MemDisk
        ensures { result ≡ plain_of bytes.items }
    {
        MemDisk {
            store: Store::Plain(bytes),
        }
    }

    /// A disk of these files, one a component.
    pub(crate) fn composite(map: Map, files: Vec<Vec<u8>>) -> MemDisk
        requires { IsMapped map (contents files.items) }
        ensures { result ≡ composite_of map (contents files.items) }
    {
        MemDisk {
            store: Store::Composite(map, files),
        }
    }

    /// How many bytes it has.
    pub(crate) fn len(&self) -> u64
        ensures { result ≡ length (disk_of self.now).bytes }
    {
        match &self.store {
            Store::Plain(bytes) => bytes.len() as u64,
            Store::Composite(map, _) => map.length(),
        }
    }

    /// Reads so many bytes from a place on. It takes no memory.
    pub(crate) fn read(&self, at: u64, len: usize, raw: &mut Raw)
        requires most { len ≤ 69632 }
        requires inside { at + len ≤ length (disk_of self.now).bytes }
        ensures { raw.new ≡ take len (drop at (disk_of self.now).bytes) }
    {
        match &self.store {
            Store::Plain(bytes) => {
                let from = at as usize;
                raw.put(&bytes[from..from + len]);
            }
            Store::Composite(map, files) => fill(map, files, at, raw.room(len)),
        }
    }

    /// All the bytes.
    pub(crate) fn bytes(&self, alloc: Global) -> Result<Vec<u8>, Memory>
        ensures { IfOk result (λ v. v.items ≡ (disk_of self.now).bytes) }
    {
        match &self.store {
            Store::Plain(bytes) => match Vec::from_slice(alloc, bytes) {
                Ok(bytes) => Ok(bytes),
                Err(_) => Err(Memory),
            },
            Store::Composite(map, files) => copy(alloc, map, files, 0, map.length() as usize),
        }
    }

    /// Writes bytes from a place on, where each of them may be written, and nothing else. May they be?
    pub(crate) fn write(&mut self, at: u64, bytes: &[u8]) -> bool
        requires { at + length bytes.now ≤ length (disk_of self.old).bytes }
        ensures judged { result ≡ all_writable (disk_of self.old).writable at (length bytes.now) }
        ensures wrote { MatchBool result
            (disk_of self.new ≡ record (disk_of self.old)
            { bytes = over (disk_of self.old).bytes at bytes.now }) (self.new ≡ self.old) }
    {
        write(&mut self.store, at, bytes)
    }
}
