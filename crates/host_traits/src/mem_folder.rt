// A folder in memory.
ghost use Rattle.std.specs.Prelude.{◌≡◌, ◌≤◌, ◌<◌, ◌+◌, ◌^◌, List, ℕ, [], length, vec_len, take, drop, slice_index_or, Some, None, IfOk, OnOk, OnErr};
ghost use Rattle.std.specs.Option.{option_map};
ghost use Rattle.std.specs.declared.option.Option.{Option};
ghost use Rattle.host_traits.specs.Folders.{Errand, load_of, store_of, errand_of, Files, AreFiles, Loaded, PartLoaded, Stored, HasErrand, with_named, is_name};
ghost use Rattle.host_traits.specs.Mem.{Counts, FolderData, Named, Loads, Stores, is_lacking, is_listed, listing, called, failed, found_in, place_in, unused};

use crate::folder::{Folder, FolderCall, FolderError, FolderResult};
use crate::memory::Calls;
use mg_base::Memory;
use std::alloc::Global;
use std::marker::Model;

// A file in memory.
#[derive(Drop)]
struct MemFile {
    name: String,
    bytes: Vec<u8>,
}

impl Model for MemFile {
    ghost use Rattle.std.specs.Prelude.{string_bytes};
    ghost use Rattle.host_traits.specs.Mem.{Named};

    ghost Value = { Named };

    ghost view = { λ f. record { name = string_bytes f.name; bytes = f.bytes.items } };
}

impl MemFile {
    // Is it the file of this name?
    fn is(&self, name: &str) -> bool
        ensures { result ≡ is_name self.now.name name.now }
    {
        self.name.as_str() == name
    }

    // The bytes from a place on, cut behind so many.
    fn part(&self, alloc: Global, at: u64, most: u64) -> Result<Vec<u8>, Memory>
        requires { at + most < 2 ^ 64 }
        ensures { IfOk result (λ v. v.items ≡ take most (drop at self.now.bytes)) }
    {
        let len = self.bytes.len() as u64;
        let from = at.min(len);
        let end = (at + most).min(len);
        let part = Vec::from_slice(alloc, &self.bytes[from as usize..end as usize])?;
        Ok(part)
    }

    // The bytes.
    fn bytes(&self) -> &[u8]
        ensures { result.now ≡ self.now.bytes }
    {
        &self.bytes
    }

    // Puts other bytes in the place of those in it.
    fn put(&mut self, bytes: Vec<u8>)
        ensures { self.new ≡ record self.old { bytes = bytes.items } }
    {
        self.bytes = bytes;
    }
}

/// Files in memory, for tests. Loads, of a whole file or a part, and stores are numbered together
/// from 0 since it was made, those that didn't end well among them. A load fails exactly where no
/// file has the name or its number is listed, a store exactly where its number is listed; both may
/// end for want of memory. A call that doesn't end well changes no file.
#[derive(Drop)]
pub struct MemFolder {
    files: Vec<MemFile>,
    calls: Calls,
    last: Option<FolderCall>,
}

impl Model for MemFolder {
    ghost use Rattle.std.specs.Option.{option_map};
    ghost use Rattle.host_traits.specs.Folders.{errand_of};
    ghost use Rattle.host_traits.specs.Mem.{FolderData};

    ghost Value = { FolderData };

    ghost view = { λ f. record {
      files = f.files.items;
      counts = f.calls;
      last = option_map errand_of f.last;
    } };
}

// The place of the first file of a name, or the end.
fn place_of(files: &[MemFile], name: &str) -> usize
    ensures { result ≡ place_in files.now name.now }
{
    for at in 0..files.len() {
        if files[at].is(name) {
            return at;
        }
    }
    files.len()
}

// Puts other bytes into the file at the place of a name.
fn put_at(files: &mut Vec<MemFile>, at: usize, name: &str, bytes: Vec<u8>)
    requires place { at ≡ place_in files.old.items name.now }
    requires there { at < length files.old.items }
    ensures { AreFiles (Some (found_in files.new.items))
        (with_named (found_in files.old.items) name.now bytes.items) }
{
    files[at].put(bytes);
}

// Adds a file of a name that isn't there.
fn put_new(
    alloc: Global,
    files: &mut Vec<MemFile>,
    name: &str,
    bytes: Vec<u8>,
) -> Result<(), Memory>
    requires { length files.old.items ≤ place_in files.old.items name.now }
    ensures added { OnOk result (AreFiles (Some (found_in files.new.items))
        (with_named (found_in files.old.items) name.now bytes.items)) }
    ensures refused { OnErr result (files.new.items ≡ files.old.items) }
{
    let name = String::from_str(alloc, name)?;
    match files.push(MemFile { name, bytes }) {
        Ok(()) => {}
        Err(_) => return Err(Memory),
    }
    Ok(())
}

impl MemFolder {
    /// A folder without files, and none of whose calls is to fail. It takes no memory.
    pub fn new(alloc: Global) -> MemFolder
        ensures { result ≡ record { files = []; counts = unused; last = None } }
    {
        MemFolder {
            files: Vec::new(alloc),
            calls: Calls::none(alloc),
            last: None,
        }
    }

    /// The calls of these numbers are to fail: the list takes the place of an earlier one.
    pub fn fail_at(&mut self, calls: Vec<u64>)
        ensures { self.new ≡ record self.old { counts = listing self.old.counts calls.items } }
    {
        self.calls.fail_at(calls);
    }

    /// Makes a file of these bytes, or puts them in the place of those of the file of that name. It
    /// is no call of the trait: it isn't counted. After an error the folder is as before.
    pub fn add(&mut self, alloc: Global, name: &str, bytes: Vec<u8>) -> Result<(), Memory>
        ensures added { OnOk result (AreFiles (Some (found_in self.new.files))
            (with_named (found_in self.old.files) name.now bytes.items)) }
        ensures refused { OnErr result (self.new ≡ self.old) }
        ensures counts { self.new.counts ≡ self.old.counts }
        ensures last { self.new.last ≡ self.old.last }
    {
        let at = place_of(&self.files, name);
        if at < self.files.len() {
            put_at(&mut self.files, at, name, bytes);
            return Ok(());
        }
        put_new(alloc, &mut self.files, name, bytes)
    }

    /// The bytes of a file: None exactly where there is none of that name.
    pub fn get(&self, name: &str) -> Option<&[u8]>
        ensures { option_map (λ bytes. bytes.now) result ≡ found_in self.now.files name.now }
    {
        let at = place_of(&self.files, name);
        if at < self.files.len() {
            return Some(self.files[at].bytes());
        }
        None
    }

    // Counts a load, and gives the place of its file.
    fn find(&mut self, alloc: Global, name: &str) -> FolderResult<usize>
        ensures place { IfOk result (λ at.
            (at ≡ place_in self.old.files name.now) × (at < length self.old.files)) }
        ensures counted { Loads self.old name.now result self.new }
        ensures cause { HasErrand (load_of name.now) self.old.counts.faults self.new.counts.faults
            self.old.last self.new.last result }
    {
        let kept = match String::from_str(alloc, name) {
            Ok(kept) => kept,
            Err(_) => {
                self.calls.pass();
                return Err(FolderError::Memory);
            }
        };
        let at = place_of(&self.files, name);
        if !self.calls.next(at >= self.files.len()) {
            self.last = Some(FolderCall::Load(kept));
            return Err(FolderError::Failed);
        }
        Ok(at)
    }

    // Loads a file's bytes from a place on, cut behind so many.
    fn read(&mut self, alloc: Global, name: &str, at: u64, most: u64) -> FolderResult<Vec<u8>>
        requires { at + most < 2 ^ 64 }
        ensures loaded { PartLoaded (Some (found_in self.old.files)) name.now at most result }
        ensures counted { Loads self.old name.now result self.new }
        ensures cause { HasErrand (load_of name.now) self.old.counts.faults self.new.counts.faults
            self.old.last self.new.last result }
    {
        let place = match self.find(alloc, name) {
            Ok(place) => place,
            Err(FolderError::Failed) => return Err(FolderError::Failed),
            Err(FolderError::Memory) => return Err(FolderError::Memory),
        };
        match self.files[place].part(alloc, at, most) {
            Ok(bytes) => Ok(bytes),
            Err(_) => Err(FolderError::Memory),
        }
    }
}

impl Folder for MemFolder {
    ghost files = { λ f. Some (found_in f.files) };

    ghost faults = { λ f. f.counts.faults };

    ghost last_failed = { λ f. f.last };

    fn load(&mut self, alloc: Global, name: &str, max: u64) -> FolderResult<Vec<u8>>
        requires { max < 2 ^ 63 }
        ensures files { Some (found_in self.new.files) ≡ Some (found_in self.old.files) }
        ensures loaded { Loaded (Some (found_in self.old.files)) name.now max result }
        ensures cause { HasErrand (load_of name.now) self.old.counts.faults self.new.counts.faults
            self.old.last self.new.last result }
        ensures exact { Loads self.old name.now result self.new }
    {
        match self.read(alloc, name, 0, max + 1) {
            Ok(bytes) => Ok(bytes),
            Err(FolderError::Failed) => Err(FolderError::Failed),
            Err(FolderError::Memory) => Err(FolderError::Memory),
        }
    }

    fn load_part(&mut self, alloc: Global, name: &str, at: u64, max: u64) -> FolderResult<Vec<u8>>
        requires { at + max < 2 ^ 63 }
        ensures files { Some (found_in self.new.files) ≡ Some (found_in self.old.files) }
        ensures loaded { PartLoaded (Some (found_in self.old.files)) name.now at max result }
        ensures few { IfOk result (λ part. vec_len part ≤ max) }
        ensures cause { HasErrand (load_of name.now) self.old.counts.faults self.new.counts.faults
            self.old.last self.new.last result }
        ensures exact { Loads self.old name.now result self.new }
    {
        match self.read(alloc, name, at, max) {
            Ok(bytes) => Ok(bytes),
            Err(FolderError::Failed) => Err(FolderError::Failed),
            Err(FolderError::Memory) => Err(FolderError::Memory),
        }
    }

    fn store(&mut self, alloc: Global, name: &str, bytes: &[u8]) -> FolderResult<()>
        ensures stored { Stored (Some (found_in self.old.files)) (Some (found_in self.new.files))
            name.now bytes.now result }
        ensures cause { HasErrand (store_of name.now) self.old.counts.faults self.new.counts.faults
            self.old.last self.new.last result }
        ensures exact { Stores self.old name.now bytes.now result self.new }
    {
        let (Ok(kept), Ok(copy)) = (String::from_str(alloc, name), Vec::from_slice(alloc, bytes))
        else {
            self.calls.pass();
            return Err(FolderError::Memory);
        };
        if !self.calls.next(false) {
            self.last = Some(FolderCall::Store(kept));
            return Err(FolderError::Failed);
        }
        match self.add(alloc, name, copy) {
            Ok(()) => Ok(()),
            Err(_) => Err(FolderError::Memory),
        }
    }
}
