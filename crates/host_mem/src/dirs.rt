// The directories of a host, by number.
ghost use Rattle.std.specs.Prelude.{◌≡◌, List, ℕ, [], OnOk, OnErr, IsSome};
ghost use Rattle.host_traits.specs.declared.calls.Call.TheVariants.{Create, Mkdir, Delete};
ghost use Rattle.host_traits.specs.declared.calls.Said.TheVariants.{Done};
ghost use Rattle.host_traits.specs.Held.{is_there};
ghost use Rattle.mem_files.specs.Files.{Entries, FileData, at, Puts};
ghost use Rattle.host_mem.specs.Mem.{Named, DiskData, Does, held_of, names_have, may_make};

use host_traits::{HostError, HostResult};
use mem_files::{MemFile, Names};
use mg_base::Memory;
use std::alloc::Global;
use std::collections::BTreeMap;

// Has a directory a name?
fn has(dirs: &BTreeMap<u32, Names>, dir: u32, name: &[u8]) -> bool
    ensures { result ≡ names_have (at dirs.now.entries dir) name.now }
{
    match dirs.get(&dir) {
        Some(names) => names.has(name),
        None => false,
    }
}

/// Takes a name away from a directory. It takes no memory.
pub(crate) fn delete(dirs: &mut BTreeMap<u32, Names>, dir: u32, name: &[u8]) -> HostResult<()>
    ensures { (disks : Entries DiskData) (files : Entries FileData)
        → Does (Delete dir) name.now (λ _. Done) result (held_of disks files dirs.old.entries)
        (held_of disks files dirs.new.entries) }
{
    if !has(dirs, dir, name) {
        return Err(HostError::Failed);
    }
    match dirs.get_mut(&dir) {
        Some(names) => {
            names.remove(name);
            Ok(())
        }
        None => Err(HostError::Failed),
    }
}

// Has a directory room for a name, and is a number free?
fn may_make(
    files: &BTreeMap<u32, MemFile>,
    dirs: &BTreeMap<u32, Names>,
    dir: u32,
    name: &[u8],
    file: u32,
) -> bool
    ensures { result ≡ may_make (at dirs.now.entries dir) (is_there (at files.now.entries file))
        (is_there (at dirs.now.entries file)) name.now }
{
    match dirs.get(&dir) {
        Some(names) => {
            !(names.has(name) || files.contains_key(&file) || dirs.contains_key(&file))
        }
        None => false,
    }
}

// Adds a name to a directory.
fn add_name(alloc: Global, dirs: &mut BTreeMap<u32, Names>, dir: u32, name: &[u8]) -> HostResult<()>
    requires { IsSome (at dirs.old.entries dir) }
    ensures ok { OnOk result (Named dirs.old.entries dirs.new.entries dir name.now) }
    ensures err { OnErr result (dirs.new.entries ≡ dirs.old.entries) }
{
    match dirs.get_mut(&dir) {
        Some(names) => match names.add(alloc, name) {
            Ok(()) => Ok(()),
            Err(_) => Err(HostError::Memory),
        },
        None => Err(HostError::Memory),
    }
}

/// Makes an empty file with a name.
pub(crate) fn create(
    alloc: Global,
    files: &mut BTreeMap<u32, MemFile>,
    dirs: &mut BTreeMap<u32, Names>,
    dir: u32,
    name: &[u8],
    file: u32,
) -> HostResult<()>
    ensures { (disks : Entries DiskData) → Does (Create dir file) name.now (λ _. Done) result
        (held_of disks files.old.entries dirs.old.entries)
        (held_of disks files.new.entries dirs.new.entries) }
{
    if !may_make(files, dirs, dir, name, file) {
        return Err(HostError::Failed);
    }
    match files.insert(file, MemFile::new(alloc)) {
        Ok(_) => {}
        Err(_) => return Err(HostError::Memory),
    }
    match add_name(alloc, dirs, dir, name) {
        Ok(()) => Ok(()),
        Err(_) => {
            let _ = files.remove(&file);
            Err(HostError::Memory)
        }
    }
}

/// Makes an empty directory with a name.
pub(crate) fn mkdir(
    alloc: Global,
    files: &BTreeMap<u32, MemFile>,
    dirs: &mut BTreeMap<u32, Names>,
    dir: u32,
    name: &[u8],
    file: u32,
) -> HostResult<()>
    ensures { (disks : Entries DiskData) → Does (Mkdir dir file) name.now (λ _. Done) result
        (held_of disks files.now.entries dirs.old.entries)
        (held_of disks files.now.entries dirs.new.entries) }
{
    if !may_make(files, dirs, dir, name, file) {
        return Err(HostError::Failed);
    }
    match dirs.insert(file, Names::new(alloc)) {
        Ok(_) => {}
        Err(_) => return Err(HostError::Memory),
    }
    match add_name(alloc, dirs, dir, name) {
        Ok(()) => Ok(()),
        Err(_) => {
            let _ = dirs.remove(&file);
            Err(HostError::Memory)
        }
    }
}

/// Puts an empty directory.
pub(crate) fn add(alloc: Global, dirs: &mut BTreeMap<u32, Names>, dir: u32) -> Result<(), Memory>
    ensures added { OnOk result (Puts dirs.old.entries dirs.new.entries dir []) }
    ensures unchanged { OnErr result (dirs.new.entries ≡ dirs.old.entries) }
{
    match dirs.insert(dir, Names::new(alloc)) {
        Ok(_) => {}
        Err(_) => return Err(Memory),
    }
    Ok(())
}
