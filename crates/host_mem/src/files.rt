// The files of a host, by number.
ghost use Rattle.std.specs.Prelude.{◌≡◌, ◌≤◌, ◌<◌, ◌+◌, ◌-◌, ◌^◌, List, ℕ, [], length, OnOk, OnErr, IfOk};
ghost use Rattle.std.specs.Option.{option_map};
ghost use Rattle.host_traits.specs.declared.calls.Call.TheVariants.{FileRead, TreeRead, Descriptor, FileWrite, TreeWrite, Resize};
ghost use Rattle.host_traits.specs.declared.calls.Said.TheVariants.{Bytes, Done};
ghost use Rattle.host_traits.specs.Told.{Fills};
ghost use Rattle.mem_files.specs.Files.{Entries, FileData, NameList, Puts, at, file_of, blank_file};
ghost use Rattle.host_mem.specs.Mem.{DiskData, Does, held_of};

use host_traits::{HostError, HostResult, Raw};
use mem_files::MemFile;
use mg_base::Memory;
use std::alloc::Global;
use std::collections::BTreeMap;

/// Reads from a file, cut at its end.
pub(crate) fn read(
    files: &BTreeMap<u32, MemFile>,
    file: u32,
    at: u64,
    want: u32,
    raw: &mut Raw,
) -> HostResult<()>
    requires want { want ≤ 69632 }
    requires empty { raw.old ≡ [] }
    ensures does { (disks : Entries DiskData) (dirs : Entries NameList)
        → Does (FileRead file at want) [] (λ _. Bytes raw.new) result
        (held_of disks files.now.entries dirs) (held_of disks files.now.entries dirs) }
    ensures fills { Fills want result raw.new }
{
    match files.get(&file) {
        Some(held) => {
            held.read(at, want, raw);
            Ok(())
        }
        None => Err(HostError::Failed),
    }
}

/// Reads a tree page of a file.
pub(crate) fn read_tree(
    files: &BTreeMap<u32, MemFile>,
    file: u32,
    level: u32,
    index: u64,
    raw: &mut Raw,
) -> HostResult<()>
    requires { raw.old ≡ [] }
    ensures does { (disks : Entries DiskData) (dirs : Entries NameList)
        → Does (TreeRead file level index) [] (λ _. Bytes raw.new) result
        (held_of disks files.now.entries dirs) (held_of disks files.now.entries dirs) }
    ensures fills { Fills 4096 result raw.new }
{
    match files.get(&file) {
        Some(held) => {
            held.read_tree(level, index, raw);
            Ok(())
        }
        None => Err(HostError::Failed),
    }
}

/// Reads the descriptor of a file.
pub(crate) fn read_descriptor(
    files: &BTreeMap<u32, MemFile>,
    file: u32,
    raw: &mut Raw,
) -> HostResult<()>
    requires { raw.old ≡ [] }
    ensures does { (disks : Entries DiskData) (dirs : Entries NameList)
        → Does (Descriptor file) [] (λ _. Bytes raw.new) result
        (held_of disks files.now.entries dirs) (held_of disks files.now.entries dirs) }
    ensures fills { Fills 256 result raw.new }
{
    match files.get(&file) {
        Some(held) => {
            held.read_descriptor(raw);
            Ok(())
        }
        None => Err(HostError::Failed),
    }
}

/// Writes into a file, with zeros up to the place.
pub(crate) fn write(
    alloc: Global,
    files: &mut BTreeMap<u32, MemFile>,
    file: u32,
    at: u64,
    bytes: &[u8],
) -> HostResult<()>
    requires most { length bytes.now ≤ 4096 }
    requires end { at + length bytes.now ≤ 2 ^ 32 }
    ensures { (disks : Entries DiskData) (dirs : Entries NameList)
        → Does (FileWrite file at (length bytes.now)) bytes.now (λ _. Done) result
        (held_of disks files.old.entries dirs) (held_of disks files.new.entries dirs) }
{
    match files.get_mut(&file) {
        Some(held) => match held.write(alloc, at, bytes) {
            Ok(()) => Ok(()),
            Err(_) => Err(HostError::Memory),
        },
        None => Err(HostError::Failed),
    }
}

/// Cuts the bytes of a file, or adds zeros.
pub(crate) fn resize(files: &mut BTreeMap<u32, MemFile>, file: u32, size: u64) -> HostResult<()>
    requires { size ≤ 2 ^ 32 }
    ensures { (disks : Entries DiskData) (dirs : Entries NameList)
        → Does (Resize file size) [] (λ _. Done) result (held_of disks files.old.entries dirs)
        (held_of disks files.new.entries dirs) }
{
    match files.get_mut(&file) {
        Some(held) => {
            held.resize(size);
            Ok(())
        }
        None => Err(HostError::Failed),
    }
}

/// Writes a tree page of a file.
pub(crate) fn write_tree(
    alloc: Global,
    files: &mut BTreeMap<u32, MemFile>,
    file: u32,
    level: u32,
    index: u64,
    bytes: &[u8],
) -> HostResult<()>
    requires { length bytes.now ≡ 4096 }
    ensures { (disks : Entries DiskData) (dirs : Entries NameList)
        → Does (TreeWrite file level index) bytes.now (λ _. Done) result
        (held_of disks files.old.entries dirs) (held_of disks files.new.entries dirs) }
{
    match files.get_mut(&file) {
        Some(held) => match held.write_tree(alloc, level, index, bytes) {
            Ok(()) => Ok(()),
            Err(_) => Err(HostError::Memory),
        },
        None => Err(HostError::Failed),
    }
}

/// Puts a file under a number.
pub(crate) fn add(
    files: &mut BTreeMap<u32, MemFile>,
    number: u32,
    file: MemFile,
) -> Result<(), Memory>
    ensures added { OnOk result (Puts files.old.entries files.new.entries number file) }
    ensures unchanged { OnErr result (files.new.entries ≡ files.old.entries) }
{
    match files.insert(number, file) {
        Ok(_) => {}
        Err(_) => return Err(Memory),
    }
    Ok(())
}

/// The bytes of a file: None exactly where there is no such number.
pub(crate) fn bytes(
    alloc: Global,
    files: &BTreeMap<u32, MemFile>,
    file: u32,
) -> Result<Option<Vec<u8>>, Memory>
    ensures { IfOk result
        (λ bytes. option_map (λ v. v.items) bytes ≡ option_map (λ f. f.bytes)
        (at files.now.entries file)) }
{
    match files.get(&file) {
        Some(held) => match held.bytes(alloc) {
            Ok(bytes) => Ok(Some(bytes)),
            Err(_) => Err(Memory),
        },
        None => Ok(None),
    }
}
