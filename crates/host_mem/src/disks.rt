// The disks of a host, by number.
ghost use Rattle.std.specs.Prelude.{◌≡◌, ◌≤◌, ◌<◌, ◌+◌, ◌-◌, ◌*◌, ◌/◌, ◌%◌, ◌^◌, List, ℕ, [], length, take, drop, nat_le, OnOk, OnErr, IfOk};
ghost use Rattle.std.specs.Option.{option_map};
ghost use Rattle.host_traits.specs.declared.calls.Call.TheVariants.{BlockSize, BlockRead, BlockWrite, BlockSync};
ghost use Rattle.host_traits.specs.declared.calls.Said.TheVariants.{Number, Bytes, Done};
ghost use Rattle.host_traits.specs.Told.{Fills};
ghost use Rattle.mem_files.specs.Files.{Entries, FileData, NameList, Puts, at};
ghost use Rattle.host_mem.specs.Mem.{DiskData, Does, covers, disk_of, held_of};

use crate::mem_disk::MemDisk;
use host_traits::{HostError, HostResult, Raw};
use mg_base::Memory;
use std::alloc::Global;
use std::collections::BTreeMap;

// Do so many sectors end within so many bytes?
fn is_inside(len: u64, sector: u64, count: u32) -> bool
    ensures { result ≡ nat_le (512 * (sector + count)) len }
{
    let sectors = len / 512;
    sector <= sectors && count as u64 <= sectors - sector
}

// Does a disk have these sectors?
fn has(disks: &BTreeMap<u32, MemDisk>, disk: u32, sector: u64, count: u32) -> bool
    ensures { result ≡ covers (at disks.now.entries disk) sector count }
{
    match disks.get(&disk) {
        Some(held) => is_inside(held.len(), sector, count),
        None => false,
    }
}

/// How many sectors a disk has.
pub(crate) fn size(disks: &BTreeMap<u32, MemDisk>, disk: u32) -> HostResult<u64>
    ensures { (files : Entries FileData) (dirs : Entries NameList)
        → Does (BlockSize disk) [] (λ n. Number n) result (held_of disks.now.entries files dirs)
        (held_of disks.now.entries files dirs) }
{
    match disks.get(&disk) {
        Some(held) => Ok(held.len() / 512),
        None => Err(HostError::Failed),
    }
}

/// What was written stays: is there such a disk?
pub(crate) fn sync(disks: &BTreeMap<u32, MemDisk>, disk: u32) -> HostResult<()>
    ensures { (files : Entries FileData) (dirs : Entries NameList)
        → Does (BlockSync disk) [] (λ _. Done) result (held_of disks.now.entries files dirs)
        (held_of disks.now.entries files dirs) }
{
    match disks.get(&disk) {
        Some(held) => {
            let _len = held.len();
            Ok(())
        }
        None => Err(HostError::Failed),
    }
}

/// Reads sectors of a disk.
pub(crate) fn read(
    disks: &BTreeMap<u32, MemDisk>,
    disk: u32,
    sector: u64,
    count: u32,
    raw: &mut Raw,
) -> HostResult<()>
    requires count { count ≤ 136 }
    requires empty { raw.old ≡ [] }
    ensures does { (files : Entries FileData) (dirs : Entries NameList)
        → Does (BlockRead disk sector count) [] (λ _. Bytes raw.new) result
        (held_of disks.now.entries files dirs) (held_of disks.now.entries files dirs) }
    ensures fills { Fills (512 * count) result raw.new }
{
    let held = match disks.get(&disk) {
        Some(held) => held,
        None => return Err(HostError::Failed),
    };
    if !is_inside(held.len(), sector, count) {
        return Err(HostError::Failed);
    }
    held.read(512 * sector, 512 * count as usize, raw);
    Ok(())
}

/// Writes sectors of a disk.
pub(crate) fn write(
    disks: &mut BTreeMap<u32, MemDisk>,
    disk: u32,
    sector: u64,
    bytes: &[u8],
) -> HostResult<()>
    requires whole { length bytes.now % 512 ≡ 0 }
    requires most { length bytes.now ≤ 69632 }
    ensures { (files : Entries FileData) (dirs : Entries NameList)
        → Does (BlockWrite disk sector (length bytes.now / 512)) bytes.now (λ _. Done) result
        (held_of disks.old.entries files dirs) (held_of disks.new.entries files dirs) }
{
    if !has(disks, disk, sector, (bytes.len() / 512) as u32) {
        return Err(HostError::Failed);
    }
    match disks.get_mut(&disk) {
        Some(held) => {
            let _len = held.len();
            if held.write(512 * sector, bytes) {
                Ok(())
            } else {
                Err(HostError::Failed)
            }
        }
        None => Err(HostError::Failed),
    }
}

/// Puts a disk under a number.
pub(crate) fn add(
    disks: &mut BTreeMap<u32, MemDisk>,
    number: u32,
    disk: MemDisk,
) -> Result<(), Memory>
    ensures added { OnOk result (Puts disks.old.entries disks.new.entries number disk) }
    ensures unchanged { OnErr result (disks.new.entries ≡ disks.old.entries) }
{
    match disks.insert(number, disk) {
        Ok(_) => {}
        Err(_) => return Err(Memory),
    }
    Ok(())
}

/// The bytes of a disk: None exactly where there is no such number.
pub(crate) fn bytes(
    alloc: Global,
    disks: &BTreeMap<u32, MemDisk>,
    disk: u32,
) -> Result<Option<Vec<u8>>, Memory>
    ensures { IfOk result
        (λ bytes. option_map (λ v. v.items) bytes ≡ option_map (λ d. (disk_of d).bytes)
        (at disks.now.entries disk)) }
{
    match disks.get(&disk) {
        Some(held) => match held.bytes(alloc) {
            Ok(bytes) => Ok(Some(bytes)),
            Err(_) => Err(Memory),
        },
        None => Ok(None),
    }
}
