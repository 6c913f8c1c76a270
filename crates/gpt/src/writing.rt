// Writing a partition table.
ghost use Rattle.std.specs.Prelude.{◌≡◌, ◌+◌, ◌-◌, ◌*◌, ◌<◌, ◌≤◌, ◌^◌, ◌↔◌, min, ◌⊎◌, ◌++◌, All, IfOk, IfErr, OnOk, Err, length};
ghost use Rattle.guid_crc.specs.Remainder.{crc32};
ghost use Rattle.std.specs.List.{AllByRecursion};
ghost use Rattle.gpt.specs.Entries.{IsEntry, array_text};
ghost use Rattle.gpt.specs.Grammar.{IsCopy, IsGpt};
ghost use Rattle.gpt.specs.Rules.{primary, alternate};
ghost use Rattle.gpt.specs.Image.{entry_for, placed, taken, all_entries, written, total, plain_header, sealed, mbr_with, header_sector, head_with, tail_with, head_bytes, tail_bytes, HasSectors};
ghost use Rattle.gpt.specs.declared.faults.WriteGptFault.TheVariants as faults;

use crate::faults::WriteGptFault;
use crate::header::Header;
use crate::image::{GptImage, Part};
use crate::putting::{put, put_entry, put_header, put_u32, put_zeros};
use crate::values::Entry;
use guid_crc::crc32;
use mg_base::{Guid, Memory};
use std::alloc::Global;

/// A Linux file system, 0fc63daf-8483-4772-8e79-3d69d8477de4.
const LINUX: [u8; 16] = [
    0x0f, 0xc6, 0x3d, 0xaf, 0x84, 0x83, 0x47, 0x72, 0x8e, 0x79, 0x3d, 0x69, 0xd8, 0x47, 0x7d, 0xe4,
];

/// The entry of a part that begins in the sector `first`.
fn entry_for(first: u64, part: &Part) -> Entry
    requires some { 1 ≤ part.now.sectors }
    requires room { first + part.now.sectors < 2 ^ 64 }
    ensures { result ≡ entry_for first part.now }
{
    let unique = part.unique;
    let name = part.name;
    Entry {
        kind: Guid(LINUX),
        unique,
        first,
        last: first + part.sectors - 1,
        attributes: 0,
        name,
    }
}

/// Puts the entries of the parts, one behind the other from sector 40 on.
fn put_parts(out: &mut Vec<u8>, parts: &[Part]) -> Result<(), Memory>
    requires each { All HasSectors parts.now }
    requires few { taken parts.now ≤ 2 ^ 39 }
    ensures text { OnOk result
        (out.new.items ≡ out.old.items ++ array_text (placed 40 parts.now)) }
    ensures fit { OnOk result (AllByRecursion IsEntry (placed 40 parts.now)) }
{
    let mut first = 40;
    for part in parts {
        put_entry(out, &entry_for(first, part))?;
        first += part.sectors;
    }
    Ok(())
}

/// The bytes of all 128 entries.
fn array_of(alloc: Global, parts: &[Part]) -> Result<Vec<u8>, Memory>
    requires each { All HasSectors parts.now }
    requires few { taken parts.now ≤ 2 ^ 39 }
    requires room { length parts.now ≤ 128 }
    ensures text { IfOk result (λ v. v.items ≡ array_text (all_entries parts.now)) }
    ensures fit { OnOk result (AllByRecursion IsEntry (all_entries parts.now)) }
{
    let mut out = Vec::new(alloc);
    put_parts(&mut out, parts)?;
    put_zeros(&mut out, 128 * (128 - parts.len()))?;
    Ok(out)
}

/// The header with its CRC-32.
fn sealed(alloc: Global, header: &Header) -> Result<Header, Memory>
    ensures { IfOk result (λ h. h ≡ sealed header.now) }
{
    let mut whole = *header;
    whole.crc = 0;
    let mut text = Vec::new(alloc);
    put_header(&mut text, &whole)?;
    whole.crc = crc32(text.as_slice());
    Ok(whole)
}

/// How many sectors the parts take.
fn taken(parts: &[Part]) -> u64
    requires { taken parts.now ≤ 2 ^ 39 }
    ensures { result ≡ taken parts.now }
{
    let mut sum = 0;
    for part in parts {
        sum += part.sectors;
    }
    sum
}

/// A header, still without its CRC-32, of parts that take `sum` sectors.
fn plain_header(own: u64, other: u64, array: u64, disk: Guid, sum: u64, array_crc: u32) -> Header
    requires { sum ≤ 2 ^ 39 }
    ensures { result ≡ plain_header own other array disk sum array_crc }
{
    Header {
        revision: 0x1_0000,
        size: 92,
        crc: 0,
        reserved: 0,
        own,
        other,
        first_usable: 40,
        last_usable: sum + 39,
        disk,
        array,
        count: 128,
        entry_size: 128,
        array_crc,
    }
}

/// Puts a protective MBR of so many sectors behind its own.
fn put_mbr(out: &mut Vec<u8>, others: u32) -> Result<(), Memory>
    ensures { OnOk result (out.new.items ≡ out.old.items ++ mbr_with others) }
{
    put_zeros(out, 446)?;
    put(out, &[0, 0, 2, 0, 0xee, 0xff, 0xff, 0xff])?;
    put_u32(out, 1)?;
    put_u32(out, others)?;
    put_zeros(out, 48)?;
    put(out, &[0x55, 0xaa])
}

/// Puts a sector with the header.
fn put_header_sector(out: &mut Vec<u8>, header: &Header) -> Result<(), Memory>
    ensures { OnOk result (out.new.items ≡ out.old.items ++ header_sector header.now) }
{
    put_header(out, header)?;
    put_zeros(out, 420)
}

/// How many sectors the protective MBR of a disk tells.
fn others_of(sectors: u64) -> u32
    requires { 1 ≤ sectors }
    ensures { result ≡ min (sectors - 1) 0xFFFFFFFF }
{
    (sectors - 1).min(0xffff_ffff) as u32
}

/// The first 40 sectors.
fn head_of(alloc: Global, sectors: u64, header: &Header, array: &[u8]) -> Result<Vec<u8>, Memory>
    requires { 1 ≤ sectors }
    ensures { IfOk result (λ v. v.items ≡ head_with sectors header.now array.now) }
{
    let mut out = Vec::new(alloc);
    put_mbr(&mut out, others_of(sectors))?;
    put_header_sector(&mut out, header)?;
    put(&mut out, array)?;
    put_zeros(&mut out, 3072)?;
    Ok(out)
}

/// The last 40 sectors.
fn tail_of(alloc: Global, header: &Header, array: &[u8]) -> Result<Vec<u8>, Memory>
    ensures { IfOk result (λ v. v.items ≡ tail_with header.now array.now) }
{
    let mut out = Vec::new(alloc);
    put_zeros(&mut out, 3584)?;
    put(&mut out, array)?;
    put_header_sector(&mut out, header)?;
    Ok(out)
}

fn image_of(alloc: Global, disk: Guid, parts: &[Part]) -> Result<GptImage, Memory>
    requires each { All HasSectors parts.now }
    requires few { taken parts.now ≤ 2 ^ 39 }
    requires room { length parts.now ≤ 128 }
    ensures head { IfOk result (λ i. i.head.items ≡ head_bytes disk parts.now) }
    ensures tail { IfOk result (λ i. i.tail.items ≡ tail_bytes disk parts.now) }
    ensures sectors { IfOk result (λ i. i.sectors ≡ total parts.now) }
    ensures fit { OnOk result (AllByRecursion IsEntry (all_entries parts.now)) }
{
    let sum = taken(parts);
    let array = array_of(alloc, parts)?;
    let bytes = array.as_slice();
    let array_crc = crc32(bytes);
    let primary = sealed(alloc, &plain_header(1, sum + 79, 2, disk, sum, array_crc))?;
    let alternate = sealed(
        alloc,
        &plain_header(sum + 79, 1, sum + 47, disk, sum, array_crc),
    )?;
    let head = head_of(alloc, sum + 80, &primary, bytes)?;
    let tail = tail_of(alloc, &alternate, bytes)?;
    Ok(GptImage {
        head,
        tail,
        sectors: sum + 80,
    })
}

/// Writes the partition table of a disk of these parts, one behind the other from sector 40 on: a protective
/// MBR, the primary copy, and the alternate copy in the last 40 sectors (UEFI 2.10, sections 5.2.3 and 5.3).
/// Each copy has 128 entries. The call takes memory.
pub fn write_gpt(alloc: Global, disk: Guid, parts: &[Part]) -> Result<GptImage, WriteGptFault>
    requires some { 1 ≤ length parts.now }
    requires each { All HasSectors parts.now }
    requires few { taken parts.now ≤ 2 ^ 39 }
    // Each byte of the first 40 sectors, of the last 40, and how many there are in all.
    ensures head { IfOk result (λ i. i.head.items ≡ head_bytes disk parts.now) }
    ensures tail { IfOk result (λ i. i.tail.items ≡ tail_bytes disk parts.now) }
    ensures sectors { IfOk result (λ i. i.sectors ≡ total parts.now) }
    // Both copies are in the grammar, and the disk is read as the table that was to be written.
    ensures primary { IfOk result
        (λ i. IsCopy (primary i.sectors) i.head.items (written disk parts.now)) }
    ensures alternate { IfOk result
        (λ i. IsCopy (alternate i.sectors) i.tail.items (written disk parts.now)) }
    ensures read { IfOk result
        (λ i. IsGpt i.head.items i.tail.items i.sectors (written disk parts.now)) }
    // More than 128 parts are refused, and nothing else, unless memory runs out.
    ensures too_many { (result ≡ Err (faults.TooMany (length parts.now)))
        ↔ (128 < length parts.now) }
    ensures refused { IfErr result
        (λ e. (e ≡ faults.TooMany (length parts.now)) ⊎ (e ≡ faults.Memory)) }
{
    if parts.len() > 128 {
        return Err(WriteGptFault::TooMany {
            found: parts.len() as u64,
        });
    }
    match image_of(alloc, disk, parts) {
        Ok(image) => Ok(image),
        Err(Memory) => Err(WriteGptFault::Memory),
    }
}
