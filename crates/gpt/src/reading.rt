// Reading a partition table from the two ends of a disk.
ghost use Rattle.std.specs.Prelude.{◌≡◌, ◌≤◌, ◌+◌, ◌*◌, ◌⊎◌, ◌^◌, All, length, IfOk, Ok, Err};
ghost use Rattle.gpt.specs.Rules.{IsSide, primary, alternate, header_bytes, array_bytes, entries_fault, copy_of, first_good, gpt_of};
ghost use Rattle.gpt.specs.Grammar.{IsGpt};
ghost use Rattle.gpt.specs.Names.{UsedIsBounded};
ghost use Rattle.gpt.specs.declared.values.Table.{Table};
ghost use Rattle.gpt.specs.declared.faults.GptFault.TheVariants as faults;

use crate::array::{entries_of, first_outside, first_overlap};
use crate::faults::GptFault;
use crate::header::{Header, Side, header_fault, header_of};
use crate::values::{Entries, Entry, Table};
use guid_crc::crc32;
use mg_base::Memory;
use std::alloc::Global;

const SECTOR: usize = 512;

const HEADER: usize = 92;

const ENTRY: usize = 128;

const SECTORS: u64 = 1_099_511_627_776;

/// The first rule of entries that these break.
#[tactic(auto, unfolding(crate::specs::Rules::entries_fault))]
fn entries_fault(header: &Header, entries: &[Entry]) -> Option<GptFault>
    requires { length entries.now ≤ 128 }
    ensures { result ≡ entries_fault header.now entries.now }
{
    if let Some(entry) = first_outside(entries, header.first_usable, header.last_usable) {
        return Some(GptFault::Range { entry });
    }
    if let Some((a, b)) = first_overlap(entries) {
        return Some(GptFault::Overlap { a, b });
    }
    None
}

/// The header's bytes.
fn header_bytes<'a>(bytes: &'a [u8], side: &Side) -> &'a [u8]
    requires len { length bytes.now ≡ 20480 }
    requires side { IsSide side.now }
    ensures value { result.now ≡ header_bytes side.now bytes.now }
    ensures len { length result.now ≡ 92 }
{
    let at = (side.own - side.base) as usize * SECTOR;
    &bytes[at..at + HEADER]
}

/// The bytes of the array that the header tells.
fn array_bytes<'a>(bytes: &'a [u8], side: &Side, header: &Header) -> &'a [u8]
    requires len { length bytes.now ≡ 20480 }
    requires side { IsSide side.now }
    requires low { side.now.base ≤ header.now.array }
    requires high { 4 * header.now.array + header.now.count ≤ 4 * side.now.high }
    ensures value { result.now ≡ array_bytes side.now header.now bytes.now }
    ensures len { length result.now ≡ 128 * header.now.count }
{
    let at = (header.array - side.base) as usize * SECTOR;
    &bytes[at..at + ENTRY * header.count as usize]
}

/// Reads one copy. Its answer comes unless memory runs out.
#[tactic(auto, unfolding(crate::specs::Rules::copy_of, crate::specs::Rules::array_fault))]
fn read_copy(alloc: Global, bytes: &[u8], side: &Side) -> Result<Result<Table, GptFault>, Memory>
    requires len { length bytes.now ≡ 20480 }
    requires side { IsSide side.now }
    ensures { IfOk result (λ r. r ≡ copy_of side.now bytes.now) }
{
    let front = header_bytes(bytes, side);
    if let Some(fault) = header_fault(front, side) {
        return Ok(Err(fault));
    }
    let header = header_of(front);
    let array = array_bytes(bytes, side, &header);
    let found = crc32(array);
    if header.array_crc != found {
        let expected = header.array_crc;
        return Ok(Err(GptFault::ArrayCrc { expected, found }));
    }
    let entries = entries_of(alloc, array, header.count as usize)?;
    if let Some(fault) = entries_fault(&header, entries.as_slice()) {
        return Ok(Err(fault));
    }
    let disk = header.disk;
    let entries = Entries::new(entries);
    Ok(Ok(Table { disk, entries }))
}

/// The primary copy of a disk of this many sectors: in the first 40.
fn primary(sectors: u64) -> Side
    ensures { result ≡ primary sectors }
{
    Side {
        base: 0,
        own: 1,
        low: 2,
        high: 40,
        sectors,
    }
}

/// The alternate copy: in the last 40 sectors, the header in the last one.
fn alternate(sectors: u64) -> Side
    requires { 80 ≤ sectors }
    ensures { result ≡ alternate sectors }
{
    Side {
        base: sectors - 40,
        own: sectors - 1,
        low: sectors - 40,
        high: sectors - 1,
        sectors,
    }
}

/// The first copy that keeps the rules, or what the primary breaks. It comes unless memory runs out.
fn read_copies(
    alloc: Global,
    head: &[u8],
    tail: &[u8],
    sectors: u64,
) -> Result<Result<Table, GptFault>, Memory>
    requires head { length head.now ≡ 20480 }
    requires tail { length tail.now ≡ 20480 }
    requires least { 80 ≤ sectors }
    requires most { sectors ≤ 1099511627776 }
    ensures { IfOk result
        (λ r. r ≡ first_good (copy_of (primary sectors) head.now)
        (copy_of (alternate sectors) tail.now)) }
{
    match read_copy(alloc, head, &primary(sectors))? {
        Ok(table) => Ok(Ok(table)),
        Err(fault) => match read_copy(alloc, tail, &alternate(sectors))? {
            Ok(table) => Ok(Ok(table)),
            Err(_) => Ok(Err(fault)),
        },
    }
}

/// Reads the partition table of a disk of `sectors` sectors of 512 bytes (UEFI 2.10, section 5.3) from its
/// first and its last 40 sectors, 20,480 bytes each. The alternate copy serves where the primary breaks a
/// rule. A refusal names the primary's first broken rule. The call takes memory for the entries alone.
#[tactic(auto, unfolding(crate::specs::Rules::gpt_of))]
pub fn read_gpt(alloc: Global, head: &[u8], tail: &[u8], sectors: u64) -> Result<Table, GptFault>
    requires head { 80 ≤ sectors → sectors ≤ 1099511627776 → length head.now ≡ 20480 }
    requires tail { 80 ≤ sectors → sectors ≤ 1099511627776 → length tail.now ≡ 20480 }
    // What is read is in the grammar.
    ensures found { IfOk result (λ t. IsGpt head.now tail.now sectors t) }
    // Its used entries have sectors, as finding one by its name needs.
    ensures bounded { IfOk result (λ t. All UsedIsBounded t.entries) }
    // What is in the grammar is read, unless memory runs out.
    ensures only { (t : Table) → IsGpt head.now tail.now sectors t → (result ≡ Ok t)
        ⊎ (result ≡ Err faults.Memory) }
    // The answer is that of the rules in their order, unless memory runs out.
    ensures exact { (result ≡ gpt_of head.now tail.now sectors)
        ⊎ (result ≡ Err faults.Memory) }
{
    if sectors < 80 || SECTORS < sectors {
        return Err(GptFault::Size { sectors });
    }
    match read_copies(alloc, head, tail, sectors) {
        Ok(answer) => answer,
        Err(Memory) => Err(GptFault::Memory),
    }
}
