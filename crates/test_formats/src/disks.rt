// The two ends of a disk, written and read (UEFI 2.10, section 5.3).
ghost use Rattle.std.specs.Prelude.{◌≡◌, ◌≤◌, ◌^◌, length, IfOk};

use anyhow::{Result, bail, ensure};
use gpt::{GptImage, Part, Table, read_gpt, write_gpt};
use guid_crc::read_guid;
use mg_base::Guid;
use std::alloc::Global;
use std::fs;
use uuid::Uuid;

const ENDS: usize = 20_480;

const MOST: u64 = 4_294_967_296;

fn guid_of(word: &str) -> Result<Guid> {
    match read_guid(word) {
        Some(guid) => Ok(guid),
        None => bail!("no GUID: {word}"),
    }
}

// The name, of ASCII characters, its GUID and its sectors.
fn part_of(name: &str, unique: &str, sectors: &str) -> Result<Part>
    ensures some { IfOk result (λ p. 1 ≤ p.sectors) }
    ensures few { IfOk result (λ p. p.sectors ≤ 2 ^ 32) }
{
    let mut units = [0u8; 72];
    for (i, byte) in name.as_bytes().iter().enumerate() {
        if i < 36 {
            units[2 * i] = *byte;
        }
    }
    let sectors = sectors.parse::<u64>()?;
    ensure!(sectors != 0 && sectors <= MOST, "1 to {MOST} sectors");
    Ok(Part {
        name: units,
        unique: guid_of(unique)?,
        sectors,
    })
}

fn print(rt: &HostRuntime, table: &Table) -> Result<()> {
    let disk = Uuid::from_bytes(table.disk.0);
    println!(rt; "disk {disk}")?;
    for (i, entry) in table.entries.as_slice().iter().enumerate() {
        let kind = Uuid::from_bytes(entry.kind.0);
        if kind.is_nil() {
            continue;
        }
        let unique = Uuid::from_bytes(entry.unique.0);
        let first = entry.first;
        let last = entry.last;
        let attributes = entry.attributes;
        let name = hex::encode(rt.alloc(), &entry.name)?;
        println!(rt; "entry {i} {kind} {unique} {first} {last} {attributes} {name}")?;
    }
    Ok(())
}

fn read(rt: &HostRuntime, head: &str, tail: &str, sectors: u64) -> Result<()> {
    let head = fs::read(rt, head)?;
    let tail = fs::read(rt, tail)?;
    ensure!(
        head.len() == ENDS && tail.len() == ENDS,
        "each end has {ENDS} bytes"
    );
    match read_gpt(rt.alloc(), head.as_slice(), tail.as_slice(), sectors) {
        Ok(table) => print(rt, &table),
        Err(fault) => bail!("{fault:?}"),
    }
}

// The two ends of a disk of the partitions of these words: three times a name, a GUID and a number of sectors.
fn image(alloc: Global, disk: Guid, words: &[&str]) -> Result<GptImage> {
    let [a, b, c, d, e, f, g, h, i] = words else {
        bail!("each of three partitions is NAME GUID SECTORS");
    };
    let parts = [
        part_of(*a, *b, *c)?,
        part_of(*d, *e, *f)?,
        part_of(*g, *h, *i)?,
    ];
    match write_gpt(alloc, disk, &parts) {
        Ok(image) => Ok(image),
        Err(fault) => bail!("{fault:?}"),
    }
}

/// The table of the disk whose ends are in two files: the disk's GUID, then a line for each used entry with its number, kind, GUID,
/// first and last sector, attributes, and the 72 bytes of its name.
pub fn print_table(rt: &HostRuntime, head: &str, tail: &str, sectors: &str) -> Result<()> {
    read(rt, head, tail, sectors.parse::<u64>()?)
}

/// Writes the ends of a disk of three partitions to two files, and prints how many sectors it has and what is read from them.
pub fn write_disk(
    rt: &HostRuntime,
    head: &str,
    tail: &str,
    disk: &str,
    parts: &[&str],
) -> Result<()> {
    let image = image(rt.alloc(), guid_of(disk)?, parts)?;
    fs::write(rt, head, image.head.as_slice())?;
    fs::write(rt, tail, image.tail.as_slice())?;
    let sectors = image.sectors;
    println!(rt; "sectors {sectors}")?;
    read(rt, head, tail, sectors)
}
