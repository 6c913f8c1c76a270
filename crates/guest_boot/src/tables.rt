// The tables of disks, and the parts in them.
ghost use Rattle.std.specs.Prelude.{◌≡◌, ◌≤◌, ◌<◌, length, IfOk, IfSome, ◌==◌};
ghost use Rattle.host_traits.specs.declared.calls.Call.TheVariants.{BlockRead};
ghost use Rattle.host_traits.specs.Did.{Did};
ghost use Rattle.gpt.specs.Names.{part};
ghost use Rattle.guest_boot.specs.Finding.{IsCall, size_call, IsTableCall, SizeOutcome, EndOutcome, gpt_cause, TableOutcome, IsKnown, IsNoPart, both_parts, one_part, IsLooked, PlaceOutcome, FindOutcome, IsSpan, AreSpans};

use crate::faults::BootCause;
use gpt::{GptFault, Table, read_gpt};
use host_traits::{Host, HostError, Raw};
use mg_base::Span;
use std::alloc::Global;
use std::marker::Model;
use text_lines::Name;

/// The bytes of the 40 sectors at an end of a disk.
const END: u64 = 20_480;

/// The most sectors of a disk.
const SECTORS: u64 = 1_099_511_627_776;

/// A disk and its table.
#[derive(Drop)]
pub struct DiskTable {
    disk: u32,
    table: Table,
}

impl Model for DiskTable {
    ghost use Rattle.std.specs.Prelude.{All};
    ghost use Rattle.gpt.specs.Names.{UsedIsBounded};
    ghost use Rattle.guest_boot.specs.Finding.{TableOn};

    ghost Value = { TableOn };

    ghost view = { λ t. record { disk = t.disk; table = t.table } };

    ghost invariant = { λ t. All UsedIsBounded t.table.entries };
}

impl DiskTable {
    fn is_on(&self, disk: u32) -> bool
        ensures { result ≡ (self.now.disk == disk) }
    {
        self.disk == disk
    }

    // The sectors of the first part of this name.
    fn find(&self, name: &Name) -> Option<Span>
        ensures value { result ≡ part name.now self.now.table.entries }
        ensures span { IfSome result IsSpan }
    {
        self.table.find(name.as_str())
    }
}

// How many sectors a disk has, where it may have a table.
fn sectors_of<H: Host>(host: &mut H, disk: u32) -> Result<u64, BootCause>
    ensures did { Did (IsCall (size_call disk)) 1 (H.told host.old) (H.told host.new)
        (SizeOutcome disk result) }
    ensures least { IfOk result (λ n. 80 ≤ n) }
    ensures most { IfOk result (λ n. n ≤ 1099511627776) }
{
    let sectors = match host.block_size(disk) {
        Ok(sectors) => sectors,
        Err(HostError::Failed) => {
            let faults = host.faults();
            return Err(BootCause::Failed { faults });
        }
        Err(HostError::Memory) => return Err(BootCause::Memory),
    };
    if sectors < 80 || SECTORS < sectors {
        return Err(BootCause::Gpt(GptFault::Size { sectors }));
    }
    Ok(sectors)
}

// The 40 sectors from one on.
fn read_end<H: Host>(
    alloc: Global,
    host: &mut H,
    disk: u32,
    sector: u64,
    raw: &mut Raw,
) -> Result<Vec<u8>, BootCause>
    ensures { Did (IsCall (BlockRead disk sector 40)) 1 (H.told host.old) (H.told host.new)
        (EndOutcome (BlockRead disk sector 40) result) }
{
    match host.block_read(disk, sector, 40, raw) {
        Ok(()) => {}
        Err(HostError::Failed) => {
            let faults = host.faults();
            return Err(BootCause::Failed { faults });
        }
        Err(HostError::Memory) => return Err(BootCause::Memory),
    }
    let got = raw.len() as u64;
    if got < END {
        return Err(BootCause::Short { asked: END, got });
    }
    match Vec::from_slice(alloc, raw.layout()) {
        Ok(bytes) => Ok(bytes),
        Err(_) => Err(BootCause::Memory),
    }
}

// The cause of a table that was not read. Want of memory is boot's own.
fn gpt_cause(fault: GptFault) -> BootCause
    ensures { result ≡ gpt_cause fault }
{
    match fault {
        GptFault::Memory => BootCause::Memory,
        _ => BootCause::Gpt(fault),
    }
}

// Reads the table of a disk: the number of its sectors, its first 40 and its last 40.
fn read_table<H: Host>(
    alloc: Global,
    host: &mut H,
    disk: u32,
    raw: &mut Raw,
) -> Result<DiskTable, BootCause>
    ensures { Did (IsTableCall disk) 3 (H.told host.old) (H.told host.new)
        (TableOutcome disk result) }
{
    let sectors = match sectors_of(host, disk) {
        Ok(sectors) => sectors,
        Err(why) => return Err(why),
    };
    let head = match read_end(alloc, host, disk, 0, raw) {
        Ok(head) => head,
        Err(why) => return Err(why),
    };
    let tail = match read_end(alloc, host, disk, sectors - 40, raw) {
        Ok(tail) => tail,
        Err(why) => return Err(why),
    };
    match read_gpt(alloc, head.as_slice(), tail.as_slice(), sectors) {
        Ok(table) => Ok(DiskTable { disk, table }),
        Err(fault) => Err(gpt_cause(fault)),
    }
}

// The place of a disk's table among those that were read.
#[tactic(auto, unfolding(crate::specs::Finding::table_on))]
fn known(tables: &[DiskTable], disk: u32) -> Option<usize>
    ensures known { IsKnown tables.now disk result }
    ensures inside { IfSome result (λ place. place < length tables.now) }
{
    for place in 0..tables.len() {
        if tables[place].is_on(disk) {
            return Some(place);
        }
    }
    None
}

// The place of a disk's table among `tables`. The table is read unless it stands there, and is then put there.
fn table_for<H: Host>(
    alloc: Global,
    host: &mut H,
    disk: u32,
    tables: &mut Vec<DiskTable>,
    raw: &mut Raw,
) -> Result<usize, BootCause>
    ensures did { Did (IsTableCall disk) 3 (H.told host.old) (H.told host.new)
        (PlaceOutcome tables.old.items disk tables.new.items result) }
    ensures inside { IfOk result (λ place. place < length tables.new.items) }
{
    if let Some(place) = known(tables.as_slice(), disk) {
        return Ok(place);
    }
    let table = match read_table(alloc, host, disk, raw) {
        Ok(table) => table,
        Err(why) => return Err(why),
    };
    let place = tables.len();
    match tables.push(table) {
        Ok(()) => {}
        Err(_) => return Err(BootCause::Memory),
    }
    Ok(place)
}

// The cause of a part that isn't there.
fn no_part(alloc: Global, name: &Name) -> BootCause
    ensures { IsNoPart name.now result }
{
    match String::from_str(alloc, name.as_str()) {
        Ok(name) => BootCause::NoPart { name },
        Err(_) => BootCause::Memory,
    }
}

// The part of this name.
fn part_in(alloc: Global, table: &DiskTable, name: &Name) -> Result<Span, BootCause>
    ensures looked { IsLooked (one_part name.now table.now.table) result }
    ensures span { IfOk result IsSpan }
{
    match table.find(name) {
        Some(span) => Ok(span),
        None => Err(no_part(alloc, name)),
    }
}

// The two parts of these names.
fn parts_in(
    alloc: Global,
    table: &DiskTable,
    apk: &Name,
    idsig: &Name,
) -> Result<(Span, Span), BootCause>
    ensures looked { IsLooked (both_parts apk.now idsig.now table.now.table) result }
    ensures spans { IfOk result AreSpans }
{
    let Some(first) = table.find(apk) else {
        return Err(no_part(alloc, apk));
    };
    let Some(second) = table.find(idsig) else {
        return Err(no_part(alloc, idsig));
    };
    Ok((first, second))
}

/// The parts of an APK device: the APK's and its idsig's. Their disk's table is read unless it is among `tables`, and is then
/// put there.
pub fn parts_on<H: Host>(
    alloc: Global,
    host: &mut H,
    disk: u32,
    apk: &Name,
    idsig: &Name,
    tables: &mut Vec<DiskTable>,
    raw: &mut Raw,
) -> Result<(Span, Span), BootCause>
    ensures did { Did (IsTableCall disk) 3 (H.told host.old) (H.told host.new)
        (FindOutcome tables.old.items disk (both_parts apk.now idsig.now) tables.new.items
        result) }
    ensures spans { IfOk result AreSpans }
{
    match table_for(alloc, host, disk, tables, raw) {
        Ok(place) => parts_in(alloc, &tables[place], apk, idsig),
        Err(why) => Err(why),
    }
}

/// The part of an instance image. Its disk's table is read unless it is among `tables`, and is then put there.
pub fn part_on<H: Host>(
    alloc: Global,
    host: &mut H,
    disk: u32,
    part: &Name,
    tables: &mut Vec<DiskTable>,
    raw: &mut Raw,
) -> Result<Span, BootCause>
    ensures did { Did (IsTableCall disk) 3 (H.told host.old) (H.told host.new)
        (FindOutcome tables.old.items disk (one_part part.now) tables.new.items result) }
    ensures span { IfOk result IsSpan }
{
    match table_for(alloc, host, disk, tables, raw) {
        Ok(place) => part_in(alloc, &tables[place], part),
        Err(why) => Err(why),
    }
}
