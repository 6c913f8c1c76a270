// A host, made as a store list says.
ghost use Rattle.std.specs.Prelude.{◌≡◌, ◌≤◌, ◌<◌, ◌+◌, ◌%◌, ◌^◌, ℕ, List, length, map, IfOk, IfErr, OnOk, IsErr, Ok, None};
ghost use Rattle.host_traits.specs.Folders.{load_of};
ghost use Rattle.host_mem.specs.Mem.{mem_held, unused};
ghost use Rattle.block_map.specs.Disk.{contents};
ghost use Rattle.guest_plan.specs.Stores.{IsStore};
ghost use Rattle.guest_files.specs.Files.{AreLoaded, FailsAt, LoadFails};
ghost use Rattle.guest_files.specs.Stocking.{Adds, AddsComposite, AddsDisk, AddsVerity, CompositeStops, Described, DiskStops, IsFree, LineStops, PathsFail, StockFails, Stocked, paths_of, unstocked};

use crate::load::{Refusal, load_file};
use block_map::{Map, MapFault};
use composite_spec::{SpecFault, read_spec};
use guest_plan::{PlanKind, StoreLine};
use host_mem::MemHost;
use host_traits::Folder;
use mg_base::{Memory, Salt};
use std::alloc::Global;

/// The most bytes of a composite disk.
pub const COMPOSITE_LIMIT: u64 = 1_073_741_824;

// The map of a composite file, whose name stands in the line of this number.
fn described(alloc: Global, text: &[u8], line: u64) -> Result<Map, Refusal>
    ensures { Described text.now line result }
{
    let spec = match read_spec(alloc, text) {
        Ok(spec) => spec,
        Err(SpecFault::Memory) => return Err(Refusal::Memory),
        Err(_) => {
            return Err(Refusal::Line {
                line,
                kind: PlanKind::Spec,
            });
        }
    };
    if spec.length > COMPOSITE_LIMIT {
        return Err(Refusal::Line {
            line,
            kind: PlanKind::Length,
        });
    }
    match Map::new(alloc, spec) {
        Ok(map) => Ok(map),
        Err(MapFault::Memory) => Err(Refusal::Memory),
        Err(_) => Err(Refusal::Line {
            line,
            kind: PlanKind::Spec,
        }),
    }
}

// The files of a map's components, in their order.
fn load_paths<F: Folder>(
    alloc: Global,
    folder: &mut F,
    map: &Map,
    loaded: &mut u64,
) -> Result<Vec<Vec<u8>>, Refusal>
    requires { loaded.old ≤ 2 ^ 31 }
    ensures files { F.files folder.new ≡ F.files folder.old }
    ensures ok { IfOk result
        (λ v. AreLoaded (F.files folder.old) (paths_of map.now) loaded.old loaded.new
        (contents v.items)) }
    ensures limit { OnOk result (loaded.new ≤ 2 ^ 31) }
    ensures err { IfErr result (PathsFail (F.files folder.old) (paths_of map.now) loaded.old) }
    ensures cause { FailsAt load_of (F.faults folder.old) (F.faults folder.new)
        (F.last_failed folder.new) result }
{
    let mut files = Vec::new(alloc);
    let components = &map.spec().components;
    let mut index = 0;
    while index < components.len() {
        match load_file(alloc, folder, components[index].path.as_str(), loaded) {
            Ok(bytes) => match files.push(bytes) {
                Ok(()) => {}
                Err(_) => return Err(Refusal::Memory),
            },
            Err(refusal) => return Err(refusal),
        }
        index += 1;
    }
    Ok(files)
}

// Adds the disk of a composite file.
fn add_composite<F: Folder>(
    alloc: Global,
    folder: &mut F,
    host: &mut MemHost,
    n: u32,
    file: &str,
    line: u64,
    loaded: &mut u64,
) -> Result<(), Refusal>
    requires number { (mem_held host.old).disk n ≡ None }
    requires limit { loaded.old ≤ 2 ^ 31 }
    ensures files { F.files folder.new ≡ F.files folder.old }
    ensures ok { OnOk result
        (AddsComposite (F.files folder.old) n file.now
        (record { held = mem_held host.old; loaded = loaded.old })
        (record { held = mem_held host.new; loaded = loaded.new })) }
    ensures limit { OnOk result (loaded.new ≤ 2 ^ 31) }
    ensures count { host.new.count ≡ host.old.count }
    ensures err { IfErr result (CompositeStops (F.files folder.old) file.now loaded.old line) }
    ensures cause { FailsAt load_of (F.faults folder.old) (F.faults folder.new)
        (F.last_failed folder.new) result }
{
    let text = match load_file(alloc, folder, file, loaded) {
        Ok(text) => text,
        Err(refusal) => return Err(refusal),
    };
    let map = match described(alloc, &text, line) {
        Ok(map) => map,
        Err(refusal) => return Err(refusal),
    };
    let files = match load_paths(alloc, folder, &map, loaded) {
        Ok(files) => files,
        Err(refusal) => return Err(refusal),
    };
    match host.add_map(n, map, files) {
        Ok(()) => Ok(()),
        Err(_) => Err(Refusal::Memory),
    }
}

// Adds a disk of a file's bytes.
fn add_disk<F: Folder>(
    alloc: Global,
    folder: &mut F,
    host: &mut MemHost,
    n: u32,
    file: &str,
    line: u64,
    loaded: &mut u64,
) -> Result<(), Refusal>
    requires number { (mem_held host.old).disk n ≡ None }
    requires limit { loaded.old ≤ 2 ^ 31 }
    ensures files { F.files folder.new ≡ F.files folder.old }
    ensures ok { OnOk result
        (AddsDisk (F.files folder.old) n file.now
        (record { held = mem_held host.old; loaded = loaded.old })
        (record { held = mem_held host.new; loaded = loaded.new })) }
    ensures limit { OnOk result (loaded.new ≤ 2 ^ 31) }
    ensures count { host.new.count ≡ host.old.count }
    ensures err { IfErr result (DiskStops (F.files folder.old) file.now loaded.old line) }
    ensures cause { FailsAt load_of (F.faults folder.old) (F.faults folder.new)
        (F.last_failed folder.new) result }
{
    let bytes = match load_file(alloc, folder, file, loaded) {
        Ok(bytes) => bytes,
        Err(refusal) => return Err(refusal),
    };
    if bytes.len() % 512 != 0 {
        return Err(Refusal::Line {
            line,
            kind: PlanKind::Length,
        });
    }
    match host.add_disk(n, bytes) {
        Ok(()) => Ok(()),
        Err(_) => Err(Refusal::Memory),
    }
}

// Adds a file of these bytes, with its tree and its descriptor.
fn add_verity<F: Folder>(
    alloc: Global,
    folder: &mut F,
    host: &mut MemHost,
    n: u32,
    file: &str,
    salt: Salt,
    loaded: &mut u64,
) -> Result<(), Refusal>
    requires file { (mem_held host.old).file n ≡ None }
    requires dir { (mem_held host.old).dir n ≡ None }
    requires limit { loaded.old ≤ 2 ^ 31 }
    ensures files { F.files folder.new ≡ F.files folder.old }
    ensures ok { OnOk result
        (AddsVerity (F.files folder.old) n file.now salt
        (record { held = mem_held host.old; loaded = loaded.old })
        (record { held = mem_held host.new; loaded = loaded.new })) }
    ensures limit { OnOk result (loaded.new ≤ 2 ^ 31) }
    ensures count { host.new.count ≡ host.old.count }
    ensures err { IfErr result (LoadFails (F.files folder.old) file.now loaded.old) }
    ensures cause { FailsAt load_of (F.faults folder.old) (F.faults folder.new)
        (F.last_failed folder.new) result }
{
    let bytes = match load_file(alloc, folder, file, loaded) {
        Ok(bytes) => bytes,
        Err(refusal) => return Err(refusal),
    };
    match host.add_verity(n, bytes, salt) {
        Ok(()) => Ok(()),
        Err(_) => Err(Refusal::Memory),
    }
}

// Carries out the line of this number.
fn add_line<F: Folder>(
    alloc: Global,
    folder: &mut F,
    host: &mut MemHost,
    line: &StoreLine,
    number: u64,
    loaded: &mut u64,
) -> Result<(), Refusal>
    requires number { IsFree line.now (mem_held host.old) }
    requires limit { loaded.old ≤ 2 ^ 31 }
    ensures files { F.files folder.new ≡ F.files folder.old }
    ensures ok { OnOk result
        (Adds (F.files folder.old) line.now
        (record { held = mem_held host.old; loaded = loaded.old })
        (record { held = mem_held host.new; loaded = loaded.new })) }
    ensures limit { OnOk result (loaded.new ≤ 2 ^ 31) }
    ensures count { host.new.count ≡ host.old.count }
    ensures err { IfErr result (LineStops (F.files folder.old) line.now loaded.old number) }
    ensures cause { FailsAt load_of (F.faults folder.old) (F.faults folder.new)
        (F.last_failed folder.new) result }
{
    match line {
        StoreLine::Disk { n, file } => add_disk(
            alloc,
            folder,
            host,
            *n,
            file.as_str(),
            number,
            loaded,
        ),
        StoreLine::Composite { n, file } => {
            add_composite(alloc, folder, host, *n, file.as_str(), number, loaded)
        }
        StoreLine::Verity { n, file, salt } => {
            add_verity(alloc, folder, host, *n, file.as_str(), *salt, loaded)
        }
        StoreLine::Empty { n } => added(host.add_empty(*n)),
        StoreLine::Dir { n } => added(host.add_dir(*n)),
        StoreLine::KeepDisk { .. } => Ok(()),
        StoreLine::KeepFile { .. } => Ok(()),
    }
}

fn added(done: Result<(), Memory>) -> Result<(), Refusal>
    ensures ok { OnOk result (done ≡ Ok tt) }
    ensures err { IfErr result (λ refusal. (refusal ≡ Refusal.Memory) × IsErr done) }
{
    match done {
        Ok(()) => Ok(()),
        Err(_) => Err(Refusal::Memory),
    }
}

/// A host that has what the lines of a store list say, carried out in their order, each file loaded as its line needs it. After
/// a refusal, which is that of the first line that can't be carried out, there is none.
pub fn stock<F: Folder>(
    alloc: Global,
    folder: &mut F,
    lines: &[StoreLine],
    loaded: &mut u64,
) -> Result<MemHost, Refusal>
    requires list { (text : List ℕ) × IsStore text lines.now }
    requires limit { loaded.old ≤ 2 ^ 31 }
    ensures files { F.files folder.new ≡ F.files folder.old }
    ensures ok { IfOk result
        (λ h. Stocked (F.files folder.old) lines.now (unstocked loaded.old)
        (record { held = mem_held h; loaded = loaded.new })) }
    ensures limit { OnOk result (loaded.new ≤ 2 ^ 31) }
    ensures count { IfOk result (λ h. h.count ≡ unused) }
    ensures err { IfErr result (StockFails (F.files folder.old) lines.now (unstocked loaded.old)) }
    ensures cause { FailsAt load_of (F.faults folder.old) (F.faults folder.new)
        (F.last_failed folder.new) result }
{
    let mut host = MemHost::new(alloc);
    let mut index = 0;
    while index < lines.len() {
        let number = index as u64 + 2;
        match add_line(alloc, folder, &mut host, &lines[index], number, loaded) {
            Ok(()) => {}
            Err(refusal) => return Err(refusal),
        }
        index += 1;
    }
    Ok(host)
}
