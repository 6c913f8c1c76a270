// Files that are stored after a session.
ghost use Rattle.std.specs.Prelude.{◌≡◌, ◌≤◌, ℕ, List, [], ◌∷◌, OnOk, IfErr};
ghost use Rattle.host_traits.specs.Folders.{store_of};
ghost use Rattle.host_mem.specs.Mem.{mem_held};
ghost use Rattle.guest_files.specs.Files.{FailsAt, Names};
ghost use Rattle.guest_files.specs.Keeping.{AreStored, IsStored, MayBeStored, StopsAt, StoringStops, kept_as, kept_by, kept_of};

use crate::load::{Refusal, refused_file};
use guest_plan::StoreLine;
use host_mem::MemHost;
use host_traits::{Folder, FolderError};
use std::alloc::Global;

/// Stores bytes under a name. After a refusal the file is as before or holds them, and no other file changed.
pub fn store_file<F: Folder>(
    alloc: Global,
    folder: &mut F,
    name: &str,
    bytes: &[u8],
) -> Result<(), Refusal>
    ensures ok { OnOk result
        (IsStored (F.files folder.old) (F.files folder.new) (name.now, bytes.now)) }
    ensures err { IfErr result
        (λ refusal. MayBeStored (F.files folder.old) (F.files folder.new) (name.now, bytes.now)
        × Names name.now refusal) }
    ensures cause { FailsAt store_of (F.faults folder.old) (F.faults folder.new)
        (F.last_failed folder.new) result }
{
    match folder.store(alloc, name, bytes) {
        Ok(()) => Ok(()),
        Err(FolderError::Memory) => Err(Refusal::Memory),
        Err(FolderError::Failed) => Err(refused_file(alloc, name)),
    }
}

// Stores what a line keeps, where it is there.
fn store_kept<F: Folder>(
    alloc: Global,
    folder: &mut F,
    name: &str,
    bytes: Option<Vec<u8>>,
) -> Result<(), Refusal>
    ensures ok { OnOk result
        (AreStored (F.files folder.old) (kept_as name.now (λ v. v.items) bytes)
        (F.files folder.new)) }
    ensures err { IfErr result
        (StoringStops (F.files folder.old) (kept_as name.now (λ v. v.items) bytes)
        (F.files folder.new)) }
    ensures cause { FailsAt store_of (F.faults folder.old) (F.faults folder.new)
        (F.last_failed folder.new) result }
{
    match bytes {
        Some(bytes) => store_file(alloc, folder, name, &bytes),
        None => Ok(()),
    }
}

// Stores what a line keeps.
fn keep_line<F: Folder>(
    alloc: Global,
    folder: &mut F,
    host: &MemHost,
    line: &StoreLine,
) -> Result<(), Refusal>
    ensures ok { OnOk result
        (AreStored (F.files folder.old) (kept_by (mem_held host.now) line.now)
        (F.files folder.new)) }
    ensures err { IfErr result
        (StoringStops (F.files folder.old) (kept_by (mem_held host.now) line.now)
        (F.files folder.new)) }
    ensures cause { FailsAt store_of (F.faults folder.old) (F.faults folder.new)
        (F.last_failed folder.new) result }
{
    match line {
        StoreLine::KeepDisk { n, file } => match host.disk_bytes(*n) {
            Ok(bytes) => store_kept(alloc, folder, file.as_str(), bytes),
            Err(_) => Err(Refusal::Memory),
        },
        StoreLine::KeepFile { n, file } => match host.file_bytes(*n) {
            Ok(bytes) => store_kept(alloc, folder, file.as_str(), bytes),
            Err(_) => Err(Refusal::Memory),
        },
        _ => Ok(()),
    }
}

/// Stores what the `keep` lines of a store list keep of what a host holds, one file after another in the order of the lines.
/// After a refusal the files before the one at which it stopped were stored, and no other one changed.
pub fn keep<F: Folder>(
    alloc: Global,
    folder: &mut F,
    host: &MemHost,
    lines: &[StoreLine],
) -> Result<(), Refusal>
    ensures ok { OnOk result
        (AreStored (F.files folder.old) (kept_of (mem_held host.now) lines.now)
        (F.files folder.new)) }
    ensures err { IfErr result
        (StoringStops (F.files folder.old) (kept_of (mem_held host.now) lines.now)
        (F.files folder.new)) }
    ensures cause { FailsAt store_of (F.faults folder.old) (F.faults folder.new)
        (F.last_failed folder.new) result }
{
    let mut index = 0;
    while index < lines.len() {
        match keep_line(alloc, folder, host, &lines[index]) {
            Ok(()) => {}
            Err(refusal) => return Err(refusal),
        }
        index += 1;
    }
    Ok(())
}
