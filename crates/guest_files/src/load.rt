// Files of the folder, within the limits.
ghost use Rattle.std.specs.Prelude.{◌≡◌, ◌≤◌, ◌<◌, ◌+◌, ◌^◌, ℕ, List, length, IfOk, IfErr};
ghost use Rattle.host_traits.specs.Folders.{load_of};
ghost use Rattle.guest_files.specs.Files.{IsLoaded, LoadFails, FailsAt, Names};

use guest_plan::PlanKind;
use host_traits::{Folder, FolderError};
use std::alloc::Global;

/// The most bytes of one file.
pub const FILE_LIMIT: u64 = 1_073_741_824;

/// The most bytes of all files that a run loads.
pub const FILES_LIMIT: u64 = 2_147_483_648;

/// Why the files of a run were not all loaded or stored.
#[derive(Drop)]
pub enum Refusal {
    /// The folder failed at this file.
    File { name: String },
    /// This line of the store list can't be carried out.
    Line { line: u64, kind: PlanKind },
    /// A limit on bytes was passed.
    TooMuch,
    /// Want of memory.
    Memory,
}

/// The refusal of a file at which the folder failed.
pub(crate) fn refused_file(alloc: Global, name: &str) -> Refusal
    ensures { Names name.now result }
{
    match String::from_str(alloc, name) {
        Ok(name) => Refusal::File { name },
        Err(_) => Refusal::Memory,
    }
}

/// Loads a file of at most 2^30 bytes, where all that were loaded, this one with them, have at most 2^31.
pub fn load_file<F: Folder>(
    alloc: Global,
    folder: &mut F,
    name: &str,
    loaded: &mut u64,
) -> Result<Vec<u8>, Refusal>
    requires { loaded.old ≤ 2 ^ 31 }
    ensures files { F.files folder.new ≡ F.files folder.old }
    ensures ok { IfOk result
        (λ v. IsLoaded (F.files folder.old) name.now loaded.old loaded.new v.items) }
    ensures err { IfErr result (LoadFails (F.files folder.old) name.now loaded.old) }
    ensures cause { FailsAt load_of (F.faults folder.old) (F.faults folder.new)
        (F.last_failed folder.new) result }
{
    let bytes = match folder.load(alloc, name, FILE_LIMIT) {
        Ok(bytes) => bytes,
        Err(FolderError::Memory) => return Err(Refusal::Memory),
        Err(FolderError::Failed) => return Err(refused_file(alloc, name)),
    };
    let len = bytes.len() as u64;
    if len > FILE_LIMIT || len > FILES_LIMIT - *loaded {
        return Err(Refusal::TooMuch);
    }
    *loaded += len;
    Ok(bytes)
}
