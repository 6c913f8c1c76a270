// Files of the folder, loaded and stored, with a status where that fails.
ghost use Rattle.std.specs.Prelude.{◌≡◌, ◌≤◌, ◌^◌, ℕ, List, IfOk, IfErr, OnOk};
ghost use Rattle.guest_files.specs.Files.{IsLoaded};
ghost use Rattle.guest_images.specs.Loads.{LoadFault, LoadsCause, StoreOutcome, StoresCause, refused};

use crate::status::Status;
use guest_files::{Refusal, load_file, store_file};
use host_traits::Folder;
use std::alloc::Global;

// The status of a file that was refused.
pub(crate) fn refused(refusal: Refusal) -> Status
    ensures { result ≡ refused refusal }
{
    match refusal {
        Refusal::File { name } => Status::FileFault { name },
        Refusal::Line { line, kind } => Status::ListFault { line, kind },
        Refusal::TooMuch => Status::TooMuch,
        Refusal::Memory => Status::Memory,
    }
}

// Loads a file within the limits.
pub(crate) fn load<F: Folder>(
    alloc: Global,
    folder: &mut F,
    name: &str,
    loaded: &mut u64,
) -> Result<Vec<u8>, Status>
    requires { loaded.old ≤ 2 ^ 31 }
    ensures files { F.files folder.new ≡ F.files folder.old }
    ensures ok { IfOk result
        (λ v. IsLoaded (F.files folder.old) name.now loaded.old loaded.new v.items) }
    ensures err { IfErr result (LoadFault (F.files folder.old) name.now loaded.old) }
    ensures cause { LoadsCause (F.faults folder.old) (F.faults folder.new)
        (F.last_failed folder.new) result }
{
    match load_file(alloc, folder, name, loaded) {
        Ok(bytes) => Ok(bytes),
        Err(refusal) => Err(refused(refusal)),
    }
}

// Stores a file.
pub(crate) fn store<F: Folder>(alloc: Global, folder: &mut F, name: &str, bytes: &[u8]) -> Status
    ensures stored { StoreOutcome (F.files folder.old) (name.now, bytes.now)
        (F.files folder.new) result }
    ensures cause { StoresCause (F.faults folder.old) (F.faults folder.new)
        (F.last_failed folder.new) result }
{
    match store_file(alloc, folder, name, bytes) {
        Ok(()) => Status::Done,
        Err(refusal) => refused(refusal),
    }
}
