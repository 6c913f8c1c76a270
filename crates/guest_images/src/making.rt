// A composite disk, made from a list of parts.
ghost use Rattle.std.specs.Prelude.{◌≡◌, ◌≤◌, ◌∷◌, ℕ, List, [], length, string_bytes};
ghost use Rattle.std.specs.declared.option.Option.{Option};
ghost use Rattle.guest_images.specs.Composed.{Composes, StoringOutcome};
ghost use Rattle.guest_images.specs.Loads.{FileCause, StoresCause};
ghost use Rattle.guest_images.specs.Measuring.{folder_run, log_run};

use crate::composing::{Disk, compose};
use crate::loading::refused;
use crate::pieces::{load_parts, unfit_kind};
use crate::status::Status;
use guest_files::store_file;
use host_traits::Folder;
use std::alloc::Global;

// Stores the files of a disk: the composite file first, then the head and the tail of the table.
fn store_disk<F: Folder>(alloc: Global, out: &str, disk: &Disk, folder: &mut F) -> Status
    ensures stored { StoringOutcome (F.files folder.old)
        ((out.now, disk.now.text.items) ∷ (string_bytes disk.now.head_name, disk.now.head.items) ∷
        (string_bytes disk.now.tail_name, disk.now.tail.items) ∷ [])
        (F.files folder.new) result }
    ensures cause { StoresCause (F.faults folder.old) (F.faults folder.new)
        (F.last_failed folder.new) result }
{
    match store_file(alloc, folder, out, &disk.text) {
        Ok(()) => {}
        Err(refusal) => return refused(refusal),
    }
    match store_file(alloc, folder, disk.head_name.as_str(), &disk.head) {
        Ok(()) => {}
        Err(refusal) => return refused(refusal),
    }
    match store_file(alloc, folder, disk.tail_name.as_str(), &disk.tail) {
        Ok(()) => Status::Done,
        Err(refusal) => refused(refusal),
    }
}

/// Stores the composite disk of a list's parts: the composite file, and the two ends of its partition table.
pub(crate) fn make_disk<F: Folder>(alloc: Global, list: &str, out: &str, folder: &mut F) -> Status
    requires { length out.now ≤ 250 }
    ensures composes { (log : Option (List ℕ))
        → Composes
        (folder_run (F.files folder.old) (F.files folder.new) (F.last_failed folder.new))
        (log_run log log) list.now out.now result }
    ensures file { FileCause (F.faults folder.old) (F.faults folder.new)
        (F.last_failed folder.new) result }
    ensures never { result ≡ Status.WriteFault → ⊥ }
{
    let pieces = match load_parts(alloc, folder, list) {
        Ok(pieces) => pieces,
        Err(status) => return status,
    };
    if let Some(kind) = unfit_kind(&pieces) {
        return Status::Unfit { kind };
    }
    match compose(alloc, out, &pieces) {
        Ok(disk) => store_disk(alloc, out, &disk, folder),
        Err(_) => Status::Memory,
    }
}
