// A file's tree. The file is read chunk by chunk and never in memory as a whole.
ghost use Rattle.std.specs.Prelude.{◌≡◌, ◌≤◌, ◌+◌, ◌^◌, ℕ, List, [], IfOk, IfErr, OnOk};
ghost use Rattle.sha_tree.specs.Fed.{IsFed};
ghost use Rattle.guest_images.specs.Feeding.{IsFedFile, IsChunk, IsTreeOf};
ghost use Rattle.guest_images.specs.Loads.{LoadFault, LoadsCause};

use crate::status::Status;
use guest_files::load::FILE_LIMIT;
use host_traits::{Folder, FolderError};
use mg_base::Salt;
use sha_tree::{Builder, Tree};
use std::alloc::Global;

// The most bytes of a chunk.
const CHUNK: u64 = 1_048_576;

// The chunk of a file from this byte on. Only a chunk that reaches the file's end is shorter than the others.
fn load_chunk<F: Folder>(
    alloc: Global,
    folder: &mut F,
    name: &str,
    at: u64,
) -> Result<Vec<u8>, Status>
    requires { at ≤ 2 ^ 30 }
    ensures files { F.files folder.new ≡ F.files folder.old }
    ensures ok { IfOk result (λ v. IsChunk (F.files folder.old) name.now at v.items) }
    ensures err { IfErr result (LoadFault (F.files folder.old) name.now 0) }
    ensures cause { LoadsCause (F.faults folder.old) (F.faults folder.new)
        (F.last_failed folder.new) result }
{
    match folder.load_part(alloc, name, at, CHUNK) {
        Ok(chunk) => Ok(chunk),
        Err(FolderError::Memory) => Err(Status::Memory),
        Err(FolderError::Failed) => match String::from_str(alloc, name) {
            Ok(name) => Err(Status::FileFault { name }),
            Err(_) => Err(Status::Memory),
        },
    }
}

// Feeds a file of at most 2^30 bytes to a builder that was fed nothing.
fn feed_file<F: Folder>(
    alloc: Global,
    folder: &mut F,
    name: &str,
    builder: &mut Builder,
) -> Result<(), Status>
    requires { IsFed builder.old [] }
    ensures files { F.files folder.new ≡ F.files folder.old }
    ensures salt { builder.new.salt ≡ builder.old.salt }
    ensures ok { OnOk result (IsFedFile (F.files folder.old) name.now builder.new) }
    ensures err { IfErr result (LoadFault (F.files folder.old) name.now 0) }
    ensures cause { LoadsCause (F.faults folder.old) (F.faults folder.new)
        (F.last_failed folder.new) result }
{
    let mut at = 0;
    'chunks: while at <= FILE_LIMIT {
        let chunk = match load_chunk(alloc, folder, name, at) {
            Ok(chunk) => chunk,
            Err(status) => return Err(status),
        };
        let len = chunk.len() as u64;
        match builder.feed(&chunk) {
            Ok(()) => {}
            Err(_) => return Err(Status::Memory),
        }
        at += len;
        if len < CHUNK && at <= FILE_LIMIT {
            return Ok(());
        }
    }
    Err(Status::TooMuch)
}

/// The tree of a file of at most 2^30 bytes.
pub(crate) fn tree_of<F: Folder>(
    alloc: Global,
    folder: &mut F,
    name: &str,
    salt: Salt,
) -> Result<Tree, Status>
    ensures files { F.files folder.new ≡ F.files folder.old }
    ensures ok { IfOk result (IsTreeOf (F.files folder.old) name.now salt) }
    ensures err { IfErr result (LoadFault (F.files folder.old) name.now 0) }
    ensures cause { LoadsCause (F.faults folder.old) (F.faults folder.new)
        (F.last_failed folder.new) result }
{
    let mut builder = match Builder::new(alloc, salt) {
        Ok(builder) => builder,
        Err(_) => return Err(Status::Memory),
    };
    match feed_file(alloc, folder, name, &mut builder) {
        Ok(()) => {}
        Err(status) => return Err(status),
    }
    match builder.finish(alloc) {
        Ok(tree) => Ok(tree),
        Err(_) => Err(Status::Memory),
    }
}
