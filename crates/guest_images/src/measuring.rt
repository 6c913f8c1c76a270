// A file's measure, and its idsig.
ghost use Rattle.std.specs.Prelude.{◌≡◌, ◌≤◌, ◌<◌, ◌+◌, ◌^◌, ℕ, List, [], length, IfOk, IfErr, OnOk};
ghost use Rattle.host_traits.specs.Told.{Rose};
ghost use Rattle.sha_tree.specs.Tree.{block_count, root};
ghost use Rattle.guest_images.specs.Feeding.{IsTree};
ghost use Rattle.guest_images.specs.Loads.{FileCause};
ghost use Rattle.std.specs.declared.option.Option.{Option};
ghost use Rattle.guest_images.specs.Measuring.{IsIdsigFor, Measures, Signs, folder_run, idsig_for, log_run, measure_lines, measured_lines};

use crate::feeding::tree_of;
use crate::loading::store;
use crate::status::{Status, UnfitKind};
use host_traits::{Folder, Sink};
use idsig_v4::write_idsig;
use mg_base::{Digest, Memory, Salt};
use sha_tree::Tree;
use std::alloc::Global;
use text_lines::Line;
use verity_descriptor::{Descriptor, file_digest};

// How many blocks so many bytes have.
fn blocks_of(size: u64) -> u64
    requires { size ≤ 2 ^ 30 }
    ensures { result ≡ block_count size }
{
    size.div_ceil(4096)
}

// The lines of a measure.
fn lines_of(blocks: u64, salt: &Salt, root: &Digest, digest: &Digest) -> Line
    ensures { result ≡ measured_lines blocks salt.now root.now.0 digest.now.0 }
{
    let mut line = Line::new();
    line.put(b"measure ");
    line.number(blocks);
    line.put(b" ");
    line.salt(salt);
    line.put(b" ");
    line.hex(&root.0);
    line.put(b"\n");
    line.put(b"digest ");
    line.hex(&digest.0);
    line.put(b"\n");
    line
}

// The lines of a tree.
fn measured(tree: &Tree, salt: &Salt) -> Line
    requires { tree.now.size ≤ 2 ^ 30 }
    ensures { (content : List ℕ) → IsTree content salt.now tree.now → result
        ≡ measure_lines content salt.now }
{
    let digest = file_digest(&Descriptor {
        size: tree.size,
        root: tree.root,
        salt: *salt,
    });
    lines_of(blocks_of(tree.size), salt, &tree.root, &digest)
}

/// Prints a file's measure and digest.
pub(crate) fn measure_file<F: Folder, L: Sink>(
    alloc: Global,
    file: &str,
    salt: Salt,
    folder: &mut F,
    log: &mut L,
) -> Status
    ensures measures { Measures
        (folder_run (F.files folder.old) (F.files folder.new) (F.last_failed folder.new))
        (log_run (L.holds log.old) (L.holds log.new)) file.now salt result }
    ensures file { FileCause (F.faults folder.old) (F.faults folder.new)
        (F.last_failed folder.new) result }
    ensures write { result ≡ Status.WriteFault → Rose (L.faults log.old) (L.faults log.new) }
    ensures log { L.faults log.old ≤ L.faults log.new }
{
    let tree = match tree_of(alloc, folder, file, salt) {
        Ok(tree) => tree,
        Err(status) => return status,
    };
    let line = measured(&tree, &salt);
    match log.write_all(line.bytes()) {
        Ok(()) => Status::Done,
        Err(_) => Status::WriteFault,
    }
}

// The idsig of a tree over two blocks or more.
fn signed(alloc: Global, tree: &Tree, salt: &Salt) -> Result<Vec<u8>, Memory>
    requires few { tree.now.size ≤ 2 ^ 30 }
    requires enough { 2 ≤ block_count tree.now.size }
    requires tree { (content : List ℕ) × IsTree content salt.now tree.now }
    ensures value { (content : List ℕ) → IsTree content salt.now tree.now
        → IfOk result (λ v. v.items ≡ idsig_for content salt.now) }
    ensures grammar { (content : List ℕ) → IsTree content salt.now tree.now
        → OnOk result (IsIdsigFor content salt.now) }
{
    let mut out = Vec::new(alloc);
    match write_idsig(salt, &tree.root, &[], &tree.stored, &mut out) {
        Ok(()) => Ok(out),
        Err(_) => Err(Memory),
    }
}

/// Stores a file's idsig.
pub(crate) fn sign_file<F: Folder>(
    alloc: Global,
    file: &str,
    salt: Salt,
    out: &str,
    folder: &mut F,
) -> Status
    ensures signs { (log : Option (List ℕ))
        → Signs (folder_run (F.files folder.old) (F.files folder.new) (F.last_failed folder.new))
        (log_run log log) file.now salt out.now result }
    ensures file { FileCause (F.faults folder.old) (F.faults folder.new)
        (F.last_failed folder.new) result }
    ensures never { result ≡ Status.WriteFault → ⊥ }
{
    let tree = match tree_of(alloc, folder, file, salt) {
        Ok(tree) => tree,
        Err(status) => return status,
    };
    if blocks_of(tree.size) < 2 {
        return Status::Unfit {
            kind: UnfitKind::TooFewBlocks,
        };
    }
    match signed(alloc, &tree, &salt) {
        Ok(bytes) => store(alloc, folder, out, &bytes),
        Err(_) => Status::Memory,
    }
}
