// What the host is asked for a page, and where the page stands in the answer.
ghost use Rattle.std.specs.Prelude.{◌≡◌, ◌==◌, if◌then◌else◌, ℕ, ◌+◌, ◌-◌, ◌*◌, ◌%◌, ◌^◌, ◌≤◌, ◌<◌, List, [], length};
ghost use Rattle.host_traits.specs.declared.calls.Said.TheVariants.{Bytes};
ghost use Rattle.host_traits.specs.Told.{Asked, Fills};
ghost use Rattle.sha_tree.specs.Tree.{top, pages_at, tree_pages};
ghost use Rattle.verity_path.specs.Calls.{Suits, file_call, parts_call, call_for, file_asked, parts_asked, asked_for, tree_byte};
ghost use Rattle.verity_path.specs.Steps.{IsPlaced};

use crate::walk::Layout;
use host_traits::{Host, HostError, Raw};
use sha_tree::Geometry;

// Where a page stands in an answer of so many bytes.
#[derive(Clone, Copy, Drop)]
pub(crate) struct Piece {
    pub(crate) asked: u64,
    pub(crate) from: usize,
    pub(crate) len: usize,
}

// Where a page of the tree begins on a disk.
fn tree_at(tree: u64, geometry: &Geometry, level: u32, index: u64) -> u64
    requires some { 1 ≤ level }
    requires low { level ≤ top geometry.now }
    requires within { index < pages_at geometry.now level }
    requires room { tree + 4096 * tree_pages geometry.now < 2 ^ 64 }
    ensures { result ≡ tree_byte tree geometry.now level index }
{
    tree + 4096 * geometry.place(level, index)
}

// How many bytes of a file are asked for.
fn file_want(size: u64, level: u32, index: u64) -> u64
    requires within { level ≡ 0 → 4096 * index < size }
    ensures value { result ≡ file_asked size level index }
    ensures few { result ≤ 4096 }
{
    if level == 0 {
        (size - 4096 * index).min(4096)
    } else {
        4096
    }
}

// Asks a file for a block or a page of its tree.
fn ask_file<H: Host>(
    host: &mut H,
    file: u32,
    size: u64,
    level: u32,
    index: u64,
    raw: &mut Raw,
) -> Result<(), HostError>
    requires within { level ≡ 0 → 4096 * index < size }
    ensures asked { Asked (file_call file size level index) [] (λ _. Bytes raw.new) result
        (H.told host.old) (H.told host.new) }
    ensures fills { Fills (file_asked size level index) result raw.new }
{
    if level == 0 {
        let want = file_want(size, level, index);
        host.file_read(file, 4096 * index, want as u32, raw)
    } else {
        host.file_tree_read(file, level, index, raw)
    }
}

// Asks a disk for a block or a page of the tree.
fn ask_parts<H: Host>(
    host: &mut H,
    disk: u32,
    first: u64,
    tree: u64,
    geometry: &Geometry,
    level: u32,
    index: u64,
    raw: &mut Raw,
) -> Result<(), HostError>
    requires low { level ≤ top geometry.now }
    requires within { index < pages_at geometry.now level }
    requires blocks { first + 8 * index < 2 ^ 64 }
    requires room { tree + 4096 * tree_pages geometry.now < 2 ^ 64 }
    ensures asked { Asked (parts_call disk first tree geometry.now level index) []
        (λ _. Bytes raw.new) result (H.told host.old) (H.told host.new) }
    ensures fills { Fills (parts_asked tree geometry.now level index) result raw.new }
{
    if level == 0 {
        host.block_read(disk, first + 8 * index, 8, raw)
    } else {
        let at = tree_at(tree, geometry, level, index);
        let count = if at % 512 == 0 { 8 } else { 9 };
        host.block_read(disk, at / 512, count, raw)
    }
}

// Asks for a page.
pub(crate) fn ask<H: Host>(
    host: &mut H,
    layout: &Layout,
    geometry: &Geometry,
    level: u32,
    index: u64,
    raw: &mut Raw,
) -> Result<(), HostError>
    requires low { level ≤ top geometry.now }
    requires within { index < pages_at geometry.now level }
    requires suits { Suits layout.now geometry.now }
    ensures asked { Asked (call_for layout.now geometry.now level index) []
        (λ _. Bytes raw.new) result (H.told host.old) (H.told host.new) }
    ensures fills { Fills (asked_for layout.now geometry.now level index) result raw.new }
{
    match *layout {
        Layout::File { file, size } => ask_file(host, file, size, level, index, raw),
        Layout::Parts { disk, first, tree } => ask_parts(
            host, disk, first, tree, geometry, level, index, raw,
        ),
    }
}

// Where a page begins in the sectors that hold it.
fn page_offset(tree: u64, geometry: &Geometry, level: u32, index: u64) -> u64
    requires low { level ≤ top geometry.now }
    requires within { index < pages_at geometry.now level }
    requires room { tree + 4096 * tree_pages geometry.now < 2 ^ 64 }
    ensures value { result ≡
        (if level == 0 then 0 else tree_byte tree geometry.now level index % 512) }
    ensures small { result < 512 }
{
    if level == 0 {
        0
    } else {
        tree_at(tree, geometry, level, index) % 512
    }
}

// The length of the sectors that hold a page which begins so far in the first of them.
fn sectors_len(from: u64) -> u64
    ensures { result ≡ (if from == 0 then 4096 else 4608) }
{
    if from == 0 { 4096 } else { 4608 }
}

// Where a page stands in its answer.
pub(crate) fn piece_of(layout: &Layout, geometry: &Geometry, level: u32, index: u64) -> Piece
    requires low { level ≤ top geometry.now }
    requires within { index < pages_at geometry.now level }
    requires suits { Suits layout.now geometry.now }
    ensures { IsPlaced layout.now geometry.now level index result }
{
    match *layout {
        Layout::File { file: _, size } => {
            let want = file_want(size, level, index);
            Piece {
                asked: want,
                from: 0,
                len: want as usize,
            }
        }
        Layout::Parts {
            disk: _,
            first: _,
            tree,
        } => {
            let from = page_offset(tree, geometry, level, index);
            Piece {
                asked: sectors_len(from),
                from: from as usize,
                len: 4096,
            }
        }
    }
}
