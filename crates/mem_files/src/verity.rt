// A file with its hash tree and its descriptor, as fs-verity defines them.
ghost use Rattle.std.specs.Prelude.{◌≡◌, ◌≤◌, ◌<◌, ◌+◌, ◌*◌, ◌^◌, ◌&&◌, List, ℕ, [], length, take, drop, nat_eq, nat_le, nat_lt, if◌then◌else◌, replicate, OnOk, IfOk};
ghost use Rattle.sha_tree.specs.Tree.{pages_at, top, tree_pages};
ghost use Rattle.mem_files.specs.FsVerity.{is_tree_page, verity_file};
ghost use Rattle.mem_files.specs.Files.{file_of, page_in, stored_page};

use crate::content::Content;
use crate::mem_file::MemFile;
use crate::tree_pages::TreePages;
use mg_base::{Memory, Salt};
use sha_tree::{Geometry, build_tree};
use std::alloc::Global;
use verity_descriptor::{Descriptor, encode};

// Puts the pages of a level, which stand in the stored tree.
fn put_level(
    alloc: Global,
    stored: &[u8],
    geometry: &Geometry,
    level: u32,
    tree: &mut TreePages,
) -> Result<(), Memory>
    requires len { length stored.now ≡ 4096 * tree_pages geometry.now }
    requires low { 1 ≤ level }
    requires high { level ≤ top geometry.now }
    ensures { OnOk result
        ((l i : ℕ) → page_in tree.new l i
        ≡ (if nat_eq level l && nat_lt i (pages_at geometry.now level) then stored_page geometry.now
        stored.now l i else page_in tree.old l i)) }
{
    let count = geometry.pages(level);
    'pages: for index in 0..count {
        let from = 4096 * geometry.place(level, index) as usize;
        tree.put(alloc, level, index, &stored[from..from + 4096])?;
    }
    Ok(())
}

// The tree pages of a stored tree.
fn tree_of(alloc: Global, stored: &[u8], geometry: &Geometry) -> Result<TreePages, Memory>
    requires { length stored.now ≡ 4096 * tree_pages geometry.now }
    ensures { IfOk result
        (λ tree. (l i : ℕ) → page_in tree l i
        ≡ (if is_tree_page geometry.now l i then stored_page geometry.now stored.now l i else
        replicate 4096 0)) }
{
    let mut tree = TreePages::new(alloc);
    let top = geometry.top();
    'levels: for below in 0..top {
        put_level(alloc, stored, geometry, below + 1, &mut tree)?;
    }
    Ok(tree)
}

/// The file of these bytes, with the pages of its hash tree and its descriptor.
pub fn verity(alloc: Global, bytes: Vec<u8>, salt: Salt) -> Result<MemFile, Memory>
    requires { length bytes.items ≤ 2 ^ 32 }
    ensures { IfOk result (λ f. file_of f ≡ verity_file bytes.items salt) }
{
    let built = match build_tree(alloc, &bytes, salt) {
        Ok(built) => built,
        Err(_) => return Err(Memory),
    };
    let Some(geometry) = Geometry::new(built.size.div_ceil(4096)) else {
        unreachable!()
    };
    let tree = tree_of(alloc, &built.stored, &geometry)?;
    let descriptor = encode(&Descriptor {
        size: built.size,
        root: built.root,
        salt,
    });
    let descriptor = Vec::from_slice(alloc, &descriptor)?;
    Ok(MemFile::with(Content::whole(alloc, bytes), descriptor, tree))
}
