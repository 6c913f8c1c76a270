//! Hash trees over pages of 4096 bytes, with SHA-256, as fs-verity defines them (Linux kernel
//! documentation of fs-verity, "Merkle tree").
#![tactic(auto)]

ghost use Rattle.std.specs.Prelude.{◌≡◌, ℕ, ◌+◌, ◌-◌, ◌*◌, ◌≤◌, ◌<◌, ◌↔◌, List, length, take, drop, ◌++◌, replicate, IfSome, IsSome};
ghost use Rattle.sha2.specs.Hashers.{Holds256};
ghost use Rattle.sha_tree.specs.Tree.{padded_salt, page_hash, top, pages_at, tree_pages, place, ancestor};

use mg_base::{Digest, Page, Salt};
use sha2::{Digest as Hasher, Sha256};
use std::marker::Model;

mod builder;
mod finish;
mod laws;
mod leaves;
pub mod measure;

pub use builder::{BuildFault, Builder, build_tree};
pub use finish::Tree;
pub use laws::{digests_make_the_tree, paths_are_sound, stored_pages_lie_in_order};
pub use leaves::{leaf_root, page_digest};
pub use measure::Measure;

const ZEROS: [u8; 64] = [0; 64];

// A hasher that took in the padded salt.
pub(crate) fn salted(salt: &Salt) -> Sha256
    ensures { Holds256 result (padded_salt salt.now) }
{
    let mut hasher = Sha256::new();
    let bytes = salt.bytes();
    if bytes.len() > 0 {
        hasher.update(bytes);
        let more = 64 - bytes.len();
        hasher.update(&ZEROS[..more]);
    }
    hasher
}

// The hash of the 4096 bytes of a page that stand in a slice.
pub(crate) fn hash_block(salt: &Salt, block: &[u8]) -> Digest
    requires { length block.now ≡ 4096 }
    ensures { result.0 ≡ page_hash salt.now block.now }
{
    let mut hasher = salted(salt);
    hasher.update(block);
    Digest(hasher.finalize())
}

/// The hash of a page: SHA-256 (FIPS 180-4) of the salt, padded with zeros to a multiple of 64
/// bytes, and of the page's 4096 bytes. No salt adds nothing. It takes no memory.
pub fn hash_page(salt: &Salt, page: &Page) -> Digest
    ensures { result.0 ≡ page_hash salt.now page.now }
{
    let mut hasher = salted(salt);
    hasher.update(page.bytes());
    Digest(hasher.finalize())
}

/// The top level over so many blocks: the first with at most one page. It takes no memory.
pub fn top_level(blocks: u64) -> u32
    ensures value { result ≡ top blocks }
    ensures few { result ≤ 10 }
{
    let mut level = 0;
    let mut count = blocks;
    'levels: while count > 1 {
        count = count.div_ceil(128);
        level += 1;
    }
    level
}

/// The shape of the tree over so many blocks, at most 1,048,576 (4 GiB). Contracts see their
/// number. No call takes memory.
#[derive(Drop)]
pub struct Geometry {
    blocks: u64,
}

impl Model for Geometry {
    ghost use Rattle.std.specs.Prelude.{ℕ, ◌≤◌};

    ghost Value = { ℕ };

    ghost view = { λ g. g.blocks };

    ghost invariant = { λ g. g.blocks ≤ 1048576 };
}

impl Geometry {
    /// The most blocks of a tree.
    pub const LIMIT: u64 = 1_048_576;

    /// The shape over so many blocks: None exactly above 1,048,576.
    pub fn new(blocks: u64) -> Option<Geometry>
        ensures variant { IsSome result ↔ (blocks ≤ 1048576) }
        ensures value { IfSome result (λ g. g ≡ blocks) }
    {
        if blocks <= Geometry::LIMIT {
            Some(Geometry { blocks })
        } else {
            None
        }
    }

    /// The top level, the first with at most one page: from 0 to 3.
    pub fn top(&self) -> u32
        ensures value { result ≡ top self.now }
        ensures few { result ≤ 3 }
        ensures blocks { self.now ≤ 1048576 }
    {
        top_level(self.blocks)
    }

    /// The number of pages of a level, from 0, the blocks, to the top.
    pub fn pages(&self, level: u32) -> u64
        requires { level ≤ top self.now }
        ensures value { result ≡ pages_at self.now level }
        ensures few { result ≤ 1048576 }
    {
        let mut count = self.blocks;
        'levels: for _level in 0..level {
            count = (count + 127) / 128;
        }
        count
    }

    /// How many pages stand above the blocks: the pages of a stored tree.
    pub fn tree_pages(&self) -> u64
        ensures value { result ≡ tree_pages self.now }
        ensures few { result ≤ 8257 }
    {
        let top = self.top();
        let mut count = 0;
        'levels: for below in 0..top {
            count += self.pages(below + 1);
        }
        count
    }

    /// The number of a page above the blocks in the stored tree, which has the levels from the top
    /// down.
    pub fn place(&self, level: u32, index: u64) -> u64
        requires low { 1 ≤ level }
        requires high { level ≤ top self.now }
        requires within { index < pages_at self.now level }
        ensures value { result ≡ place self.now level index }
        ensures inside { result < tree_pages self.now }
        ensures few { result < 8257 }
    {
        let top = self.top();
        let mut before = 0;
        'levels: for above in level..top {
            before += self.pages(above + 1);
        }
        before + index
    }
}

/// The index of the page of a level that stands over a block. It takes no memory.
pub fn ancestor_of(block: u64, level: u32) -> u64
    ensures value { result ≡ ancestor block level }
    ensures small { result ≤ block }
{
    let mut index = block;
    'levels: for _level in 0..level {
        index /= 128;
    }
    index
}
