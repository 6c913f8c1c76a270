// What the pages of a file and its tree hash to.
ghost use Rattle.std.specs.Prelude.{◌≡◌, ◌≤◌, length, IfOk};

use crate::words::salt_of;
use anyhow::{Result, bail, ensure};
use mg_base::Salt;
use sha_tree::{Builder, Tree};
use sha2::{Digest, Sha256};
use std::alloc::Global;
use std::fs::{self, File};
use std::io::{self, Read};
use verity_descriptor::{Descriptor, file_digest};

const PAGE: usize = 4096;

const PIECE: usize = 131_072;

const ZEROS: [u8; 4096] = [0; 4096];

// Reads until the buffer is full or the file ends, and says how much was read.
fn fill(file: &mut File, buffer: &mut [u8]) -> io::Result<usize>
    ensures count { IfOk result (λ n. n ≤ length buffer.new) }
    ensures len { length buffer.new ≡ length buffer.old }
{
    let mut at = 0;
    for _ in 0..u64::MAX {
        let count = file.read(&mut buffer[at..])?;
        if count == 0 {
            break;
        }
        at += count;
    }
    Ok(at)
}

fn page_hash(page: &[u8]) -> [u8; 32] {
    let mut hasher = Sha256::new();
    hasher.update(page);
    if page.len() < PAGE {
        hasher.update(&ZEROS[..PAGE - page.len()]);
    }
    hasher.finalize()
}

fn hash_pages(bytes: &[u8], all: &mut Sha256) -> u64 {
    let mut pages = 0u64;
    for page in bytes.chunks(PAGE) {
        all.update(page_hash(page));
        pages = pages.saturating_add(1);
    }
    pages
}

/// The number of a file's pages, the last one padded with zeros, and the SHA-256 of their hashes.
pub fn print_pages(rt: &HostRuntime, name: &str) -> Result<()> {
    let mut file = fs::open(rt, name)?;
    let mut buffer = vec![in rt.alloc(); 0u8; PIECE]?;
    let mut all = Sha256::new();
    let mut pages = 0u64;
    for _ in 0..u64::MAX {
        let count = fill(&mut file, buffer.as_mut_slice())?;
        pages = pages.saturating_add(hash_pages(&buffer.as_slice()[..count], &mut all));
        if count < PIECE {
            break;
        }
    }
    let digest = hex::encode(rt.alloc(), &all.finalize())?;
    println!(rt; "{pages} {digest}")?;
    Ok(())
}

fn tree_of(alloc: Global, file: &mut File, salt: Salt) -> Result<Tree> {
    let mut buffer = vec![in alloc; 0u8; PIECE]?;
    let Ok(mut builder) = Builder::new(alloc, salt) else {
        bail!("out of memory");
    };
    for _ in 0..u64::MAX {
        let count = fill(file, buffer.as_mut_slice())?;
        ensure!(
            builder.feed(&buffer.as_slice()[..count]).is_ok(),
            "no tree of so many bytes, or out of memory"
        );
        if count < PIECE {
            break;
        }
    }
    match builder.finish(alloc) {
        Ok(tree) => Ok(tree),
        Err(_) => bail!("out of memory"),
    }
}

fn print(rt: &HostRuntime, tree: &Tree, salt: Salt) -> Result<()> {
    let alloc = rt.alloc();
    let size = tree.size;
    let digest = file_digest(&Descriptor {
        size,
        root: tree.root,
        salt,
    });
    let root = hex::encode(alloc, &tree.root.0)?;
    let digest = hex::encode(alloc, &digest.0)?;
    let length = tree.stored.len();
    let hash = hex::encode(alloc, &Sha256::digest(tree.stored.as_slice()))?;
    println!(rt; "size {size}\nroot {root}\ndigest {digest}\ntree {length} {hash}")?;
    Ok(())
}

/// The hash tree of a file, as fs-verity defines it: its size, the root, the file's digest (the hash of the descriptor), and the
/// length and the hash of the stored tree, which is written to the second file, where one is named.
pub fn print_tree(rt: &HostRuntime, name: &str, salt: &str, out: &[&str]) -> Result<()> {
    let salt = salt_of(rt.alloc(), salt)?;
    let mut file = fs::open(rt, name)?;
    let tree = tree_of(rt.alloc(), &mut file, salt)?;
    if let [out] = out {
        fs::write(rt, *out, tree.stored.as_slice())?;
    }
    print(rt, &tree, salt)
}
