// What cursors, pages, salts and trees answer.
use crate::words::{bytes_of, salt_of};
use anyhow::{Result, bail, ensure};
use guid_crc::crc32;
use mg_base::{Cursor, Page, Salt, pad_into};
use sha_tree::{Builder, Geometry, Tree};
use sha2::{Digest, Sha256};
use std::alloc::Global;

/// Numbers of one, two, four, eight and four bytes, then two bytes, then one more.
pub fn numbers_line(alloc: Global, bytes: &str) -> Result<String> {
    let bytes = bytes_of(alloc, bytes)?;
    let mut cursor = Cursor::new(bytes.as_slice());
    let (one, two, four) = (cursor.u8(), cursor.u16(), cursor.u32());
    let (eight, more) = (cursor.u64(), cursor.u32());
    let taken = cursor.take(2).is_ok();
    let last = cursor.u8();
    Ok(format!(in alloc; "{one:?} {two:?} {four:?} {eight:?} {more:?} {taken:?} {last:?}")?)
}

// The CRC-32 of a page.
fn crc_of(page: &Page) -> u32 {
    crc32(page.bytes())
}

// A page of zeros.
fn page_of(alloc: Global) -> Result<Page> {
    match Page::new(alloc) {
        Ok(page) => Ok(page),
        Err(_) => bail!("out of memory"),
    }
}

/// The CRC-32 of a page of zeros that these bytes are put into, of the same page once others are padded into it, and once it is
/// cleared from a place on.
pub fn page_line(alloc: Global, at: &str, put: &str, padded: &str, from: &str) -> Result<String> {
    let (at, from) = (at.parse::<usize>()?, from.parse::<usize>()?);
    let put = bytes_of(alloc, put)?;
    let padded = bytes_of(alloc, padded)?;
    ensure!(at <= 4096 && put.len() <= 4096 - at, "past the page");
    ensure!(padded.len() <= 4096 && from <= 4096, "past the page");
    let mut page = page_of(alloc)?;
    page.put(at, put.as_slice());
    let first = crc_of(&page);
    pad_into(padded.as_slice(), &mut page);
    let second = crc_of(&page);
    page.clear_from(from);
    let third = crc_of(&page);
    Ok(format!(in alloc; "{first:08x} {second:08x} {third:08x}")?)
}

/// A salt of these bytes, where there may be so many.
pub fn salt_line(alloc: Global, bytes: &str) -> Result<String> {
    match Salt::new(bytes_of(alloc, bytes)?.as_slice()) {
        Some(salt) => Ok(hex::encode(alloc, salt.bytes())?),
        None => Ok(format!(in alloc; "none")?),
    }
}

// The tree of these bytes, fed in pieces.
fn fed(alloc: Global, salt: Salt, bytes: &[u8], piece: usize) -> Result<Tree> {
    let Ok(mut builder) = Builder::new(alloc, salt) else {
        bail!("out of memory");
    };
    for piece in bytes.chunks(piece.max(1)) {
        ensure!(builder.feed(piece).is_ok(), "out of memory");
    }
    match builder.finish(alloc) {
        Ok(tree) => Ok(tree),
        Err(_) => bail!("out of memory"),
    }
}

/// The root of the tree of these bytes, fed in pieces, and length and SHA-256 of the stored tree.
pub fn tree_line(alloc: Global, bytes: &str, piece: &str, salt: &str) -> Result<String> {
    let bytes = bytes_of(alloc, bytes)?;
    let piece = piece.parse::<usize>()?;
    let salt = salt_of(alloc, salt)?;
    let tree = fed(alloc, salt, bytes.as_slice(), piece)?;
    let root = hex::encode(alloc, &tree.root.0)?;
    let len = tree.stored.len();
    let hash = hex::encode(alloc, &Sha256::digest(tree.stored.as_slice()))?;
    Ok(format!(in alloc; "{root} {len} {hash}")?)
}

/// The top level over so many blocks, and how many pages stand above them.
pub fn places_line(alloc: Global, blocks: &str) -> Result<String> {
    let Some(geometry) = Geometry::new(blocks.parse::<u64>()?) else {
        return Ok(format!(in alloc; "none")?);
    };
    let (top, pages) = (geometry.top(), geometry.tree_pages());
    Ok(format!(in alloc; "{top} {pages}")?)
}
