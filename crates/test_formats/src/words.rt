// Bytes as a word says them.
use anyhow::{Result, bail};
use mg_base::Salt;
use std::alloc::Global;

const LIMIT: usize = 134_217_728;

// So many bytes, byte j being j mod 251.
fn counted(alloc: Global, count: usize) -> Result<Vec<u8>> {
    let mut bytes = Vec::new(alloc);
    for j in 0..count {
        bytes.push((j % 251) as u8)?;
    }
    Ok(bytes)
}

// A number of at most 128 MiB.
fn count_of(word: &str) -> Result<usize> {
    let count = word.parse::<usize>()?;
    if count > LIMIT {
        bail!("at most {LIMIT} bytes");
    }
    Ok(count)
}

// The bytes of one piece: `~N` is N bytes, byte j being j mod 251; `HEX*N` is HEX so many times; else HEX.
fn put_piece(alloc: Global, bytes: &mut Vec<u8>, piece: &str) -> Result<()> {
    if let Some(count) = piece.strip_prefix("~") {
        bytes.extend_from_slice(counted(alloc, count_of(count)?)?.as_slice())?;
        return Ok(());
    }
    let (digits, times) = match piece.split_once("*") {
        Some((digits, times)) => (digits, count_of(times)?),
        None => (piece, 1),
    };
    let once = hex::decode(alloc, digits)?;
    for _ in 0..times {
        bytes.extend_from_slice(once.as_slice())?;
    }
    Ok(())
}

/// The bytes of a word: `-` for none, or pieces with `+` between them.
pub fn bytes_of(alloc: Global, word: &str) -> Result<Vec<u8>> {
    let mut bytes = Vec::new(alloc);
    if word == "-" {
        return Ok(bytes);
    }
    for piece in word.split("+") {
        put_piece(alloc, &mut bytes, piece)?;
    }
    Ok(bytes)
}

/// The salt of a word.
pub fn salt_of(alloc: Global, word: &str) -> Result<Salt> {
    match Salt::new(bytes_of(alloc, word)?.as_slice()) {
        Some(salt) => Ok(salt),
        None => bail!("a salt has at most 32 bytes"),
    }
}
