// The words of a line: names, numbers and bytes. None where a word is missing or another is meant, and out of memory.
use std::alloc::Global;

/// The word of this place.
pub(crate) fn word<'a>(words: &[&'a str], at: usize) -> Option<&'a str> {
    match words.get(at) {
        Some(word) => Some(*word),
        None => None,
    }
}

/// The number of this place.
pub(crate) fn number(words: &[&str], at: usize) -> Option<u64> {
    word(words, at)?.parse::<u64>().ok()
}

/// The number of this place, below 2^32.
pub(crate) fn small(words: &[&str], at: usize) -> Option<u32> {
    word(words, at)?.parse::<u32>().ok()
}

// Adds so many times the bytes of a unit.
fn repeat(bytes: &mut Vec<u8>, count: u64, unit: &[u8]) -> Option<()> {
    for _ in 0..count {
        bytes.extend_from_slice(unit).ok()?;
    }
    Some(())
}

// Adds the numbers 0, 1 .. up to a modulus, and again, so many in all.
fn count_up(bytes: &mut Vec<u8>, count: u64, modulus: u8) -> Option<()> {
    let mut byte = 0u8;
    for _ in 0..count {
        bytes.push(byte).ok()?;
        byte = if byte >= modulus { 0 } else { byte + 1 };
    }
    Some(())
}

// Adds the bytes of a piece: `HEX`, `COUNT*HEX`, or `COUNT%LAST` for 0, 1 .. LAST and again.
fn add(alloc: Global, bytes: &mut Vec<u8>, piece: &str) -> Option<()> {
    if let Some((count, unit)) = piece.split_once('*') {
        let unit = hex::decode(alloc, unit).ok()?;
        return repeat(bytes, count.parse::<u64>().ok()?, unit.as_slice());
    }
    if let Some((count, last)) = piece.split_once('%') {
        return count_up(bytes, count.parse::<u64>().ok()?, last.parse::<u8>().ok()?);
    }
    let piece = hex::decode(alloc, piece).ok()?;
    bytes.extend_from_slice(piece.as_slice()).ok()
}

/// The bytes of a word: `-` for none, or pieces joined by `+`.
pub(crate) fn bytes_of(alloc: Global, word: &str) -> Option<Vec<u8>> {
    let mut bytes = Vec::new(alloc);
    if word == "-" {
        return Some(bytes);
    }
    for piece in word.split('+') {
        add(alloc, &mut bytes, piece)?;
    }
    Some(bytes)
}

/// The bytes of this place.
pub(crate) fn bytes(alloc: Global, words: &[&str], at: usize) -> Option<Vec<u8>> {
    bytes_of(alloc, word(words, at)?)
}

/// The bytes of each word from this place on.
pub(crate) fn files(alloc: Global, words: &[&str], at: usize) -> Option<Vec<Vec<u8>>> {
    let mut files = Vec::new(alloc);
    for word in words.iter().skip(at) {
        files.push(bytes_of(alloc, word)?).ok()?;
    }
    Some(files)
}
