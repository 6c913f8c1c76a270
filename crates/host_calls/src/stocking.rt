// What is put into a host in memory, and what is read of it without a call. None where it can't be, and out of memory.
ghost use Rattle.std.specs.Prelude.{IfSome};
ghost use Rattle.composite_spec.specs.Said.{IsComposite, composite};

use crate::shown;
use crate::words::{bytes, bytes_of, files, number, small, word};
use block_map::{Map, MapFault};
use composite_spec::{Spec, read_spec};
use host_mem::{CompositeFault, MemHost};
use mg_base::Salt;
use std::alloc::Global;

fn added(alloc: Global) -> Option<String> {
    format!(in alloc; "added").ok()
}

fn disk(alloc: Global, host: &mut MemHost, words: &[&str]) -> Option<String> {
    let (number, held) = (small(words, 1)?, bytes(alloc, words, 2)?);
    if host.has_disk(number) || held.len() % 512 != 0 {
        return None;
    }
    host.add_disk(number, held).ok()?;
    added(alloc)
}

fn empty(alloc: Global, host: &mut MemHost, words: &[&str]) -> Option<String> {
    let number = small(words, 1)?;
    if host.has_number(number) {
        return None;
    }
    host.add_empty(number).ok()?;
    added(alloc)
}

fn dir(alloc: Global, host: &mut MemHost, words: &[&str]) -> Option<String> {
    let number = small(words, 1)?;
    if host.has_number(number) {
        return None;
    }
    host.add_dir(number).ok()?;
    added(alloc)
}

fn verity(alloc: Global, host: &mut MemHost, words: &[&str]) -> Option<String> {
    let (number, salt) = (small(words, 1)?, bytes(alloc, words, 2)?);
    let salt = Salt::new(salt.as_slice())?;
    let held = bytes(alloc, words, 3)?;
    if host.has_number(number) || held.len() as u64 > 4_294_967_296 {
        return None;
    }
    host.add_verity(number, held, salt).ok()?;
    added(alloc)
}

// The description of a composite disk, which its file gives.
fn spec(alloc: Global, words: &[&str], at: usize) -> Option<Spec>
    ensures { IfSome result (λ s. IsComposite (composite s)) }
{
    match read_spec(alloc, bytes(alloc, words, at)?.as_slice()) {
        Ok(spec) => Some(spec),
        Err(_) => None,
    }
}

fn composite(alloc: Global, host: &mut MemHost, words: &[&str]) -> Option<String> {
    let number = small(words, 1)?;
    let spec = spec(alloc, words, 2)?;
    let files = files(alloc, words, 3)?;
    if files.len() != spec.components.len() || host.has_disk(number) {
        return None;
    }
    match host.add_composite(number, spec, files) {
        Ok(()) => added(alloc),
        Err(CompositeFault::Map(MapFault::Alias { a, b })) => {
            format!(in alloc; "alias {a} {b}").ok()
        }
        Err(_) => None,
    }
}

// Writes a piece by a map: `PLACE=BYTES`.
fn write_piece(alloc: Global, map: &Map, files: &mut [Vec<u8>], piece: &str) -> Option<()> {
    let (at, piece) = piece.split_once('=')?;
    let (at, piece) = (at.parse::<u64>().ok()?, bytes_of(alloc, piece)?);
    if files.len() != map.components() {
        return None;
    }
    map.write(files, at, piece.as_slice()).ok()
}

// Writes pieces by a map, joined by commas.
fn write_files(alloc: Global, map: &Map, files: &mut [Vec<u8>], pieces: &str) -> Option<()> {
    for piece in pieces.split(',') {
        write_piece(alloc, map, files, piece)?;
    }
    Some(())
}

// The bytes of each file.
fn show_files(alloc: Global, files: &[Vec<u8>]) -> Option<String> {
    let mut answer = added(alloc)?;
    for file in files.iter() {
        answer.push_str(" ").ok()?;
        answer
            .push_str(shown::bytes(alloc, file.as_slice())?.as_str())
            .ok()?;
    }
    Some(answer)
}

// A disk of a map whose files were written by it, and these files.
fn mapped(alloc: Global, host: &mut MemHost, words: &[&str]) -> Option<String> {
    let number = small(words, 1)?;
    let map = Map::new(alloc, spec(alloc, words, 2)?).ok()?;
    let mut files = files(alloc, words, 4)?;
    write_files(alloc, &map, files.as_mut_slice(), word(words, 3)?)?;
    let answer = show_files(alloc, files.as_slice())?;
    if files.len() != map.components() || host.has_disk(number) {
        return None;
    }
    host.add_map(number, map, files).ok()?;
    Some(answer)
}

fn fail_at(alloc: Global, host: &mut MemHost, words: &[&str]) -> Option<String> {
    let mut calls = Vec::new(alloc);
    for at in 1..words.len() {
        calls.push(number(words, at)?).ok()?;
    }
    host.fail_at(calls);
    format!(in alloc; "listed").ok()
}

fn is_there(alloc: Global, there: bool) -> Option<String> {
    format!(in alloc; "{there}").ok()
}

// The answer to a line that puts something in, or none.
fn put(alloc: Global, host: &mut MemHost, words: &[&str], name: &str) -> Option<Option<String>> {
    let answer = match name {
        "disk" => disk(alloc, host, words)?,
        "empty" => empty(alloc, host, words)?,
        "dir" => dir(alloc, host, words)?,
        "verity" => verity(alloc, host, words)?,
        "composite" => composite(alloc, host, words)?,
        "map" => mapped(alloc, host, words)?,
        "fail_at" => fail_at(alloc, host, words)?,
        _ => return Some(None),
    };
    Some(Some(answer))
}

/// The answer to a line that is no call, or none.
pub(crate) fn stock(alloc: Global, host: &mut MemHost, words: &[&str]) -> Option<Option<String>> {
    let name = word(words, 0)?;
    let answer = match name {
        "has_disk" => is_there(alloc, host.has_disk(small(words, 1)?))?,
        "has_number" => is_there(alloc, host.has_number(small(words, 1)?))?,
        "disk_bytes" => shown::held(alloc, host.disk_bytes(small(words, 1)?).ok()?)?,
        "file_bytes" => shown::held(alloc, host.file_bytes(small(words, 1)?).ok()?)?,
        _ => return put(alloc, host, words, name),
    };
    Some(Some(answer))
}
