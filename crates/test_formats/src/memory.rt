// What sources, sinks, folders and answers in memory give.
use crate::words::bytes_of;
use anyhow::{Result, bail, ensure};
use host_traits::{Answer, Folder, FolderError, MemFolder, MemSink, MemSource, Raw, Sink, Source};
use std::alloc::Global;

// The most bytes of an answer.
const MOST: usize = 69_632;

// The numbers of the calls that are to fail, with `,` between them, or `-` for none.
fn calls_of(alloc: Global, word: &str) -> Result<Vec<u64>> {
    let mut calls = Vec::new(alloc);
    if word == "-" {
        return Ok(calls);
    }
    for number in word.split(",") {
        calls.push(number.parse::<u64>()?)?;
    }
    Ok(calls)
}

// A read of at most three bytes.
fn read_once(alloc: Global, source: &mut MemSource) -> Result<String> {
    let mut out = [0; 3];
    match source.read(&mut out) {
        Ok(count) => Ok(hex::encode(alloc, &out[..count])?),
        Err(_) => Ok(format!(in alloc; "failed")?),
    }
}

/// What six reads of at most three bytes give, each with `.` behind it.
pub fn source_line(alloc: Global, bytes: &str, piece: &str, failing: &str) -> Result<String> {
    let piece = piece.parse::<usize>()?;
    let mut source = MemSource::new(alloc, bytes_of(alloc, bytes)?, piece.max(1));
    source.fail_at(calls_of(alloc, failing)?);
    let mut said = String::new(alloc);
    for _ in 0..6u32 {
        said.push_str(read_once(alloc, &mut source)?.as_str())?;
        said.push_str(".")?;
    }
    Ok(said)
}

/// What the writes of these pieces answer, each with `.` behind it, and the bytes that are there then.
pub fn sink_line(alloc: Global, room: &str, failing: &str, pieces: &[&str]) -> Result<String> {
    let room = room.parse::<usize>()?;
    let Ok(mut sink) = MemSink::new(alloc, room) else {
        bail!("out of memory");
    };
    sink.fail_at(calls_of(alloc, failing)?);
    let mut said = String::new(alloc);
    for piece in pieces {
        let piece = bytes_of(alloc, piece)?;
        let word = match sink.write_all(piece.as_slice()) {
            Ok(()) => "ok.",
            Err(_) => "failed.",
        };
        said.push_str(word)?;
    }
    said.push_str(hex::encode(alloc, sink.bytes())?.as_str())?;
    Ok(said)
}

// The bytes that a load gave.
fn loaded(alloc: Global, answer: &std::result::Result<Vec<u8>, FolderError>) -> Result<String> {
    match answer {
        Ok(bytes) => Ok(hex::encode(alloc, bytes.as_slice())?),
        Err(FolderError::Failed) => Ok(format!(in alloc; "failed")?),
        Err(FolderError::Memory) => bail!("out of memory"),
    }
}

// Loads at most so many bytes and one more.
fn load(alloc: Global, folder: &mut MemFolder, name: &str, most: &str) -> Result<String> {
    let most = most.parse::<u64>()?.min(4096);
    let answer = folder.load(alloc, name, most);
    loaded(alloc, &answer)
}

// Loads at most so many bytes from a place on.
fn part(alloc: Global, folder: &mut MemFolder, name: &str, at: &str, most: &str) -> Result<String> {
    let (at, most) = (at.parse::<u64>()?, most.parse::<u64>()?);
    let answer = folder.load_part(alloc, name, at.min(4096), most.min(4096));
    loaded(alloc, &answer)
}

// Stores a file.
fn store(alloc: Global, folder: &mut MemFolder, name: &str, bytes: &str) -> Result<String> {
    let bytes = bytes_of(alloc, bytes)?;
    let word = match folder.store(alloc, name, bytes.as_slice()) {
        Ok(()) => "ok",
        Err(FolderError::Failed) => "failed",
        Err(FolderError::Memory) => bail!("out of memory"),
    };
    Ok(format!(in alloc; "{word}")?)
}

// Adds a file, which is no call.
fn add(alloc: Global, folder: &mut MemFolder, name: &str, bytes: &str) -> Result<String> {
    if folder.add(alloc, name, bytes_of(alloc, bytes)?).is_err() {
        bail!("out of memory");
    }
    Ok(format!(in alloc; "added")?)
}

// The bytes of a file, which is no call.
fn get(alloc: Global, folder: &MemFolder, name: &str) -> Result<String> {
    match folder.get(name) {
        Some(bytes) => Ok(hex::encode(alloc, bytes)?),
        None => Ok(format!(in alloc; "none")?),
    }
}

// One step, its words with `:` between them.
fn step(alloc: Global, folder: &mut MemFolder, step: &str) -> Result<String> {
    let words: Vec<&str> = step.split(":").collect(alloc)?;
    match words.as_slice() {
        ["add", name, bytes] => add(alloc, folder, *name, *bytes),
        ["get", name] => get(alloc, folder, *name),
        ["load", name, most] => load(alloc, folder, *name, *most),
        ["part", name, at, most] => part(alloc, folder, *name, *at, *most),
        ["store", name, bytes] => store(alloc, folder, *name, *bytes),
        _ => bail!("no such step"),
    }
}

/// What the steps over a folder in memory give, each with `.` behind it.
pub fn folder_line(alloc: Global, failing: &str, steps: &[&str]) -> Result<String> {
    let mut folder = MemFolder::new(alloc);
    folder.fail_at(calls_of(alloc, failing)?);
    let mut said = String::new(alloc);
    for words in steps {
        said.push_str(step(alloc, &mut folder, words)?.as_str())?;
        said.push_str(".")?;
    }
    Ok(said)
}

/// An answer's bytes and their number once these are put, once its room is filled with others, and once it is cleared; and an
/// answer that is kept.
pub fn answer_line(alloc: Global, put: &str, others: &str) -> Result<String> {
    let put = bytes_of(alloc, put)?;
    let others = bytes_of(alloc, others)?;
    ensure!(
        put.len() <= MOST && others.len() <= MOST,
        "at most {MOST} bytes"
    );
    let Ok(mut raw) = Raw::new(alloc) else {
        bail!("out of memory");
    };
    raw.put(put.as_slice());
    let first = hex::encode(alloc, raw.layout())?;
    raw.room(others.len()).copy_from_slice(others.as_slice());
    let second = hex::encode(alloc, raw.layout())?;
    let (filled, kept) = (raw.len(), Answer::new(others).is_some());
    raw.clear();
    let cleared = raw.len();
    Ok(format!(in alloc; "{first} {second} {filled} {cleared} {kept}")?)
}
