// One call of any host for a line, and its answer. None where the line is no call.
use crate::shown;
use crate::words::{bytes, number, small, word};
use host_traits::{Host, Raw};
use std::alloc::Global;

fn block_read<H: Host>(
    alloc: Global,
    host: &mut H,
    raw: &mut Raw,
    words: &[&str],
) -> Option<String> {
    let (disk, sector, count) = (small(words, 1)?, number(words, 2)?, small(words, 3)?);
    if count > 136 {
        return None;
    }
    let answer = host.block_read(disk, sector, count, raw);
    shown::heard(alloc, answer, raw)
}

fn block_write<H: Host>(alloc: Global, host: &mut H, words: &[&str]) -> Option<String> {
    let (disk, sector, piece) = (small(words, 1)?, number(words, 2)?, bytes(alloc, words, 3)?);
    if piece.len() % 512 != 0 || piece.len() > 69_632 {
        return None;
    }
    let answer = host.block_write(disk, sector, piece.as_slice());
    shown::done(alloc, answer)
}

fn file_read<H: Host>(
    alloc: Global,
    host: &mut H,
    raw: &mut Raw,
    words: &[&str],
) -> Option<String> {
    let (file, at, want) = (small(words, 1)?, number(words, 2)?, small(words, 3)?);
    if want > 69_632 {
        return None;
    }
    let answer = host.file_read(file, at, want, raw);
    shown::heard(alloc, answer, raw)
}

fn tree_read<H: Host>(
    alloc: Global,
    host: &mut H,
    raw: &mut Raw,
    words: &[&str],
) -> Option<String> {
    let (file, level, index) = (small(words, 1)?, small(words, 2)?, number(words, 3)?);
    let answer = host.file_tree_read(file, level, index, raw);
    shown::heard(alloc, answer, raw)
}

fn descriptor<H: Host>(
    alloc: Global,
    host: &mut H,
    raw: &mut Raw,
    words: &[&str],
) -> Option<String> {
    let answer = host.file_descriptor(small(words, 1)?, raw);
    shown::heard(alloc, answer, raw)
}

fn file_write<H: Host>(alloc: Global, host: &mut H, words: &[&str]) -> Option<String> {
    let (file, at, piece) = (
        small(words, 1)?,
        small(words, 2)? as u64,
        bytes(alloc, words, 3)?,
    );
    let len = piece.len();
    if len > 4096 || at + len as u64 > 4_294_967_296 {
        return None;
    }
    let answer = host.file_write(file, at, piece.as_slice());
    shown::done(alloc, answer)
}

fn tree_write<H: Host>(alloc: Global, host: &mut H, words: &[&str]) -> Option<String> {
    let (file, level, index) = (small(words, 1)?, small(words, 2)?, number(words, 3)?);
    let page = bytes(alloc, words, 4)?;
    if page.len() != 4096 {
        return None;
    }
    let answer = host.file_tree_write(file, level, index, page.as_slice());
    shown::done(alloc, answer)
}

fn resize<H: Host>(alloc: Global, host: &mut H, words: &[&str]) -> Option<String> {
    let (file, size) = (small(words, 1)?, number(words, 2)?);
    if size > 4_294_967_296 {
        return None;
    }
    let answer = host.file_resize(file, size);
    shown::done(alloc, answer)
}

fn create<H: Host>(alloc: Global, host: &mut H, words: &[&str]) -> Option<String> {
    let (dir, name, file) = (small(words, 1)?, word(words, 2)?, small(words, 3)?);
    shown::done(alloc, host.file_create(dir, name.as_bytes(), file))
}

fn mkdir<H: Host>(alloc: Global, host: &mut H, words: &[&str]) -> Option<String> {
    let (dir, name, file) = (small(words, 1)?, word(words, 2)?, small(words, 3)?);
    shown::done(alloc, host.file_mkdir(dir, name.as_bytes(), file))
}

fn delete<H: Host>(alloc: Global, host: &mut H, words: &[&str]) -> Option<String> {
    let (dir, name) = (small(words, 1)?, word(words, 2)?);
    shown::done(alloc, host.file_delete(dir, name.as_bytes()))
}

fn counts<H: Host>(alloc: Global, host: &H) -> Option<String> {
    let faults = host.faults();
    let heard = host.heard_bytes();
    format!(in alloc; "failed {faults} heard {heard}").ok()
}

// The answer to a line that reads.
fn read<H: Host>(
    alloc: Global,
    host: &mut H,
    raw: &mut Raw,
    words: &[&str],
    name: &str,
) -> Option<String> {
    match name {
        "block_read" => block_read(alloc, host, raw, words),
        "file_read" => file_read(alloc, host, raw, words),
        "tree_read" => tree_read(alloc, host, raw, words),
        "descriptor" => descriptor(alloc, host, raw, words),
        _ => None,
    }
}

/// The answer of a host to a line.
pub(crate) fn call<H: Host>(
    alloc: Global,
    host: &mut H,
    raw: &mut Raw,
    words: &[&str],
) -> Option<String> {
    let name = word(words, 0)?;
    match name {
        "block_size" => shown::number(alloc, host.block_size(small(words, 1)?)),
        "block_write" => block_write(alloc, host, words),
        "block_sync" => shown::done(alloc, host.block_sync(small(words, 1)?)),
        "file_write" => file_write(alloc, host, words),
        "tree_write" => tree_write(alloc, host, words),
        "resize" => resize(alloc, host, words),
        "create" => create(alloc, host, words),
        "mkdir" => mkdir(alloc, host, words),
        "delete" => delete(alloc, host, words),
        "counts" => counts(alloc, host),
        _ => read(alloc, host, raw, words, name),
    }
}
