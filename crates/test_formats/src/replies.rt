// Replies from words.
ghost use Rattle.std.specs.Prelude.{◌≡◌, ◌≤◌, length};

use crate::words::bytes_of;
use anyhow::{Result, bail};
use authfs_dirs::{Dirs, Kind, Listing, ROOT};
use fuse_codec::{Attr, EntryOut, FuseReply, InitOut};
use mg_base::Errno;
use std::alloc::Global;

const ERRNOS: [Errno; 14] = [
    Errno::Enoent,
    Errno::Eio,
    Errno::Ebadf,
    Errno::Enomem,
    Errno::Eacces,
    Errno::Eexist,
    Errno::Enotdir,
    Errno::Eisdir,
    Errno::Einval,
    Errno::Efbig,
    Errno::Enospc,
    Errno::Enosys,
    Errno::Enotempty,
    Errno::Eproto,
];

fn errno_of(number: u64) -> Result<Errno> {
    for errno in ERRNOS {
        if errno.number() as u64 == number {
            return Ok(errno);
        }
    }
    bail!("no error number: {number}")
}

fn word_of(number: u64) -> Result<u32> {
    match u32::try_from(number) {
        Ok(word) => Ok(word),
        Err(_) => bail!("more than 32 bits: {number}"),
    }
}

fn half_of(number: u64) -> Result<u16> {
    match u16::try_from(number) {
        Ok(half) => Ok(half),
        Err(_) => bail!("more than 16 bits: {number}"),
    }
}

fn attr_of(numbers: &[u64]) -> Result<Attr>
    requires { 3 ≤ length numbers.now }
{
    Ok(Attr {
        ino: numbers[0],
        size: numbers[1],
        mode: word_of(numbers[2])?,
    })
}

fn entry_of(numbers: &[u64]) -> Result<EntryOut>
    requires { 4 ≤ length numbers.now }
{
    Ok(EntryOut {
        node: numbers[0],
        attr: attr_of(&numbers[1..])?,
    })
}

fn init_of(numbers: &[u64]) -> Result<InitOut>
    requires { 8 ≤ length numbers.now }
{
    Ok(InitOut {
        major: word_of(numbers[0])?,
        minor: word_of(numbers[1])?,
        max_readahead: word_of(numbers[2])?,
        flags: word_of(numbers[3])?,
        max_background: half_of(numbers[4])?,
        congestion_threshold: half_of(numbers[5])?,
        max_write: word_of(numbers[6])?,
        time_gran: word_of(numbers[7])?,
    })
}

// Puts a name into the root: of a directory where `/` stands behind it, else of a file.
fn plant(alloc: Global, dirs: &mut Dirs, word: &str) -> Result<()> {
    let (digits, kind) = match word.strip_suffix("/") {
        Some(digits) => (digits, Kind::Dir { host: Some(1) }),
        None => (word, Kind::ReadOnly { file: 1 }),
    };
    let name = bytes_of(alloc, digits)?;
    let free = name.len() <= 255 && dirs.may_plant(name.as_slice());
    if !free {
        bail!("no name for an entry: {word}");
    }
    match dirs.plant(name.as_slice(), kind) {
        Ok(_) => Ok(()),
        Err(_) => bail!("out of memory"),
    }
}

fn root_of(alloc: Global, words: &[&str]) -> Result<Dirs> {
    let mut dirs = match Dirs::new(alloc) {
        Ok(dirs) => dirs,
        Err(_) => bail!("out of memory"),
    };
    for word in words {
        plant(alloc, &mut dirs, *word)?;
    }
    Ok(dirs)
}

// What the root lists from behind a cookie, in at most so many bytes.
fn listing_of(dirs: &Dirs, cookie: u64, size: u32) -> Result<Listing> {
    let Some(kind) = dirs.kind(ROOT) else {
        bail!("no root");
    };
    if !kind.is_dir() || size > 131_072 {
        bail!("no listing of {size} bytes");
    }
    match dirs.list(ROOT, cookie, size) {
        Ok(listing) => Ok(listing),
        Err(_) => bail!("out of memory"),
    }
}

// The numbers behind the kind of a reply; those that aren't given are 0.
fn numbers_of(words: &[&str]) -> Result<[u64; 9]> {
    let mut numbers = [0; 9];
    for (i, word) in words.iter().enumerate() {
        if i < 9 {
            numbers[i] = word.parse::<u64>()?;
        }
    }
    Ok(numbers)
}

fn reply_by(kind: &str, numbers: &[u64; 9]) -> Result<FuseReply> {
    let unique = numbers[0];
    let rest = &numbers[1..];
    let reply = match kind {
        "error" => FuseReply::Error {
            unique,
            errno: errno_of(rest[0])?,
        },
        "empty" => FuseReply::Empty { unique },
        "entry" => FuseReply::Entry {
            unique,
            entry: entry_of(rest)?,
        },
        "attr" => FuseReply::Attr {
            unique,
            attr: attr_of(rest)?,
        },
        "opened" => FuseReply::Opened {
            unique,
            handle: rest[0],
        },
        "created" => FuseReply::Created {
            unique,
            entry: entry_of(rest)?,
            handle: rest[4],
        },
        "written" => FuseReply::Written {
            unique,
            count: word_of(rest[0])?,
        },
        "statfs" => FuseReply::Statfs { unique },
        "init" => FuseReply::Init {
            unique,
            init: init_of(rest)?,
        },
        "bytes" => FuseReply::Bytes { unique },
        _ => bail!("no kind of reply: {kind}"),
    };
    Ok(reply)
}

/// The reply that the words `KIND UNIQUE FIELD..` describe. The names of `names` are in hexadecimal.
pub fn reply_of(alloc: Global, words: &[&str]) -> Result<FuseReply> {
    match words {
        ["names", unique, cookie, size, names @ ..] => {
            let dirs = root_of(alloc, names)?;
            let listing = listing_of(&dirs, cookie.parse::<u64>()?, size.parse::<u32>()?)?;
            Ok(FuseReply::Names {
                unique: unique.parse::<u64>()?,
                listing,
            })
        }
        [kind, fields @ ..] => reply_by(*kind, &numbers_of(fields)?),
        [] => bail!("no kind of reply"),
    }
}
