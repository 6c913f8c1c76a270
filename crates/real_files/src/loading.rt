// Files that are read.
ghost use Rattle.std.specs.Prelude.{◌≡◌, ◌≤◌, take, IfOk, IfSome, vec_len};

use std::alloc::Global;
use std::fs::{self, OpenFile};
use std::io::{self, Read, Seek, SeekFrom};
use std::rt::Files;

// The bytes that a file has left, but at most so many, into memory with room for `room` of them.
fn read_most<F: Read + Drop>(file: F, alloc: Global, most: u64, room: u64) -> io::Result<Vec<u8>>
    ensures few { IfOk result (λ bytes. vec_len bytes ≤ most) }
    ensures bytes { IfSome (F.remaining file)
        (λ left. IfOk result (λ bytes. bytes.items ≡ take most left)) }
{
    let mut bytes = Vec::with_capacity(alloc, (room.min(most) as usize).saturating_add(1))?;
    file.take(most).read_to_end(&mut bytes)?;
    bytes.truncate(most as usize);
    Ok(bytes)
}

/// The bytes of a file, but at most so many.
pub(crate) fn read_file<R: Files>(
    rt: &R,
    alloc: Global,
    name: &str,
    most: u64,
) -> io::Result<Vec<u8>>
    ensures few { IfOk result (λ bytes. vec_len bytes ≤ most) }
{
    let file = fs::open(rt, name)?;
    let length = file.metadata()?.len();
    read_most(file, alloc, most, length)
}

/// The bytes of a file from a place on, but at most so many.
pub(crate) fn read_part<R: Files>(
    rt: &R,
    alloc: Global,
    name: &str,
    at: u64,
    most: u64,
) -> io::Result<Vec<u8>>
    ensures few { IfOk result (λ part. vec_len part ≤ most) }
{
    let mut file = fs::open(rt, name)?;
    file.seek(SeekFrom::Start(at))?;
    read_most(file, alloc, most, most)
}
