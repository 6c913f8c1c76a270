// Files that are written: whole, or not at all.
ghost use Rattle.std.specs.Prelude.{◌≡◌, true, OnOk};
ghost use Rattle.std.specs.Fs.{asks_create_new};
ghost use Rattle.std.specs.Io.KnownBytes.{Appends};

use std::alloc::Global;
use std::fs::{self, File, Metadata, OpenFile, OpenOptions};
use std::io::{self, Error, ErrorKind, Write};
use std::os::unix::fs::{MetadataExt, OpenOptionsExt, fchown};
use std::path::{Path, PathBuf};
use std::rt::Files;

// So many links are followed one after the other, as by Linux.
const LINKS: u32 = 40;

// So many names of new files are tried.
const TRIES: u32 = 1_000;

// The path that a path's links lead to. Nothing need be there.
fn target_of<R: Files>(rt: &R, alloc: Global, name: &str) -> io::Result<PathBuf> {
    let mut path = PathBuf::from_str(alloc, name)?;
    for _ in 0..LINKS {
        match fs::symlink_metadata(rt, &path) {
            Ok(found) if found.is_symlink() => {}
            Ok(_) => return Ok(path),
            Err(error) if error.kind() == ErrorKind::NotFound => return Ok(path),
            Err(error) => return Err(error),
        }
        let link = rt.read_link(alloc, path.as_path().as_str())?;
        path.pop();
        path.push(link)?;
    }
    Err(Error::new(ErrorKind::FilesystemLoop, "too many links"))
}

// How a new file is opened: what is there already is not.
fn options_of(mode: u32) -> OpenOptions
    ensures { asks_create_new result ≡ true }
{
    let mut options = OpenOptions::new();
    options.mode(mode);
    options.write(true).create_new(true);
    options
}

// A new file in the folder of the target, and its path.
fn new_file<R: Files>(
    rt: &R,
    alloc: Global,
    target: Path<'_>,
    mode: u32,
) -> io::Result<(R::File, PathBuf)> {
    let Some(folder) = target.parent() else {
        return Err(ErrorKind::NotFound.into());
    };
    let options = options_of(mode);
    for number in 0..TRIES {
        let name = format!(in alloc; ".huskford-{number}")?;
        if target.file_name() == Some(name.as_str()) {
            continue;
        }
        let path = folder.join(alloc, name)?;
        match options.open(rt, &path) {
            Ok(file) => return Ok((file, path)),
            Err(error) if error.kind() == ErrorKind::AlreadyExists => {}
            Err(error) => return Err(error),
        }
    }
    Err(Error::new(
        ErrorKind::AlreadyExists,
        "each name for a new file is taken",
    ))
}

// Group and owner of the file that was there before, where the system lets this process give them.
fn keep_owner(file: &File, before: &Metadata) {
    let _ = fchown(file, None, Some(before.gid()));
    let _ = fchown(file, Some(before.uid()), None);
}

// Puts the bytes into a new file, gives it the mode of the one that was there before, and has all of it on the disk.
fn fill<F: Write + OpenFile>(new: &mut F, bytes: &[u8], before: Option<&Metadata>) -> io::Result<()>
    ensures { OnOk result (Appends (F.contents new.old) (F.contents new.new) bytes.now) }
{
    new.write_all(bytes)?;
    if let Some(before) = before {
        new.set_permissions(before.permissions())?;
    }
    new.sync_all()
}

// What can't be synced, as a pipe, and a folder of some file systems, needn't be.
fn unless_unsynced(synced: io::Result<()>) -> io::Result<()> {
    match synced {
        Err(error) if error.kind() == ErrorKind::InvalidInput => Ok(()),
        Err(error) if error.kind() == ErrorKind::Unsupported => Ok(()),
        synced => synced,
    }
}

// Has the names of the target's folder on the disk, where this process may open the folder.
fn sync_folder<R: Files>(rt: &R, target: Path<'_>) -> io::Result<()> {
    let folder = match target.parent() {
        Some(folder) if !folder.as_str().is_empty() => folder,
        _ => Path::new("."),
    };
    match fs::open(rt, folder) {
        Ok(folder) => unless_unsynced(folder.sync_all()),
        Err(_) => Ok(()),
    }
}

// Puts the bytes into a new file and moves that to the target. Where this fails the new file is removed.
fn replace<R: Files<File = File>>(
    rt: &R,
    alloc: Global,
    target: Path<'_>,
    bytes: &[u8],
    before: Option<&Metadata>,
) -> io::Result<()> {
    let mode = if before.is_some() { 0o600 } else { 0o666 };
    let (mut file, path) = new_file(rt, alloc, target, mode)?;
    if let Some(before) = before {
        keep_owner(&file, before);
    }
    let moved = match fill(&mut file, bytes, before) {
        Ok(()) => fs::rename(rt, &path, target),
        Err(error) => Err(error),
    };
    if let Err(error) = moved {
        let _ = fs::remove_file(rt, &path);
        return Err(error);
    }
    sync_folder(rt, target)
}

// Writes to what is no file, as a pipe or a device.
fn write_through<R: Files>(rt: &R, name: &str, bytes: &[u8]) -> io::Result<()> {
    let mut file = OpenOptions::new().write(true).open(rt, name)?;
    file.write_all(bytes)?;
    unless_unsynced(file.sync_all())
}

/// Puts these bytes in place of a file's, or into a file that isn't there yet.
pub(crate) fn store_file<R: Files<File = File>>(
    rt: &R,
    alloc: Global,
    name: &str,
    bytes: &[u8],
) -> io::Result<()> {
    match fs::metadata(rt, name) {
        Ok(before) if before.is_file() => {
            let target = target_of(rt, alloc, name)?;
            replace(rt, alloc, target.as_path(), bytes, Some(&before))
        }
        Ok(_) => write_through(rt, name, bytes),
        Err(error) if error.kind() == ErrorKind::NotFound => {
            let target = target_of(rt, alloc, name)?;
            replace(rt, alloc, target.as_path(), bytes, None)
        }
        Err(error) => Err(error),
    }
}
