// Checks of a message, each for one of its fields.
ghost use Rattle.std.specs.Prelude.{◌≡◌};
ghost use Rattle.fuse_server.specs.State.{live, live_file, live_dir, attr_of, attr_of_size, held};
ghost use Rattle.fuse_server.specs.Deeds.{IsBehind};
ghost use Rattle.fuse_server.specs.Parts.{state_of};

use crate::deed::Behind;
use crate::parts::Parts;
use authfs_dirs::Kind;
use fuse_codec::Attr;
use mg_base::Errno;

const DIRECTORY: u32 = 0o40755;

const READ_ONLY: u32 = 0o100444;

const WRITABLE: u32 = 0o100644;

/// What a live node is.
pub(crate) fn live(parts: &Parts, node: u64) -> Result<Kind, Errno>
    ensures { result ≡ live (state_of parts.now) node }
{
    match parts.dirs.kind(node) {
        Some(kind) => Ok(kind),
        None => Err(Errno::Enoent),
    }
}

/// The file of a live node that is no directory.
pub(crate) fn live_file(parts: &Parts, node: u64) -> Result<Behind, Errno>
    ensures { IsBehind parts.now.writables.entries (live_file (state_of parts.now) node) result }
{
    let kind = match live(parts, node) {
        Ok(kind) => kind,
        Err(errno) => return Err(errno),
    };
    match kind {
        Kind::Dir { .. } => Err(Errno::Eisdir),
        Kind::ReadOnly { file } => match parts.files.at(file) {
            Some(read) => Ok(Behind::Measured(read)),
            None => Err(Errno::Enosys),
        },
        Kind::Writable { file } => {
            if parts.writables.contains_key(&file) {
                Ok(Behind::Written(file))
            } else {
                Err(Errno::Enosys)
            }
        }
    }
}

/// Whether a live node is a directory.
pub(crate) fn live_dir(parts: &Parts, node: u64) -> Result<(), Errno>
    ensures { result ≡ live_dir (state_of parts.now) node }
{
    let kind = match live(parts, node) {
        Ok(kind) => kind,
        Err(errno) => return Err(errno),
    };
    if kind.is_dir() {
        Ok(())
    } else {
        Err(Errno::Enotdir)
    }
}

/// Whether a handle is open and of this node.
pub(crate) fn held(parts: &Parts, fh: u64, node: u64) -> Result<(), Errno>
    ensures { result ≡ held (state_of parts.now) fh node }
{
    if parts.handles.holds(fh, node) {
        Ok(())
    } else {
        Err(Errno::Ebadf)
    }
}

/// The attributes of a writable file of this size.
pub(crate) fn attr_of_size(node: u64, size: u64) -> Attr
    ensures { result ≡ attr_of_size node size }
{
    Attr {
        ino: node,
        size,
        mode: WRITABLE,
    }
}

/// The attributes of a node of this kind.
pub(crate) fn attr_of(parts: &Parts, node: u64, kind: Kind) -> Result<Attr, Errno>
    ensures { result ≡ attr_of (state_of parts.now) node kind }
{
    match kind {
        Kind::Dir { .. } => Ok(Attr {
            ino: node,
            size: 0,
            mode: DIRECTORY,
        }),
        Kind::ReadOnly { file } => match parts.files.at(file) {
            Some(read) => Ok(Attr {
                ino: node,
                size: read.size(),
                mode: READ_ONLY,
            }),
            None => Err(Errno::Enosys),
        },
        Kind::Writable { file } => match parts.writables.get(&file) {
            Some(written) => Ok(attr_of_size(node, written.size())),
            None => Err(Errno::Enosys),
        },
    }
}
