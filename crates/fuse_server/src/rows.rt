// Each operation: its checks in order, and what it makes of the state.
ghost use Rattle.std.specs.Prelude.{◌≡◌, ◌≤◌, length, Some, Ok};
ghost use Rattle.fuse_codec.specs.Message.{lookup, forget, opening, opendir, release, releasedir};
ghost use Rattle.fuse_server.specs.Aims.{init_aim, lookup_aim, getattr_aim, setattr_aim, size_aim, handle_aim, open_aim, opendir_aim, read_aim, write_at, write_aim, held_aim, handled_aim, fsync_aim, releasedir_aim, readdir_aim, add_aim, remove_aim, statfs_aim};
ghost use Rattle.fuse_server.specs.Deeds.{IsDeed, NoCall, AreFew, answer_to, reading_of};
ghost use Rattle.fuse_server.specs.Effects.{Becomes, UnlessRefused, IsDestroyed, initialised, with_handle, without_handle};
ghost use Rattle.fuse_server.specs.Parts.{state_of};
ghost use Rattle.fuse_server.specs.State.{WritableFile, Writables, writable_at};

use crate::checks::{attr_of, held, live, live_dir, live_file};
use crate::deed::{Behind, Cutting, Deed, Loading, Reading, Storing};
use crate::parts::Parts;
use authfs_dirs::Kind;
use fuse_codec::{EntryOut, InitOut};
use mg_base::Errno;

/// The protocol that is spoken.
const MAJOR: u32 = 7;

const MINOR: u32 = 31;

/// The bit of INIT's flags that is agreed to (`FUSE_BIG_WRITES`).
const BIG_WRITES: u32 = 0x20;

/// The most bytes of a writable file.
const LIMIT: u64 = 4_294_967_296;

/// The bit of SETATTR that asks for a size (`FATTR_SIZE`).
const ASKS_SIZE: u32 = 8;

/// INIT.
#[tactic(auto, unfolding(crate::specs::Aims::init_aim))]
pub(crate) fn init<'a>(
    parts: &mut Parts,
    major: u32,
    minor: u32,
    max_readahead: u32,
    flags: u32,
) -> Result<Deed<'a>, Errno>
    ensures row { IsDeed parts.old.writables.entries
        (init_aim (state_of parts.old) major minor max_readahead flags) result }
    ensures no_call { NoCall result }
    ensures files { parts.new.writables ≡ parts.old.writables }
    ensures next { UnlessRefused (state_of parts.old) (state_of parts.new)
        (state_of parts.new ≡ initialised (state_of parts.old) major) (answer_to result) }
{
    if parts.ready {
        return Err(Errno::Eproto);
    }
    if major < MAJOR || major == MAJOR && minor < MINOR {
        return Err(Errno::Eproto);
    }
    if major > MAJOR {
        return Ok(Deed::Init(InitOut {
            major: MAJOR,
            minor: MINOR,
            max_readahead: 0,
            flags: 0,
            max_background: 0,
            congestion_threshold: 0,
            max_write: 0,
            time_gran: 0,
        }));
    }
    parts.ready = true;
    Ok(Deed::Init(InitOut {
        major: MAJOR,
        minor: MINOR,
        max_readahead,
        flags: flags & BIG_WRITES,
        max_background: 16,
        congestion_threshold: 12,
        max_write: 131_072,
        time_gran: 1,
    }))
}

/// LOOKUP: one lookup more of the node that the name names, where it is answered.
#[tactic(auto, unfolding(crate::specs::Aims::lookup_aim))]
pub(crate) fn lookup<'a>(parts: &mut Parts, parent: u64, name: &[u8]) -> Result<Deed<'a>, Errno>
    ensures row { IsDeed parts.old.writables.entries
        (lookup_aim (state_of parts.old) parent name.now) result }
    ensures no_call { NoCall result }
    ensures files { parts.new.writables ≡ parts.old.writables }
    ensures next { Becomes (state_of parts.old) parent (lookup name.now)
        (answer_to result) (state_of parts.new) }
{
    let node = match parts.dirs.find(parent, name) {
        Ok(node) => node,
        Err(errno) => return Err(errno),
    };
    let kind = match live(parts, node) {
        Ok(kind) => kind,
        Err(errno) => return Err(errno),
    };
    let attr = match attr_of(parts, node, kind) {
        Ok(attr) => attr,
        Err(errno) => return Err(errno),
    };
    parts.dirs.count_lookup(node);
    Ok(Deed::Entry(EntryOut { node, attr }))
}

/// GETATTR.
#[tactic(auto, unfolding(crate::specs::Aims::getattr_aim))]
pub(crate) fn getattr<'a>(parts: &Parts, node: u64) -> Result<Deed<'a>, Errno>
    ensures row { IsDeed parts.now.writables.entries
        (getattr_aim (state_of parts.now) node) result }
    ensures no_call { NoCall result }
{
    let kind = match live(parts, node) {
        Ok(kind) => kind,
        Err(errno) => return Err(errno),
    };
    match attr_of(parts, node, kind) {
        Ok(attr) => Ok(Deed::Attr(attr)),
        Err(errno) => Err(errno),
    }
}

// Another size of the writable file of a number.
fn cut<'a>(parts: &Parts, node: u64, number: u32, size: u64) -> Result<Deed<'a>, Errno>
    ensures row { IsDeed parts.now.writables.entries
        (size_aim (state_of parts.now) node size (Kind.Writable number)) result }
{
    if !parts.writables.contains_key(&number) {
        return Err(Errno::Enosys);
    }
    if size > LIMIT {
        return Err(Errno::Efbig);
    }
    Ok(Deed::Cut(Cutting { number, node, size }))
}

/// SETATTR, up to the new size itself.
#[tactic(auto, unfolding(crate::specs::Aims::setattr_aim))]
pub(crate) fn setattr<'a>(
    parts: &Parts,
    node: u64,
    valid: u32,
    size: u64,
) -> Result<Deed<'a>, Errno>
    ensures row { IsDeed parts.now.writables.entries
        (setattr_aim (state_of parts.now) node valid size) result }
    ensures few { AreFew result }
{
    let kind = match live(parts, node) {
        Ok(kind) => kind,
        Err(errno) => return Err(errno),
    };
    if valid & ASKS_SIZE == 0 {
        return getattr(parts, node);
    }
    match kind {
        Kind::Dir { .. } => Err(Errno::Eisdir),
        Kind::ReadOnly { .. } => Err(Errno::Eacces),
        Kind::Writable { file } => cut(parts, node, file, size),
    }
}

// One handle more, of a live node.
fn open_handle<'a>(parts: &mut Parts, node: u64) -> Result<Deed<'a>, Errno>
    ensures row { IsDeed parts.old.writables.entries (handle_aim (state_of parts.old)) result }
    ensures no_call { NoCall result }
    ensures files { parts.new.writables ≡ parts.old.writables }
    ensures next { UnlessRefused (state_of parts.old) (state_of parts.new)
        (state_of parts.new ≡ with_handle (state_of parts.old) node) (answer_to result) }
{
    if !parts.handles.may_open() {
        return Err(Errno::Enospc);
    }
    match parts.handles.reserve() {
        Ok(()) => {}
        Err(_) => return Err(Errno::Enomem),
    }
    let handle = parts.handles.open_node(node);
    parts.dirs.pin(node);
    Ok(Deed::Opened(handle))
}

// One handle less, where it is open and of this node.
fn close_handle<'a>(parts: &mut Parts, node: u64, fh: u64) -> Result<Deed<'a>, Errno>
    ensures row { IsDeed parts.old.writables.entries
        (held_aim (state_of parts.old) node fh) result }
    ensures no_call { NoCall result }
    ensures files { parts.new.writables ≡ parts.old.writables }
    ensures next { UnlessRefused (state_of parts.old) (state_of parts.new)
        (state_of parts.new ≡ without_handle (state_of parts.old) node fh) (answer_to result) }
{
    match held(parts, fh, node) {
        Ok(()) => {}
        Err(errno) => return Err(errno),
    }
    parts.handles.close(fh);
    parts.dirs.unpin(node);
    Ok(Deed::Empty)
}

/// OPEN: one handle more.
#[tactic(auto, unfolding(crate::specs::Aims::open_aim))]
pub(crate) fn open<'a>(parts: &mut Parts, node: u64, flags: u32) -> Result<Deed<'a>, Errno>
    ensures row { IsDeed parts.old.writables.entries
        (open_aim (state_of parts.old) node flags) result }
    ensures no_call { NoCall result }
    ensures files { parts.new.writables ≡ parts.old.writables }
    ensures next { Becomes (state_of parts.old) node (opening flags)
        (answer_to result) (state_of parts.new) }
{
    match live_file(parts, node) {
        Ok(Behind::Measured(_)) => {
            if flags % 4 != 0 {
                return Err(Errno::Eacces);
            }
        }
        Ok(Behind::Written(_)) => {}
        Err(errno) => return Err(errno),
    }
    open_handle(parts, node)
}

/// OPENDIR: one handle more.
#[tactic(auto, unfolding(crate::specs::Aims::opendir_aim))]
pub(crate) fn opendir<'a>(parts: &mut Parts, node: u64) -> Result<Deed<'a>, Errno>
    ensures row { IsDeed parts.old.writables.entries
        (opendir_aim (state_of parts.old) node) result }
    ensures no_call { NoCall result }
    ensures files { parts.new.writables ≡ parts.old.writables }
    ensures next { Becomes (state_of parts.old) node opendir
        (answer_to result) (state_of parts.new) }
{
    match live_dir(parts, node) {
        Ok(()) => {}
        Err(errno) => return Err(errno),
    }
    open_handle(parts, node)
}

// A read of what stands behind a node.
fn read_of<'a>(behind: Behind, offset: u64, size: u32) -> Deed<'a>
    ensures { result ≡ reading_of behind offset size }
{
    match behind {
        Behind::Measured(file) => Deed::Read(Reading { file, offset, size }),
        Behind::Written(number) => Deed::Load(Loading {
            number,
            offset,
            size,
        }),
    }
}

/// READ, up to the read itself.
#[tactic(auto, unfolding(crate::specs::Aims::read_aim))]
pub(crate) fn read<'a>(
    parts: &Parts,
    node: u64,
    fh: u64,
    offset: u64,
    size: u32,
) -> Result<Deed<'a>, Errno>
    requires { size ≤ 131072 }
    ensures row { IsDeed parts.now.writables.entries
        (read_aim (state_of parts.now) node fh offset size) result }
    ensures few { AreFew result }
{
    let behind = match live_file(parts, node) {
        Ok(behind) => behind,
        Err(errno) => return Err(errno),
    };
    match held(parts, fh, node) {
        Ok(()) => Ok(read_of(behind, offset, size)),
        Err(errno) => Err(errno),
    }
}

// A write of bytes of the writable file of a number.
fn store<'a>(number: u32, offset: u64, bytes: &'a [u8]) -> Result<Deed<'a>, Errno>
    requires { length bytes.now ≤ 131072 }
    ensures row { (files : Writables) (file : WritableFile) → writable_at files number ≡ Some file
        → IsDeed files (write_at number file offset bytes.now) result }
    ensures few { AreFew result }
{
    if bytes.is_empty() {
        return Ok(Deed::NoneWritten);
    }
    if offset > LIMIT - bytes.len() as u64 {
        return Err(Errno::Efbig);
    }
    Ok(Deed::Store(Storing {
        number,
        offset,
        bytes,
    }))
}

/// WRITE, up to the write itself.
#[tactic(auto, unfolding(crate::specs::Aims::write_aim))]
pub(crate) fn write<'a>(
    parts: &Parts,
    node: u64,
    fh: u64,
    offset: u64,
    bytes: &'a [u8],
) -> Result<Deed<'a>, Errno>
    requires { length bytes.now ≤ 131072 }
    ensures row { IsDeed parts.now.writables.entries
        (write_aim (state_of parts.now) node fh offset bytes.now) result }
    ensures few { AreFew result }
{
    let behind = match live_file(parts, node) {
        Ok(behind) => behind,
        Err(errno) => return Err(errno),
    };
    match held(parts, fh, node) {
        Ok(()) => {}
        Err(errno) => return Err(errno),
    }
    match behind {
        Behind::Measured(_) => Err(Errno::Eacces),
        Behind::Written(number) => store(number, offset, bytes),
    }
}

/// FLUSH: nothing is to be written.
#[tactic(auto, unfolding(crate::specs::Aims::handled_aim))]
pub(crate) fn flush<'a>(parts: &Parts, node: u64, fh: u64) -> Result<Deed<'a>, Errno>
    ensures row { IsDeed parts.now.writables.entries
        (handled_aim (state_of parts.now) node fh) result }
    ensures no_call { NoCall result }
{
    match live_file(parts, node) {
        Ok(_) => {}
        Err(errno) => return Err(errno),
    }
    match held(parts, fh, node) {
        Ok(()) => Ok(Deed::Empty),
        Err(errno) => Err(errno),
    }
}

/// FSYNC, up to writing out the tree itself.
#[tactic(auto, unfolding(crate::specs::Aims::fsync_aim))]
pub(crate) fn fsync<'a>(parts: &Parts, node: u64, fh: u64) -> Result<Deed<'a>, Errno>
    ensures row { IsDeed parts.now.writables.entries
        (fsync_aim (state_of parts.now) node fh) result }
    ensures few { AreFew result }
{
    let behind = match live_file(parts, node) {
        Ok(behind) => behind,
        Err(errno) => return Err(errno),
    };
    match held(parts, fh, node) {
        Ok(()) => {}
        Err(errno) => return Err(errno),
    }
    match behind {
        Behind::Measured(_) => Ok(Deed::Empty),
        Behind::Written(number) => Ok(Deed::Sync(number)),
    }
}

/// RELEASE: one handle less.
#[tactic(auto, unfolding(crate::specs::Aims::handled_aim))]
pub(crate) fn release<'a>(parts: &mut Parts, node: u64, fh: u64) -> Result<Deed<'a>, Errno>
    ensures row { IsDeed parts.old.writables.entries
        (handled_aim (state_of parts.old) node fh) result }
    ensures no_call { NoCall result }
    ensures files { parts.new.writables ≡ parts.old.writables }
    ensures next { Becomes (state_of parts.old) node (release fh)
        (answer_to result) (state_of parts.new) }
{
    match live_file(parts, node) {
        Ok(_) => {}
        Err(errno) => return Err(errno),
    }
    close_handle(parts, node, fh)
}

/// RELEASEDIR: one handle less.
#[tactic(auto, unfolding(crate::specs::Aims::releasedir_aim))]
pub(crate) fn releasedir<'a>(parts: &mut Parts, node: u64, fh: u64) -> Result<Deed<'a>, Errno>
    ensures row { IsDeed parts.old.writables.entries
        (releasedir_aim (state_of parts.old) node fh) result }
    ensures no_call { NoCall result }
    ensures files { parts.new.writables ≡ parts.old.writables }
    ensures next { Becomes (state_of parts.old) node (releasedir fh)
        (answer_to result) (state_of parts.new) }
{
    match live_dir(parts, node) {
        Ok(()) => {}
        Err(errno) => return Err(errno),
    }
    close_handle(parts, node, fh)
}

/// READDIR: the entries behind the offset, as many as are whole in so many bytes.
#[tactic(auto, unfolding(crate::specs::Aims::readdir_aim))]
pub(crate) fn readdir<'a>(
    parts: &Parts,
    node: u64,
    fh: u64,
    offset: u64,
    size: u32,
) -> Result<Deed<'a>, Errno>
    requires { size ≤ 131072 }
    ensures row { IsDeed parts.now.writables.entries
        (readdir_aim (state_of parts.now) node fh offset size) result }
    ensures no_call { NoCall result }
{
    match live_dir(parts, node) {
        Ok(()) => {}
        Err(errno) => return Err(errno),
    }
    match held(parts, fh, node) {
        Ok(()) => {}
        Err(errno) => return Err(errno),
    }
    match parts.dirs.list(node, offset, size) {
        Ok(listing) => Ok(Deed::Names(listing)),
        Err(_) => Err(Errno::Enomem),
    }
}

/// CREATE and MKDIR: why a name isn't added.
#[tactic(auto, unfolding(crate::specs::Aims::add_aim))]
pub(crate) fn add<'a>(parts: &Parts, parent: u64, name: &[u8]) -> Result<Deed<'a>, Errno>
    ensures row { IsDeed parts.now.writables.entries
        (add_aim (state_of parts.now) parent name.now) result }
    ensures no_call { NoCall result }
{
    match parts.dirs.may_add(parent, name) {
        Ok(_) => Err(Errno::Enosys),
        Err(errno) => Err(errno),
    }
}

/// UNLINK and RMDIR: why a name isn't removed.
#[tactic(auto, unfolding(crate::specs::Aims::remove_aim))]
pub(crate) fn remove<'a>(
    parts: &Parts,
    parent: u64,
    name: &[u8],
    dir: bool,
) -> Result<Deed<'a>, Errno>
    ensures row { IsDeed parts.now.writables.entries
        (remove_aim (state_of parts.now) parent name.now dir) result }
    ensures no_call { NoCall result }
{
    match parts.dirs.may_remove(parent, name, dir) {
        Ok(_) => Err(Errno::Enosys),
        Err(errno) => Err(errno),
    }
}

/// STATFS.
#[tactic(auto, unfolding(crate::specs::Aims::statfs_aim))]
pub(crate) fn statfs<'a>(parts: &Parts, node: u64) -> Result<Deed<'a>, Errno>
    ensures row { IsDeed parts.now.writables.entries (statfs_aim (state_of parts.now) node) result }
    ensures no_call { NoCall result }
{
    match live(parts, node) {
        Ok(_) => Ok(Deed::Statfs),
        Err(errno) => Err(errno),
    }
}

/// FORGET: so many lookups less.
pub(crate) fn forget<'a>(parts: &mut Parts, node: u64, count: u64) -> Result<Deed<'a>, Errno>
    ensures silent { result ≡ Ok Deed.Silent }
    ensures no_call { NoCall result }
    ensures files { parts.new.writables ≡ parts.old.writables }
    ensures next { Becomes (state_of parts.old) node (forget count)
        (answer_to result) (state_of parts.new) }
{
    if parts.ready {
        parts.dirs.forget(node, count);
    }
    Ok(Deed::Silent)
}

/// DESTROY: no handle, no lookup, not initialised.
pub(crate) fn destroy<'a>(parts: &mut Parts) -> Result<Deed<'a>, Errno>
    ensures empty { result ≡ Ok Deed.Empty }
    ensures no_call { NoCall result }
    ensures files { parts.new.writables ≡ parts.old.writables }
    ensures next { IsDestroyed (state_of parts.old) (state_of parts.new) }
{
    parts.ready = false;
    parts.dirs.reset();
    parts.handles.close_all();
    Ok(Deed::Empty)
}
