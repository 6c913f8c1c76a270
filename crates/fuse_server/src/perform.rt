// What a message comes to, by what it asks.
ghost use Rattle.std.specs.Prelude.{◌≡◌, ◌+◌, ◌*◌, ◌/◌, ◌≤◌, true, length, drop, if◌then◌else◌, Ok};
ghost use Rattle.fuse_codec.specs.Reading.{u64_at, pairs_in};
ghost use Rattle.fuse_codec.specs.Said.{asked_of, AreWhole};
ghost use Rattle.fuse_server.specs.Aims.{message_aim, ready_aim};
ghost use Rattle.fuse_server.specs.Deeds.{IsDeed, IsFew, NoCall, CallsBy, answer_to};
ghost use Rattle.fuse_server.specs.Effects.{Becomes, with_names, all_forgotten};
ghost use Rattle.fuse_server.specs.Parts.{state_of};

use crate::deed::Deed;
use crate::parts::Parts;
use crate::rows::{
    add, destroy, flush, forget, fsync, getattr, init, lookup, open, opendir, read, readdir,
    release, releasedir, remove, setattr, statfs, write,
};
use authfs_dirs::Dirs;
use fuse_codec::Body;
use mg_base::Errno;

// A little-endian number of eight bytes.
fn u64_at(bytes: &[u8], at: usize) -> u64
    requires { at + 8 ≤ length bytes.now }
    ensures { result ≡ u64_at bytes.now at }
{
    let field = &bytes[at..at + 8];
    u64::from_le_bytes([
        field[0], field[1], field[2], field[3], field[4], field[5], field[6], field[7],
    ])
}

// A node, and how many lookups less it has.
#[derive(Clone, Copy, Drop)]
struct Pair {
    node: u64,
    count: u64,
}

// The pair at a place.
fn pair_at(pairs: &[u8], place: usize) -> Pair
    requires { 16 * place + 16 ≤ length pairs.now }
    ensures node { result.node ≡ u64_at (drop (16 * place) pairs.now) 0 }
    ensures count { result.count ≡ u64_at (drop (16 * place) pairs.now) 8 }
{
    let pair = &pairs[16 * place..];
    Pair {
        node: u64_at(pair, 0),
        count: u64_at(pair, 8),
    }
}

// So many lookups less of each node, pair by pair.
#[tactic(auto, using(crate::proofs::Pairs::forget_on))]
fn forget_pairs(dirs: &mut Dirs, pairs: &[u8])
    requires { length pairs.now ≡ 16 * (length pairs.now / 16) }
    ensures { dirs.new ≡ all_forgotten dirs.old (pairs_in (length pairs.now / 16) pairs.now) }
{
    for place in 0..pairs.len() / 16 {
        let pair = pair_at(pairs, place);
        dirs.forget(pair.node, pair.count);
    }
}

// BATCH_FORGET.
fn batch_forget<'a>(parts: &mut Parts, pairs: &[u8]) -> Result<Deed<'a>, Errno>
    requires { length pairs.now ≡ 16 * (length pairs.now / 16) }
    ensures silent { result ≡ Ok Deed.Silent }
    ensures no_call { NoCall result }
    ensures files { parts.new.writables ≡ parts.old.writables }
    ensures next { state_of parts.new ≡ (if parts.old.ready
        then with_names (state_of parts.old)
        (all_forgotten parts.old.dirs (pairs_in (length pairs.now / 16) pairs.now))
        else state_of parts.old) }
{
    if parts.ready {
        forget_pairs(&mut parts.dirs, pairs);
    }
    Ok(Deed::Silent)
}

// Once initialised.
#[tactic(auto, unfolding(crate::specs::Aims::ready_aim))]
fn perform_ready<'a>(parts: &mut Parts, node: u64, body: &Body<'a>) -> Result<Deed<'a>, Errno>
    requires ready { parts.old.ready ≡ true }
    requires few { IsFew (asked_of body.now) }
    requires whole { AreWhole body.now }
    ensures row { IsDeed parts.old.writables.entries
        (ready_aim (state_of parts.old) node (asked_of body.now)) result }
    ensures few { CallsBy (asked_of body.now) result }
    ensures files { parts.new.writables ≡ parts.old.writables }
    ensures next { Becomes (state_of parts.old) node (asked_of body.now)
        (answer_to result) (state_of parts.new) }
{
    match *body {
        Body::Lookup { name } => lookup(parts, node, name),
        Body::Getattr => getattr(parts, node),
        Body::Setattr { valid, size } => setattr(parts, node, valid, size),
        Body::Open { flags } => open(parts, node, flags),
        Body::Opendir => opendir(parts, node),
        Body::Read { fh, offset, size } => read(parts, node, fh, offset, size),
        Body::Write { fh, offset, bytes } => write(parts, node, fh, offset, bytes),
        Body::Flush { fh } => flush(parts, node, fh),
        Body::Fsync { fh } => fsync(parts, node, fh),
        Body::Release { fh } => release(parts, node, fh),
        Body::Releasedir { fh } => releasedir(parts, node, fh),
        Body::Readdir { fh, offset, size } => readdir(parts, node, fh, offset, size),
        Body::Create { name } => add(parts, node, name),
        Body::Mkdir { name } => add(parts, node, name),
        Body::Unlink { name } => remove(parts, node, name, false),
        Body::Rmdir { name } => remove(parts, node, name, true),
        Body::Statfs => statfs(parts, node),
        Body::Destroy => destroy(parts),
        Body::Init {
            major,
            minor,
            max_readahead,
            flags,
        } => init(parts, major, minor, max_readahead, flags),
        Body::Forget { nlookup } => forget(parts, node, nlookup),
        Body::BatchForget { pairs } => batch_forget(parts, pairs),
        Body::Interrupt => Ok(Deed::Silent),
    }
}

/// The checks of a message in order, and what it makes of the state. It makes no call.
#[tactic(auto, unfolding(crate::specs::Aims::message_aim))]
pub(crate) fn perform<'a>(parts: &mut Parts, node: u64, body: &Body<'a>) -> Result<Deed<'a>, Errno>
    requires few { IsFew (asked_of body.now) }
    requires whole { AreWhole body.now }
    ensures row { IsDeed parts.old.writables.entries
        (message_aim (state_of parts.old) node (asked_of body.now)) result }
    ensures few { CallsBy (asked_of body.now) result }
    ensures files { parts.new.writables ≡ parts.old.writables }
    ensures next { Becomes (state_of parts.old) node (asked_of body.now)
        (answer_to result) (state_of parts.new) }
{
    match *body {
        Body::Init {
            major,
            minor,
            max_readahead,
            flags,
        } => init(parts, major, minor, max_readahead, flags),
        Body::Forget { nlookup } => forget(parts, node, nlookup),
        Body::BatchForget { pairs } => batch_forget(parts, pairs),
        Body::Interrupt => Ok(Deed::Silent),
        _ => {
            if !parts.ready {
                return Err(Errno::Eproto);
            }
            perform_ready(parts, node, body)
        }
    }
}
