// Requests on a writable file, and their ends.
ghost use Rattle.std.specs.Prelude.{◌≡◌, ◌≤◌, ℕ, List, [], length, Some, Ok, IfSome};
ghost use Rattle.fuse_codec.specs.Sent.{answer_of, unique_of};
ghost use Rattle.fuse_server.specs.State.{WritableFile, writable_at};
ghost use Rattle.fuse_server.specs.Aims.{loads, writes, cuts, syncs};
ghost use Rattle.fuse_server.specs.FileRows.{errno_of, cause_of, short_cause, answer_if, cause_if, written_answer, written_cause};
ghost use Rattle.fuse_server.specs.Answers.{Answered};
ghost use Rattle.fuse_server.specs.Rows.{answer_by};

use crate::answer::{FuseAnswer, refuse, said};
use crate::checks::attr_of_size;
use crate::deed::{Cutting, Loading, Storing};
use fuse_codec::FuseReply;
use host_traits::Host;
use mg_base::Errno;
use rw_file::{RwFault, RwFile, Written};
use rw_leaves::Leaves;
use std::collections::BTreeMap;
use verity_path::{Buffers, Cause, Served};

// The refusal of a request that met a fault.
fn refusal(unique: u64, fault: RwFault) -> FuseAnswer
    ensures { result ≡ record {
      reply = Some (FuseReply.Error unique (errno_of fault));
      cause = cause_of fault;
    } }
{
    match fault {
        RwFault::TooLarge { .. } => refuse(unique, Errno::Efbig, None),
        RwFault::Memory => refuse(unique, Errno::Enomem, None),
        RwFault::Mismatch(mismatch) => {
            refuse(unique, Errno::Eio, Some(Cause::Mismatch(mismatch)))
        }
        RwFault::Short { asked, got } => {
            refuse(unique, Errno::Eio, Some(Cause::Short { asked, got }))
        }
        RwFault::Failed { faults } => refuse(unique, Errno::Eio, Some(Cause::Failed { faults })),
    }
}

// This reply, or a refusal.
fn end(unique: u64, reply: FuseReply, done: Result<(), RwFault>) -> FuseAnswer
    requires { unique_of reply ≡ unique }
    ensures answer { (served : List ℕ)
        → answer_by result.reply served ≡ answer_if (answer_of reply served) done }
    ensures cause { result.cause ≡ cause_if done }
    ensures number { IfSome result.reply (λ r. unique_of r ≡ unique) }
{
    match done {
        Ok(()) => said(Some(reply)),
        Err(fault) => refusal(unique, fault),
    }
}

// Why a write ended early.
fn short_cause(why: Option<RwFault>) -> Option<Cause>
    ensures { result ≡ short_cause why }
{
    match why {
        None => None,
        Some(RwFault::TooLarge { .. }) => None,
        Some(RwFault::Memory) => Some(Cause::Memory),
        Some(RwFault::Mismatch(mismatch)) => Some(Cause::Mismatch(mismatch)),
        Some(RwFault::Short { asked, got }) => Some(Cause::Short { asked, got }),
        Some(RwFault::Failed { faults }) => Some(Cause::Failed { faults }),
    }
}

// The reply to a write that ended so.
fn write_end(unique: u64, done: Result<Written, RwFault>) -> FuseAnswer
    ensures answer { (served : List ℕ) → answer_by result.reply served ≡ written_answer done }
    ensures cause { result.cause ≡ written_cause done }
    ensures number { IfSome result.reply (λ r. unique_of r ≡ unique) }
{
    match done {
        Ok(written) => FuseAnswer {
            reply: Some(FuseReply::Written {
                unique,
                count: written.count,
            }),
            cause: short_cause(written.why),
        },
        Err(fault) => refusal(unique, fault),
    }
}

/// Reads a writable file, and replies.
pub(crate) fn load<H: Host>(
    files: &mut BTreeMap<u32, RwFile<Leaves>>,
    host: &mut H,
    unique: u64,
    loading: &Loading,
    buf: &mut Buffers,
    served: &mut Served,
) -> FuseAnswer
    requires empty { served.old ≡ [] }
    requires few { loading.now.size ≤ 131072 }
    ensures did { (f : WritableFile) → writable_at files.old.entries loading.now.number ≡ Some f
        → Answered (Ok (loads loading.now.number f loading.now.offset loading.now.size))
        files.old.entries files.new.entries (H.told host.old) (H.told host.new)
        (answer_by result.reply served.new) result.cause }
    ensures number { IfSome result.reply (λ r. unique_of r ≡ unique) }
{
    let done = match files.get_mut(&loading.number) {
        Some(file) => file.read(host, loading.offset, loading.size, buf, served),
        None => return refuse(unique, Errno::Enosys, None),
    };
    end(unique, FuseReply::Bytes { unique }, done)
}

/// Writes to a writable file, and replies.
pub(crate) fn store<H: Host>(
    files: &mut BTreeMap<u32, RwFile<Leaves>>,
    host: &mut H,
    unique: u64,
    storing: &Storing<'_>,
    buf: &mut Buffers,
) -> FuseAnswer
    requires { length storing.now.bytes.now ≤ 131072 }
    ensures did { (f : WritableFile) → writable_at files.old.entries storing.now.number ≡ Some f
        → (served : List ℕ)
        → Answered (Ok (writes storing.now.number f storing.now.offset storing.now.bytes.now))
        files.old.entries files.new.entries (H.told host.old) (H.told host.new)
        (answer_by result.reply served) result.cause }
    ensures number { IfSome result.reply (λ r. unique_of r ≡ unique) }
{
    let done = match files.get_mut(&storing.number) {
        Some(file) => file.write(host, storing.offset, storing.bytes, buf),
        None => return refuse(unique, Errno::Enosys, None),
    };
    write_end(unique, done)
}

/// Gives a writable file another size, and replies.
pub(crate) fn cut<H: Host>(
    files: &mut BTreeMap<u32, RwFile<Leaves>>,
    host: &mut H,
    unique: u64,
    cutting: &Cutting,
    buf: &mut Buffers,
) -> FuseAnswer
    ensures did { (f : WritableFile) → writable_at files.old.entries cutting.now.number ≡ Some f
        → (served : List ℕ)
        → Answered (Ok (cuts cutting.now.number f cutting.now.node cutting.now.size))
        files.old.entries files.new.entries (H.told host.old) (H.told host.new)
        (answer_by result.reply served) result.cause }
    ensures number { IfSome result.reply (λ r. unique_of r ≡ unique) }
{
    let done = match files.get_mut(&cutting.number) {
        Some(file) => file.truncate(host, cutting.size, buf),
        None => return refuse(unique, Errno::Enosys, None),
    };
    let attr = attr_of_size(cutting.node, cutting.size);
    end(unique, FuseReply::Attr { unique, attr }, done)
}

/// Writes out the tree of a writable file, and replies.
pub(crate) fn sync<H: Host>(
    files: &mut BTreeMap<u32, RwFile<Leaves>>,
    host: &mut H,
    unique: u64,
    number: u32,
    buf: &mut Buffers,
) -> FuseAnswer
    ensures did { (f : WritableFile) → writable_at files.old.entries number ≡ Some f
        → (served : List ℕ) → Answered (Ok (syncs number f))
        files.old.entries files.new.entries (H.told host.old) (H.told host.new)
        (answer_by result.reply served) result.cause }
    ensures number { IfSome result.reply (λ r. unique_of r ≡ unique) }
{
    let done = match files.get_mut(&number) {
        Some(file) => file.sync(host, buf),
        None => return refuse(unique, Errno::Enosys, None),
    };
    end(unique, FuseReply::Empty { unique }, done)
}
