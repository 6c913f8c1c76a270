// A message, and its answer.
ghost use Rattle.std.specs.Prelude.{◌≡◌, ◌≤◌, [], Some, None, Ok, Result, IfSome};
ghost use Rattle.host_traits.specs.Did.{Did};
ghost use Rattle.verity_path.specs.Range.{most_answers};
ghost use Rattle.mg_base.specs.declared.errno.Errno.{Errno};
ghost use Rattle.fuse_codec.specs.Sent.{unique_of};
ghost use Rattle.fuse_server.specs.Aims.{Aim, reads};
ghost use Rattle.fuse_server.specs.Deeds.{IsDeed, AreFew, Answers, StaysBy};
ghost use Rattle.fuse_server.specs.Answers.{Answered, read_answer};
ghost use Rattle.fuse_server.specs.Rows.{IsFileRead, ReadRow, FuseIsRight, answer_by};

use crate::deed::{Deed, Reading};
use crate::written::{cut, load, store, sync};
use fuse_codec::FuseReply;
use host_traits::Host;
use mg_base::Errno;
use rw_file::RwFile;
use rw_leaves::Leaves;
use std::collections::BTreeMap;
use verity_path::{Buffers, Cause, Served, WalkFault};

/// The reply, where there is one, and why it is a failure.
#[derive(Drop)]
pub struct FuseAnswer {
    pub reply: Option<FuseReply>,
    pub cause: Option<Cause>,
}

// A refusal.
pub(crate) fn refuse(unique: u64, errno: Errno, cause: Option<Cause>) -> FuseAnswer
    ensures { result ≡ record { reply = Some (FuseReply.Error unique errno); cause = cause } }
{
    FuseAnswer {
        reply: Some(FuseReply::Error { unique, errno }),
        cause,
    }
}

// The reply to a read that ended so.
fn read_end(unique: u64, done: Result<(), WalkFault>) -> FuseAnswer
    ensures { result ≡ read_answer unique done }
{
    match done {
        Ok(()) => FuseAnswer {
            reply: Some(FuseReply::Bytes { unique }),
            cause: None,
        },
        Err(WalkFault::Mismatch(mismatch)) => {
            refuse(unique, Errno::Eio, Some(Cause::Mismatch(mismatch)))
        }
        Err(WalkFault::Short { asked, got }) => {
            refuse(unique, Errno::Eio, Some(Cause::Short { asked, got }))
        }
        Err(WalkFault::Failed { faults }) => {
            refuse(unique, Errno::Eio, Some(Cause::Failed { faults }))
        }
        Err(WalkFault::Memory) => refuse(unique, Errno::Enomem, None),
    }
}

// Reads a file, and replies.
fn answer_read<H: Host>(
    host: &mut H,
    unique: u64,
    reading: &Reading,
    buf: &mut Buffers,
    served: &mut Served,
) -> FuseAnswer
    requires empty { served.old ≡ [] }
    requires few { reading.now.size ≤ 131072 }
    ensures did { Did (IsFileRead reading.now.file reading.now.offset reading.now.size)
        (most_answers reading.now.file.measure reading.now.file.size
        reading.now.offset reading.now.size)
        (H.told host.old) (H.told host.new)
        (λ t. ReadRow reading.now.file reading.now.offset reading.now.size t
        (answer_by result.reply served.new) result.cause) }
    ensures held { FuseIsRight (Ok (reads reading.now.file reading.now.offset reading.now.size))
        (H.told host.old) (H.told host.new)
        (answer_by result.reply served.new) }
    ensures number { IfSome result.reply (λ r. unique_of r ≡ unique) }
{
    let done = reading.file.read(
        host,
        reading.offset,
        reading.size,
        &mut buf.raw,
        &mut buf.page,
        served,
    );
    read_end(unique, done)
}

// What is answered without a call.
pub(crate) fn said(reply: Option<FuseReply>) -> FuseAnswer
    ensures { result ≡ record { reply = reply; cause = None } }
{
    FuseAnswer { reply, cause: None }
}

/// The reply to what a message came to, after the work on a file that it aims at.
pub(crate) fn finish<H: Host>(
    files: &mut BTreeMap<u32, RwFile<Leaves>>,
    host: &mut H,
    unique: u64,
    deed: Result<Deed<'_>, Errno>,
    buf: &mut Buffers,
    served: &mut Served,
) -> FuseAnswer
    requires empty { served.old ≡ [] }
    requires few { AreFew deed }
    ensures did { (aim : Result Aim Errno) → IsDeed files.old.entries aim deed.entry
        → Answered aim files.old.entries files.new.entries (H.told host.old) (H.told host.new)
        (answer_by result.reply served.new) result.cause }
    ensures held { (aim : Result Aim Errno) → IsDeed files.old.entries aim deed.entry
        → FuseIsRight aim (H.told host.old) (H.told host.new)
        (answer_by result.reply served.new) }
    ensures says { Answers deed.entry (answer_by result.reply served.new) }
    ensures stays { StaysBy deed.entry files.old.entries files.new.entries }
    ensures number { IfSome result.reply (λ r. unique_of r ≡ unique) }
{
    match deed {
        Ok(Deed::Silent) => said(None),
        Ok(Deed::Empty) => said(Some(FuseReply::Empty { unique })),
        Ok(Deed::Entry(entry)) => said(Some(FuseReply::Entry { unique, entry })),
        Ok(Deed::Attr(attr)) => said(Some(FuseReply::Attr { unique, attr })),
        Ok(Deed::Opened(handle)) => said(Some(FuseReply::Opened { unique, handle })),
        Ok(Deed::Statfs) => said(Some(FuseReply::Statfs { unique })),
        Ok(Deed::Init(init)) => said(Some(FuseReply::Init { unique, init })),
        Ok(Deed::Names(listing)) => said(Some(FuseReply::Names { unique, listing })),
        Ok(Deed::NoneWritten) => said(Some(FuseReply::Written { unique, count: 0 })),
        Ok(Deed::Read(reading)) => answer_read(host, unique, &reading, buf, served),
        Ok(Deed::Load(loading)) => load(files, host, unique, &loading, buf, served),
        Ok(Deed::Store(storing)) => store(files, host, unique, &storing, buf),
        Ok(Deed::Cut(cutting)) => cut(files, host, unique, &cutting, buf),
        Ok(Deed::Sync(number)) => sync(files, host, unique, number, buf),
        Err(errno) => refuse(unique, errno, None),
    }
}
