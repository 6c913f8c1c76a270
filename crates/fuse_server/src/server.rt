// The server, and its answer to a message.
ghost use Rattle.std.specs.Prelude.{◌≡◌, ◌≤◌, false, [], length, Ok, IfSome};
ghost use Rattle.host_traits.specs.Did.{DidBy};
ghost use Rattle.fuse_codec.specs.Reading.{decoded};
ghost use Rattle.fuse_codec.specs.Said.{asked_of, message_of, AreWhole};
ghost use Rattle.fuse_codec.specs.Sent.{unique_of};
ghost use Rattle.fuse_server.specs.Aims.{aim_of, number_of};
ghost use Rattle.fuse_server.specs.Answers.{Answered, bad_answer};
ghost use Rattle.fuse_server.specs.Deeds.{IsFew};
ghost use Rattle.fuse_server.specs.Effects.{Next};
ghost use Rattle.fuse_server.specs.Parts.{state_of};
ghost use Rattle.fuse_server.specs.FileRows.{around};
ghost use Rattle.fuse_server.specs.Rows.{FuseRow, IsForFuse, most_for_fuse, FuseIsRight, answer_by};

use crate::answer::{FuseAnswer, finish, refuse, said};
use crate::files::Files;
use crate::parts::Parts;
use crate::perform::perform;
use crate::writables::Writables;
use authfs_dirs::Dirs;
use authfs_files::Handles;
use fuse_codec::{BadMessage, Request, decode};
use host_traits::Host;
use mg_base::Errno;
use std::alloc::Global;
use std::marker::Model;
use verity_path::{Buffers, Served};

/// What answers messages: names and nodes, open handles, read-only and writable files, and whether INIT was answered.
/// Contracts see its state.
#[derive(Drop)]
pub struct Server {
    parts: Parts,
}

impl Model for Server {
    ghost use Rattle.fuse_server.specs.State.{State};
    ghost use Rattle.fuse_server.specs.Parts.{state_of};

    ghost Value = { State };

    ghost use Rattle.std.specs.Coded.{codes};
    ghost use Rattle.std.specs.FinMap as table;

    ghost coded = { Prim.hlevel (codes, table.code) };

    ghost view = { λ s. state_of s.parts };
}

// The answer to a message that breaks a rule.
fn answer_bad(bad: BadMessage) -> FuseAnswer
    ensures { result ≡ bad_answer bad }
{
    match bad {
        BadMessage::Quiet => said(None),
        BadMessage::Length { unique } => refuse(unique, Errno::Einval, None),
        BadMessage::Opcode { unique, .. } => refuse(unique, Errno::Enosys, None),
        BadMessage::Sizes { unique } => refuse(unique, Errno::Einval, None),
    }
}

// The answer to a message that was read.
fn answer_request<H: Host>(
    parts: &mut Parts,
    host: &mut H,
    request: &Request<'_>,
    buf: &mut Buffers,
    served: &mut Served,
) -> FuseAnswer
    requires empty { served.old ≡ [] }
    requires few { IsFew (asked_of request.now.body) }
    requires whole { AreWhole request.now.body }
    ensures did { Answered (aim_of (state_of parts.old) (Ok (message_of request.now)))
        parts.old.writables.entries parts.new.writables.entries
        (H.told host.old) (H.told host.new)
        (answer_by result.reply served.new) result.cause }
    ensures held { FuseIsRight (aim_of (state_of parts.old) (Ok (message_of request.now)))
        (H.told host.old) (H.told host.new) (answer_by result.reply served.new) }
    ensures next { Next (state_of parts.old) (Ok (message_of request.now))
        (answer_by result.reply served.new) (state_of parts.new) }
    ensures number { IfSome result.reply (λ r. unique_of r ≡ request.now.unique) }
{
    let deed = perform(parts, request.node, &request.body);
    finish(
        &mut parts.writables,
        host,
        request.unique,
        deed,
        buf,
        served,
    )
}

impl Server {
    /// A server that was not initialised, of these names, read-only files and writable files, without handles. It takes no
    /// memory.
    pub fn new(alloc: Global, dirs: Dirs, files: Files, writables: Writables) -> Server
        ensures { result ≡ record {
          ready = false;
          names = dirs;
          open_handles = [];
          given = 0;
          files = files;
          writables = writables;
        } }
    {
        Server {
            parts: Parts {
                ready: false,
                dirs,
                handles: Handles::new(alloc),
                files,
                writables: writables.into_map(),
            },
        }
    }

    /// The answer to a message of at least 40 bytes. A READ of a read-only file asks for the blocks that its range touches and
    /// the pages above them; a READ, a WRITE, another size and an FSYNC of a writable file make the calls of `RwFile`; no
    /// other message makes a call. Memory is taken for a handle, for a listing, and for the digests of a writable file.
    pub fn answer<H: Host>(
        &mut self,
        host: &mut H,
        message: &[u8],
        buf: &mut Buffers,
        served: &mut Served,
    ) -> FuseAnswer
        requires { 40 ≤ length message.now }
        // The calls that were made, the answer with its cause, and the writable files after it.
        ensures did { DidBy (IsForFuse (aim_of self.old (decoded message.now)))
            (most_for_fuse (aim_of self.old (decoded message.now)))
            (H.told host.old) (H.told host.new)
            (λ t. FuseRow (aim_of self.old (decoded message.now))
            (around self.old.writables self.new.writables (H.told host.old) (H.told host.new) t)
            (answer_by result.reply served.new) result.cause) }
        // Over a host that holds a read-only file, where no call failed or it is honest, a READ's
        // bytes or want of memory.
        ensures held { FuseIsRight (aim_of self.old (decoded message.now))
            (H.told host.old) (H.told host.new) (answer_by result.reply served.new) }
        // The state after it.
        ensures next { Next self.old (decoded message.now)
            (answer_by result.reply served.new) self.new }
        // A reply has the message's number.
        ensures number { IfSome result.reply
            (λ r. unique_of r ≡ number_of (decoded message.now)) }
    {
        served.clear();
        match decode(message) {
            Ok(request) => answer_request(&mut self.parts, host, &request, buf, served),
            Err(bad) => answer_bad(bad),
        }
    }
}
