// The top call.
ghost use Rattle.std.specs.Prelude.{◌≡◌, ◌≤◌, ◌+◌, ℕ, List, map, string_bytes, ◌⊎◌};
ghost use Rattle.host_traits.specs.Told.{Rose};
ghost use Rattle.guest_cli.specs.Guest.{Serves, Guest, FileCause};
ghost use Rattle.guest_cli.specs.Words.{command_of};

use crate::replaying::replay;
use crate::serving::serve_list;
use crate::status::{Form, Status, write_end};
use crate::words::{Command, command_of};
use host_traits::{Folder, Sink, Source};
use std::alloc::Global;

// What the words ask for, before the end line.
fn serve<F: Folder, S: Source, K: Sink, L: Sink>(
    alloc: Global,
    words: &[String],
    folder: &mut F,
    input: &mut S,
    out: &mut K,
    log: &mut L,
) -> Status
    ensures serves { Serves (command_of (map string_bytes words.now))
        (record {
          old = F.files folder.old;
          new = F.files folder.new;
          last = F.last_failed
              folder.new;
        }) (record
        { input = S.left input.old; out = K.holds out.old; log = L.holds log.old })
        (record { input = S.left input.new; out = K.holds out.new; log = L.holds log.new }) result }
    ensures file { FileCause (F.faults folder.old) (F.faults folder.new) (F.last_failed folder.new)
        result }
    ensures read { result ≡ Status.ReadFault → Rose (S.faults input.old) (S.faults input.new) }
    ensures write { result ≡ Status.WriteFault → Rose (K.faults out.old) (K.faults out.new) ⊎ Rose
        (L.faults log.old) (L.faults log.new) }
    ensures out { K.faults out.old ≤ K.faults out.new }
    ensures log { L.faults log.old ≤ L.faults log.new }
{
    match command_of(words) {
        Some(
            Command::Replay {
                plan,
                tape,
                entropy,
            },
        ) => replay(alloc, plan, tape, entropy, folder, input, out, log),
        Some(
            Command::Serve {
                plan,
                store,
                entropy,
                tape_out,
            },
        ) => serve_list(
            alloc, plan, store, entropy, tape_out, folder, input, out, log,
        ),
        Some(Command::Soak) => Status::Unbuilt {
            form: Form::Command,
            at: 0,
        },
        None => Status::Usage,
    }
}

/// Runs the guest as the words say. `replay PLAN TAPE ENTROPY` answers the frames of `input` from the records of a tape, with
/// the replies to `out` and the log to `log`; no file changes. `serve PLAN STORE ENTROPY TAPE_OUT` answers them from a host in
/// memory that has what the store list says, and then stores the tape of all calls under TAPE_OUT and what the list's `keep`
/// lines keep; where the session doesn't come to the end of its input, no file changes. A status other than 0 and 6 writes one
/// end line to the log; a fault of that makes the status 6.
///
/// The contract is the promise of the whole product. Of the bytes that came, each frame that was answered is a turn of one run
/// of the machine, in every world whose contents have the plan's measures, in which no two different inputs share a digest, and in
/// which no sealed form was heard in a turn but those of the texts that were sealed before it (`AreSealed`): a read's bytes are
/// the content's slice, and the text that a get is answered with is one of those, of its UUID; or the reply is a refusal by the
/// rules, a fault that the host's own answers to that request caused, or want of memory. A put handed the host the record, sealed
/// under entropy that no other put takes, and nothing else, and the kept size changed only where its write was answered. The
/// replies and the lines of the log are those of these turns and nothing else.
pub fn guest<F: Folder, S: Source, K: Sink, L: Sink>(
    alloc: Global,
    words: &[String],
    folder: &mut F,
    input: &mut S,
    out: &mut K,
    log: &mut L,
) -> Status
    ensures guest { Guest (command_of (map string_bytes words.now))
        (record {
          old = F.files folder.old;
          new = F.files folder.new;
          last = F.last_failed
              folder.new;
        }) (record
        { input = S.left input.old; out = K.holds out.old; log = L.holds log.old })
        (record { input = S.left input.new; out = K.holds out.new; log = L.holds log.new }) result }
    ensures file { FileCause (F.faults folder.old) (F.faults folder.new) (F.last_failed folder.new)
        result }
    ensures read { result ≡ Status.ReadFault → Rose (S.faults input.old) (S.faults input.new) }
    ensures write { result ≡ Status.WriteFault → Rose (K.faults out.old) (K.faults out.new) ⊎ Rose
        (L.faults log.old) (L.faults log.new) }
{
    let status = serve(alloc, words, folder, input, out, log);
    match write_end(&status, log) {
        Ok(()) => status,
        Err(_) => Status::WriteFault,
    }
}
