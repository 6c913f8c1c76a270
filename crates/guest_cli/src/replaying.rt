// A replay of a tape.
ghost use Rattle.std.specs.Prelude.{◌≡◌, ◌≤◌, ◌+◌, ℕ, List, length, IfOk, IfErr, None, ◌⊎◌};
ghost use Rattle.host_traits.specs.Told.{Rose};
ghost use Rattle.host_tape.specs.Played.{unplayed};
ghost use Rattle.guest_plan.specs.Plans.{known};
ghost use Rattle.guest_plan.specs.Spelling.{IsPlan};
ghost use Rattle.guest_cli.specs.Guest.{LoadCause};
ghost use Rattle.guest_cli.specs.Planned.{first_unbuilt};
ghost use Rattle.guest_cli.specs.Replay.{Replays};
ghost use Rattle.guest_cli.specs.Loads.{Taped, IsReady, InputsFail, InputsCause, PlayOutcome};

use crate::boot::boot;
use crate::outside::{boot_status, load, made_status, planned};
use crate::session::session;
use crate::status::Status;
use guest_boot::Entropy;
use guest_plan::Plan;
use host_tape::{Tape, TapeFault, read_tape};
use host_traits::{Folder, Sink, Source};
use std::alloc::Global;

// The tape of some bytes.
fn taped(alloc: Global, bytes: Vec<u8>) -> Result<Tape, Status>
    ensures { Taped bytes.items result }
{
    match read_tape(alloc, bytes) {
        Ok(tape) => Ok(tape),
        Err(TapeFault::At { at }) => Err(Status::TapeFault { at }),
        Err(TapeFault::Memory) => Err(Status::Memory),
    }
}

// What a replay works on.
#[derive(Drop)]
struct Inputs {
    plan: Plan,
    tape: Tape,
    entropy: Entropy,
}

// Loads the files of a replay in the order of the words, and reads each by its grammar before the next is loaded.
fn load_inputs<F: Folder>(
    alloc: Global,
    folder: &mut F,
    plan: &str,
    tape: &str,
    entropy: &str,
) -> Result<Inputs, Status>
    ensures files { F.files folder.new ≡ F.files folder.old }
    ensures ok { IfOk result
        (λ i. IsReady (F.files folder.old) plan.now tape.now entropy.now (known i.plan) i.tape
        i.entropy) }
    ensures err { IfErr result (InputsFail (F.files folder.old) plan.now tape.now entropy.now) }
    ensures cause { InputsCause (F.faults folder.old) (F.faults folder.new)
        (F.last_failed folder.new) result }
{
    let mut loaded = 0;
    let text = match load(alloc, folder, plan, &mut loaded) {
        Ok(text) => text,
        Err(status) => return Err(status),
    };
    let plan = match planned(alloc, &text) {
        Ok(plan) => plan,
        Err(status) => return Err(status),
    };
    let bytes = match load(alloc, folder, tape, &mut loaded) {
        Ok(bytes) => bytes,
        Err(status) => return Err(status),
    };
    let tape = match taped(alloc, bytes) {
        Ok(tape) => tape,
        Err(status) => return Err(status),
    };
    let entropy = match load(alloc, folder, entropy, &mut loaded) {
        Ok(entropy) => Entropy::new(entropy),
        Err(status) => return Err(status),
    };
    Ok(Inputs {
        plan,
        tape,
        entropy,
    })
}

// Boots, and answers the stream from the tape.
fn play<S: Source, K: Sink, L: Sink>(
    alloc: Global,
    inputs: Inputs,
    input: &mut S,
    out: &mut K,
    log: &mut L,
) -> Status
    requires plan { (text : List ℕ) × IsPlan text (known inputs.plan) }
    requires built { first_unbuilt (known inputs.plan) ≡ None }
    requires fresh { inputs.tape ≡ unplayed inputs.tape.records }
    ensures played { PlayOutcome (known inputs.plan) inputs.tape inputs.entropy
        (record { input = S.left input.old; out = K.holds out.old; log = L.holds log.old })
        (record { input = S.left input.new; out = K.holds out.new; log = L.holds log.new }) result }
    ensures read { result ≡ Status.ReadFault → Rose (S.faults input.old) (S.faults input.new) }
    ensures write { result ≡ Status.WriteFault → Rose (K.faults out.old) (K.faults out.new) ⊎ Rose
        (L.faults log.old) (L.faults log.new) }
    ensures out { K.faults out.old ≤ K.faults out.new }
    ensures log { L.faults log.old ≤ L.faults log.new }
{
    let Inputs {
        plan,
        mut tape,
        entropy,
    } = inputs;
    let mut machine = match boot(alloc, &plan, entropy, &mut tape) {
        Ok(machine) => machine,
        Err(fault) => return boot_status(fault),
    };
    let ended = session(
        alloc,
        &mut machine.engine,
        &mut machine.splitter,
        &mut tape,
        input,
        out,
        log,
    );
    made_status(ended)
}

// A replay of a tape.
pub(crate) fn replay<F: Folder, S: Source, K: Sink, L: Sink>(
    alloc: Global,
    plan: &str,
    tape: &str,
    entropy: &str,
    folder: &mut F,
    input: &mut S,
    out: &mut K,
    log: &mut L,
) -> Status
    ensures files { F.files folder.new ≡ F.files folder.old }
    ensures replays { Replays (F.files folder.old) plan.now tape.now entropy.now
        (record { input = S.left input.old; out = K.holds out.old; log = L.holds log.old })
        (record { input = S.left input.new; out = K.holds out.new; log = L.holds log.new }) result }
    ensures file { LoadCause (F.faults folder.old) (F.faults folder.new) (F.last_failed folder.new)
        result }
    ensures read { result ≡ Status.ReadFault → Rose (S.faults input.old) (S.faults input.new) }
    ensures write { result ≡ Status.WriteFault → Rose (K.faults out.old) (K.faults out.new) ⊎ Rose
        (L.faults log.old) (L.faults log.new) }
    ensures out { K.faults out.old ≤ K.faults out.new }
    ensures log { L.faults log.old ≤ L.faults log.new }
{
    match load_inputs(alloc, folder, plan, tape, entropy) {
        Ok(inputs) => play(alloc, inputs, input, out, log),
        Err(status) => status,
    }
}
