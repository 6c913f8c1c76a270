// A session over a host that is made from a store list, and recorded.
ghost use Rattle.std.specs.Prelude.{◌≡◌, ◌≤◌, ◌+◌, ◌^◌, ℕ, List, length, IfOk, IfErr, Ok, Err, None, ◌⊎◌};
ghost use Rattle.host_traits.specs.Told.{Rose};
ghost use Rattle.host_mem.specs.Mem.{mem_held, unused};
ghost use Rattle.guest_plan.specs.Plans.{known};
ghost use Rattle.guest_plan.specs.Spelling.{IsPlan};
ghost use Rattle.guest_plan.specs.Stores.{IsStore};
ghost use Rattle.guest_cli.specs.Planned.{first_unbuilt};
ghost use Rattle.guest_cli.specs.Serve.{ServesList};
ghost use Rattle.guest_cli.specs.Guest.{FileCause};
ghost use Rattle.guest_cli.specs.Loads.{Listed, IsStocked, ServedFails, InputsCause, SatOutcome, StoreOutcome, StoresCause};

use crate::boot::boot;
use crate::outside::{boot_status, load, made_status, planned, refused};
use crate::session::session;
use crate::status::Status;
use guest_boot::Entropy;
use guest_files::{keep, stock, store_file};
use guest_plan::{Plan, PlanFault, Store, StoreLine, read_store};
use host_mem::MemHost;
use host_rec::Recorder;
use host_traits::{Folder, Sink, Source};
use std::alloc::Global;

// The lines of a store list's text.
fn listed(alloc: Global, text: &[u8]) -> Result<Store, Status>
    ensures { Listed text.now result }
{
    match read_store(alloc, text) {
        Ok(list) => Ok(list),
        Err(PlanFault::At { line, kind }) => Err(Status::StoreFault { line, kind }),
        Err(PlanFault::Memory) => Err(Status::Memory),
    }
}

// What a session works on.
#[derive(Drop)]
struct Inputs {
    plan: Plan,
    list: Store,
    host: MemHost,
    entropy: Entropy,
}

// Loads the plan, the store list, the files that it names, and the entropy, in this order, and reads each before the next is
// loaded.
fn load_inputs<F: Folder>(
    alloc: Global,
    folder: &mut F,
    plan: &str,
    store: &str,
    entropy: &str,
) -> Result<Inputs, Status>
    ensures files { F.files folder.new ≡ F.files folder.old }
    ensures ok { IfOk result
        (λ i. IsStocked (F.files folder.old) plan.now store.now entropy.now (known i.plan)
        i.list.lines.items (mem_held i.host) i.entropy) }
    ensures count { IfOk result (λ i. i.host.count ≡ unused) }
    ensures err { IfErr result (ServedFails (F.files folder.old) plan.now store.now entropy.now) }
    ensures cause { InputsCause (F.faults folder.old) (F.faults folder.new)
        (F.last_failed folder.new) result }
{
    let mut loaded = 0;
    let text = match load(alloc, folder, plan, &mut loaded) {
        Ok(text) => text,
        Err(status) => return Err(status),
    };
    let plan = match planned(alloc, &text) {
        Ok(plan) => plan,
        Err(status) => return Err(status),
    };
    let text = match load(alloc, folder, store, &mut loaded) {
        Ok(text) => text,
        Err(status) => return Err(status),
    };
    let list = match listed(alloc, &text) {
        Ok(list) => list,
        Err(status) => return Err(status),
    };
    let host = match stock(alloc, folder, &list.lines, &mut loaded) {
        Ok(host) => host,
        Err(refusal) => return Err(refused(refusal)),
    };
    let entropy = match load(alloc, folder, entropy, &mut loaded) {
        Ok(entropy) => Entropy::new(entropy),
        Err(status) => return Err(status),
    };
    Ok(Inputs {
        plan,
        list,
        host,
        entropy,
    })
}

// Boots, and answers the stream from the host, which is recorded.
fn sit<S: Source, K: Sink, L: Sink>(
    alloc: Global,
    plan: &Plan,
    host: MemHost,
    entropy: Entropy,
    input: &mut S,
    out: &mut K,
    log: &mut L,
) -> Result<Recorder<MemHost>, Status>
    requires plan { (text : List ℕ) × IsPlan text (known plan.now) }
    requires built { first_unbuilt (known plan.now) ≡ None }
    requires fresh { host.count ≡ unused }
    ensures sat { SatOutcome (known plan.now) (mem_held host) entropy
        (record { input = S.left input.old; out = K.holds out.old; log = L.holds log.old })
        (record { input = S.left input.new; out = K.holds out.new; log = L.holds log.new }) result }
    ensures read { result ≡ Err Status.ReadFault → Rose (S.faults input.old) (S.faults input.new) }
    ensures write { result ≡ Err Status.WriteFault → Rose (K.faults out.old) (K.faults out.new) ⊎
        Rose (L.faults log.old) (L.faults log.new) }
    ensures out { K.faults out.old ≤ K.faults out.new }
    ensures log { L.faults log.old ≤ L.faults log.new }
{
    let mut host = Recorder::new(alloc, host);
    let mut machine = match boot(alloc, plan, entropy, &mut host) {
        Ok(machine) => machine,
        Err(fault) => return Err(boot_status(fault)),
    };
    let ended = session(
        alloc,
        &mut machine.engine,
        &mut machine.splitter,
        &mut host,
        input,
        out,
        log,
    );
    match ended {
        Ok(()) => Ok(host),
        Err(_) => Err(made_status(ended)),
    }
}

// Stores the tape of all calls, and then what the lines keep.
fn store_all<F: Folder>(
    alloc: Global,
    folder: &mut F,
    tape_out: &str,
    host: &Recorder<MemHost>,
    lines: &[StoreLine],
) -> Status
    ensures stored { StoreOutcome (F.files folder.old) tape_out.now host.now.kept.items
        (mem_held host.now.host) lines.now (F.files folder.new) result }
    ensures each { length host.now.kept.calls ≡ length host.now.kept.items }
    ensures cause { StoresCause (F.faults folder.old) (F.faults folder.new)
        (F.last_failed folder.new) result }
{
    match store_file(alloc, folder, tape_out, host.text()) {
        Ok(()) => {}
        Err(refusal) => return refused(refusal),
    }
    match keep(alloc, folder, host.host(), lines) {
        Ok(()) => Status::Done,
        Err(refusal) => refused(refusal),
    }
}

// A session over the host of a store list.
pub(crate) fn serve_list<F: Folder, S: Source, K: Sink, L: Sink>(
    alloc: Global,
    plan: &str,
    store: &str,
    entropy: &str,
    tape_out: &str,
    folder: &mut F,
    input: &mut S,
    out: &mut K,
    log: &mut L,
) -> Status
    ensures serves { ServesList (F.files folder.old) (F.files folder.new) (F.last_failed folder.new)
        plan.now store.now entropy.now tape_out.now
        (record { input = S.left input.old; out = K.holds out.old; log = L.holds log.old }) (record { input = S.left input.new; out = K.holds out.new; log = L.holds log.new }) result }
    ensures file { FileCause (F.faults folder.old) (F.faults folder.new) (F.last_failed folder.new)
        result }
    ensures read { result ≡ Status.ReadFault → Rose (S.faults input.old) (S.faults input.new) }
    ensures write { result ≡ Status.WriteFault → Rose (K.faults out.old) (K.faults out.new) ⊎ Rose
        (L.faults log.old) (L.faults log.new) }
    ensures out { K.faults out.old ≤ K.faults out.new }
    ensures log { L.faults log.old ≤ L.faults log.new }
{
    let inputs = match load_inputs(alloc, folder, plan, store, entropy) {
        Ok(inputs) => inputs,
        Err(status) => return status,
    };
    let Inputs {
        plan,
        list,
        host,
        entropy,
    } = inputs;
    match sit(alloc, &plan, host, entropy, input, out, log) {
        Ok(host) => store_all(alloc, folder, tape_out, &host, &list.lines),
        Err(status) => status,
    }
}
