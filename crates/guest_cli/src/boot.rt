// From a plan to a machine.
ghost use Rattle.std.specs.Prelude.{◌≡◌, ℕ, List, [], IfOk, None};
ghost use Rattle.guest_boot.specs.Recording.{DidWriting};
ghost use Rattle.guest_plan.specs.Plans.{known};
ghost use Rattle.guest_plan.specs.Spelling.{IsPlan};
ghost use Rattle.guest_boot.specs.Booting.{IsForLines, most_of};
ghost use Rattle.guest_cli.specs.Planned.{is_built, unbuilt_in, first_unbuilt};
ghost use Rattle.guest_cli.specs.Booted.{BootedOutcome, records_of};

use crate::engine::Engine;
use crate::records::Records;
use guest_boot::{BootCause, BootFault, Entropy, Opened, open_lines};
use guest_names::plant_lines;
use guest_plan::{Plan, PlanLine};
use host_traits::{Host, Raw};
use instance_image::Image;
use mg_base::{Memory, Page};
use session_frames::Splitter;
use std::alloc::Global;
use verity_path::{Buffers, Served};

/// What a session works on.
#[derive(Drop)]
pub struct Machine {
    pub engine: Engine,
    pub splitter: Splitter,
}

// Is it a line that is served?
fn is_built(line: &PlanLine) -> bool
    ensures { result ≡ is_built line.now }
{
    match line {
        PlanLine::Instance { .. }
        | PlanLine::Blob { .. }
        | PlanLine::Apk { .. }
        | PlanLine::File { .. }
        | PlanLine::Write { .. } => true,
        PlanLine::WriteDir { .. } => false,
    }
}

// The number of the first of these lines that isn't served.
fn unbuilt_in(lines: &[PlanLine], numbers: &[u64]) -> Option<u64>
    ensures { result ≡ unbuilt_in lines.now numbers.now }
{
    let [line, later @ ..] = lines else {
        return None;
    };
    let [number, rest @ ..] = numbers else {
        return None;
    };
    if is_built(line) {
        return unbuilt_in(later, rest);
    }
    Some(*number)
}

/// The first line of a plan that asks for what isn't served yet: that of a directory that is written.
pub fn first_unbuilt(plan: &Plan) -> Option<u64>
    ensures { result ≡ first_unbuilt (known plan.now) }
{
    unbuilt_in(&plan.lines, &plan.numbers)
}

// The image with the plan's secret, where there are both.
fn records_of(image: Option<Image>, secret: &Option<[u8; 32]>) -> Option<Records>
    ensures { result ≡ records_of image secret.now }
{
    match (image, secret) {
        (Some(image), Some(secret)) => Some(Records {
            image,
            secret: *secret,
        }),
        _ => None,
    }
}

// Room for one answer, one page, one reply and one frame.
#[derive(Drop)]
struct Rooms {
    served: Served,
    buf: Buffers,
    splitter: Splitter,
}

fn take_rooms(alloc: Global) -> Result<Rooms, Memory>
    ensures splitter { IfOk result (λ r. r.splitter ≡ record { held = []; at = 0 }) }
{
    let served = Served::new(alloc)?;
    let raw = Raw::new(alloc)?;
    let page = Page::new(alloc)?;
    let splitter = Splitter::new(alloc)?;
    Ok(Rooms {
        served,
        buf: Buffers { raw, page },
        splitter,
    })
}

// There was no memory, which is no line's fault.
fn no_memory() -> BootFault
    ensures { result ≡ record { line = 1; why = BootCause.Memory } }
{
    BootFault {
        line: 1,
        why: BootCause::Memory,
    }
}

/// Makes a machine for a plan, by calls of the host: its instance image is opened first, and then its lines in their order. A measure
/// that is put into a record takes entropy; the machine has what is left. Room for
/// one answer, one page, one reply and one frame is taken here, and none later: over a host that takes no memory, a measured read
/// takes none.
pub fn boot<H: Host>(
    alloc: Global,
    plan: &Plan,
    entropy: Entropy,
    host: &mut H,
) -> Result<Machine, BootFault>
    requires plan { (text : List ℕ) × IsPlan text (known plan.now) }
    ensures booted { DidWriting (IsForLines plan.now.lines.items) (most_of plan.now.lines.items)
        (H.told host.old) (H.told host.new) (BootedOutcome (known plan.now) entropy result) }
    ensures splitter { IfOk result (λ m. m.splitter ≡ record { held = []; at = 0 }) }
{
    let Rooms {
        served,
        mut buf,
        splitter,
    } = match take_rooms(alloc) {
        Ok(rooms) => rooms,
        Err(_) => return Err(no_memory()),
    };
    let Opened {
        items,
        files,
        image,
        entropy,
    } = match open_lines(alloc, host, plan, entropy, &mut buf.raw) {
        Ok(opened) => opened,
        Err(fault) => return Err(fault),
    };
    let server = match plant_lines(alloc, plan, &files) {
        Ok(server) => server,
        Err(_) => return Err(no_memory()),
    };
    let records = records_of(image, &plan.secret);
    Ok(Machine {
        engine: Engine::new(items, server, records, entropy, served, buf),
        splitter,
    })
}
