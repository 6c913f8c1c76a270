// The instance line of a plan, opened before its lines.
ghost use Rattle.std.specs.Prelude.{◌≡◌, ℕ, List, [], MatchOption, None, Some};
ghost use Rattle.host_traits.specs.Did.{Did};
ghost use Rattle.guest_plan.specs.Plans.{known};
ghost use Rattle.guest_plan.specs.Spelling.{IsPlan};
ghost use Rattle.guest_boot.specs.Booting.{IsForLines, IsForImage, image_cause, instance_in, ImageOutcome, InstanceOutcome, most_of_instance};

use crate::faults::{BootCause, BootFault};
use crate::tables::{DiskTable, part_on};
use guest_plan::{Plan, PlanLine};
use host_traits::{Host, Raw};
use instance_image::{Image, ImageFault, open_image};
use std::alloc::Global;
use text_lines::Name;

// The cause of an image that was not opened. Want of memory is boot's own.
fn image_cause(fault: ImageFault) -> BootCause
    ensures { result ≡ image_cause fault }
{
    match fault {
        ImageFault::Memory => BootCause::Memory,
        _ => BootCause::Image(fault),
    }
}

// The image in a part of a disk.
fn boot_image<H: Host>(
    alloc: Global,
    host: &mut H,
    disk: u32,
    part: &Name,
    salt: &[u8; 64],
    tables: &mut Vec<DiskTable>,
    raw: &mut Raw,
) -> Result<Image, BootCause>
    ensures { Did (IsForImage disk) 261 (H.told host.old) (H.told host.new)
        (ImageOutcome tables.old.items disk part.now salt.now tables.new.items result) }
{
    let span = match part_on(alloc, host, disk, part, tables, raw) {
        Ok(span) => span,
        Err(why) => return Err(why),
    };
    match open_image(alloc, host, disk, span, salt, raw) {
        Ok(image) => Ok(image),
        Err(fault) => Err(image_cause(fault)),
    }
}

// The first instance line: how many lines stand before it, its disk and its part.
#[tactic(auto, unfolding(crate::specs::Booting::instance_from))]
fn instance_in(lines: &[PlanLine]) -> Option<(usize, u32, &Name)>
    ensures { MatchOption result (instance_in lines.now ≡ None)
        (λ i. instance_in lines.now
        ≡ Some (record { at = i.0; disk = i.1; part = i.2.now })) }
{
    for at in 0..lines.len() {
        if let PlanLine::Instance { disk, part } = &lines[at] {
            return Some((at, *disk, part));
        }
    }
    None
}

// The image of a plan, where it has an instance line.
pub fn open_instance<H: Host>(
    alloc: Global,
    host: &mut H,
    plan: &Plan,
    tables: &mut Vec<DiskTable>,
    raw: &mut Raw,
) -> Result<Option<Image>, BootFault>
    requires plan { (text : List ℕ) × IsPlan text (known plan.now) }
    requires none { tables.old.items ≡ [] }
    ensures { Did (IsForLines plan.now.lines.items)
        (most_of_instance (instance_in plan.now.lines.items)) (H.told host.old) (H.told host.new)
        (InstanceOutcome plan.now.salt plan.now.lines.items plan.now.numbers.items
        tables.new.items result) }
{
    let Some((at, disk, part)) = instance_in(&plan.lines) else {
        return Ok(None);
    };
    let Some(salt) = &plan.salt else {
        unreachable!();
    };
    match boot_image(alloc, host, disk, part, salt, tables, raw) {
        Ok(image) => Ok(Some(image)),
        Err(why) => Err(BootFault {
            line: plan.numbers[at],
            why,
        }),
    }
}
