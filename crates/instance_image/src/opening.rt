// Opening an image: its first sector, and one header a call.
ghost use Rattle.std.specs.Prelude.{◌≡◌, ◌+◌, ◌<◌, ◌≤◌, ◌^◌};
ghost use Rattle.host_traits.specs.Did.{Did};
ghost use Rattle.instance_image.specs.Imaged.{ImageOpens};
ghost use Rattle.instance_image.specs.Opening.{opening, IsImageCall, OpenOutcome};
ghost use Rattle.instance_image.specs.Steps.{IsSector, DiskOutcome, HeaderOutcome};

use crate::faults::ImageFault;
use crate::header::{disk_fault, header_step};
use crate::values::{Image, Part};
use host_traits::{Host, HostError, Raw};
use mg_base::Span;
use std::alloc::Global;

// Asks for the first sector, and tests it.
fn read_disk<H: Host>(
    host: &mut H,
    disk: u32,
    span: Span,
    salt: &[u8; 64],
    raw: &mut Raw,
) -> Result<(), ImageFault>
    requires end { span.first + span.sectors ≤ 2 ^ 40 }
    ensures { Did (IsSector (opening disk span salt.now) 0) 1 (H.told host.old) (H.told host.new)
        (DiskOutcome (opening disk span salt.now) result) }
{
    match host.block_read(disk, span.first, 1, raw) {
        Ok(()) => {}
        Err(HostError::Failed) => {
            let faults = host.faults();
            return Err(ImageFault::Failed { faults });
        }
        Err(HostError::Memory) => return Err(ImageFault::Memory),
    }
    match disk_fault(raw.layout(), salt) {
        Some(fault) => Err(fault),
        None => Ok(()),
    }
}

// Asks for the header in a sector, and reads it.
fn read_header<H: Host>(
    host: &mut H,
    disk: u32,
    span: Span,
    salt: &[u8; 64],
    parts: &[Part],
    next: u64,
    raw: &mut Raw,
) -> Result<Option<Part>, ImageFault>
    requires end { span.first + span.sectors ≤ 2 ^ 40 }
    requires inside { next < span.sectors }
    ensures { Did (IsSector (opening disk span salt.now) next) 1
        (H.told host.old) (H.told host.new)
        (HeaderOutcome (opening disk span salt.now)
        (record { parts = parts.now; next = next }) result) }
{
    match host.block_read(disk, span.first + next, 1, raw) {
        Ok(()) => {}
        Err(HostError::Failed) => {
            let faults = host.faults();
            return Err(ImageFault::Failed { faults });
        }
        Err(HostError::Memory) => return Err(ImageFault::Memory),
    }
    header_step(raw.layout(), next, span.sectors, parts)
}

// Asks for the first sector and for one header after another.
fn read_image<H: Host>(
    alloc: Global,
    host: &mut H,
    disk: u32,
    span: Span,
    salt: &[u8; 64],
    raw: &mut Raw,
) -> Result<Image, ImageFault>
    requires some { 1 ≤ span.sectors }
    requires end { span.first + span.sectors ≤ 2 ^ 40 }
    ensures { Did (IsImageCall (opening disk span salt.now)) 258 (H.told host.old) (H.told host.new)
        (OpenOutcome (opening disk span salt.now) result) }
{
    match read_disk(host, disk, span, salt, raw) {
        Ok(()) => {}
        Err(fault) => return Err(fault),
    }
    let mut parts = Vec::new(alloc);
    let mut next = 1u64;
    'headers: while next < span.sectors {
        let part = match read_header(host, disk, span, salt, parts.as_slice(), next, raw) {
            Ok(Some(part)) => part,
            Ok(None) => {
                return Ok(Image {
                    disk,
                    first: span.first,
                    salt: *salt,
                    parts,
                });
            }
            Err(fault) => return Err(fault),
        };
        match parts.push(part) {
            Ok(()) => {}
            Err(_) => return Err(ImageFault::Memory),
        }
        next += 1 + u64::from(part.reserved);
    }
    Ok(Image {
        disk,
        first: span.first,
        salt: *salt,
        parts,
    })
}

/// Opens the image that stands in these sectors of a disk, by its salt: at least one sector, none
/// behind sector 2^40. It reads the first sector, and then the headers of the partitions, one a
/// call, up to one with a nil UUID or the image's end: at most 258 calls, none after one that
/// failed. A refusal names the first rule that is broken. The image has the partitions whose
/// headers were heard, in order.
pub fn open_image<H: Host>(
    alloc: Global,
    host: &mut H,
    disk: u32,
    span: Span,
    salt: &[u8; 64],
    raw: &mut Raw,
) -> Result<Image, ImageFault>
    requires some { 1 ≤ span.sectors }
    requires end { span.first + span.sectors ≤ 2 ^ 40 }
    // The calls, and what came of them.
    ensures opened { Did (IsImageCall (opening disk span salt.now)) 258
        (H.told host.old) (H.told host.new) (OpenOutcome (opening disk span salt.now) result) }
    // Over a host that holds an image there, where no call failed or it is honest, its partitions or
    // want of memory; and what is opened over a host that tells what it holds is an image there.
    ensures held { ImageOpens (opening disk span salt.now)
        (H.told host.old) (H.told host.new) result }
{
    read_image(alloc, host, disk, span, salt, raw)
}
