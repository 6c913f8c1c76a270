// A plan: its instance image, and then its lines in their order.
ghost use Rattle.std.specs.Prelude.{◌≡◌, ◌≤◌, ℕ, List, IfOk, IfSome, IsSome, MatchOption, None, Some, option_copied, true};
ghost use Rattle.host_traits.specs.Did.{Did};
ghost use Rattle.ro_file.specs.Opening.{IsDescriptorCall};
ghost use Rattle.guest_plan.specs.Plans.{known};
ghost use Rattle.guest_plan.specs.Spelling.{IsPlan, IsServed, IsMeasuredBy, IsDevice};
ghost use Rattle.guest_boot.specs.Recording.{DidWriting};
ghost use Rattle.guest_boot.specs.Finding.{AreSpans};
ghost use Rattle.apk_verity.specs.Opening.{opening, IsIdsigCall};
ghost use Rattle.guest_boot.specs.Booting.{AreItems, is_recorded, apk_cause, file_cause, measure_in, plain_of, means_of, disk_of, IsResize, IsForLine, most_in_place, IsForLines, most_of, IsForApk, IsForFound, IsForRecorded, BlobOutcome, ApkOutcome, FileOutcome, WriteOutcome, DeviceOutcome, MeasuredDone, FoundDone, RecordedDone, LineDone, BootOutcome};

use crate::entropy::Entropy;
use crate::faults::{BootCause, BootFault};
use crate::instance::open_instance;
use crate::records::{got_measure, keep_measure};
use crate::tables::{DiskTable, parts_on};
use apk_verity::{ApkFault, open_apk};
use guest_plan::{How, Plan, PlanLine};
use host_traits::{Host, HostError, Raw};
use instance_image::Image;
use mg_base::{Digest, Guid, Span};
use ro_file::{RoFault, RoFile, open_file};
use sha_tree::Measure;
use std::alloc::Global;
use text_lines::Name;
use verity_path::{Device, Layout};

/// What boot opened.
#[derive(Drop)]
pub struct Opened {
    /// The measured devices, in the order of the `blob` and `apk` lines.
    pub items: Vec<Device>,
    /// The read-only files, in the order of the `file` lines.
    pub files: Vec<RoFile>,
    /// The instance image, where the plan has one.
    pub image: Option<Image>,
    /// The entropy that is left.
    pub entropy: Entropy,
}

// What was read and opened so far.
#[derive(Drop)]
struct Boot {
    tables: Vec<DiskTable>,
    items: Vec<Device>,
    files: Vec<RoFile>,
    image: Option<Image>,
    entropy: Entropy,
}

// The measure that an APK device has to have, if any.
fn measure_in(how: &How) -> Option<&Measure>
    requires { IsMeasuredBy how.now }
    ensures value { MatchOption result (measure_in how.now ≡ None)
        (λ m. measure_in how.now ≡ Some m.now) }
    ensures range { IfSome result (λ m. (2 ≤ m.now.blocks) × (m.now.blocks ≤ 1048576)) }
{
    match how {
        How::Fixed(measure) => Some(measure),
        _ => None,
    }
}

// The cause of an APK device that was not opened. Want of memory is boot's own.
fn apk_cause(fault: ApkFault) -> BootCause
    ensures { result ≡ apk_cause fault }
{
    match fault {
        ApkFault::Memory => BootCause::Memory,
        _ => BootCause::Apk(fault),
    }
}

// The cause of a file that was not opened.
fn file_cause(fault: RoFault) -> BootCause
    ensures { result ≡ file_cause fault }
{
    match fault {
        RoFault::Memory => BootCause::Memory,
        _ => BootCause::File(fault),
    }
}

// An APK device.
fn boot_apk<H: Host>(
    alloc: Global,
    host: &mut H,
    disk: u32,
    apk: &Name,
    idsig: &Name,
    how: &How,
    boot: &mut Boot,
    raw: &mut Raw,
) -> Result<(), BootCause>
    requires how { IsMeasuredBy how.now }
    requires items { AreItems boot.old.items.items }
    ensures did { Did (IsForApk disk) 4 (H.told host.old) (H.told host.new)
        (ApkOutcome (plain_of boot.old) disk apk.now idsig.now how.now (plain_of boot.new) result) }
    ensures items { AreItems boot.new.items.items }
{
    let parts = match parts_on(alloc, host, disk, apk, idsig, &mut boot.tables, raw) {
        Ok(parts) => parts,
        Err(why) => return Err(why),
    };
    match add_device(host, disk, parts, measure_in(how), &mut boot.items, raw) {
        Ok(_) => Ok(()),
        Err(why) => Err(why),
    }
}

// A read-only file.
fn boot_file<H: Host>(
    host: &mut H,
    file: u32,
    digest: &Digest,
    boot: &mut Boot,
    raw: &mut Raw,
) -> Result<(), BootCause>
    ensures did { Did (IsDescriptorCall file) 1 (H.told host.old) (H.told host.new)
        (FileOutcome (plain_of boot.old) file digest.now (plain_of boot.new) result) }
    ensures items { boot.new.items ≡ boot.old.items }
{
    match boot.files.reserve(1) {
        Ok(()) => {}
        Err(_) => return Err(BootCause::Memory),
    }
    let opened = match open_file(host, file, digest, raw) {
        Ok(opened) => opened,
        Err(fault) => return Err(file_cause(fault)),
    };
    boot.files.push_reserved(opened);
    Ok(())
}

// A writable file, which is cut to nothing at the host.
fn boot_write<H: Host>(host: &mut H, file: u32) -> Result<(), BootCause>
    ensures { Did (IsResize file) 1 (H.told host.old) (H.told host.new)
        (WriteOutcome file result) }
{
    match host.file_resize(file, 0) {
        Ok(()) => Ok(()),
        Err(HostError::Failed) => {
            let faults = host.faults();
            Err(BootCause::Failed { faults })
        }
        Err(HostError::Memory) => Err(BootCause::Memory),
    }
}

// A measured device on a file of the host.
fn boot_blob(file: u32, measure: &Measure, boot: &mut Boot) -> Result<(), BootCause>
    requires measure { IsDevice measure.now }
    requires items { AreItems boot.old.items.items }
    ensures value { BlobOutcome (plain_of boot.old) file measure.now (plain_of boot.new) result }
    ensures items { AreItems boot.new.items.items }
{
    let device = Device {
        measure: *measure,
        layout: Layout::File {
            file,
            size: 4096 * measure.blocks,
        },
    };
    match boot.items.push(device) {
        Ok(()) => Ok(()),
        Err(_) => Err(BootCause::Memory),
    }
}

// The device of an APK's part and its idsig's, and its measure. Its room is taken before its idsig is read.
fn add_device<H: Host>(
    host: &mut H,
    disk: u32,
    parts: (Span, Span),
    measure: Option<&Measure>,
    items: &mut Vec<Device>,
    raw: &mut Raw,
) -> Result<Measure, BootCause>
    requires spans { AreSpans parts }
    requires range { IfSome measure (λ m. (2 ≤ m.now.blocks) × (m.now.blocks ≤ 1048576)) }
    requires items { AreItems items.old.items }
    ensures did { Did (IsIdsigCall (opening disk parts.0 parts.1 (option_copied measure.entry))) 1
        (H.told host.old) (H.told host.new) (DeviceOutcome disk parts
        (option_copied measure.entry) items.old.items items.new.items result) }
    ensures items { AreItems items.new.items }
{
    match items.reserve(1) {
        Ok(()) => {}
        Err(_) => return Err(BootCause::Memory),
    }
    let device = match open_apk(host, disk, parts.0, parts.1, measure, raw) {
        Ok(device) => device,
        Err(fault) => return Err(apk_cause(fault)),
    };
    let found = device.measure;
    items.push_reserved(device);
    Ok(found)
}

// An APK device of these parts whose measure is in the record of a UUID: the record is got, unless it is empty, and used as a
// measure in the plan. Where it is empty, the device is opened first, and its measure then put into the record.
fn boot_measured<H: Host>(
    alloc: Global,
    host: &mut H,
    disk: u32,
    parts: (Span, Span),
    uuid: &Guid,
    secret: &[u8; 32],
    image: &mut Image,
    entropy: &mut Entropy,
    items: &mut Vec<Device>,
    raw: &mut Raw,
) -> Result<(), BootCause>
    requires spans { AreSpans parts }
    requires items { AreItems items.old.items }
    ensures did { DidWriting (IsForFound (Some image.old.disk) disk) 2 (H.told host.old)
        (H.told host.new) (MeasuredDone disk parts uuid.now.0 secret.now
        (record { image = image.old; entropy = entropy.old; items = items.old.items })
        (record { image = image.new; entropy = entropy.new; items = items.new.items }) result) }
    ensures items { AreItems items.new.items }
{
    let measure = match got_measure(alloc, host, image, secret, uuid, raw) {
        Ok(measure) => measure,
        Err(why) => return Err(why),
    };
    let found = match add_device(host, disk, parts, measure.as_ref(), items, raw) {
        Ok(found) => found,
        Err(why) => return Err(why),
    };
    match measure {
        Some(_) => Ok(()),
        None => keep_measure(alloc, host, image, entropy, secret, uuid, &found),
    }
}

// The same with the records of a boot.
fn boot_found<H: Host>(
    alloc: Global,
    host: &mut H,
    disk: u32,
    parts: (Span, Span),
    uuid: &Guid,
    secret: &Option<[u8; 32]>,
    boot: &mut Boot,
    raw: &mut Raw,
) -> Result<(), BootCause>
    requires spans { AreSpans parts }
    requires secret { IsSome secret.now }
    requires image { IsSome boot.old.image }
    requires items { AreItems boot.old.items.items }
    ensures did { DidWriting (IsForFound (disk_of boot.old.image) disk) 2 (H.told host.old) (H.told host.new)
        (FoundDone secret.now boot.old disk parts uuid.now.0 boot.new result) }
    ensures items { AreItems boot.new.items.items }
{
    let Some(secret) = secret else {
        unreachable!();
    };
    let Some(image) = &mut boot.image else {
        unreachable!();
    };
    boot_measured(
        alloc,
        host,
        disk,
        parts,
        uuid,
        secret,
        image,
        &mut boot.entropy,
        &mut boot.items,
        raw,
    )
}

// An APK device whose measure is in a record. Its parts are found before the record is looked up.
fn boot_recorded<H: Host>(
    alloc: Global,
    host: &mut H,
    disk: u32,
    apk: &Name,
    idsig: &Name,
    uuid: &Guid,
    secret: &Option<[u8; 32]>,
    boot: &mut Boot,
    raw: &mut Raw,
) -> Result<(), BootCause>
    requires secret { IsSome secret.now }
    requires image { IsSome boot.old.image }
    requires items { AreItems boot.old.items.items }
    ensures did { DidWriting (IsForRecorded (disk_of boot.old.image) disk) 5 (H.told host.old) (H.told host.new)
        (RecordedDone secret.now boot.old disk apk.now idsig.now uuid.now.0 boot.new result) }
    ensures items { AreItems boot.new.items.items }
{
    let parts = match parts_on(alloc, host, disk, apk, idsig, &mut boot.tables, raw) {
        Ok(parts) => parts,
        Err(why) => return Err(why),
    };
    boot_found(alloc, host, disk, parts, uuid, secret, boot, raw)
}

// One line in its place. The instance line makes nothing there, since its image was opened before; nor does a writable directory.
fn boot_line<H: Host>(
    alloc: Global,
    host: &mut H,
    line: &PlanLine,
    secret: &Option<[u8; 32]>,
    boot: &mut Boot,
    raw: &mut Raw,
) -> Result<(), BootCause>
    requires served { IsServed line.now }
    requires records { is_recorded line.now ≡ true → IsSome secret.now × IsSome boot.old.image }
    requires items { AreItems boot.old.items.items }
    ensures did { DidWriting (IsForLine (disk_of boot.old.image) line.now) (most_in_place line.now) (H.told host.old)
        (H.told host.new) (LineDone secret.now boot.old line.now boot.new result) }
    ensures items { AreItems boot.new.items.items }
{
    match line {
        PlanLine::Instance { .. } => Ok(()),
        PlanLine::Blob { file, measure } => boot_blob(*file, measure, boot),
        PlanLine::Apk {
            disk,
            apk,
            idsig,
            how,
        } => match how {
            How::Kept(uuid) => {
                boot_recorded(alloc, host, *disk, apk, idsig, uuid, secret, boot, raw)
            }
            _ => boot_apk(alloc, host, *disk, apk, idsig, how, boot, raw),
        },
        PlanLine::File {
            name: _,
            file,
            digest,
        } => boot_file(host, *file, digest, boot, raw),
        PlanLine::Write { name: _, file } => boot_write(host, *file),
        PlanLine::WriteDir { .. } => Ok(()),
    }
}

/// Opens a plan. First comes its instance line, wherever it stands: it reads its disk's table and opens the image in its part,
/// under the plan's salt. Then come the lines in their order. A `blob` line makes a device and calls nothing. An `apk` line reads
/// its disk's table, unless that was read before, and opens the APK's part by its idsig's; where its measure is in a record, that is
/// got before the APK is opened, or, where it is empty, put after it, sealed under the next 12 bytes of entropy. A `file` line opens a
/// file by its digest. A `write` line cuts a file to nothing, and a `writedir` line calls nothing. The first fault ends it, with the
/// number of its line in the plan's text.
pub fn open_lines<H: Host>(
    alloc: Global,
    host: &mut H,
    plan: &Plan,
    entropy: Entropy,
    raw: &mut Raw,
) -> Result<Opened, BootFault>
    requires plan { (text : List ℕ) × IsPlan text (known plan.now) }
    // The calls of the instance line and of the lines in their order, and what came of them.
    ensures booted { DidWriting (IsForLines plan.now.lines.items) (most_of plan.now.lines.items)
        (H.told host.old) (H.told host.new) (BootOutcome (means_of (known plan.now) entropy)
        plan.now.lines.items plan.now.numbers.items result) }
    // Each device can be read.
    ensures items { IfOk result (λ o. AreItems o.items.items) }
{
    let mut tables = Vec::new(alloc);
    let image = match open_instance(alloc, host, plan, &mut tables, raw) {
        Ok(image) => image,
        Err(fault) => return Err(fault),
    };
    let mut boot = Boot {
        tables,
        items: Vec::new(alloc),
        files: Vec::new(alloc),
        image,
        entropy,
    };
    for index in 0..plan.lines.len() {
        match boot_line(
            alloc,
            host,
            &plan.lines[index],
            &plan.secret,
            &mut boot,
            raw,
        ) {
            Ok(()) => {}
            Err(why) => {
                let line = plan.numbers[index];
                return Err(BootFault { line, why });
            }
        }
    }
    Ok(Opened {
        items: boot.items,
        files: boot.files,
        image: boot.image,
        entropy: boot.entropy,
    })
}
