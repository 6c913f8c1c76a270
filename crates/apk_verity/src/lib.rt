//! APK devices: the blocks of an APK on a disk, measured by the idsig in another part of it (APK Signature Scheme v4).
//!
//! A device is read by `verity_path::read_range`, over 4096 bytes a block.
#![tactic(auto)]

ghost use Rattle.std.specs.Prelude.{◌≡◌, ◌+◌, ◌*◌, ◌^◌, ◌≤◌, ◌<◌, min, length, IfOk, IfSome, option_copied};
ghost use Rattle.host_traits.specs.Did.{Did};
ghost use Rattle.verity_path.specs.Calls.{Suits};
ghost use Rattle.apk_verity.specs.Holding.{DeviceOpens};
ghost use Rattle.apk_verity.specs.Opening.{opening, IsIdsigCall, OpenOutcome, first_measure, kept_measure, measure_of, opened, LiesIn, DevicesOpen};

use host_traits::{Host, HostError, Raw};
use idsig_v4::{Head, IdsigFault, idsigs_are_read, read_head};
use mg_base::{Digest, Span};
use verity_path::{Device, Layout, Measure};

/// Why a device was not opened.
#[derive(Clone, Copy, Debug, PartialEq, Eq)]
pub enum ApkFault {
    /// The call failed; how often calls had failed after it.
    Failed { faults: u64 },
    /// The answer had fewer bytes than were asked for.
    Short { asked: u64, got: u64 },
    /// The first rule that the idsig breaks.
    Idsig(IdsigFault),
    /// The idsig has another salt than the measure.
    SaltMismatch,
    /// The idsig has another root than the measure, which is expected.
    RootMismatch { expected: Digest, found: Digest },
    /// The APK's part has fewer than two blocks.
    TooFewBlocks { blocks: u64 },
    /// The APK's part has more than 1,048,576 blocks.
    TooManyBlocks { blocks: u64 },
    /// The APK's part has fewer sectors than the measure's blocks take.
    SpanShort { blocks: u64, sectors: u64 },
    /// The host had no memory.
    Memory,
}

// The measure that the host gives.
fn first_measure(apk: Span, head: &Head) -> Result<Measure, ApkFault>
    ensures { result ≡ first_measure apk head.now }
{
    let blocks = apk.sectors / 8;
    if blocks < 2 {
        return Err(ApkFault::TooFewBlocks { blocks });
    }
    if blocks > 1_048_576 {
        return Err(ApkFault::TooManyBlocks { blocks });
    }
    Ok(Measure {
        blocks,
        salt: head.salt,
        root: head.root,
    })
}

// The measure that has to be met, where this head and these sectors meet it.
fn kept_measure(apk: Span, measure: &Measure, head: &Head) -> Result<Measure, ApkFault>
    requires { measure.now.blocks ≤ 1048576 }
    ensures { result ≡ kept_measure apk measure.now head.now }
{
    if measure.salt.bytes() != head.salt.bytes() {
        return Err(ApkFault::SaltMismatch);
    }
    if measure.root != head.root {
        return Err(ApkFault::RootMismatch {
            expected: measure.root,
            found: head.root,
        });
    }
    if apk.sectors < 8 * measure.blocks {
        return Err(ApkFault::SpanShort {
            blocks: measure.blocks,
            sectors: apk.sectors,
        });
    }
    Ok(*measure)
}

fn measure_of(apk: Span, measure: Option<&Measure>, head: &Head) -> Result<Measure, ApkFault>
    requires { IfSome measure (λ m. (2 ≤ m.now.blocks) × (m.now.blocks ≤ 1048576)) }
    ensures value { result ≡ measure_of apk (option_copied measure.entry) head.now }
    ensures kept { IfSome measure.entry (λ m. IfOk result (λ d. d ≡ m.now)) }
    ensures least { IfOk result (λ m. 2 ≤ m.blocks) }
    ensures most { IfOk result (λ m. m.blocks ≤ 1048576) }
    ensures room { IfOk result (λ m. 8 * m.blocks ≤ apk.sectors) }
{
    match measure {
        Some(measure) => kept_measure(apk, measure, head),
        None => first_measure(apk, head),
    }
}

// The device that an answer makes, or why it makes none.
#[tactic(auto, unfolding(crate::specs::Opening::opened))]
fn device_of(
    disk: u32,
    apk: Span,
    idsig: Span,
    measure: Option<&Measure>,
    bytes: &[u8],
) -> Result<Device, ApkFault>
    requires apk_end { apk.first + apk.sectors ≤ 2 ^ 40 }
    requires idsig_end { idsig.first + idsig.sectors ≤ 2 ^ 40 }
    requires measure { IfSome measure (λ m. (2 ≤ m.now.blocks) × (m.now.blocks ≤ 1048576)) }
    requires few { length bytes.now ≤ 512 * min idsig.sectors 136 }
    ensures value { result ≡
        opened (opening disk apk idsig (option_copied measure.entry)) bytes.now }
    ensures kept { IfSome measure.entry (λ m. IfOk result (λ d. d.measure ≡ m.now)) }
    ensures least { IfOk result (λ d. 2 ≤ d.measure.blocks) }
    ensures most { IfOk result (λ d. d.measure.blocks ≤ 1048576) }
    ensures suits { IfOk result (λ d. Suits d.layout d.measure.blocks) }
    ensures inside { IfOk result (λ d.
        LiesIn (opening disk apk idsig (option_copied measure.entry)) d.measure.blocks d.layout) }
{
    let asked = 512 * idsig.sectors.min(136);
    let got = bytes.len() as u64;
    if got < asked {
        return Err(ApkFault::Short { asked, got });
    }
    let head = match read_head(bytes, 512 * idsig.sectors) {
        Ok(head) => head,
        Err(fault) => return Err(ApkFault::Idsig(fault)),
    };
    let measure = measure_of(apk, measure, &head)?;
    match head.fits(measure.blocks) {
        Ok(()) => {}
        Err(fault) => return Err(ApkFault::Idsig(fault)),
    }
    Ok(Device {
        measure,
        layout: Layout::Parts {
            disk,
            first: apk.first,
            tree: 512 * idsig.first + head.tree_at,
        },
    })
}

/// Opens an APK device: one call reads the first 136 sectors of the idsig, or all where there are fewer. With `None` the measure
/// is the host's own, by the APK's sectors and the idsig; with `Some` it is this one, and the idsig has to agree with it.
/// The device's bytes are read by `verity_path::read_range`. It takes no memory.
pub fn open_apk<H: Host>(
    host: &mut H,
    disk: u32,
    apk: Span,
    idsig: Span,
    measure: Option<&Measure>,
    raw: &mut Raw,
) -> Result<Device, ApkFault>
    requires apk_some { 1 ≤ apk.sectors }
    requires apk_end { apk.first + apk.sectors ≤ 2 ^ 40 }
    requires idsig_some { 1 ≤ idsig.sectors }
    requires idsig_end { idsig.first + idsig.sectors ≤ 2 ^ 40 }
    requires measure { IfSome measure (λ m. (2 ≤ m.now.blocks) × (m.now.blocks ≤ 1048576)) }
    // The one call, and what came of it.
    ensures opened { Did (IsIdsigCall (opening disk apk idsig (option_copied measure.entry))) 1
        (H.told host.old) (H.told host.new)
        (OpenOutcome (opening disk apk idsig (option_copied measure.entry)) result) }
    // Over a host that holds the idsig, where no call failed or it is honest, the device or want of memory.
    ensures held { DeviceOpens (opening disk apk idsig (option_copied measure.entry))
        (H.told host.old) (H.told host.new) result }
    // A measure that has to be met is the device's.
    ensures kept { IfSome measure.entry (λ m. IfOk result (λ d. d.measure ≡ m.now)) }
    // A device can be read, and lies in its two parts.
    ensures least { IfOk result (λ d. 2 ≤ d.measure.blocks) }
    ensures most { IfOk result (λ d. d.measure.blocks ≤ 1048576) }
    ensures suits { IfOk result (λ d. Suits d.layout d.measure.blocks) }
    ensures inside { IfOk result (λ d.
        LiesIn (opening disk apk idsig (option_copied measure.entry)) d.measure.blocks d.layout) }
{
    let count = idsig.sectors.min(136) as u32;
    match host.block_read(disk, idsig.first, count, raw) {
        Ok(()) => {}
        Err(HostError::Failed) => {
            let faults = host.faults();
            return Err(ApkFault::Failed { faults });
        }
        Err(HostError::Memory) => return Err(ApkFault::Memory),
    }
    device_of(disk, apk, idsig, measure, raw.layout())
}

/// A part that begins with an idsig of a measure makes its device. Its contract is the law; it does nothing.
pub fn devices_open()
    ensures { DevicesOpen }
{
    idsigs_are_read();
}
