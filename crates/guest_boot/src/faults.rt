// Why boot came to no end.
use apk_verity::ApkFault;
use gpt::GptFault;
use instance_image::{GetFault, ImageFault, PutFault};
use ro_file::RoFault;

/// The first thing that went wrong, and the number of its line in the plan's text.
#[derive(Drop)]
pub struct BootFault {
    pub line: u64,
    pub why: BootCause,
}

/// Why a line of a plan was not opened.
#[derive(Drop)]
pub enum BootCause {
    /// The first rule that the two ends of the line's disk break (UEFI 2.10, section 5.3).
    Gpt(GptFault),
    /// The disk's table has no part of this name.
    NoPart { name: String },
    /// The APK device was not opened.
    Apk(ApkFault),
    /// The read-only file was not opened.
    File(RoFault),
    /// The instance image was not opened.
    Image(ImageFault),
    /// The record that keeps the line's measure was not read.
    Get(GetFault),
    /// The measure was not put into its record, which is empty.
    Put(PutFault),
    /// Fewer than 12 bytes of entropy are left, so the measure was not put into its record; how many.
    NoEntropy { left: u64 },
    /// The text of the record is not that of a measure.
    MeasureText,
    /// A call for the disk's table failed, or the one that cuts a writable file; how often calls had failed after it.
    Failed { faults: u64 },
    /// An answer for the disk's table had fewer bytes than were asked for.
    Short { asked: u64, got: u64 },
    /// Want of memory, the host's included.
    Memory,
}
