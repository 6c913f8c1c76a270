// What a plan says.
use mg_base::{Digest, Guid};
use sha_tree::Measure;
use text_lines::Name;

/// Where the measurement of an APK device comes from.
#[derive(Drop)]
pub enum How {
    /// The plan has it.
    Fixed(Measure),
    /// It is what the host gives at boot.
    First,
    /// It is in the record of this UUID.
    Kept(Guid),
}

/// One line of a plan, but for the secret and the salt.
#[derive(Drop)]
pub enum PlanLine {
    /// The instance image: a disk and a partition.
    Instance {
        disk: u32,
        part: Name,
    },
    /// A measured device on a file of the host.
    Blob {
        file: u32,
        measure: Measure,
    },
    /// An APK device: its disk, its partition, its idsig's partition, and its measurement.
    Apk {
        disk: u32,
        apk: Name,
        idsig: Name,
        how: How,
    },
    /// A read-only file in the root directory.
    File {
        name: Name,
        file: u32,
        digest: Digest,
    },
    /// A writable file, empty at boot.
    Write {
        name: Name,
        file: u32,
    },
    /// A writable directory, empty at boot.
    WriteDir {
        name: Name,
        file: u32,
    },
}

/// What one line of the text says.
#[derive(Drop)]
pub enum Item {
    Secret([u8; 32]),
    InstanceSalt([u8; 64]),
    Line(PlanLine),
}

/// What a whole text says: `numbers` has the number in the text, from 1, of each of `lines`.
#[derive(Drop)]
pub struct Plan {
    pub secret: Option<[u8; 32]>,
    pub salt: Option<[u8; 64]>,
    pub lines: Vec<PlanLine>,
    pub numbers: Vec<u64>,
}
