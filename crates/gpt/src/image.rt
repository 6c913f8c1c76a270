// What is to be written, and what was.
use mg_base::Guid;

/// A partition to be written. Its kind is that of a Linux file system.
#[derive(Clone, Copy)]
pub struct Part {
    /// 36 units of UTF-16, little-endian.
    pub name: [u8; 72],
    pub unique: Guid,
    /// How many sectors of 512 bytes it has.
    pub sectors: u64,
}

/// The first and the last 40 sectors of a disk, and how many sectors it has in all.
#[derive(Drop)]
pub struct GptImage {
    pub head: Vec<u8>,
    pub tail: Vec<u8>,
    pub sectors: u64,
}
