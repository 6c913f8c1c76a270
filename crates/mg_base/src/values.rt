// Small values that all crates share.
use std::alloc::{AllocError, AllocFailed};

/// Want of memory: an allocation was refused.
#[derive(Clone, Copy, Debug, PartialEq, Eq, Drop)]
pub struct Memory;

impl<T: Drop> From<AllocFailed<T>> for Memory {
    fn from(_refused: AllocFailed<T>) -> Memory {
        Memory
    }
}

impl From<AllocError> for Memory {
    fn from(_refused: AllocError) -> Memory {
        Memory
    }
}

/// A SHA-256 digest of 32 bytes (FIPS 180-4).
#[derive(Clone, Copy, Debug, PartialEq, Eq, Drop)]
pub struct Digest(pub [u8; 32]);

/// A GUID of 16 bytes, in the order of its text form (RFC 4122, section 3).
#[derive(Clone, Copy, Debug, PartialEq, Eq, Drop)]
pub struct Guid(pub [u8; 16]);

/// A run of sectors of 512 bytes on a disk.
#[derive(Clone, Copy, Debug, PartialEq, Eq, Drop)]
pub struct Span {
    /// The number of its first sector.
    pub first: u64,
    /// How many sectors it has.
    pub sectors: u64,
}
