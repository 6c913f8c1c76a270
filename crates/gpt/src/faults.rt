// What can be wrong with a partition table.

/// The first rule that a partition table breaks. The primary's is answered where both copies break one.
#[derive(Clone, Copy, Debug, PartialEq, Eq, Drop)]
pub enum GptFault {
    /// The disk has fewer than 80 sectors, or more than 2^40.
    Size { sectors: u64 },
    /// The header doesn't begin with `EFI PART`.
    Signature,
    /// The revision isn't 1.0.
    Revision { found: u32 },
    /// The header's size isn't 92 bytes.
    HeaderSize { found: u32 },
    /// The CRC-32 that the header tells (`expected`) isn't its own.
    HeaderCrc { expected: u32, found: u32 },
    /// The size of an entry isn't 128 bytes.
    EntrySize { found: u32 },
    /// There is no entry, or more than 128.
    EntryCount { found: u32 },
    /// The header tells another place than its own, its array lies outside the sectors for it, or the
    /// sectors that partitions may use aren't sectors of the disk.
    Place,
    /// The CRC-32 that the header tells (`expected`) isn't that of the array.
    ArrayCrc { expected: u32, found: u32 },
    /// The least entry that is in use and lies outside the sectors that partitions may use.
    Range { entry: u32 },
    /// The least entry `b` that shares a sector with an earlier one, and the least of these, `a`.
    Overlap { a: u32, b: u32 },
    Memory,
}

/// Why a partition table isn't written.
#[derive(Clone, Copy, Debug, PartialEq, Eq, Drop)]
pub enum WriteGptFault {
    /// There are more than 128 parts.
    TooMany { found: u64 },
    Memory,
}
