// What is asked of a host, and what it answers.
use crate::answers::Answer;

/// A call of a host's service, by its arguments; `Host` says what each asks for. What a call hands
/// over, the bytes of a write or a name, is told beside it.
#[derive(Clone, Copy, Debug, PartialEq, Eq, Drop)]
pub enum Call {
    /// The number of a disk's sectors.
    BlockSize { disk: u32 },
    /// So many sectors of 512 bytes, from this one on.
    BlockRead { disk: u32, sector: u64, count: u32 },
    /// So many sectors are written, from this one on.
    BlockWrite { disk: u32, sector: u64, count: u32 },
    /// What was written to a disk is to outlast a stop.
    BlockSync { disk: u32 },
    /// So many bytes of a file, from byte `at` on.
    FileRead { file: u32, at: u64, want: u32 },
    /// A page of a file's hash tree.
    TreeRead { file: u32, level: u32, index: u64 },
    /// A file's fs-verity descriptor.
    Descriptor { file: u32 },
    /// So many bytes are written into a file, from byte `at` on.
    FileWrite { file: u32, at: u64, count: u32 },
    /// A page of a file's hash tree is written.
    TreeWrite { file: u32, level: u32, index: u64 },
    /// A file is cut to so many bytes, or extended.
    Resize { file: u32, size: u64 },
    /// A file of this number is made in a directory.
    Create { dir: u32, file: u32 },
    /// A directory of this number is made in a directory.
    Mkdir { dir: u32, file: u32 },
    /// A name is taken out of a directory.
    Delete { dir: u32 },
}

/// What a call answered with success.
#[derive(Drop)]
pub enum Said {
    /// A number of sectors.
    Number(u64),
    /// The bytes that were read, at most as many as were asked for.
    Bytes(Answer),
    /// It was done.
    Done,
}

/// One record of a tape: what the call that takes it is answered. A record of another kind than the
/// call fails it.
#[derive(Drop)]
pub enum TapeItem {
    /// The call fails.
    Failed,
    /// A call that writes or changes something was done.
    Done,
    /// The number of a disk's sectors.
    Number(u64),
    /// The bytes for a call that reads; those behind what it asked for are cut off.
    Bytes(Answer),
}
