// What a composite file describes, and what can be wrong with one.
ghost use Rattle.std.specs.Prelude.{◌≡◌};
ghost use Rattle.composite_spec.specs.declared.kinds.SpecFault.TheVariants.{Memory};

use std::alloc::{AllocError, AllocFailed};

/// A component of a composite disk: the bytes of one file, from a place of the disk on.
#[derive(Debug, Drop)]
pub struct Component {
    /// The path of the file: 1 to 255 bytes.
    pub path: String,
    /// The byte of the disk at which the component begins.
    pub offset: u64,
    /// Whether the component may be written.
    pub write: bool,
}

/// The description of a composite disk.
#[derive(Debug, Drop)]
pub struct Spec {
    /// The components, in the order of their offsets.
    pub components: Vec<Component>,
    /// The bytes of the disk.
    pub length: u64,
}

/// The first rule that a composite file breaks. A place is that of a byte in the file, from 0; an index is
/// that of a component, from 0.
#[derive(Clone, Copy, Debug, PartialEq, Eq, Drop)]
pub enum SpecFault {
    /// The file begins with other bytes.
    Magic,
    /// A varint of more than 10 bytes, or whose value is 2^64 or more.
    Varint { at: u64 },
    /// The tag of a field 0, of a wire type that there is not, or of a known field with another wire type.
    Wire { at: u64 },
    /// A varint or value that passes the end of its message, or a file above 1 MiB.
    Truncated { at: u64 },
    /// Another version than 2.
    Version { found: u64 },
    /// A path that is empty, longer than 255 bytes, or no UTF-8.
    Path { index: u64 },
    /// Another capability than 0, read only, and 1, read and write.
    Capability { index: u64, found: u64 },
    /// The first offset is not 0, a later one is not above the one before it, or there are more than 1,024.
    Order { index: u64 },
    /// No component, or a length that is not above the last offset, is no multiple of 512, or is above 2^40.
    Length { found: u64 },
    /// Want of memory.
    Memory,
}

impl From<AllocError> for SpecFault {
    ghost from_gives = { λ _ e. e ≡ Memory };

    fn from(_refused: AllocError) -> SpecFault {
        SpecFault::Memory
    }
}

impl<T: Drop> From<AllocFailed<T>> for SpecFault {
    ghost from_gives = { λ _ e. e ≡ Memory };

    fn from(_refused: AllocFailed<T>) -> SpecFault {
        SpecFault::Memory
    }
}
