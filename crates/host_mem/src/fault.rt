// Why a composite disk can't be added.
use block_map::MapFault;

/// Why a composite disk can't be added.
#[derive(Clone, Copy, Debug, PartialEq, Eq, Drop)]
pub enum CompositeFault {
    /// The map of its description is refused: two components have one path, and one of the two is writable.
    Map(MapFault),
    /// Want of memory.
    Memory,
}
