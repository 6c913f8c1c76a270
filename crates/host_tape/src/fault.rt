// Why bytes are no tape.

/// Why a tape could not be read.
#[derive(Clone, Copy, Debug, PartialEq, Eq, Drop)]
pub enum TapeFault {
    /// The bytes from here on begin no whole record; at 0, they begin with another header.
    At { at: u64 },
    Memory,
}
