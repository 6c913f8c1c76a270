// What can be wrong with a stream of frames.

/// Why no text is made of the frame at the front of what is left.
#[derive(Clone, Copy, Debug, PartialEq, Eq, Drop)]
pub enum FrameKind {
    /// No frame begins so.
    Frame,
    /// The bytes end inside a frame.
    End,
}

/// The first bad frame by the offset of its first byte, and what is wrong with it.
#[derive(Clone, Copy, Debug, PartialEq, Eq, Drop)]
pub enum FrameFault {
    At { byte: u64, kind: FrameKind },
    Memory,
}
