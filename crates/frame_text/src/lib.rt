//! Requests as text, one a line, and as frames: what one call writes the other reads.
#![tactic(auto)]

mod dumping;
mod faults;
mod input;
mod making;
mod reading;
mod status;
mod top;

pub use crate::dumping::text_of_frames;
pub use crate::faults::{FrameFault, FrameKind};
pub use crate::making::frames_of_text;
pub use crate::status::Status;
pub use crate::top::{dumpframes, mkframes};
