//! The guest: boot, the work of a frame, the session over a stream, and the top call with its words and statuses.
#![tactic(auto)]

pub mod boot;
pub mod engine;
pub mod log;
mod outside;
mod records;
mod replaying;
mod serving;
pub mod session;
pub mod status;
pub mod top;
pub mod words;

pub use crate::boot::Machine;
pub use crate::engine::{Engine, FrameAnswer, answer_frame};
pub use crate::session::SessionEnd;
pub use crate::status::{Form, Status};
pub use crate::top::guest;
