//! A host that keeps what was asked of another and what that answered, so that it can be played
//! again.
#![tactic(auto)]

mod kept;
pub mod recorder;
mod text;

pub use crate::recorder::Recorder;
