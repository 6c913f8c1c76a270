//! The map of a composite disk: which byte of which file each byte of the disk is.
#![tactic(auto)]

mod aliases;
mod bytes;
mod map;
mod moves;
mod spans;

pub use crate::map::{Map, MapFault};
