//! The composite file: which files make up a disk, and where each of them begins on it.
#![tactic(auto)]

mod kinds;
mod reading;
mod stated;
mod wire;
mod writing;

pub use crate::kinds::{Component, Spec, SpecFault};
pub use crate::reading::read_spec;
pub use crate::writing::write_spec;
