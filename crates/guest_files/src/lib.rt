//! The files of a run: loaded within limits, put into a host as a store list says, and stored after the session.
#![tactic(auto)]

pub mod keeping;
pub mod load;
pub mod stocking;

pub use crate::keeping::{keep, store_file};
pub use crate::load::{Refusal, load_file};
pub use crate::stocking::stock;
