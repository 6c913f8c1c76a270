//! A host in memory whose answers are bent.
#![tactic(auto)]

pub mod bends;
pub mod bent_host;

pub use crate::bends::Bend;
pub use crate::bent_host::Bent;
