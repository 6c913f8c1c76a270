//! A host in memory.
#![tactic(auto)]

mod count;
mod dirs;
mod disks;
pub mod fault;
mod files;
pub mod host;
mod mem_disk;

pub use crate::fault::CompositeFault;
pub use crate::host::MemHost;
