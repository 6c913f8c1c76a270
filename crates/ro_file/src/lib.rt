//! Files of the host that are only read: each is opened by its fs-verity digest, and a read gives the bytes that the digest
//! vouches for (Linux kernel documentation of fs-verity, "fs-verity descriptor" and "Merkle tree").
#![tactic(auto)]

pub mod files;
pub mod laws;

pub use crate::files::{RoFault, RoFile, open_file};
pub use crate::laws::files_are_measured;
