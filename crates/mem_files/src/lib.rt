//! What a host in memory keeps: a file's bytes, tree pages and descriptor, and the names of a directory.
#![tactic(auto)]

mod content;
pub mod mem_file;
pub mod names;
mod page_map;
mod sparse;
mod tree_pages;
pub mod verity;

pub use crate::mem_file::MemFile;
pub use crate::names::Names;
