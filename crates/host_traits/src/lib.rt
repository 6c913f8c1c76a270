//! The outside of a guest: what it asks of its host and hears, where requests come from and where
//! replies go, and the files of a folder.
#![tactic(auto)]

pub mod answers;
pub mod calls;
pub mod folder;
pub mod host;
pub mod mem_folder;
pub mod memory;
pub mod streams;

pub use crate::answers::{Answer, Raw};
pub use crate::calls::{Call, Said, TapeItem};
pub use crate::folder::{Folder, FolderCall, FolderError, FolderResult};
pub use crate::host::{Host, HostError, HostResult};
pub use crate::mem_folder::MemFolder;
pub use crate::memory::{MemSink, MemSource};
pub use crate::streams::{Failed, Sink, Source};
