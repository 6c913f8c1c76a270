//! What the programs stand on: files of the system as a folder, its streams as a source and sinks, and the words of the command
//! line.
#![tactic(auto)]

pub mod folder;
pub mod loading;
pub mod storing;
pub mod streams;
pub mod words;

pub use crate::folder::RealFolder;
pub use crate::streams::{RealSink, RealSource};
pub use crate::words::words_of;
