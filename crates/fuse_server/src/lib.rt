//! Answers to messages of FUSE over names, handles, files that are only read, and files that the guest writes.
#![tactic(auto)]

mod answer;
mod checks;
mod deed;
mod files;
mod laws;
mod parts;
mod perform;
mod rows;
mod server;
mod writables;
mod written;

pub use crate::answer::FuseAnswer;
pub use crate::files::Files;
pub use crate::laws::{files_stay, handles_stay_tied, names_stay_served, numbers_stay};
pub use crate::server::Server;
pub use crate::writables::Writables;
