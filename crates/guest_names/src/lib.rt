//! The server that stands after boot: the names of a plan's files, and the files behind them.
#![tactic(auto)]

mod laws;
mod planting;

pub use crate::laws::{files_are_opened, names_are_found, server_is_sound, writables_are_empty};
pub use crate::planting::plant_lines;
