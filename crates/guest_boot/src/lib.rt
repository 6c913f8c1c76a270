//! Boot: the instance image of a plan is opened, and then its lines in their order, over any host.
#![tactic(auto)]

mod entropy;
mod faults;
mod instance;
pub mod laws;
mod lines;
mod records;
mod row;
mod tables;
mod words;

pub use crate::entropy::Entropy;
pub use crate::faults::{BootCause, BootFault};
pub use crate::laws::{instances_are_alone, plans_are_served, readers_change_nothing};
pub use crate::lines::{Opened, open_lines};
pub use crate::words::write_boot_end;
