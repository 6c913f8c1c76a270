//! The plan, lines of text that say what the guest boots, and the store list, lines that say what
//! its host has.
#![tactic(auto)]

mod adding;
mod apks;
mod items;
mod measure;
mod missing;
mod plan;
mod reading;
mod store;
mod store_items;
mod store_reading;
mod writing;

pub use crate::items::uuid_of;
pub use crate::measure::{measure_text, read_measure};
pub use crate::plan::{How, Plan, PlanLine};
pub use crate::reading::read_plan;
pub use crate::store::{Store, StoreLine};
pub use crate::store_reading::read_store;
pub use crate::writing::write_plan;
pub use sha_tree::Measure;
pub use text_lines::{Name, PlanFault, PlanKind};
