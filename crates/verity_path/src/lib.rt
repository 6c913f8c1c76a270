//! Pages that a measure vouches for, and the walk to them: what a host says becomes reply bytes through one check only.
#![tactic(auto)]

mod ask;
pub mod device;
pub mod laws;
pub mod served;
pub mod states;
pub mod walk;

pub use crate::device::{Cause, Device, read_range};
pub use crate::laws::mismatches_lie;
pub use crate::served::Served;
pub use crate::states::{Anchor, Mismatch, Proved, check, meets};
pub use crate::walk::{Buffers, Layout, WalkFault, fetch_page, walk_page};
pub use sha_tree::Measure;
