//! Idsig files (APK Signature Scheme v4, version 2 of the file's format): the root and the salt of an APK's hash tree, and the
//! stored tree behind them.
#![tactic(auto)]

pub mod head;
pub mod laws;
mod reading;
mod writing;

pub use crate::head::{Head, IdsigFault};
pub use crate::laws::idsigs_are_read;
pub use crate::reading::read_head;
pub use crate::writing::write_idsig;
