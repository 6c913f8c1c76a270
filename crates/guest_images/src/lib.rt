//! What `mkguest` makes: idsigs, measures, composite disks and instance images, from the files of a folder.
#![tactic(auto)]

pub mod composing;
pub mod feeding;
pub mod image_lines;
pub mod image_lists;
pub mod imaging;
pub mod loading;
pub mod making;
pub mod measuring;
pub mod parts;
pub mod pieces;
pub mod status;
pub mod top;
pub mod words;

pub use crate::status::{Status, UnfitKind};
pub use crate::top::mkguest;
