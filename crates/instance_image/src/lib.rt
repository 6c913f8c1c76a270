//! Instance images, version 1: sealed records in the partitions of an image, which stands in some
//! sectors of a disk.
#![tactic(auto)]

mod faults;
mod header;
mod laws;
mod opening;
mod records;
mod values;
mod writing;

pub use faults::{GetFault, ImageFault, PutFault};
pub use laws::{gets_hear_sealed, records_stay, texts_were_sealed};
pub use opening::open_image;
pub use values::{Image, Part};

#[cfg(test)]
mod tests;
