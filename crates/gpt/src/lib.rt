//! GUID partition tables: the reader and the writer (UEFI 2.10, section 5.3).
#![tactic(auto)]

mod array;
mod faults;
mod fields;
mod header;
mod image;
mod names;
mod putting;
mod reading;
mod values;
mod writing;

pub use faults::{GptFault, WriteGptFault};
pub use image::{GptImage, Part};
pub use reading::read_gpt;
pub use values::{Entries, Entry, Table};
pub use writing::write_gpt;
