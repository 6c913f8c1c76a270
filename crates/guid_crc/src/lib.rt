//! GUIDs in text and on disk, and CRC-32.
#![tactic(auto)]

mod crc;
mod forms;
mod table;

pub use crc::crc32;
pub use forms::{from_disk, read_guid, to_disk};
