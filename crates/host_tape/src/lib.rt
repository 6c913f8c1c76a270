//! Tapes: the answers of a host as records, read from bytes, written to bytes, and played to a guest.
#![tactic(auto)]

mod fault;
mod front;
mod next;
mod reading;
mod tape;
mod writing;

pub use crate::fault::TapeFault;
pub use crate::next::Next;
pub use crate::reading::read_tape;
pub use crate::tape::Tape;
pub use crate::writing::write_tape;
pub use host_traits::TapeItem;
