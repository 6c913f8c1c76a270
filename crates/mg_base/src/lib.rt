//! Pages, digests, salts, GUIDs, and a cursor over bytes.
#![tactic(auto)]

pub mod cursor;
pub mod errno;
pub mod page;
pub mod salt;
pub mod values;

pub use crate::cursor::{Cursor, Truncated};
pub use crate::errno::Errno;
pub use crate::page::{Page, pad_into};
pub use crate::salt::Salt;
pub use crate::values::{Digest, Guid, Memory, Span};
