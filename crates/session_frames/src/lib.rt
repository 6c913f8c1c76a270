//! The frames of a session's stream, in whatever pieces it comes.
#![tactic(auto)]

mod head;
mod laws;
mod reply;
mod splitter;

pub use head::{is_head, payload_len};
pub use laws::{one_way, replies_are_sent};
pub use reply::{ReplyFrame, write_frame};
pub use splitter::{MOST, Next, Splitter};
