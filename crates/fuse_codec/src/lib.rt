//! Messages of FUSE (`linux/fuse.h`, protocol 7.31): what a request asks, and the bytes of its reply.
#![tactic(auto)]

mod bodies;
mod names;
mod numbers;
mod opcode;
mod reading;
mod reply;
mod request;
mod room;
mod writing;

pub use crate::reading::decode;
pub use crate::reply::{Attr, EntryOut, FuseReply, InitOut};
pub use crate::request::{BadMessage, Body, Request};
pub use crate::writing::{encode_reply, reply_len};
