//! The nodes and names of a session: which names a directory has, which node each one names, and how long a node lives.
#![tactic(auto)]

mod dirs;
mod inode;
mod kind;
mod laws;
mod listing;
mod name_table;
mod new_name;
mod nodes;
mod rows;

pub use dirs::{Dirs, MOST_MADE, MOST_NODES, ROOT};
pub use kind::Kind;
pub use laws::{children_are_found, tree_stays_sound};
pub use listing::Listing;
pub use new_name::NewName;
