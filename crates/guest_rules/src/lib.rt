//! What a run of the guest is: the machine's state, its requests and their rows, a run over frames, the texts of replies and
//! of the log; and the laws over them. There is no code here but laws, which are functions that do nothing.
#![tactic(auto)]

pub mod laws;

pub use crate::laws::{
    reads_are_served, runs_stand_in_each_world, writes_are_held, writes_are_read, writes_are_served,
};
