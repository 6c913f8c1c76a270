//! Laws over a boot and the reads behind it. `boots_pass`: over a host that holds what each line of a plan needs, and is honest or
//! of whose calls none failed, boot opens all lines, or there was no memory. `boots_are_served` and `sessions_are_served`: over the
//! host that a store list makes, boot passes where it holds what the plan needs, and each read of an item that it holds has its
//! defined reply; `records_are_served`: and each get and put of a record. `apk_reads_are_served`: where each answer for one disk is
//! what the host holds, a read of the device on it has its defined reply, or a failed call as its cause. `names_stay`: behind each
//! run the plan's names lead to its files. `written_is_read`: what is read of a writable file is what was last written with success.
//! There is no code here but the laws, which are functions that do nothing.
#![tactic(auto)]

pub mod laws;

pub use crate::laws::{
    apk_reads_are_served, boots_are_served, boots_pass, honest_hosts_cause_none,
    honest_hosts_forge_none, instances_have_secrets, measures_were_sealed, mismatches_lie,
    names_stay, records_are_served, sessions_are_served, written_is_read,
};
