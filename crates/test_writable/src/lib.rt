//! Tests of writable files over hosts in memory.
#![tactic(auto)]

#[cfg(test)]
mod files;
