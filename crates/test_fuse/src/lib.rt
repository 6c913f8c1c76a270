//! Tests of names and nodes, and of handles.
#![tactic(auto)]

#[cfg(test)]
mod handles;
#[cfg(test)]
mod names;
