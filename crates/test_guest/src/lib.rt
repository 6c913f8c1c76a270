//! Tests of what no file of inputs and outcomes can show: whole runs of the guest where a call of the folder, a read of the input or
//! a write fails, and calls that no program makes.
#![tactic(auto)]

#[cfg(test)]
mod faults;
#[cfg(test)]
mod maps;
#[cfg(test)]
mod outcome;
#[cfg(test)]
mod pages;
#[cfg(test)]
mod setting;
#[cfg(test)]
mod tables;
#[cfg(test)]
mod texts;
