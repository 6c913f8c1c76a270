//! The program: `mkguest idsig FILE SALT OUT` stores the idsig of a file, `mkguest measure FILE SALT` prints a file's measure and
//! digest, `mkguest composite LIST OUT` stores the composite disk of a list's parts, `mkguest instance LIST OUT` stores the
//! instance image of a list's partitions. What it prints goes to its standard output, and it ends with the status's number. Where
//! the system refused a call, its reason goes to standard error.
#![tactic(auto)]

use guest_images::{Status, mkguest};
use real_files::{RealFolder, RealSink, words_of};
use std::process::ExitCode;

fn main(rt: HostRuntime) -> ExitCode {
    let Ok(words) = words_of(&rt) else {
        return ExitCode::from(Status::Memory.number());
    };
    let (mut folder, mut log) = (RealFolder::new(&rt), RealSink::new(rt.stdout()));
    let status = mkguest(rt.alloc(), &words, &mut folder, &mut log);
    if let Some((name, reason)) = folder.failure() {
        let _ = eprintln!(rt; "mkguest: {name}: {reason}");
    }
    if let Some(reason) = log.reason() {
        let _ = eprintln!(rt; "mkguest: standard output: {reason}");
    }
    ExitCode::from(status.number())
}
