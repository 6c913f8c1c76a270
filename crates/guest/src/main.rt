//! The program: it answers the request frames of its standard input, with the replies to its standard output and the log to its
//! standard error, and ends with the status's number. `guest replay PLAN TAPE ENTROPY` has the host's answers from the records of
//! a tape, `guest serve PLAN STORE ENTROPY TAPE_OUT` from a host in memory that a store list makes, and stores their tape.
#![tactic(auto)]

use guest_cli::{Status, guest};
use real_files::{RealFolder, RealSink, RealSource, words_of};
use std::process::ExitCode;

fn main(rt: HostRuntime) -> ExitCode {
    let Ok(words) = words_of(&rt) else {
        return ExitCode::from(Status::Memory.number());
    };
    let status = guest(
        rt.alloc(),
        &words,
        &mut RealFolder::new(&rt),
        &mut RealSource::new(rt.stdin()),
        &mut RealSink::new(rt.stdout()),
        &mut RealSink::new(rt.stderr()),
    );
    ExitCode::from(status.number())
}
