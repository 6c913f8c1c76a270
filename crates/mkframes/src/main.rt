//! The program: `mkframes <TEXT >FRAMES` reads a text of requests, one a line, and writes their frames. A bad line is named on
//! standard error, and no frame is written. It ends with the status's number.
#![tactic(auto)]

use frame_text::{Status, mkframes};
use real_files::{RealSink, RealSource, words_of};
use std::process::ExitCode;

fn main(rt: HostRuntime) -> ExitCode {
    let Ok(words) = words_of(&rt) else {
        return ExitCode::from(Status::Memory.number());
    };
    let status = mkframes(
        rt.alloc(),
        &words,
        &mut RealSource::new(rt.stdin()),
        &mut RealSink::new(rt.stdout()),
        &mut RealSink::new(rt.stderr()),
    );
    ExitCode::from(status.number())
}
