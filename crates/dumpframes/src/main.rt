//! The program: `dumpframes <FRAMES >TEXT` reads frames of requests and writes their text, one request a line. The byte at which
//! the first bad frame begins is named on standard error, and no text is written. It ends with the status's number.
#![tactic(auto)]

use frame_text::{Status, dumpframes};
use real_files::{RealSink, RealSource, words_of};
use std::process::ExitCode;

fn main(rt: HostRuntime) -> ExitCode {
    let Ok(words) = words_of(&rt) else {
        return ExitCode::from(Status::Memory.number());
    };
    let status = dumpframes(
        rt.alloc(),
        &words,
        &mut RealSource::new(rt.stdin()),
        &mut RealSink::new(rt.stdout()),
        &mut RealSink::new(rt.stderr()),
    );
    ExitCode::from(status.number())
}
