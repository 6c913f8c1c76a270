// One read of a blob where calls of what stands outside fail, and streams that come in pieces.
use crate::setting::{Setting, run};
use std::alloc::Global;
use std::test::Fail;

// The root is that of two blocks of zeros, by Python's hashlib.
const PLAN: &[u8] =
    b"plan 1\nblob 7 2 - 90b10db56173e2e7c847f6ff3ed85a3aebb140bc0064ec9a156ae5b2e71db988\n";

const STORE: &[u8] = b"store 1\nverity 7 blob -\nempty 1\nkeep file 1 kept\n";

const SERVE: &[&str] = &["serve", "plan", "store", "entropy", "tape"];

const REPLAY: &[&str] = &["replay", "plan", "tape", "entropy"];

// Two reads of item 0: four bytes at 0, and four at 4.
const STREAM: &[u8] =
    b"\x10\0\0\0\x01\0\0\0\0\0\0\0\0\0\0\0\0\0\0\0\x04\0\0\0\x10\0\0\0\x01\0\0\0\0\0\0\0\x04\0\0\0\0\0\0\0\x04\0\0\0";

const REPLIES: &[u8] = b"\x08\0\0\0\x01\0\0\0\0\0\0\0\0\0\0\0\x08\0\0\0\x01\0\0\0\0\0\0\0\0\0\0\0";

// The numbers of the calls that fail: of the folder, reads of the stream, replies, lines of the log.
type Calls = (
    &'static [u64],
    &'static [u64],
    &'static [u64],
    &'static [u64],
);

// Replays and sessions whose calls fail: which words, which calls, the status and the log.
const FAULTS: &[(&'static [&'static str], Calls, u8, &str)] = &[
    (REPLAY, (&[0], &[], &[], &[]), 3, "end 3 file plan\n"),
    (REPLAY, (&[1], &[], &[], &[]), 3, "end 3 file tape\n"),
    (REPLAY, (&[2], &[], &[], &[]), 3, "end 3 file entropy\n"),
    (REPLAY, (&[0], &[], &[], &[0]), 6, ""),
    (REPLAY, (&[], &[], &[], &[0]), 6, ""),
    (SERVE, (&[0], &[], &[], &[]), 3, "end 3 file plan\n"),
    (SERVE, (&[1], &[], &[], &[]), 3, "end 3 file store\n"),
    (SERVE, (&[2], &[], &[], &[]), 3, "end 3 file blob\n"),
    (SERVE, (&[3], &[], &[], &[]), 3, "end 3 file entropy\n"),
    (SERVE, (&[4], &[], &[], &[]), 3, "end 3 file tape\n"),
    (SERVE, (&[5], &[], &[], &[]), 3, "end 3 file kept\n"),
    (SERVE, (&[], &[0], &[], &[]), 5, "end 5 read\n"),
    (SERVE, (&[], &[24], &[], &[]), 5, "end 5 read\n"),
    (SERVE, (&[], &[], &[0], &[]), 6, ""),
    (SERVE, (&[], &[], &[1], &[]), 6, ""),
    (SERVE, (&[], &[], &[], &[0]), 0, ""),
];

// The files of a run beside the blob, which has two blocks of zeros.
const FILES: &[(&str, &[u8])] = &[
    ("plan", PLAN),
    ("store", STORE),
    ("entropy", b""),
    ("tape", b"guest-tape 1\n"),
];

// A run in which no call fails.
const HONEST: Setting = Setting {
    words: SERVE,
    files: FILES,
    blob: 8192,
    stream: STREAM,
    piece: 1,
    failing_files: &[],
    failing_reads: &[],
    failing_replies: &[],
    failing_lines: &[],
};

// The setting with these words, in which these calls fail.
fn failing(words: &'static [&'static str], calls: &Calls) -> Setting {
    let mut setting = HONEST;
    setting.words = words;
    setting.failing_files = calls.0;
    setting.failing_reads = calls.1;
    setting.failing_replies = calls.2;
    setting.failing_lines = calls.3;
    setting
}

// The run of a setting that gives this status and this log, and keeps a file where the status is 0.
fn fails(alloc: Global, setting: &Setting, status: u8, log: &str) -> Result<(), Fail> {
    let outcome = run(alloc, setting)?;
    outcome.expect(status, log)?;
    if outcome.folder.get("kept").is_some() != (status == 0) {
        return Err(Fail::new(format_args!("what was kept; {log}")));
    }
    Ok(())
}

#[test]
fn names_each_fault(rt: HostRuntime) -> Result<(), Fail> {
    for (words, calls, status, log) in FAULTS {
        fails(rt.alloc(), &failing(words, calls), *status, log)?;
    }
    Ok(())
}

// The stream in pieces of this size.
fn comes_in_pieces(alloc: Global, piece: usize) -> Result<(), Fail> {
    let mut setting = HONEST;
    setting.piece = piece;
    let outcome = run(alloc, &setting)?;
    outcome.expect(0, "")?;
    if outcome.replies.bytes() != REPLIES {
        return Err(Fail::new(format_args!("other replies; pieces of {piece}")));
    }
    Ok(())
}

#[test]
fn takes_a_stream_in_pieces(rt: HostRuntime) -> Result<(), Fail> {
    for piece in [1, 2, 3, 4, 5, 6, 7, 48] {
        comes_in_pieces(rt.alloc(), piece)?;
    }
    Ok(())
}
