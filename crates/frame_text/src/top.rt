// The two calls of the programs.
ghost use Rattle.std.specs.Prelude.{◌≡◌, ◌≤◌, ◌⊎◌, length, MatchResult};
ghost use Rattle.std.specs.Io.KnownBytes.{Appends};
ghost use Rattle.frame_text.specs.Programs.{Dumps, Makes, WroteSome, bad_frame, bad_line, frame_word, dumpframes_usage, mkframes_usage};
ghost use Rattle.frame_text.specs.declared.status.Status.TheVariants.{Write};

use crate::dumping::text_of_frames;
use crate::faults::{FrameFault, FrameKind};
use crate::input::read_all;
use crate::making::frames_of_text;
use crate::status::Status;
use host_traits::{Sink, Source};
use std::alloc::Global;
use text_lines::{Line, PlanFault, PlanKind};

// Writes bytes, and gives this status, or that writing failed.
fn write<K: Sink>(bytes: &[u8], sink: &mut K, status: Status) -> Status
    ensures { ((result ≡ status) × Appends (K.holds sink.old) (K.holds sink.new) bytes.now)
        ⊎ ((result ≡ Write) × WroteSome (K.holds sink.old) (K.holds sink.new)
        (K.faults sink.old) (K.faults sink.new) bytes.now) }
{
    match sink.write_all(bytes) {
        Ok(()) => status,
        Err(_) => Status::Write,
    }
}

fn word(kind: FrameKind) -> &'static [u8]
    ensures word { result.now ≡ frame_word kind }
    ensures len { length result.now ≤ 5 }
{
    match kind {
        FrameKind::Frame => b"frame",
        FrameKind::End => b"end",
    }
}

fn line_fault(number: u64, kind: PlanKind) -> Line
    ensures { result ≡ bad_line number kind }
{
    let mut line = Line::new();
    line.put(b"mkframes: line ");
    line.number(number);
    line.put(b": ");
    line.put(kind.word());
    line.put(b"\n");
    line
}

fn frame_fault(byte: u64, kind: FrameKind) -> Line
    ensures { result ≡ bad_frame byte kind }
{
    let mut line = Line::new();
    line.put(b"dumpframes: byte ");
    line.number(byte);
    line.put(b": ");
    line.put(word(kind));
    line.put(b"\n");
    line
}

/// Reads a text of requests and writes their frames: after `Done` all of them; after `Bad` the line on the log that names the
/// first bad line, and no frame.
pub fn mkframes<S: Source, K: Sink, L: Sink>(
    alloc: Global,
    words: &[String],
    input: &mut S,
    out: &mut K,
    log: &mut L,
) -> Status
    ensures { Makes (length words.now)
        (record { input = S.left input.old; out = K.holds out.old; log = L.holds log.old })
        (record { input = S.left input.new; out = K.holds out.new; log = L.holds log.new })
        (record { input = S.faults input.old; out = K.faults out.old; log = L.faults log.old })
        (record { input = S.faults input.new; out = K.faults out.new; log = L.faults log.new })
        result }
{
    if !words.is_empty() {
        return write(b"usage: mkframes <TEXT >FRAMES\n", log, Status::Usage);
    }
    let text = match read_all(alloc, input) {
        Ok(text) => text,
        Err(status) => return status,
    };
    match frames_of_text(alloc, &text) {
        Ok(frames) => write(&frames, out, Status::Done),
        Err(PlanFault::At { line, kind }) => {
            write(line_fault(line, kind).bytes(), log, Status::Bad)
        }
        Err(PlanFault::Memory) => Status::Memory,
    }
}

/// Reads frames of requests and writes their text: after `Done` all of it; after `Bad` the line on the log that names the byte
/// at which the first bad frame begins, and no text.
pub fn dumpframes<S: Source, K: Sink, L: Sink>(
    alloc: Global,
    words: &[String],
    input: &mut S,
    out: &mut K,
    log: &mut L,
) -> Status
    ensures { Dumps (length words.now)
        (record { input = S.left input.old; out = K.holds out.old; log = L.holds log.old })
        (record { input = S.left input.new; out = K.holds out.new; log = L.holds log.new })
        (record { input = S.faults input.old; out = K.faults out.old; log = L.faults log.old })
        (record { input = S.faults input.new; out = K.faults out.new; log = L.faults log.new })
        result }
{
    if !words.is_empty() {
        return write(b"usage: dumpframes <FRAMES >TEXT\n", log, Status::Usage);
    }
    let bytes = match read_all(alloc, input) {
        Ok(bytes) => bytes,
        Err(status) => return status,
    };
    match text_of_frames(alloc, &bytes) {
        Ok(text) => write(&text, out, Status::Done),
        Err(FrameFault::At { byte, kind }) => {
            write(frame_fault(byte, kind).bytes(), log, Status::Bad)
        }
        Err(FrameFault::Memory) => Status::Memory,
    }
}
