// Frames of a text.
ghost use Rattle.std.specs.Prelude.{◌≡◌, ◌≤◌, ◌∷◌, ◌++◌, ◌+◌, [], List, length, MatchResult, IfOk, IfErr, OnOk};
ghost use Rattle.std.specs.Int.{w32, to_le_bytes};
ghost use Rattle.text_lines.specs.declared.kinds.PlanFault.TheVariants.{Memory};
ghost use Rattle.text_lines.specs.Lines.{at_line};
ghost use Rattle.session_frames.specs.Frames.{Framed, bytes_of, frame};
ghost use Rattle.frame_text.specs.Reading.{BreaksText, framed_by, payload_with};
ghost use Rattle.frame_text.specs.Requests.{AreRequests, AreSame, IsRequest, frame_bytes, spelled};

use crate::reading::{RequestLine, first_line, request_of};
use std::alloc::{AllocError, Global};
use text_lines::{LineFault, PlanFault, PlanKind};

// The item, offset and size of a read, little-endian.
fn payload_of(item: u32, offset: u64, size: u32) -> [u8; 16]
    ensures { result ≡ payload_with item offset size }
{
    let [a, b, c, d] = item.to_le_bytes();
    let [e, f, g, h, i, j, k, l] = offset.to_le_bytes();
    let [m, n, o, p] = size.to_le_bytes();
    [a, b, c, d, e, f, g, h, i, j, k, l, m, n, o, p]
}

// Adds the frame whose payload is these two pieces.
fn put_frame(out: &mut Vec<u8>, channel: u8, front: &[u8], behind: &[u8]) -> Result<(), AllocError>
    requires { length front.now + length behind.now ≤ 135168 }
    ensures { OnOk result
        (out.new.items ≡ out.old.items ++ frame channel (front.now ++ behind.now)) }
{
    let [a, b, c, d] = ((front.len() + behind.len()) as u32).to_le_bytes();
    out.extend_from_slice(&[a, b, c, d, channel, 0, 0, 0])?;
    out.extend_from_slice(front)?;
    out.extend_from_slice(behind)?;
    Ok(())
}

// Adds the frame of a request.
fn put_request(out: &mut Vec<u8>, request: RequestLine) -> Result<(), AllocError>
    requires { IsRequest (framed_by request) }
    ensures { OnOk result (out.new.items ≡ out.old.items ++ frame_bytes (framed_by request)) }
{
    match request {
        RequestLine::Message(bytes) => put_frame(out, 0, &bytes, &[]),
        RequestLine::Read { item, offset, size } => {
            put_frame(out, 1, &payload_of(item, offset, size), &[])
        }
        RequestLine::Get(uuid) => put_frame(out, 2, &uuid.0, &[]),
        RequestLine::Put { uuid, text } => put_frame(out, 3, &uuid.0, &text),
    }
}

fn at_line(line: u64, fault: LineFault) -> PlanFault
    ensures { result ≡ at_line line fault }
{
    match fault {
        LineFault::Kind(kind) => PlanFault::At { line, kind },
        LineFault::Memory => PlanFault::Memory,
    }
}

fn make(alloc: Global, text: &[u8]) -> Result<Vec<u8>, PlanFault>
    ensures made { IfOk result (λ out. AreSame text.now out.items) }
    ensures fault { IfErr result (λ e. BreaksText text.now e) }
{
    let mut out = Vec::new(alloc);
    let mut rest = text;
    let mut number = 1;
    while let Some((line, after)) = first_line(rest) {
        let request = match request_of(alloc, line) {
            Ok(request) => request,
            Err(fault) => return Err(at_line(number, fault)),
        };
        match put_request(&mut out, request) {
            Ok(()) => {}
            Err(_) => return Err(PlanFault::Memory),
        }
        rest = after;
        number += 1;
    }
    if rest.is_empty() {
        return Ok(out);
    }
    Err(PlanFault::At {
        line: number,
        kind: PlanKind::End,
    })
}

/// The frames of a text's requests.
pub fn frames_of_text(alloc: Global, text: &[u8]) -> Result<Vec<u8>, PlanFault>
    // The frames are those of the text's requests.
    ensures made { IfOk result (λ out. AreSame text.now out.items) }
    // The first bad line, and the first thing wrong with it.
    ensures fault { IfErr result (λ e. BreaksText text.now e) }
    // Each text of requests has its frames.
    ensures only { (frames : List Framed) → AreRequests frames → text.now ≡ spelled frames
        → MatchResult result (λ out. out.items ≡ bytes_of frames) (λ e. e ≡ Memory) }
{
    make(alloc, text)
}
