// The text of frames.
ghost use Rattle.std.specs.Prelude.{◌≡◌, ◌<◌, ◌≤◌, ◌++◌, List, [], length, MatchResult, IfOk, IfErr, OnOk};
ghost use Rattle.guid_crc.specs.Guids.{guid_text};
ghost use Rattle.text_lines.specs.Spelling.{ended};
ghost use Rattle.session_frames.specs.Frames.{Framed, IsCutOff, IsPayload, bytes_of};
ghost use Rattle.guest_rules.specs.Machine.{item_read};
ghost use Rattle.frame_text.specs.declared.faults.FrameFault.TheVariants.{At, Memory};
ghost use Rattle.frame_text.specs.declared.faults.FrameKind.TheVariants.{End};
ghost use Rattle.frame_text.specs.Reading.{BreaksFrames, read_with};
ghost use Rattle.frame_text.specs.Requests.{AreRequests, AreSame, line_on, spelled};
ghost use Rattle.frame_text.specs.Spelling.{bytes_text, get_line, message_line, put_line, read_line};

use crate::faults::{FrameFault, FrameKind};
use session_frames::{Next, Splitter};
use std::alloc::{AllocError, Global};
use text_lines::Line;
use uuid::Uuid;

/// A read of an item.
#[derive(Clone, Copy, Drop)]
struct ItemRead {
    item: u32,
    offset: u64,
    size: u32,
}

// Adds bytes as digits.
fn put_bytes(alloc: Global, out: &mut Vec<u8>, bytes: &[u8]) -> Result<(), AllocError>
    ensures { OnOk result (out.new.items ≡ out.old.items ++ bytes_text bytes.now) }
{
    if bytes.is_empty() {
        out.push(b'-')?;
        return Ok(());
    }
    let digits = hex::encode(alloc, bytes)?;
    out.extend_from_slice(digits.as_bytes())
}

// The bytes of a UUID.
fn uuid_in(bytes: &[u8]) -> [u8; 16]
    requires { length bytes.now ≡ 16 }
    ensures { result ≡ bytes.now }
{
    let mut uuid = [0; 16];
    uuid.copy_from_slice(bytes);
    uuid
}

// Adds the text of a UUID.
fn put_uuid(out: &mut Vec<u8>, bytes: &[u8]) -> Result<(), AllocError>
    requires { length bytes.now ≡ 16 }
    ensures { OnOk result (out.new.items ≡ out.old.items ++ guid_text bytes.now) }
{
    let id = Uuid::from_bytes(uuid_in(bytes));
    let mut buffer = Uuid::encode_buffer();
    let text = id.hyphenated().encode_lower(&mut buffer);
    out.extend_from_slice(text.as_bytes())?;
    Ok(())
}

fn put_message(alloc: Global, out: &mut Vec<u8>, payload: &[u8]) -> Result<(), AllocError>
    ensures { OnOk result (out.new.items ≡ out.old.items ++ message_line payload.now) }
{
    out.extend_from_slice(b"message ")?;
    put_bytes(alloc, out, payload)
}

// The item, offset and size of a payload.
fn read_in(payload: &[u8]) -> ItemRead
    requires { length payload.now ≡ 16 }
    ensures { read_with result.item result.offset result.size ≡ item_read payload.now }
{
    let mut item = [0; 4];
    item.copy_from_slice(&payload[..4]);
    let mut offset = [0; 8];
    offset.copy_from_slice(&payload[4..12]);
    let mut size = [0; 4];
    size.copy_from_slice(&payload[12..16]);
    ItemRead {
        item: u32::from_le_bytes(item),
        offset: u64::from_le_bytes(offset),
        size: u32::from_le_bytes(size),
    }
}

fn put_read(out: &mut Vec<u8>, read: &ItemRead) -> Result<(), AllocError>
    ensures { OnOk result (out.new.items ≡ out.old.items
        ++ read_line (read_with read.now.item read.now.offset read.now.size)) }
{
    let mut line = Line::new();
    line.put(b"read ");
    line.number(u64::from(read.item));
    line.put(b" ");
    line.number(read.offset);
    line.put(b" ");
    line.number(u64::from(read.size));
    out.extend_from_slice(line.bytes())?;
    Ok(())
}

fn put_get(out: &mut Vec<u8>, payload: &[u8]) -> Result<(), AllocError>
    requires { length payload.now ≡ 16 }
    ensures { OnOk result (out.new.items ≡ out.old.items ++ get_line payload.now) }
{
    out.extend_from_slice(b"get ")?;
    put_uuid(out, payload)
}

fn put_put(alloc: Global, out: &mut Vec<u8>, uuid: &[u8], text: &[u8]) -> Result<(), AllocError>
    requires { length uuid.now ≡ 16 }
    ensures { OnOk result (out.new.items ≡ out.old.items ++ put_line uuid.now text.now) }
{
    out.extend_from_slice(b"put ")?;
    put_uuid(out, uuid)?;
    out.push(b' ')?;
    put_bytes(alloc, out, text)
}

// Adds the words of a frame.
fn put_words(
    alloc: Global,
    out: &mut Vec<u8>,
    channel: u8,
    payload: &[u8],
) -> Result<(), AllocError>
    requires { IsPayload channel (length payload.now) }
    ensures { OnOk result (out.new.items ≡ out.old.items ++ line_on channel payload.now) }
{
    match channel {
        0 => put_message(alloc, out, payload),
        1 => put_read(out, &read_in(payload)),
        2 => put_get(out, payload),
        _ => put_put(alloc, out, &payload[..16], &payload[16..]),
    }
}

// Adds the line of a frame.
fn put_line(alloc: Global, out: &mut Vec<u8>, channel: u8, payload: &[u8]) -> Result<(), AllocError>
    requires { IsPayload channel (length payload.now) }
    ensures { OnOk result (out.new.items ≡ out.old.items ++ ended (line_on channel payload.now)) }
{
    put_words(alloc, out, channel, payload)?;
    out.push(b'\n')?;
    Ok(())
}

// Takes bytes, and gives those that are left.
fn feed<'a>(splitter: &mut Splitter, rest: &'a [u8]) -> &'a [u8]
    requires some { 0 < length rest.now }
    requires cut { IsCutOff splitter.old.held }
    ensures whole { splitter.new.held ++ result.now ≡ splitter.old.held ++ rest.now }
    ensures less { length result.now < length rest.now }
    ensures at { splitter.new.at ≡ splitter.old.at }
{
    let count = splitter.feed(rest);
    &rest[count..]
}

// What is wrong with the frame at the front.
fn bad(splitter: &Splitter, kind: FrameKind) -> FrameFault
    ensures { result ≡ At splitter.now.at kind }
{
    FrameFault::At {
        byte: splitter.at(),
        kind,
    }
}

// The text where no more bytes come and no whole frame is in front.
fn ended(text: Vec<u8>, splitter: &Splitter) -> Result<Vec<u8>, FrameFault>
    ensures { MatchResult result (λ out. (out.items ≡ text.items) × (splitter.now.held ≡ []))
        (λ e. (0 < length splitter.now.held) × (e ≡ At splitter.now.at End)) }
{
    if splitter.len() == 0 {
        return Ok(text);
    }
    Err(bad(splitter, FrameKind::End))
}

fn dump(alloc: Global, bytes: &[u8]) -> Result<Vec<u8>, FrameFault>
    ensures made { IfOk result (λ text. AreSame text.items bytes.now) }
    ensures fault { IfErr result (λ e. BreaksFrames bytes.now e) }
{
    let mut out = Vec::new(alloc);
    let mut rest = bytes;
    let Ok(mut splitter) = Splitter::new(alloc) else {
        return Err(FrameFault::Memory);
    };
    loop {
        match splitter.next() {
            Next::Frame { channel, payload } => {
                match put_line(alloc, &mut out, channel, payload) {
                    Ok(()) => {}
                    Err(_) => return Err(FrameFault::Memory),
                }
                splitter.done();
            }
            Next::More => {
                if rest.is_empty() {
                    return ended(out, &splitter);
                }
                rest = feed(&mut splitter, rest);
            }
            Next::Bad => return Err(bad(&splitter, FrameKind::Frame)),
        }
    }
}

/// The text of frames of requests.
pub fn text_of_frames(alloc: Global, bytes: &[u8]) -> Result<Vec<u8>, FrameFault>
    // The text is that of the frames' requests.
    ensures made { IfOk result (λ text. AreSame text.items bytes.now) }
    // The first bad frame, and what is wrong with it.
    ensures fault { IfErr result (λ e. BreaksFrames bytes.now e) }
    // Each stream of requests has its text.
    ensures only { (frames : List Framed) → AreRequests frames → bytes.now ≡ bytes_of frames
        → MatchResult result (λ text. text.items ≡ spelled frames) (λ e. e ≡ Memory) }
{
    dump(alloc, bytes)
}
