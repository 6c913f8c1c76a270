// A line, read.
ghost use Rattle.std.specs.Prelude.{◌≡◌, ◌<◌, ◌^◌, length, MatchOption, IfSome, None, Some};
ghost use Rattle.text_lines.specs.Fields.{Gives, cut};
ghost use Rattle.text_lines.specs.Values.{again_from, number_in};
ghost use Rattle.hex.specs.Hex.{decode_of};
ghost use Rattle.frame_text.specs.Reading.{bytes_in, digits_of, frame_of, framed_by, get_of, message_of, put_of, read_of};

use guest_plan::uuid_of;
use hex::FromHexError;
use mg_base::Guid;
use std::alloc::Global;
use text_lines::{
    LineFault, PlanKind, first_field, four_fields, number_in, number64, three_fields, two_fields,
};

/// The request that a line says.
#[derive(Drop)]
pub(crate) enum RequestLine {
    Message(Vec<u8>),
    Read { item: u32, offset: u64, size: u32 },
    Get(Guid),
    Put { uuid: Guid, text: Vec<u8> },
}

/// The first line of what is left, and what stands behind its line feed.
pub(crate) fn first_line(bytes: &[u8]) -> Option<(&[u8], &[u8])>
    ensures found { MatchOption result (cut 10 bytes.now ≡ None)
        (λ x. cut 10 bytes.now ≡ Some (x.0.now, x.1.now)) }
    ensures shorter { IfSome result (λ x. length x.1.now < length bytes.now) }
{
    for (i, byte) in bytes.iter().enumerate() {
        if *byte == b'\n' {
            return Some((&bytes[..i], &bytes[i + 1..]));
        }
    }
    None
}

fn number32(text: &[u8]) -> Result<u32, LineFault>
    ensures { Gives (λ n. n) result (number_in 0 (2 ^ 32) text.now) }
{
    match number_in(0, 1 << 32, text) {
        Ok(n) => Ok(n as u32),
        Err(fault) => Err(fault),
    }
}

fn decoded(alloc: Global, text: &[u8]) -> Result<Vec<u8>, LineFault>
    ensures { Gives (λ b. b.items) result (again_from text.now (decode_of text.now)) }
{
    let bytes = match hex::decode(alloc, text) {
        Ok(bytes) => bytes,
        Err(FromHexError::OutOfMemory) => return Err(LineFault::Memory),
        Err(_) => return Err(LineFault::Kind(PlanKind::Hex)),
    };
    let again = hex::encode(alloc, bytes.as_slice())?;
    if again.as_bytes() != text {
        return Err(LineFault::Kind(PlanKind::Hex));
    }
    Ok(bytes)
}

#[tactic(auto, unfolding(crate::specs::Reading::digits_of))]
fn digits_of(alloc: Global, text: &[u8]) -> Result<Vec<u8>, LineFault>
    ensures { Gives (λ b. b.items) result (digits_of text.now) }
{
    if text == b"-".as_slice() {
        return Ok(Vec::new(alloc));
    }
    if text.is_empty() {
        return Err(LineFault::Kind(PlanKind::Hex));
    }
    decoded(alloc, text)
}

#[tactic(auto, unfolding(crate::specs::Reading::bytes_in))]
fn bytes_in(alloc: Global, least: usize, most: usize, text: &[u8]) -> Result<Vec<u8>, LineFault>
    ensures { Gives (λ b. b.items) result (bytes_in least most text.now) }
{
    let bytes = digits_of(alloc, text)?;
    if bytes.len() < least || most < bytes.len() {
        return Err(LineFault::Kind(PlanKind::Range));
    }
    Ok(bytes)
}

#[tactic(auto, unfolding(crate::specs::Reading::message_of))]
fn message_of(alloc: Global, line: &[u8]) -> Result<RequestLine, LineFault>
    ensures { Gives framed_by result (message_of line.now) }
{
    let (_, bytes) = two_fields(line)?;
    let bytes = bytes_in(alloc, 40, 135168, bytes)?;
    Ok(RequestLine::Message(bytes))
}

#[tactic(auto, unfolding(crate::specs::Reading::read_of))]
fn read_of(line: &[u8]) -> Result<RequestLine, LineFault>
    ensures { Gives framed_by result (read_of line.now) }
{
    let (_, first, second, third) = four_fields(line)?;
    let item = number32(first)?;
    let offset = number64(second)?;
    let size = number32(third)?;
    Ok(RequestLine::Read { item, offset, size })
}

#[tactic(auto, unfolding(crate::specs::Reading::get_of))]
fn get_of(line: &[u8]) -> Result<RequestLine, LineFault>
    ensures { Gives framed_by result (get_of line.now) }
{
    let (_, uuid) = two_fields(line)?;
    let uuid = uuid_of(uuid)?;
    Ok(RequestLine::Get(uuid))
}

#[tactic(auto, unfolding(crate::specs::Reading::put_of))]
fn put_of(alloc: Global, line: &[u8]) -> Result<RequestLine, LineFault>
    ensures { Gives framed_by result (put_of line.now) }
{
    let (_, uuid, text) = three_fields(line)?;
    let uuid = uuid_of(uuid)?;
    let text = bytes_in(alloc, 0, 135152, text)?;
    Ok(RequestLine::Put { uuid, text })
}

/// The request that a line says.
#[tactic(auto, unfolding(crate::specs::Reading::frame_of))]
pub(crate) fn request_of(alloc: Global, line: &[u8]) -> Result<RequestLine, LineFault>
    ensures { Gives framed_by result (frame_of line.now) }
{
    let word = first_field(line);
    if word == b"message".as_slice() {
        return message_of(alloc, line);
    }
    if word == b"read".as_slice() {
        return read_of(line);
    }
    if word == b"get".as_slice() {
        return get_of(line);
    }
    if word == b"put".as_slice() {
        return put_of(alloc, line);
    }
    Err(LineFault::Kind(PlanKind::Word))
}
