// The sectors of an image: the first one, and the headers of partitions.
ghost use Rattle.std.specs.Prelude.{◌≡◌, ◌+◌, ◌*◌, ◌<◌, ◌≤◌, ◌^◌, ◌++◌, length, take, drop, MatchOption, None, Some};
ghost use Rattle.std.specs.Str.{bytes_eq};
ghost use Rattle.std.specs.Int.{w16, w32, w64, from_le_bytes};
ghost use Rattle.instance_image.specs.Records.{part_at, header_of, find_part};
ghost use Rattle.instance_image.specs.Opening.{disk_fault, magic, is_zero, is_header, is_payload_size, header_step, part_of};

use crate::faults::ImageFault;
use crate::values::Part;
use mg_base::Guid;

/// The bytes that an image begins with.
pub(crate) const MAGIC: [u8; 20] = *b"Android-VM-instance\0";

/// The most partitions of an image.
const MOST_PARTS: usize = 256;

fn u16_at(bytes: &[u8], at: usize) -> u16
    requires { at + 2 ≤ length bytes.now }
    ensures { result ≡ from_le_bytes w16 (part_at at 2 bytes.now) }
{
    let field = &bytes[at..at + 2];
    u16::from_le_bytes([field[0], field[1]])
}

fn u32_at(bytes: &[u8], at: usize) -> u32
    requires { at + 4 ≤ length bytes.now }
    ensures { result ≡ from_le_bytes w32 (part_at at 4 bytes.now) }
{
    let field = &bytes[at..at + 4];
    u32::from_le_bytes([field[0], field[1], field[2], field[3]])
}

pub(crate) fn u64_at(bytes: &[u8], at: usize) -> u64
    requires { at + 8 ≤ length bytes.now }
    ensures { result ≡ from_le_bytes w64 (part_at at 8 bytes.now) }
{
    let field = &bytes[at..at + 8];
    u64::from_le_bytes([
        field[0], field[1], field[2], field[3], field[4], field[5], field[6], field[7],
    ])
}

// Whether all bytes are zero.
#[tactic(auto, unfolding(crate::specs::Opening::is_zero))]
fn is_zero(bytes: &[u8]) -> bool
    ensures { result ≡ is_zero bytes.now }
{
    for byte in bytes {
        if *byte != 0 {
            return false;
        }
    }
    true
}

// Whether the bytes from a place on are zero.
fn is_zero_from(bytes: &[u8], at: usize) -> bool
    requires { at ≤ length bytes.now }
    ensures { result ≡ is_zero (drop at bytes.now) }
{
    is_zero(&bytes[at..])
}

fn has_magic(bytes: &[u8]) -> bool
    requires { 20 ≤ length bytes.now }
    ensures { result ≡ bytes_eq (take 20 bytes.now) magic }
{
    &bytes[..20] == MAGIC.as_slice()
}

fn has_salt(bytes: &[u8], salt: &[u8; 64]) -> bool
    requires { 86 ≤ length bytes.now }
    ensures { result ≡ bytes_eq (part_at 22 64 bytes.now) salt.now }
{
    &bytes[22..86] == salt.as_slice()
}

/// The first rule that the first sector breaks.
#[tactic(auto, unfolding(crate::specs::Opening::disk_fault))]
pub(crate) fn disk_fault(bytes: &[u8], salt: &[u8; 64]) -> Option<ImageFault>
    requires { length bytes.now ≤ 512 }
    ensures { result ≡ disk_fault salt.now bytes.now }
{
    if bytes.len() < 512 {
        let got = bytes.len() as u64;
        return Some(ImageFault::Short { asked: 512, got });
    }
    if !has_magic(bytes) {
        return Some(ImageFault::Magic);
    }
    let version = u16_at(bytes, 20);
    if version != 1 {
        return Some(ImageFault::Version { found: version });
    }
    if !is_zero_from(bytes, 86) {
        return Some(ImageFault::NotZero { sector: 0 });
    }
    if !has_salt(bytes, salt) {
        return Some(ImageFault::SaltMismatch);
    }
    None
}

/// The first partition of a UUID.
#[tactic(auto, unfolding(crate::specs::Records::find_part))]
pub(crate) fn find_part<'a>(parts: &'a [Part], uuid: &Guid) -> Option<&'a Part>
    ensures { MatchOption result (find_part parts.now uuid.now.0 ≡ None)
        (λ p. find_part parts.now uuid.now.0 ≡ Some p.now) }
{
    for part in parts {
        if part.uuid == *uuid {
            return Some(part);
        }
    }
    None
}

// Whether a payload may have so many bytes.
fn is_payload_size(size: u64, reserved: u32) -> bool
    ensures { result ≡ is_payload_size size reserved }
{
    if size == 0 {
        return true;
    }
    28 <= size && size <= 65_564 && size <= 512 * u64::from(reserved)
}

// Whether a header keeps the rules, at this sector of an image of so many, after these partitions.
fn is_header(bytes: &[u8], part: &Part, sectors: u64, parts: &[Part]) -> bool
    requires len { length bytes.now ≡ 512 }
    requires part { part.now ≡ part_of part.now.sector bytes.now }
    requires few { part.now.sector ≤ 2 ^ 40 }
    ensures { result ≡
        is_header sectors (record { parts = parts.now; next = part.now.sector }) bytes.now }
{
    if !is_zero_from(bytes, 28) {
        return false;
    }
    if sectors < part.sector + (1 + u64::from(part.reserved)) {
        return false;
    }
    if !is_payload_size(part.size, part.reserved) {
        return false;
    }
    find_part(parts, &part.uuid).is_none()
}

// What a header says.
fn part_of(bytes: &[u8], sector: u64) -> Part
    requires { length bytes.now ≡ 512 }
    ensures { result ≡ part_of sector bytes.now }
{
    let mut uuid = [0u8; 16];
    uuid.copy_from_slice(&bytes[..16]);
    Part {
        uuid: Guid(uuid),
        sector,
        reserved: u32_at(bytes, 24),
        size: u64_at(bytes, 16),
    }
}

/// What the answer for the header in this sector makes, in an image of so many sectors, after these
/// partitions: a further one, or none, where its UUID is nil.
#[tactic(auto, unfolding(crate::specs::Opening::header_step))]
pub(crate) fn header_step(
    bytes: &[u8],
    sector: u64,
    sectors: u64,
    parts: &[Part],
) -> Result<Option<Part>, ImageFault>
    requires few { length bytes.now ≤ 512 }
    requires low { sector ≤ 2 ^ 40 }
    ensures { result ≡
        header_step sectors (record { parts = parts.now; next = sector }) bytes.now }
{
    if bytes.len() < 512 {
        let got = bytes.len() as u64;
        return Err(ImageFault::Short { asked: 512, got });
    }
    if &bytes[..16] == [0u8; 16].as_slice() {
        return Ok(None);
    }
    let part = part_of(bytes, sector);
    if !is_header(bytes, &part, sectors, parts) {
        return Err(ImageFault::Header { sector });
    }
    if parts.len() == MOST_PARTS {
        return Err(ImageFault::TooMany { sector });
    }
    Ok(Some(part))
}

// Overwrites the bytes from `at` on.
fn put(bytes: &mut [u8; 512], at: usize, piece: &[u8])
    requires { at + length piece.now ≤ 512 }
    ensures { bytes.new ≡
        take at bytes.old ++ piece.now ++ drop (at + length piece.now) bytes.old }
{
    let end = at + piece.len();
    let all: &mut [u8] = bytes;
    all[at..end].copy_from_slice(piece);
}

/// The header of a partition: its UUID, the size of its payload, its reserved sectors, and zeros.
pub(crate) fn header_of(uuid: &Guid, size: u64, reserved: u32) -> [u8; 512]
    ensures value { result ≡ header_of uuid.now.0 size reserved }
    ensures uuid { length uuid.now.0 ≡ 16 }
{
    let mut header = [0u8; 512];
    put(&mut header, 0, &uuid.0);
    put(&mut header, 16, &size.to_le_bytes());
    put(&mut header, 24, &reserved.to_le_bytes());
    header
}
