// The header of a partition table: its fields, and the rules that it must keep.
ghost use Rattle.std.specs.Prelude.{◌≡◌, ◌+◌, ◌<◌, ◌≤◌, ◌^◌, ◌↔◌, IsTrue, length};
ghost use Rattle.guid_crc.specs.Remainder.{crc32};
ghost use Rattle.gpt.specs.Header.{header_of, blanked};
ghost use Rattle.gpt.specs.Rules.{is_in_place, header_fault, IsSide};

use crate::faults::GptFault;
use crate::fields::{guid_at, u32_at, u64_at};
use guid_crc::crc32;
use mg_base::Guid;

/// The fields of a header (UEFI 2.10, table 5.5), but for the signature.
#[derive(Clone, Copy)]
pub struct Header {
    pub revision: u32,
    pub size: u32,
    /// The CRC-32 of the header's 92 bytes with this field zero.
    pub crc: u32,
    pub reserved: u32,
    /// The number of the header's own sector.
    pub own: u64,
    /// The number of the other header's sector.
    pub other: u64,
    /// The first and the last sector that a partition may use.
    pub first_usable: u64,
    pub last_usable: u64,
    pub disk: Guid,
    /// The first sector of the array of entries.
    pub array: u64,
    pub count: u32,
    pub entry_size: u32,
    pub array_crc: u32,
}

/// One of the two copies of a table. It is read from the 40 sectors at one end of the disk.
#[derive(Clone, Copy)]
pub struct Side {
    /// The first of these sectors.
    pub base: u64,
    /// The header's sector.
    pub own: u64,
    /// The array lies at or after this sector, and before that one.
    pub low: u64,
    pub high: u64,
    /// The number of sectors of the disk.
    pub sectors: u64,
}

#[tactic(auto, unfolding(crate::specs::Header::header_of))]
pub fn header_of(bytes: &[u8]) -> Header
    requires { length bytes.now ≡ 92 }
    ensures { result ≡ header_of bytes.now }
{
    Header {
        revision: u32_at(bytes, 8),
        size: u32_at(bytes, 12),
        crc: u32_at(bytes, 16),
        reserved: u32_at(bytes, 20),
        own: u64_at(bytes, 24),
        other: u64_at(bytes, 32),
        first_usable: u64_at(bytes, 40),
        last_usable: u64_at(bytes, 48),
        disk: guid_at(bytes, 56),
        array: u64_at(bytes, 72),
        count: u32_at(bytes, 80),
        entry_size: u32_at(bytes, 84),
        array_crc: u32_at(bytes, 88),
    }
}

/// Makes the field of the CRC zero.
fn blank(bytes: &mut [u8])
    requires { length bytes.old ≡ 92 }
    ensures { bytes.new ≡ blanked bytes.old }
{
    bytes[16..20].fill(0);
}

/// The CRC-32 of a header, its own field taken as zero.
fn own_crc(bytes: &[u8]) -> u32
    requires { length bytes.now ≡ 92 }
    ensures { result ≡ crc32 (blanked bytes.now) }
{
    let mut copy = [0; 92];
    copy.copy_from_slice(bytes);
    blank(&mut copy);
    crc32(&copy)
}

/// Whether the header, its array and the usable sectors lie where they should.
fn is_in_place(header: &Header, side: &Side) -> bool
    requires { side.now.high ≤ 2 ^ 40 }
    ensures { result ≡ is_in_place side.now header.now }
{
    if header.own != side.own {
        return false;
    }
    if header.array < side.low || side.high < header.array {
        return false;
    }
    if 4 * side.high < 4 * header.array + u64::from(header.count) {
        return false;
    }
    header.first_usable <= header.last_usable && header.last_usable < side.sectors
}

/// The first rule of a header that these bytes break.
#[tactic(auto, unfolding(crate::specs::Rules::header_fault))]
pub fn header_fault(bytes: &[u8], side: &Side) -> Option<GptFault>
    requires len { length bytes.now ≡ 92 }
    requires high { side.now.high ≤ 2 ^ 40 }
    ensures { result ≡ header_fault side.now bytes.now }
{
    let header = header_of(bytes);
    if &bytes[..8] != b"EFI PART".as_slice() {
        return Some(GptFault::Signature);
    }
    if header.revision != 0x1_0000 {
        let found = header.revision;
        return Some(GptFault::Revision { found });
    }
    if header.size != 92 {
        let found = header.size;
        return Some(GptFault::HeaderSize { found });
    }
    let found = own_crc(bytes);
    if header.crc != found {
        let expected = header.crc;
        return Some(GptFault::HeaderCrc { expected, found });
    }
    if header.entry_size != 128 {
        let found = header.entry_size;
        return Some(GptFault::EntrySize { found });
    }
    if header.count < 1 || 128 < header.count {
        let found = header.count;
        return Some(GptFault::EntryCount { found });
    }
    if !is_in_place(&header, side) {
        return Some(GptFault::Place);
    }
    None
}
