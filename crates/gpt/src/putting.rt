// Pieces put behind bytes. Each call takes memory.
ghost use Rattle.std.specs.Prelude.{◌≡◌, ◌+◌, ◌<◌, ◌≤◌, ◌^◌, ◌++◌, All, OnOk, vec_len};
ghost use Rattle.guid_crc.specs.Guids.{disk_form, IsGuid};
ghost use Rattle.gpt.specs.Header.{le32, le64, header_text};
ghost use Rattle.gpt.specs.Entries.{entry_text, IsEntry};
ghost use Rattle.gpt.specs.Image.{zeros};
ghost use Rattle.gpt.specs.Runs.{header_front, header_places, header_back};

use crate::header::Header;
use crate::values::Entry;
use guid_crc::to_disk;
use mg_base::{Guid, Memory};

pub fn put(out: &mut Vec<u8>, piece: &[u8]) -> Result<(), Memory>
    ensures text { OnOk result (out.new.items ≡ out.old.items ++ piece.now) }
    ensures bytes { All (λ b. b < 256) piece.now }
{
    out.extend_from_slice(piece)?;
    Ok(())
}

#[tactic(auto, unfolding(crate::specs::Image::zeros))]
pub fn put_zeros(out: &mut Vec<u8>, count: usize) -> Result<(), Memory>
    requires { count ≤ 65536 }
    ensures { OnOk result (out.new.items ≡ out.old.items ++ zeros count) }
{
    let len = out.len() + count;
    out.resize(len, 0)?;
    Ok(())
}

pub fn put_u32(out: &mut Vec<u8>, number: u32) -> Result<(), Memory>
    ensures { OnOk result (out.new.items ≡ out.old.items ++ le32 number) }
{
    put(out, &number.to_le_bytes())
}

pub fn put_u64(out: &mut Vec<u8>, number: u64) -> Result<(), Memory>
    ensures { OnOk result (out.new.items ≡ out.old.items ++ le64 number) }
{
    put(out, &number.to_le_bytes())
}

fn put_guid(out: &mut Vec<u8>, guid: &Guid) -> Result<(), Memory>
    ensures text { OnOk result (out.new.items ≡ out.old.items ++ disk_form guid.now.0) }
    ensures fits { IsGuid guid.now }
{
    put(out, &to_disk(guid))
}

/// The fields of an entry.

pub fn put_entry(out: &mut Vec<u8>, entry: &Entry) -> Result<(), Memory>
    ensures text { OnOk result (out.new.items ≡ out.old.items ++ entry_text entry.now) }
    ensures fits { OnOk result (IsEntry entry.now) }
{
    put_guid(out, &entry.kind)?;
    put_guid(out, &entry.unique)?;
    put_u64(out, entry.first)?;
    put_u64(out, entry.last)?;
    put_u64(out, entry.attributes)?;
    put(out, &entry.name)
}

/// The fields of a header before its place.
fn put_front(out: &mut Vec<u8>, header: &Header) -> Result<(), Memory>
    ensures { OnOk result (out.new.items ≡ out.old.items ++ header_front header.now) }
{
    put(out, b"EFI PART")?;
    put_u32(out, header.revision)?;
    put_u32(out, header.size)?;
    put_u32(out, header.crc)?;
    put_u32(out, header.reserved)
}

/// The sectors that a header tells, but for the array's.
fn put_places(out: &mut Vec<u8>, header: &Header) -> Result<(), Memory>
    ensures { OnOk result (out.new.items ≡ out.old.items ++ header_places header.now) }
{
    put_u64(out, header.own)?;
    put_u64(out, header.other)?;
    put_u64(out, header.first_usable)?;
    put_u64(out, header.last_usable)
}

/// The fields of a header from the disk's GUID on.
fn put_back(out: &mut Vec<u8>, header: &Header) -> Result<(), Memory>
    ensures { OnOk result (out.new.items ≡ out.old.items ++ header_back header.now) }
{
    put_guid(out, &header.disk)?;
    put_u64(out, header.array)?;
    put_u32(out, header.count)?;
    put_u32(out, header.entry_size)?;
    put_u32(out, header.array_crc)
}

/// The fields of a header.
pub fn put_header(out: &mut Vec<u8>, header: &Header) -> Result<(), Memory>
    ensures { OnOk result (out.new.items ≡ out.old.items ++ header_text header.now) }
{
    put_front(out, header)?;
    put_places(out, header)?;
    put_back(out, header)
}
