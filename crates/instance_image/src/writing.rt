// Writing an image of empty partitions. The room is taken first, so no piece can fail.
ghost use Rattle.std.specs.Prelude.{◌≡◌, ℕ, ◌+◌, ◌*◌, ◌≤◌, ◌^◌, ◌++◌, length, OnOk, OnErr, vec_len, vec_capacity};
ghost use Rattle.std.specs.List.{flat_map};
ghost use Rattle.instance_image.specs.Records.{header_of, zeros};
ghost use Rattle.instance_image.specs.Grammar.{disk_header, slot_bytes, empty_slot, empty_slots, taken, image_bytes, AreNamed, AreApart, HaveUuids, IsImage};

use crate::header::{MAGIC, header_of};
use crate::values::Image;
use mg_base::{Guid, Memory};

// Adds a piece.
fn put(piece: &[u8], out: &mut Vec<u8>)
    requires { vec_len out.old + length piece.now ≤ vec_capacity out.old }
    ensures text { out.new.items ≡ out.old.items ++ piece.now }
    ensures len { vec_len out.new ≡ vec_len out.old + length piece.now }
    ensures room { vec_capacity out.old ≤ vec_capacity out.new }
{
    let _fits = out.extend_from_slice(piece);
}

// Adds zeros.
fn put_zeros(count: usize, out: &mut Vec<u8>)
    requires { vec_len out.old + count ≤ vec_capacity out.old }
    ensures text { out.new.items ≡ out.old.items ++ zeros count }
    ensures len { vec_len out.new ≡ vec_len out.old + count }
    ensures room { vec_capacity out.old ≤ vec_capacity out.new }
{
    let len = out.len() + count;
    let _fits = out.resize(len, 0);
}

// Adds the first sector.
#[tactic(auto, unfolding(crate::specs::Grammar::disk_header))]
fn put_disk(salt: &[u8; 64], out: &mut Vec<u8>)
    requires { vec_len out.old + 512 ≤ vec_capacity out.old }
    ensures text { out.new.items ≡ out.old.items ++ disk_header salt.now }
    ensures len { vec_len out.new ≡ vec_len out.old + 512 }
    ensures room { vec_capacity out.old ≤ vec_capacity out.new }
{
    put(&MAGIC, out);
    put(&1u16.to_le_bytes(), out);
    put(salt, out);
    put_zeros(426, out);
}

// Adds an empty partition.
#[tactic(auto, unfolding(crate::specs::Grammar::slot_bytes))]
fn put_slot(part: &(Guid, u32), out: &mut Vec<u8>)
    requires few { part.now.1 ≤ 2 ^ 21 }
    requires space { vec_len out.old + 512 * (1 + part.now.1) ≤ vec_capacity out.old }
    ensures text { out.new.items ≡ out.old.items ++ slot_bytes (empty_slot part.now) }
    ensures len { vec_len out.new ≡ vec_len out.old + 512 * (1 + part.now.1) }
    ensures room { vec_capacity out.old ≤ vec_capacity out.new }
    ensures uuid { length part.now.0.0 ≡ 16 }
{
    put(&header_of(&part.0, 0, part.1), out);
    put_zeros(512 * part.1 as usize, out);
}

// How many sectors partitions take, with their headers.
#[tactic(auto, unfolding(crate::specs::Grammar::taken))]
fn taken(parts: &[(Guid, u32)]) -> usize
    requires { taken parts.now ≤ 2 ^ 21 }
    ensures { result ≡ taken parts.now }
{
    let mut sum = 0;
    for part in parts {
        sum += 1 + part.1 as usize;
    }
    sum
}

// Adds empty partitions.
fn put_slots(parts: &[(Guid, u32)], out: &mut Vec<u8>)
    requires few { taken parts.now ≤ 2 ^ 21 }
    requires space { vec_len out.old + 512 * taken parts.now ≤ vec_capacity out.old }
    ensures text { out.new.items ≡ out.old.items ++ flat_map slot_bytes (empty_slots parts.now) }
    ensures uuids { HaveUuids parts.now }
{
    for part in parts {
        put_slot(part, out);
    }
}

impl Image {
    /// Writes an image of empty partitions behind what stands in `out`: its first sector with the
    /// salt, and for each UUID a header and so many reserved sectors of zeros. At most 256 UUIDs, none
    /// nil and none twice, and at most 2^21 sectors. Out of memory `out` is as before.
    pub fn writer(salt: &[u8; 64], parts: &[(Guid, u32)], out: &mut Vec<u8>) -> Result<(), Memory>
        requires few { length parts.now ≤ 256 }
        requires size { 1 + taken parts.now ≤ 2 ^ 21 }
        requires named { AreNamed parts.now }
        requires apart { AreApart (empty_slots parts.now) }
        ensures text { OnOk result (out.new.items ≡ out.old.items
            ++ image_bytes salt.now parts.now) }
        // These bytes, and so many sectors of zeros behind them, are an image of these partitions.
        ensures image { OnOk result ((more : ℕ) → IsImage (1 + taken parts.now + more) salt.now
            (empty_slots parts.now) (image_bytes salt.now parts.now ++ zeros (512 * more))) }
        ensures unchanged { OnErr result (out.new.items ≡ out.old.items) }
    {
        out.reserve(512 * (1 + taken(parts)))?;
        put_disk(salt, out);
        put_slots(parts, out);
        Ok(())
    }
}
