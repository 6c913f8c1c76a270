// A tape, written to bytes.
ghost use Rattle.std.specs.Prelude.{◌≡◌, ◌+◌, ◌≤◌, ◌++◌, List, [], ◌∷◌, ℕ, length, take, OnOk, OnErr};
ghost use Rattle.std.specs.Int.{w32, to_le_bytes};
ghost use Rattle.host_tape.specs.Tape.{IsTape, header, item_bytes, items_bytes, tape_bytes, IsItem};
ghost use Rattle.std.specs.List.{AllByRecursion};

use host_traits::TapeItem;
use mg_base::Memory;
use std::alloc::AllocError;

// Adds a record of bytes.
#[tactic(auto, unfolding(crate::specs::Tape::item_bytes))]
fn put_bytes(bytes: &[u8], out: &mut Vec<u8>) -> Result<(), AllocError>
    requires { length bytes.now ≤ 69632 }
    ensures ok { OnOk result
        (out.new.items ≡ out.old.items ++ (3 ∷ (to_le_bytes w32 (length bytes.now) ++ bytes.now))) }
    ensures kept { take (length out.old.items) out.new.items ≡ out.old.items }
{
    let size = (bytes.len() as u32).to_le_bytes();
    out.extend_from_slice(&[3, size[0], size[1], size[2], size[3]])?;
    out.extend_from_slice(bytes)
}

// Adds a record.
#[tactic(auto, unfolding(crate::specs::Tape::item_bytes))]
fn put_item(item: &TapeItem, out: &mut Vec<u8>) -> Result<(), AllocError>
    ensures ok { OnOk result (out.new.items ≡ out.old.items ++ item_bytes item.now) }
    ensures is { IsItem item.now }
    ensures kept { take (length out.old.items) out.new.items ≡ out.old.items }
{
    match item {
        TapeItem::Failed => out.extend_from_slice(&[0]),
        TapeItem::Done => out.extend_from_slice(&[1]),
        TapeItem::Number(n) => {
            let bytes = n.to_le_bytes();
            out.extend_from_slice(&[2])?;
            out.extend_from_slice(&bytes)
        }
        TapeItem::Bytes(answer) => put_bytes(answer.bytes(), out),
    }
}

// Adds records, one after another.
fn put_items(items: &[TapeItem], out: &mut Vec<u8>) -> Result<(), AllocError>
    ensures ok { OnOk result (out.new.items ≡ out.old.items ++ items_bytes items.now) }
    ensures each { OnOk result (AllByRecursion IsItem items.now) }
    ensures kept { take (length out.old.items) out.new.items ≡ out.old.items }
{
    for item in items {
        put_item(item, out)?;
    }
    Ok(())
}

// Adds a tape, or a front part of it.
fn put_tape(items: &[TapeItem], out: &mut Vec<u8>) -> Result<(), AllocError>
    ensures ok { OnOk result (out.new.items ≡ out.old.items ++ tape_bytes items.now) }
    ensures each { OnOk result (AllByRecursion IsItem items.now) }
    ensures kept { take (length out.old.items) out.new.items ≡ out.old.items }
{
    out.extend_from_slice(b"guest-tape 1\n")?;
    put_items(items, out)
}

/// Writes a tape behind what stands in `out`. Where memory runs out, `out` is as before.
pub fn write_tape(items: &[TapeItem], out: &mut Vec<u8>) -> Result<(), Memory>
    ensures bytes { OnOk result (out.new.items ≡ out.old.items ++ tape_bytes items.now) }
    // So `read_tape` reads these records again.
    ensures again { OnOk result (IsTape (tape_bytes items.now) items.now) }
    ensures unchanged { OnErr result (out.new.items ≡ out.old.items) }
{
    let before = out.len();
    match put_tape(items, out) {
        Ok(()) => Ok(()),
        Err(_) => {
            out.truncate(before);
            Err(Memory)
        }
    }
}
