// The text of a tape that grows.
ghost use Rattle.std.specs.Prelude.{◌≡◌, ◌<◌, ◌≤◌, ◌+◌, ◌⊎◌, ℕ, List, [], ◌∷◌, ◌++◌, length, OnOk, vec_capacity};
ghost use Rattle.host_traits.specs.declared.calls.TapeItem.TheVariants.{Bytes};
ghost use Rattle.host_tape.specs.Next.{item_by};
ghost use Rattle.host_tape.specs.Tape.{IsItem, header, item_bytes};

use host_tape::Next;
use std::alloc::AllocError;

// Writes the header, where the text is empty.
pub(crate) fn begin(text: &mut Vec<u8>) -> Result<(), AllocError>
    ensures begun { (text.new.items ≡ text.old.items)
        ⊎ ((text.old.items ≡ []) × (text.new.items ≡ header)) }
    ensures some { OnOk result (0 < length text.new.items) }
{
    if text.is_empty() {
        return text.extend_from_slice(b"guest-tape 1\n");
    }
    Ok(())
}

// Takes room for so many bytes more: for as many again as there is room for, or where that is refused for these alone.
pub(crate) fn make_room(text: &mut Vec<u8>, bytes: usize) -> Result<(), AllocError>
    ensures text { text.new.items ≡ text.old.items }
    ensures room { OnOk result (length text.new.items + bytes ≤ vec_capacity text.new) }
{
    match text.reserve(bytes) {
        Ok(()) => Ok(()),
        Err(_) => text.reserve_exact(bytes),
    }
}

// Adds a record to a text that has room for it.
#[tactic(auto, unfolding(host_tape::specs::Tape::item_bytes))]
pub(crate) fn put(next: Next<'_>, text: &mut Vec<u8>)
    requires room { length text.old.items + length (item_bytes (item_by next)) ≤ vec_capacity
        text.old }
    requires is { IsItem (item_by next) }
    ensures { text.new.items ≡ text.old.items ++ item_bytes (item_by next.entry) }
{
    match next {
        Next::Failed => text.push_reserved(0),
        Next::Done => text.push_reserved(1),
        Next::Number(number) => {
            text.push_reserved(2);
            let _ = text.extend_from_slice(&number.to_le_bytes());
        }
        Next::Bytes(bytes) => put_bytes(bytes, text),
    }
}

// The same for a record of bytes.
#[tactic(auto, unfolding(host_tape::specs::Tape::item_bytes))]
fn put_bytes(bytes: &[u8], text: &mut Vec<u8>)
    requires room { length text.old.items + (5 + length bytes.now) ≤ vec_capacity text.old }
    requires most { length bytes.now ≤ 69632 }
    ensures { text.new.items ≡ text.old.items ++ item_bytes (Bytes bytes.now) }
{
    let size = (bytes.len() as u32).to_le_bytes();
    let _ = text.extend_from_slice(&[3, size[0], size[1], size[2], size[3]]);
    let _ = text.extend_from_slice(bytes);
}
