// A tape, read from its bytes.
ghost use Rattle.std.specs.Prelude.{◌≡◌, ◌≤◌, ℕ, List, length};
ghost use Rattle.host_traits.specs.declared.calls.TapeItem.{TapeItem};
ghost use Rattle.host_tape.specs.Tape.{IsTape, Breaks};
ghost use Rattle.host_tape.specs.Reading.{Finds, Found, Reading, IsRead, IsRefused};

use crate::fault::TapeFault;
use crate::front::front_record;
use crate::tape::Tape;
use std::alloc::Global;

/// How many records stand behind the header, in one pass.
fn count_records(text: &[u8]) -> Result<usize, TapeFault>
    requires { 13 ≤ length text.now }
    ensures { Finds text.now result }
{
    let mut count = 0;
    let mut at = 13;
    while at < text.len() {
        match front_record(&text[at..]) {
            Some((_, n)) => {
                count += 1;
                at += n;
            }
            None => return Err(TapeFault::At { at: at as u64 }),
        }
    }
    Ok(count)
}

fn read(alloc: Global, bytes: Vec<u8>) -> Result<Tape, TapeFault>
    ensures { Found bytes.items result }
{
    let text = bytes.as_slice();
    if text.len() < 13 {
        return Err(TapeFault::At { at: 0 });
    }
    if &text[..13] != b"guest-tape 1\n".as_slice() {
        return Err(TapeFault::At { at: 0 });
    }
    let count = count_records(text)?;
    Tape::new(alloc, bytes, count)
}

/// Reads a tape, all of its bytes, and keeps them. Room for what its calls note is taken here.
pub fn read_tape(alloc: Global, bytes: Vec<u8>) -> Result<Tape, TapeFault>
    // A tape of the bytes' records, of which none was taken; or where they are no tape's.
    ensures read { Reading bytes.items result }
    // A tape's bytes are read, unless memory runs out.
    ensures only { (items : List TapeItem) → IsTape bytes.items items → IsRead items result }
    // Bytes that are no tape's are refused at the place where they are none, unless memory runs out.
    ensures refused { (at : ℕ) → Breaks bytes.items at → IsRefused at result }
{
    read(alloc, bytes)
}
