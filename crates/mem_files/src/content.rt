// The bytes of a file: those that came with it, and behind them the pages that were written.
ghost use Rattle.std.specs.Prelude.{◌≡◌, ◌≤◌, ◌+◌, ◌-◌, ◌^◌, List, ℕ, [], length, take, drop, ◌++◌, OnOk, OnErr, IfOk};
ghost use Rattle.host_traits.specs.Held.{over, resized};

use crate::sparse::Sparse;
use host_traits::Raw;
use mg_base::Memory;
use std::alloc::Global;
use std::marker::Model;

/// The bytes of a file: those that came with it, as they came, and behind them the pages that were
/// written. Contracts see the list of them all.
#[derive(Drop)]
pub(crate) struct Content {
    front: Vec<u8>,
    back: Sparse,
}

impl Model for Content {
    ghost use Rattle.std.specs.Prelude.{ℕ, List, ◌++◌, ◌+◌, length, ◌<◌, ◌^◌};

    ghost Value = { List ℕ };

    ghost view = { λ c. c.front.items ++ c.back };

    ghost invariant = { λ c. length c.front.items + length c.back < 2 ^ 64 };
}

// Fills a slice with the bytes from a place on of those in front and those behind.
fn fill(front: &[u8], back: &Sparse, at: u64, out: &mut [u8])
    requires { at + length out.old ≤ length (front.now ++ back.now) }
    ensures { out.new ≡ take (length out.old) (drop at (front.now ++ back.now)) }
{
    let whole = front.len();
    let from = at.min(whole as u64) as usize;
    let cut = out.len().min(whole - from);
    let (head, tail) = out.split_at_mut(cut);
    head.copy_from_slice(&front[from..from + cut]);
    back.fill(at.saturating_sub(whole as u64), tail);
}

// Puts bytes over others.
fn overwrite(bytes: &mut Vec<u8>, at: usize, piece: &[u8])
    requires { at + length piece.now ≤ length bytes.old.items }
    ensures put { bytes.new.items
        ≡ take at bytes.old.items ++ piece.now ++ drop (at + length piece.now) bytes.old.items }
    ensures len { length bytes.new.items ≡ length bytes.old.items }
{
    let end = at + piece.len();
    let all = bytes.as_mut_slice();
    all[at..end].copy_from_slice(piece);
}

impl Content {
    /// No bytes.
    pub(crate) fn new(alloc: Global) -> Content
        ensures { result ≡ [] }
    {
        Content {
            front: Vec::new(alloc),
            back: Sparse::new(alloc),
        }
    }

    /// These bytes.
    pub(crate) fn whole(alloc: Global, bytes: Vec<u8>) -> Content
        requires { length bytes.items ≤ 2 ^ 32 }
        ensures { result ≡ bytes.items }
    {
        Content {
            front: bytes,
            back: Sparse::new(alloc),
        }
    }

    /// How many bytes there are.
    fn len(&self) -> u64
        ensures { result ≡ length self.now }
    {
        self.front.len() as u64 + self.back.len()
    }

    // Fills a slice with the bytes from a place on.
    fn fill(&self, at: u64, out: &mut [u8])
        requires { at + length out.old ≤ length self.now }
        ensures { out.new ≡ take (length out.old) (drop at self.now) }
    {
        fill(&self.front, &self.back, at, out);
    }

    /// Reads from a place on, cut at the end. It takes no memory.
    pub(crate) fn read(&self, at: u64, want: u32, raw: &mut Raw)
        requires { want ≤ 69632 }
        ensures { raw.new ≡ take want (drop at self.now) }
    {
        let size = self.len();
        let from = at.min(size);
        let count = (want as u64).min(size - from);
        self.fill(from, raw.room(count as usize));
    }

    /// Puts bytes from a place on, with zeros between. It takes memory only for bytes past those that
    /// came. After an error nothing changed.
    pub(crate) fn write(&mut self, alloc: Global, at: u64, bytes: &[u8]) -> Result<(), Memory>
        requires most { length bytes.now ≤ 4096 }
        requires end { at + length bytes.now ≤ 2 ^ 32 }
        ensures ok { OnOk result (self.new ≡ over self.old at bytes.now) }
        ensures err { OnErr result (self.new ≡ self.old) }
    {
        let whole = self.front.len() as u64;
        let from = at.min(whole) as usize;
        let cut = bytes.len().min(self.front.len() - from);
        match self
            .back
            .write(alloc, at.saturating_sub(whole), &bytes[cut..])
        {
            Ok(()) => {}
            Err(_) => return Err(Memory),
        }
        overwrite(&mut self.front, from, &bytes[..cut]);
        Ok(())
    }

    /// Cuts the bytes, or adds zeros. It takes no memory.
    pub(crate) fn resize(&mut self, size: u64)
        ensures { self.new ≡ resized self.old size }
    {
        let whole = self.front.len() as u64;
        self.back.resize(size.saturating_sub(whole));
        if size < whole {
            self.front.truncate(size as usize);
        }
    }

    /// All the bytes.
    pub(crate) fn to_vec(&self, alloc: Global) -> Result<Vec<u8>, Memory>
        ensures { IfOk result (λ v. v.items ≡ self.now) }
    {
        let size = self.len();
        let mut out = match vec![in alloc; 0u8; size as usize] {
            Ok(out) => out,
            Err(_) => return Err(Memory),
        };
        self.fill(0, out.as_mut_slice());
        Ok(out)
    }
}
