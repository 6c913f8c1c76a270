// Bytes that are kept as the pages that were written, so that a gap takes no memory.
ghost use Rattle.std.specs.Prelude.{◌≡◌, ◌≤◌, ◌+◌, ◌^◌, List, ℕ, [], length, take, drop, OnOk, OnErr};
ghost use Rattle.host_traits.specs.Held.{over, resized};

use crate::page_map::{cut, fill, overwrite};
use mg_base::{Memory, Page};
use std::alloc::Global;
use std::collections::BTreeMap;
use std::marker::Model;

/// Bytes that are kept as the pages that were written. Contracts see the list of them.
#[derive(Drop)]
pub(crate) struct Sparse {
    size: u64,
    pages: BTreeMap<u64, Page>,
}

impl Model for Sparse {
    ghost use Rattle.std.specs.Prelude.{ℕ, List};
    ghost use Rattle.mem_files.specs.Files.{sparse_bytes, IsCutAt};

    ghost Value = { List ℕ };

    ghost view = { λ s. sparse_bytes s.size s.pages.entries };

    ghost invariant = { λ s. IsCutAt s.size s.pages.entries };
}

impl Sparse {
    /// No bytes.
    pub(crate) fn new(alloc: Global) -> Sparse
        ensures { result ≡ [] }
    {
        Sparse {
            size: 0,
            pages: BTreeMap::new(alloc),
        }
    }

    /// How many bytes there are.
    pub(crate) fn len(&self) -> u64
        ensures { result ≡ length self.now }
    {
        self.size
    }

    /// Fills a slice with the bytes from a place on.
    pub(crate) fn fill(&self, at: u64, out: &mut [u8])
        requires { at + length out.old ≤ length self.now }
        ensures { out.new ≡ take (length out.old) (drop at self.now) }
    {
        let _len = self.len();
        fill(&self.pages, at, out);
    }

    /// Puts bytes from a place on, with zeros between. After an error nothing changed.
    pub(crate) fn write(&mut self, alloc: Global, at: u64, bytes: &[u8]) -> Result<(), Memory>
        requires most { length bytes.now ≤ 4096 }
        requires end { at + length bytes.now ≤ 2 ^ 32 }
        ensures ok { OnOk result (self.new ≡ over self.old at bytes.now) }
        ensures err { OnErr result (self.new ≡ self.old) }
    {
        match overwrite(alloc, &mut self.pages, at, bytes) {
            Ok(()) => {}
            Err(_) => return Err(Memory),
        }
        self.size = self.size.max(at + bytes.len() as u64);
        Ok(())
    }

    /// Cuts the bytes, or adds zeros. It takes no memory.
    pub(crate) fn resize(&mut self, size: u64)
        ensures { self.new ≡ resized self.old size }
    {
        if size < self.size {
            cut(&mut self.pages, size);
        }
        self.size = size;
    }
}
