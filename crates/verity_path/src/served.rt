// The bytes of a reply.
ghost use Rattle.std.specs.Prelude.{◌≡◌, ℕ, ◌+◌, ◌-◌, ◌≤◌, List, [], length, ◌++◌, IfOk, slice_range};

use crate::states::Proved;
use mg_base::Memory;
use std::alloc::Global;
use std::marker::Model;

/// Bytes of a reply, at most 131,072, in room that is taken once. Contracts see the list of them.
///
/// Only `push` adds bytes, and it takes them from proved blocks.
#[derive(Drop)]
pub struct Served {
    bytes: Vec<u8>,
}

impl Model for Served {
    ghost use Rattle.std.specs.Prelude.{List, ℕ, length, ◌≤◌, vec_capacity};

    ghost Value = { List ℕ };

    ghost view = { λ s. s.bytes.items };

    ghost invariant = { λ s. (length s.bytes.items ≤ 131072) × (131072 ≤ vec_capacity s.bytes) };
}

impl Served {
    /// The most bytes of a reply.
    pub const ROOM: usize = 131_072;

    /// Room for a reply, with no bytes in it.
    pub fn new(alloc: Global) -> Result<Served, Memory>
        ensures { IfOk result (λ s. s ≡ []) }
    {
        let bytes = Vec::with_capacity(alloc, Served::ROOM)?;
        Ok(Served { bytes })
    }

    /// Empties it. It takes no memory.
    pub fn clear(&mut self)
        ensures { self.new ≡ [] }
    {
        self.bytes.clear();
    }

    /// Adds the bytes from `from` to `to` of a proved block. It takes no memory.
    pub fn push(&mut self, page: &Proved<'_>, from: usize, to: usize)
        requires block { page.now.anchor.level ≡ 0 }
        requires order { from ≤ to }
        requires within { to ≤ 4096 }
        requires room { length self.old + (to - from) ≤ 131072 }
        ensures value { self.new ≡ self.old ++ slice_range page.now.page from to }
    {
        let bytes = page.bytes();
        let _fits = self.bytes.extend_from_slice(&bytes[from..to]);
    }

    /// The bytes, at most 131,072.
    pub fn bytes(&self) -> &[u8]
        ensures value { result.now ≡ self.now }
        ensures len { length self.now ≤ 131072 }
    {
        &self.bytes
    }
}
