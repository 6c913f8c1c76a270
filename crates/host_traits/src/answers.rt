// The bytes of an answer: kept by a tape, and lent to the guest.
ghost use Rattle.std.specs.Prelude.{◌≡◌, ◌≤◌, List, ℕ, [], length, IfSome, IfOk, IsSome, ◌↔◌};
ghost use Rattle.std.specs.Borrow.{sem};
ghost use Rattle.host_traits.specs.Held.{resized};
ghost use Rattle.host_traits.specs.Room.{LendsRoom};

use mg_base::Memory;
use std::alloc::Global;
use std::marker::Model;

/// The most bytes of one answer: 136 sectors of 512 bytes.
pub const MOST: usize = 69632;

/// The bytes of one answer, at most 69,632. Contracts see the list of them.
#[derive(Drop)]
pub struct Answer {
    bytes: Vec<u8>,
}

impl Model for Answer {
    ghost use Rattle.std.specs.Prelude.{ℕ, List, ◌≤◌, length};

    ghost Value = { List ℕ };

    ghost view = { λ a. a.bytes.items };

    ghost invariant = { λ a. length a.bytes.items ≤ 69632 };
}

impl Answer {
    /// An answer of these bytes: None exactly where there are more than 69,632. It takes no memory.
    pub fn new(bytes: Vec<u8>) -> Option<Answer>
        ensures variant { IsSome result ↔ (length bytes.items ≤ 69632) }
        ensures bytes { IfSome result (λ answer. answer ≡ bytes.items) }
    {
        if bytes.len() > MOST {
            return None;
        }
        Some(Answer { bytes })
    }

    /// The bytes.
    pub fn bytes(&self) -> &[u8]
        ensures bytes { result.now ≡ self.now }
        ensures len { length self.now ≤ 69632 }
    {
        self.bytes.as_slice()
    }
}

/// Room for one answer of a host, which nothing vouches for. Contracts see the bytes in it.
///
/// Its bytes can be looked at for their layout; nothing that makes reply bytes takes them.
#[derive(Drop)]
pub struct Raw {
    bytes: Vec<u8>,
}

impl Model for Raw {
    ghost use Rattle.std.specs.Prelude.{ℕ, List, ◌≤◌, vec_capacity};

    ghost Value = { List ℕ };

    ghost view = { λ a. a.bytes.items };

    ghost invariant = { λ a. 69632 ≤ vec_capacity a.bytes };
}

impl Raw {
    /// Empty room for 69,632 bytes.
    pub fn new(alloc: Global) -> Result<Raw, Memory>
        ensures { IfOk result (λ raw. raw ≡ []) }
    {
        let bytes = Vec::with_capacity(alloc, MOST)?;
        Ok(Raw { bytes })
    }

    /// Puts these bytes in the place of those in it. It takes no memory.
    pub fn put(&mut self, bytes: &[u8])
        requires { length bytes.now ≤ 69632 }
        ensures { self.new ≡ bytes.now }
    {
        self.bytes.clear();
        let _ = self.bytes.extend_from_slice(bytes);
    }

    /// Cuts it to so many bytes, or adds zeros, and lends them to be overwritten in place: it holds
    /// then what stands there when the borrow ends. It takes no memory.
    pub fn room(&mut self, len: usize) -> &mut [u8]
        requires { len ≤ 69632 }
        ensures* writes_back { sem 𝓛 (LendsRoom self.entry len result) }
        ensures value { result.now ≡ resized self.old len }
        ensures len { length result.now ≡ len }
    {
        let _ = self.bytes.resize(len, 0);
        self.bytes.as_mut_slice()
    }

    /// Empties it.
    pub fn clear(&mut self)
        ensures { self.new ≡ [] }
    {
        self.bytes.clear();
    }

    /// How many bytes are in it.
    pub fn len(&self) -> usize
        ensures { result ≡ length self.now }
    {
        self.bytes.len()
    }

    /// The bytes, for readers of layouts.
    pub fn layout(&self) -> &[u8]
        ensures { result.now ≡ self.now }
    {
        self.bytes.as_slice()
    }
}
