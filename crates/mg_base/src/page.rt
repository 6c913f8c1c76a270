// Pages of 4096 bytes.
ghost use Rattle.std.specs.Prelude.{◌≡◌, ℕ, ◌+◌, ◌-◌, ◌≤◌, List, length, take, drop, ◌++◌, replicate, IfOk};

use crate::values::Memory;
use std::alloc::Global;
use std::marker::Model;

/// A page of 4096 bytes. Contracts see the list of its bytes.
#[derive(Drop)]
pub struct Page {
    bytes: Box<[u8; 4096]>,
}

impl Model for Page {
    ghost Value = { List ℕ };

    ghost view = { λ p. p.bytes.value };

    ghost invariant = { λ p. length p.bytes.value ≡ 4096 };
}

impl Page {
    /// A page of zeros.
    pub fn new(alloc: Global) -> Result<Page, Memory>
        ensures { IfOk result (λ p. p ≡ replicate 4096 0) }
    {
        let bytes = Box::new(alloc, [0; 4096])?;
        Ok(Page { bytes })
    }

    /// The bytes.
    pub fn bytes(&self) -> &[u8; 4096]
        ensures value { result.now ≡ self.now }
        ensures len { length self.now ≡ 4096 }
    {
        &self.bytes
    }

    /// Overwrites the bytes from `at` on. It takes no memory.
    pub fn put(&mut self, at: usize, bytes: &[u8])
        requires { at + length bytes.now ≤ 4096 }
        ensures value { self.new
            ≡ take at self.old ++ bytes.now ++ drop (at + length bytes.now) self.old }
        ensures len { length self.old ≡ 4096 }
    {
        let end = at + bytes.len();
        let all: &mut [u8; 4096] = &mut self.bytes;
        all[at..end].copy_from_slice(bytes);
    }

    /// Puts zeros from `at` on. It takes no memory.
    pub fn clear_from(&mut self, at: usize)
        requires { at ≤ 4096 }
        ensures value { self.new ≡ take at self.old ++ replicate (4096 - at) 0 }
        ensures len { length self.old ≡ 4096 }
    {
        let all: &mut [u8; 4096] = &mut self.bytes;
        all[at..].fill(0);
    }
}

/// Writes the bytes into the page, and zeros behind them. It takes no memory.
pub fn pad_into(bytes: &[u8], page: &mut Page)
    requires { length bytes.now ≤ 4096 }
    ensures { page.new ≡ bytes.now ++ replicate (4096 - length bytes.now) 0 }
{
    let n = bytes.len();
    let all: &mut [u8; 4096] = &mut page.bytes;
    all[..n].copy_from_slice(bytes);
    all[n..].fill(0);
}
