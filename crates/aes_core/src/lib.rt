//! AES-256, the block cipher of FIPS 197 with a key of 256 bits.
#![tactic(auto)]

ghost use Rattle.std.specs.Prelude.{◌≡◌};
ghost use Rattle.aes_core.specs.Aes.{cipher};

mod lanes;
mod schedule;
mod tables;

use crate::lanes::{encrypted, encrypted_two, prepared};
use crate::schedule::expanded;
use std::marker::Model;
use std::simd::u8x16;

/// AES-256 under one key (FIPS 197). Contracts see the 32 bytes of the key.
#[derive(Drop)]
pub struct Aes256 {
    // The key schedule in inner form.
    keys: [u8; 240],
    // Its last key as it is.
    last: u8x16,
}

impl Model for Aes256 {
    ghost use Rattle.std.specs.Prelude.{◌≡◌, ℕ, List, take};
    ghost use Rattle.aes_core.specs.Aes.{key_schedule, round_key};
    ghost use Rattle.aes_core.specs.Inner.{outer};

    ghost Value = { List ℕ };

    ghost view = { λ s. take 32 (outer s.keys) };

    ghost invariant = { λ s. (outer s.keys ≡ key_schedule (take 32 (outer s.keys))) × (s.last ≡ round_key (outer s.keys) 14) };
}

impl Aes256 {
    /// The cipher under this key, with its key schedule (FIPS 197, 5.2). It takes no memory.
    pub fn new(key: &[u8; 32]) -> Aes256
        ensures { result ≡ key.now }
    {
        let (keys, last) = prepared(&expanded(key));
        Aes256 { keys, last }
    }

    /// Encrypts a block of 16 bytes in place (FIPS 197, 5.1). It takes no memory.
    pub fn encrypt(&self, block: &mut [u8; 16])
        ensures { block.new ≡ cipher self.now block.old }
    {
        *block = encrypted(&self.keys, self.last, u8x16::from_array(*block)).to_array();
    }

    /// Encrypts two blocks in place, in the time of little more than one. It takes no memory.
    pub fn encrypt_two(&self, first: &mut [u8; 16], second: &mut [u8; 16])
        ensures first { first.new ≡ cipher self.now first.old }
        ensures second { second.new ≡ cipher self.now second.old }
    {
        let (x, y) = encrypted_two(
            &self.keys,
            self.last,
            u8x16::from_array(*first),
            u8x16::from_array(*second),
        );
        *first = x.to_array();
        *second = y.to_array();
    }
}
