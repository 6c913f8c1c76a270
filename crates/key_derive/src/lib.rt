//! HMAC with SHA-256 (RFC 2104), and HKDF for 32 bytes of output (RFC 5869).
#![tactic(auto)]

ghost use Rattle.std.specs.Prelude.{◌≡◌, ◌≤◌, ◌++◌, length};
ghost use Rattle.key_derive.specs.Derive.{hkdf, hmac, key_block, with_each};

use mg_base::Digest;
use sha2::{Digest as _, Sha256};

// The key as a block of SHA-256, 64 bytes.
fn block_of_key(key: &[u8]) -> [u8; 64]
    ensures { result ≡ key_block key.now }
{
    let mut block = [0u8; 64];
    if key.len() > 64 {
        let digest = Sha256::digest(key);
        block[..32].copy_from_slice(&digest);
    } else {
        block[..key.len()].copy_from_slice(key);
    }
    block
}

fn with_each(block: &[u8; 64], c: u8) -> [u8; 64]
    ensures { result ≡ with_each c block.now }
{
    let mut sums = *block;
    for i in 0..64 {
        sums[i] ^= c;
    }
    sums
}

// The HMAC of two parts that stand one after the other.
fn hmac_of_parts(key: &[u8], first: &[u8], second: &[u8]) -> [u8; 32]
    ensures { result ≡ hmac key.now (first.now ++ second.now) }
{
    let block = block_of_key(key);
    let mut inner = Sha256::new();
    inner.update(&with_each(&block, 0x36));
    inner.update(first);
    inner.update(second);
    let digest = inner.finalize();
    let mut outer = Sha256::new();
    outer.update(&with_each(&block, 0x5c));
    outer.update(&digest);
    outer.finalize()
}

/// The HMAC of a text under a key of any length, with SHA-256 (RFC 2104, section 2): 32 bytes. It
/// takes no memory.
pub fn hmac(key: &[u8], text: &[u8]) -> Digest
    ensures { result.0 ≡ hmac key.now text.now }
{
    Digest(hmac_of_parts(key, text, &[]))
}

/// A key of 32 bytes from a salt, an input key and at most 256 bytes of info, by HKDF with SHA-256
/// (RFC 5869, section 2). It takes no memory.
pub fn hkdf32(salt: &[u8], key: &[u8], info: &[u8]) -> [u8; 32]
    requires { length info.now ≤ 256 }
    ensures { result ≡ hkdf salt.now key.now info.now 32 }
{
    let extracted = hmac(salt, key);
    hmac_of_parts(&extracted.0, info, &[1])
}
