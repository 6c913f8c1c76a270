// Counter mode, the tag, and sealing and opening in place.
ghost use Rattle.std.specs.Prelude.{◌≡◌, ◌≢◌, ◌↔◌, ℕ, ◌+◌, ◌*◌, ◌/◌, ◌^◌, ◌<◌, ◌≤◌, ◌++◌, List, length, IsOk, IfErr, OnErr};
ghost use Rattle.aes_core.specs.Aes.{cipher, xor_bytes};
ghost use Rattle.aes_gcm.specs.Gcm.{Opens, ciphertext, counter_block, lengths, seal, tag as gcm_tag, under_stream};
ghost use Rattle.aes_gcm.specs.Parts.{IsUnder};

use crate::ghash::{absorb, tables_of};
use aes_core::Aes256;
use std::simd::u8x16;

fn counter(nonce: &[u8; 12], i: u32) -> [u8; 16]
    ensures { result ≡ counter_block nonce.now i }
{
    let mut block = [0u8; 16];
    block[..12].copy_from_slice(nonce);
    block[12..].copy_from_slice(&i.to_be_bytes());
    block
}

// Block `i` of the key stream.
fn of_stream(aes: &Aes256, nonce: &[u8; 12], i: u32) -> [u8; 16]
    ensures { result ≡ cipher aes.now (counter_block nonce.now i) }
{
    let mut block = counter(nonce, i);
    aes.encrypt(&mut block);
    block
}

// Blocks `i` and `i + 1` of the key stream.
fn two_of_stream(aes: &Aes256, nonce: &[u8; 12], i: u32) -> ([u8; 16], [u8; 16])
    requires { i + 1 < 2 ^ 32 }
    ensures first { result.0 ≡ cipher aes.now (counter_block nonce.now i) }
    ensures second { result.1 ≡ cipher aes.now (counter_block nonce.now (i + 1)) }
{
    let mut first = counter(nonce, i);
    let mut second = counter(nonce, i + 1);
    aes.encrypt_two(&mut first, &mut second);
    (first, second)
}

#[inline(always)]
fn xor_whole(part: &mut [u8], block: &[u8; 16])
    requires { length part.old ≡ 16 }
    ensures { part.new ≡ xor_bytes part.old block.now }
{
    (u8x16::from_slice(part) ^ u8x16::from_array(*block)).copy_to_slice(part);
}

fn xor_in(part: &mut [u8], block: &[u8; 16])
    requires { length part.old ≤ 16 }
    ensures { part.new ≡ xor_bytes part.old block.now }
{
    for j in 0..part.len() {
        part[j] ^= block[j];
    }
}

// Adds the key stream to whole pairs of blocks.
fn add_pairs(aes: &Aes256, nonce: &[u8; 12], text: &mut [u8])
    requires short { length text.old ≤ 65536 }
    ensures { IsUnder aes.now nonce.now text.old text.new (2 * (length text.old / 32)) }
{
    let pairs = text.len() / 32;
    'pairs: for p in 0..pairs {
        let (first, second) = two_of_stream(aes, nonce, 2 * p as u32 + 2);
        xor_whole(&mut text[32 * p..32 * p + 16], &first);
        xor_whole(&mut text[32 * p + 16..32 * p + 32], &second);
    }
}

// Adds the key stream from block 2 on.
fn add_stream(aes: &Aes256, nonce: &[u8; 12], text: &mut [u8])
    requires short { length text.old ≤ 65536 }
    ensures { text.new ≡ under_stream aes.now nonce.now text.old }
{
    let len = text.len();
    add_pairs(aes, nonce, text);
    let count = (len + 15) / 16;
    for i in 2 * (len / 32)..count {
        let block = of_stream(aes, nonce, i as u32 + 2);
        let end = if 16 * i + 16 <= len { 16 * i + 16 } else { len };
        xor_in(&mut text[16 * i..end], &block);
    }
}

// The lengths of head and ciphertext in bits.
fn lengths_of(head: &[u8], text: &[u8]) -> [u8; 16]
    requires head { length head.now ≤ 65536 }
    requires text { length text.now ≤ 65536 }
    ensures { result ≡ lengths head.now text.now }
{
    let mut block = [0u8; 16];
    block[..8].copy_from_slice(&(8 * head.len() as u64).to_be_bytes());
    block[8..].copy_from_slice(&(8 * text.len() as u64).to_be_bytes());
    block
}

// The tag of a head and a ciphertext.
fn tag_of(aes: &Aes256, nonce: &[u8; 12], head: &[u8], text: &[u8]) -> [u8; 16]
    requires head { length head.now ≤ 65536 }
    requires text { length text.now ≤ 65536 }
    ensures { result ≡ gcm_tag aes.now nonce.now head.now text.now }
{
    let mut zeros = [0u8; 16];
    let mut mask = counter(nonce, 1);
    aes.encrypt_two(&mut zeros, &mut mask);
    let tables = tables_of(u128::from_be_bytes(zeros));
    let after_head = absorb(&tables, 0, head);
    let after_text = absorb(&tables, after_head, text);
    let hash = absorb(&tables, after_text, &lengths_of(head, text));
    let mut result = hash.to_be_bytes();
    xor_in(&mut result, &mask);
    result
}

/// Encrypts the text in place and gives the tag of the head and the ciphertext (SP 800-38D, 7.1).
/// Text and head have at most 65,536 bytes each. A nonce serves for one text under a key. It takes
/// no memory.
pub fn seal_in_place(key: &[u8; 32], nonce: &[u8; 12], head: &[u8], text: &mut [u8]) -> [u8; 16]
    requires head { length head.now ≤ 65536 }
    requires text { length text.old ≤ 65536 }
    ensures sealed { text.new ++ result ≡ seal key.now nonce.now head.now text.old }
    ensures ciphertext { text.new ≡ ciphertext key.now nonce.now text.old }
    ensures tag { result ≡ gcm_tag key.now nonce.now head.now text.new }
{
    let aes = Aes256::new(key);
    add_stream(&aes, nonce, text);
    tag_of(&aes, nonce, head, text)
}

/// The two tags of what was not opened, which differ.
#[derive(Drop)]
pub struct Tag {
    /// The tag of the head and the ciphertext that came in. It is never printed and never leaves
    /// through a log: whoever read it there could put it beside that ciphertext, and so forge a
    /// record.
    pub computed: [u8; 16],
    /// The tag that came in.
    pub found: [u8; 16],
}

/// Decrypts the text in place where the tag is that of the head and the ciphertext (SP 800-38D,
/// 7.2). Otherwise the buffer is unchanged, and the answer has both tags. Text and head have at most
/// 65,536 bytes each. It takes no memory.
pub fn open_in_place(
    key: &[u8; 32],
    nonce: &[u8; 12],
    head: &[u8],
    text: &mut [u8],
    tag: &[u8; 16],
) -> Result<(), Tag>
    requires head { length head.now ≤ 65536 }
    requires text { length text.old ≤ 65536 }
    ensures opened { IsOk result ↔ Opens key.now nonce.now head.now (text.old ++ tag.now) text.new }
    ensures accepted { IsOk result ↔ (gcm_tag key.now nonce.now head.now text.old ≡ tag.now) }
    ensures computed { IfErr result
        (λ e. e.computed ≡ gcm_tag key.now nonce.now head.now text.old) }
    ensures found { IfErr result (λ e. e.found ≡ tag.now) }
    ensures differ { IfErr result (λ e. e.computed ≢ e.found) }
    ensures unchanged { OnErr result (text.new ≡ text.old) }
    ensures nothing { OnErr result
        ((t : List ℕ) → ¬ Opens key.now nonce.now head.now (text.old ++ tag.now) t) }
{
    let aes = Aes256::new(key);
    let computed = tag_of(&aes, nonce, head, text);
    if computed != *tag {
        return Err(Tag {
            computed,
            found: *tag,
        });
    }
    add_stream(&aes, nonce, text);
    Ok(())
}
