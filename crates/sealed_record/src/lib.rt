//! Sealed texts, and texts that were opened: AES-256-GCM over a text (NIST SP 800-38D), with a header
//! and a salt as associated data.
#![tactic(auto)]

ghost use Rattle.std.specs.Prelude.{◌≡◌, ◌≢◌, ◌↔◌, ℕ, ◌+◌, ◌-◌, ◌<◌, ◌≤◌, ◌++◌, ◌⊎◌, List, length, take, drop, vec_len, vec_capacity, IsOk, IfErr, IfOk, OnErr, OnOk, MatchOption};
ghost use Rattle.sealed_record.specs.Sealed.{IsSealed, IsSealedLength, TextsAreOne, FormsAreLonger, nonce_in, right_tag, sealed_form, tag_for, tag_in};
ghost use Rattle.aes_gcm.specs.Gcm.{seal as gcm_seal};

pub use aes_gcm::Tag;
use aes_gcm::{open_in_place, seal_in_place};
use mg_base::Memory;
use std::alloc::Global;
use std::marker::Model;

/// The sealed form of a text, or bytes of such a length: a nonce of 12 bytes, a ciphertext, and a tag
/// of 16 bytes. Contracts see the list of its bytes.
#[derive(Drop)]
pub struct SealedText {
    bytes: Vec<u8>,
}

impl Model for SealedText {
    ghost use Rattle.std.specs.Prelude.{List, ℕ, ◌≤◌, vec_len};

    ghost Value = { List ℕ };

    ghost view = { λ s. s.bytes.items };

    ghost invariant = { λ s. (28 ≤ vec_len s.bytes) × (vec_len s.bytes ≤ 65564) };
}

/// A text that was opened. `open_record` alone makes one. Contracts see the list of the text's bytes.
#[derive(Drop)]
pub struct OpenedText {
    bytes: Vec<u8>,
}

impl Model for OpenedText {
    ghost use Rattle.std.specs.Prelude.{List, ℕ, ◌≤◌, ◌-◌, take, drop, vec_len};

    ghost Value = { List ℕ };

    ghost view = { λ s. take (vec_len s.bytes - 28) (drop 12 s.bytes.items) };

    ghost invariant = { λ s. (28 ≤ vec_len s.bytes) × (vec_len s.bytes ≤ 65564) };
}

// The associated data.
fn head_of(header: &[u8; 512], salt: &[u8; 64]) -> [u8; 576]
    ensures { result ≡ header.now ++ salt.now }
{
    let mut head = [0u8; 576];
    head[..512].copy_from_slice(header);
    head[512..].copy_from_slice(salt);
    head
}

// Seals what follows the first `at` bytes.
fn seal_from(
    key: &[u8; 32],
    nonce: &[u8; 12],
    head: &[u8; 576],
    bytes: &mut [u8],
    at: usize,
) -> [u8; 16]
    requires low { at ≤ length bytes.old }
    requires high { length bytes.old ≤ at + 65536 }
    ensures { bytes.new ++ result ≡ take at bytes.old
        ++ gcm_seal key.now nonce.now head.now (drop at bytes.old) }
{
    seal_in_place(key, nonce, head, &mut bytes[at..])
}

// Adds a piece.
fn add(piece: &[u8], out: &mut Vec<u8>)
    requires { vec_len out.old + length piece.now ≤ vec_capacity out.old }
    ensures text { out.new.items ≡ out.old.items ++ piece.now }
    ensures len { vec_len out.new ≡ vec_len out.old + length piece.now }
    ensures room { vec_capacity out.old ≤ vec_capacity out.new }
{
    let _fits = out.extend_from_slice(piece);
}

/// Adds the sealed form of a text of at most 65,536 bytes to `out`: 28 bytes more than the text
/// has. A nonce serves for one text under a key. Out of memory `out` is as before.
pub fn seal_into(
    key: &[u8; 32],
    nonce: &[u8; 12],
    header: &[u8; 512],
    salt: &[u8; 64],
    text: &[u8],
    out: &mut Vec<u8>,
) -> Result<(), Memory>
    requires { length text.now ≤ 65536 }
    ensures value { OnOk result (out.new.items ≡ out.old.items
        ++ sealed_form key.now nonce.now header.now salt.now text.now) }
    ensures len { OnOk result (vec_len out.new ≡ vec_len out.old + (28 + length text.now)) }
    ensures unchanged { OnErr result (out.new.items ≡ out.old.items) }
{
    out.reserve(28 + text.len())?;
    add(nonce, out);
    let at = out.len();
    add(text, out);
    let tag = seal_from(key, nonce, &head_of(header, salt), out, at);
    add(&tag, out);
    Ok(())
}

/// The sealed form of a text of at most 65,536 bytes. A nonce serves for one text under a key.
pub fn seal(
    alloc: Global,
    key: &[u8; 32],
    nonce: &[u8; 12],
    header: &[u8; 512],
    salt: &[u8; 64],
    text: &[u8],
) -> Result<SealedText, Memory>
    requires { length text.now ≤ 65536 }
    ensures value { IfOk result (λ s.
        s ≡ sealed_form key.now nonce.now header.now salt.now text.now) }
    ensures len { IfOk result (λ s. length s ≡ 28 + length text.now) }
{
    let mut bytes = Vec::new(alloc);
    seal_into(key, nonce, header, salt, text, &mut bytes)?;
    Ok(SealedText { bytes })
}

impl SealedText {
    /// These bytes as a sealed text: None exactly where there are fewer than 28 or more than 65,564.
    pub fn parse(alloc: Global, bytes: &[u8]) -> Result<Option<SealedText>, Memory>
        ensures { IfOk result (λ o. MatchOption o
            ((length bytes.now < 28) ⊎ (65564 < length bytes.now))
            (λ s. (s ≡ bytes.now) × (28 ≤ length bytes.now) × (length bytes.now ≤ 65564))) }
    {
        if bytes.len() < 28 || bytes.len() > 65564 {
            return Ok(None);
        }
        let bytes = Vec::from_slice(alloc, bytes)?;
        Ok(Some(SealedText { bytes }))
    }

    /// These bytes, from 28 to 65,564, as a sealed text, in room that was taken before: it takes no
    /// memory. What stood in the room is gone.
    pub fn in_room(mut room: Vec<u8>, bytes: &[u8]) -> SealedText
        requires least { 28 ≤ length bytes.now }
        requires most { length bytes.now ≤ 65564 }
        requires space { length bytes.now ≤ vec_capacity room }
        ensures { result ≡ bytes.now }
    {
        room.clear();
        add(bytes, &mut room);
        SealedText { bytes: room }
    }

    /// The bytes.
    pub fn bytes(&self) -> &[u8]
        ensures value { result.now ≡ self.now }
        ensures len { IsSealedLength (length self.now) }
    {
        &self.bytes
    }
}

impl OpenedText {
    /// The text's bytes, at most 65,536.
    pub fn bytes(&self) -> &[u8]
        ensures value { result.now ≡ self.now }
        ensures len { length self.now ≤ 65536 }
    {
        &self.bytes[12..self.bytes.len() - 16]
    }
}

// Opens a sealed text where it stands.
fn open_bytes(key: &[u8; 32], head: &[u8; 576], bytes: &mut [u8]) -> Result<(), Tag>
    requires low { 28 ≤ length bytes.old }
    requires high { length bytes.old ≤ 65564 }
    ensures opened { IfOk result (λ _.
        nonce_in bytes.old ++ gcm_seal key.now (nonce_in bytes.old) head.now
        (take (length bytes.old - 28) (drop 12 bytes.new)) ≡ bytes.old) }
    ensures exact { IsOk result ↔ (right_tag key.now head.now bytes.old ≡ tag_in bytes.old) }
    ensures computed { IfErr result (λ e. e.computed ≡ right_tag key.now head.now bytes.old) }
    ensures found { IfErr result (λ e. e.found ≡ tag_in bytes.old) }
    ensures differ { IfErr result (λ e. e.computed ≢ e.found) }
    ensures nothing { OnErr result ((t : List ℕ) → ¬ (nonce_in bytes.old
        ++ gcm_seal key.now (nonce_in bytes.old) head.now t ≡ bytes.old)) }
{
    let end = bytes.len() - 16;
    let mut nonce = [0u8; 12];
    nonce.copy_from_slice(&bytes[..12]);
    let mut tag = [0u8; 16];
    tag.copy_from_slice(&bytes[end..]);
    open_in_place(key, &nonce, head, &mut bytes[12..end], &tag)
}

/// Opens a sealed text. `Tag` comes exactly where the tag of its nonce and its ciphertext, under the
/// key and with the header and the salt as associated data, differs from the one that it ends with:
/// then no text has this sealed form. No other call makes an `OpenedText`. It takes no memory.
pub fn open_record(
    key: &[u8; 32],
    header: &[u8; 512],
    salt: &[u8; 64],
    sealed: SealedText,
) -> Result<OpenedText, Tag>
    // The sealed text is the sealed form of the text.
    ensures opened { IfOk result (λ t. IsSealed key.now header.now salt.now sealed t) }
    // It is opened exactly where its tag is the right one.
    ensures exact { IsOk result ↔ (tag_for key.now header.now salt.now sealed ≡ tag_in sealed) }
    // Else the answer has the right tag, and the one that it ends with.
    ensures computed { IfErr result
        (λ e. e.computed ≡ tag_for key.now header.now salt.now sealed) }
    ensures found { IfErr result (λ e. e.found ≡ tag_in sealed) }
    ensures differ { IfErr result (λ e. e.computed ≢ e.found) }
    // Then it is the sealed form of no text.
    ensures nothing { OnErr result
        ((t : List ℕ) → ¬ IsSealed key.now header.now salt.now sealed t) }
{
    let SealedText { mut bytes } = sealed;
    match open_bytes(key, &head_of(header, salt), &mut bytes) {
        Ok(()) => Ok(OpenedText { bytes }),
        Err(tag) => Err(tag),
    }
}

/// A sealed form under a key is that of one text, and has 28 bytes more than its text. Its contract
/// is the law; it does nothing.
pub fn one_text_each()
    ensures text { TextsAreOne }
    ensures len { FormsAreLonger }
{}
