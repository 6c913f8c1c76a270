//! AES-256-GCM (NIST SP 800-38D) with a nonce of 96 bits and a tag of 128 bits, in place.
#![tactic(auto)]

ghost use Rattle.std.specs.Prelude.{◌≡◌, ◌≤◌, ℕ, List, ◌++◌, length};
ghost use Rattle.aes_gcm.specs.Gcm.{AreBytes, IsOnlyText, Opens, ciphertext, seal, tag};

mod gcm;
mod ghash;
mod reduction;

pub use crate::gcm::{Tag, open_in_place, seal_in_place};

/// A law of the definitions: under a key and a nonce, each list of bytes is the ciphertext of
/// exactly one text. Its tag is the tag of that text's seal, and what one text seals to is what no
/// other text seals to under the same key, nonce and head. It does nothing.
pub fn one_text_each()
    ensures ciphertext { (k n c : List ℕ) → length k ≡ 32 → length n ≡ 12 → AreBytes k → AreBytes c
        → (t : List ℕ) × IsOnlyText k n c t }
    ensures tag { (k n head c t : List ℕ) → ciphertext k n t ≡ c → seal k n head t
        ≡ c ++ tag k n head c }
    ensures seal { (k n head b t u : List ℕ) → length k ≡ 32 → Opens k n head b t
        → Opens k n head b u → t ≡ u }
{}
