// Entropy for sealing.
ghost use Rattle.std.specs.Prelude.{◌≡◌, ◌<◌, ◌≤◌, take, drop, length, None, IfSome};

use std::marker::Model;

/// The bytes of entropy of a run: boot takes from them, and then the session. Contracts see those that are left.
#[derive(Drop)]
pub struct Entropy {
    bytes: Vec<u8>,
    at: usize,
}

impl Model for Entropy {
    ghost use Rattle.std.specs.Prelude.{ℕ, List, ◌≤◌, drop, length};

    ghost Value = { List ℕ };

    ghost view = { λ e. drop e.at e.bytes.items };

    ghost invariant = { λ e. e.at ≤ length e.bytes.items };
}

impl Entropy {
    /// All of these bytes.
    pub fn new(bytes: Vec<u8>) -> Entropy
        ensures { result ≡ bytes.items }
    {
        Entropy { bytes, at: 0 }
    }

    /// How many bytes are left.
    pub fn left(&self) -> u64
        ensures { result ≡ length self.now }
    {
        (self.bytes.len() - self.at) as u64
    }

    /// The next 12 bytes, which are gone then; None where fewer are left, and these stay.
    pub fn nonce(&mut self) -> Option<[u8; 12]>
        ensures few { result ≡ None → length self.old < 12 }
        ensures kept { result ≡ None → self.new ≡ self.old }
        ensures next { IfSome result (λ n. n ≡ take 12 self.old) }
        ensures enough { IfSome result (λ n. 12 ≤ length self.old) }
        ensures left { IfSome result (λ n. self.new ≡ drop 12 self.old) }
    {
        let left = &self.bytes[self.at..];
        if left.len() < 12 {
            return None;
        }
        let mut nonce = [0; 12];
        nonce.copy_from_slice(&left[..12]);
        self.at += 12;
        Some(nonce)
    }
}
