// Salts, which are hashed before each page.
ghost use Rattle.std.specs.Prelude.{◌≡◌, ◌≤◌, ◌↔◌, [], length, IfSome, IsSome};

use std::alloc::AllocError;
use std::marker::Model;

/// Up to 32 bytes that are hashed before each page. Contracts see the list of its bytes.
pub struct Salt {
    bytes: [u8; 32],
    len: u8,
}

impl Model for Salt {
    ghost use Rattle.std.specs.Prelude.{List, ℕ};

    ghost Value = { List ℕ };

    ghost use Rattle.mg_base.specs.Salts.{salt_bytes, IsSalt, salt_fields, salt_fields-salt_bytes};

    ghost view = { salt_bytes };

    ghost invariant = { IsSalt };

    ghost inverse = { salt_fields };

    ghost inverse_ok = { salt_fields-salt_bytes };
}

impl Clone for Salt {
    ghost is_clone = { λ x y. y ≡ x };

    fn clone(&self) -> Result<Salt, AllocError> {
        Ok(*self)
    }
}

impl Copy for Salt {}

impl Salt {
    /// No salt.
    pub fn none() -> Salt
        ensures { result ≡ [] }
    {
        Salt {
            bytes: [0; 32],
            len: 0,
        }
    }

    /// A salt of these bytes: None exactly where there are more than 32.
    pub fn new(bytes: &[u8]) -> Option<Salt>
        ensures variant { IsSome result ↔ (length bytes.now ≤ 32) }
        ensures value { IfSome result (λ s. s ≡ bytes.now) }
    {
        let n = bytes.len();
        if n > 32 {
            return None;
        }
        let mut all = [0u8; 32];
        all[..n].copy_from_slice(bytes);
        Some(Salt {
            bytes: all,
            len: n as u8,
        })
    }

    /// The bytes, at most 32.
    pub fn bytes(&self) -> &[u8]
        ensures value { result.now ≡ self.now }
        ensures len { length self.now ≤ 32 }
    {
        let n = self.len as usize;
        &self.bytes[..n]
    }
}
