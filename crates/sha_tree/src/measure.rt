// What a device is measured by.
ghost use Rattle.std.specs.Prelude.{◌≡◌};

use mg_base::{Digest, Salt};
use std::alloc::AllocError;

/// A device's measure: its number of blocks of 4096 bytes, and the salt and root of its hash tree.
pub struct Measure {
    /// How many blocks of 4096 bytes it has.
    pub blocks: u64,
    /// What is hashed before each page.
    pub salt: Salt,
    /// The hash of the top page of its tree.
    pub root: Digest,
}

impl Clone for Measure {
    ghost is_clone = { λ x y. y ≡ x };

    fn clone(&self) -> Result<Measure, AllocError> {
        Ok(*self)
    }
}

impl Copy for Measure {}
