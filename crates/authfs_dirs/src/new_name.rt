// A name for which there is room.
ghost use Rattle.std.specs.Prelude.{◌≡◌, ◌≤◌, length, IfOk};

use mg_base::Memory;
use std::alloc::Global;
use std::marker::Model;

/// A name of at most 255 bytes that is about to be added. Contracts see its bytes.
#[derive(Drop)]
pub struct NewName {
    bytes: Vec<u8>,
    again: Vec<u8>,
}

impl Model for NewName {
    ghost use Rattle.std.specs.Prelude.{List, ℕ, ◌≡◌, ◌≤◌, length};

    ghost Value = { List ℕ };

    ghost view = { λ a. a.bytes.items };

    ghost invariant = { λ a. (a.again.items ≡ a.bytes.items) × (length a.bytes.items ≤ 255) };
}

impl NewName {
    pub(crate) fn new(alloc: Global, name: &[u8]) -> Result<NewName, Memory>
        requires { length name.now ≤ 255 }
        ensures { IfOk result (λ n. n ≡ name.now) }
    {
        let bytes = Vec::from_slice(alloc, name)?;
        let again = Vec::from_slice(alloc, name)?;
        Ok(NewName { bytes, again })
    }

    /// The name twice: one to find it by, one to list it.
    pub(crate) fn into_copies(self) -> (Vec<u8>, Vec<u8>)
        ensures first { result.0.items ≡ self }
        ensures second { result.1.items ≡ self }
        ensures short { length self ≤ 255 }
    {
        (self.again, self.bytes)
    }
}
