// What a head says, and what can be wrong with it.
ghost use Rattle.std.specs.Prelude.{◌≡◌, ◌≤◌};
ghost use Rattle.idsig_v4.specs.Reading.{tree_fits};

use mg_base::{Digest, Salt};
use sha_tree::Geometry;

/// The head of an idsig file: whose tree it is, and where the tree stands.
#[derive(Clone, Copy)]
pub struct Head {
    pub salt: Salt,
    pub root: Digest,
    /// The first byte of the tree in the file.
    pub tree_at: u64,
    /// The number of the tree's bytes.
    pub tree_len: u64,
}

/// The first rule that a file breaks.
#[derive(Clone, Copy, Debug, PartialEq, Eq)]
pub enum IdsigFault {
    /// A field passes the end of the file, or the tree's size is negative; the first byte of that field.
    Truncated { at: u64 },
    Version { found: i32 },
    InfoLength { found: i32 },
    Algorithm { found: i32 },
    BlockSize { found: u8 },
    SaltLength { found: i32 },
    RootLength { found: i32 },
    SigningLength { found: i32 },
    NoTree,
    /// The tree is not that of so many blocks; in bytes.
    TreeLength { expected: u64, found: u64 },
}

impl Head {
    /// Does the tree have as many bytes as one over so many blocks? It takes no memory.
    pub fn fits(&self, blocks: u64) -> Result<(), IdsigFault>
        requires { blocks ≤ 1048576 }
        ensures { result ≡ tree_fits self.now blocks }
    {
        let Some(geometry) = Geometry::new(blocks) else {
            unreachable!()
        };
        let expected = 4096 * geometry.tree_pages();
        let found = self.tree_len;
        if found != expected {
            return Err(IdsigFault::TreeLength { expected, found });
        }
        Ok(())
    }
}
