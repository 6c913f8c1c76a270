//! The fs-verity descriptor: 256 bytes that say a file's size, root hash and salt.
#![tactic(auto)]

ghost use Rattle.std.specs.Prelude.{◌≡◌, ◌+◌, ◌<◌, ◌≤◌, ◌^◌, ◌++◌, length, take, drop, slice_index, Ok, IfOk};
ghost use Rattle.sha2.specs.Sha256.{sha256};
ghost use Rattle.verity_descriptor.specs.declared.Descriptor.{Descriptor};
ghost use Rattle.verity_descriptor.specs.Spelling.{IsDescriptor, descriptor_bytes, decoded, first_not_zero, fault_of, first_fault};

use mg_base::{Digest, Salt};
use sha2::{Digest as _, Sha256};

/// What a descriptor says.
#[derive(Clone, Copy)]
pub struct Descriptor {
    pub size: u64,
    pub root: Digest,
    pub salt: Salt,
}

/// The first rule that the bytes break.
#[derive(Clone, Copy, Debug, PartialEq, Eq)]
pub enum DescriptorFault {
    /// Its version is not 1.
    Version { found: u8 },
    /// Its hash algorithm is not 1, SHA-256.
    Algorithm { found: u8 },
    /// The binary logarithm of its block size is not 12, 4096 bytes.
    BlockSize { found: u8 },
    /// It has more than 32 bytes of salt.
    SaltLength { found: u8 },
    /// The first byte that should be zero and is not.
    NotZero { at: u32 },
}

/// The first byte that is not zero, counted from `at`.
fn first_not_zero(bytes: &[u8], at: u32) -> Option<u32>
    requires { at + length bytes.now < 2 ^ 32 }
    ensures { result ≡ first_not_zero at bytes.now }
{
    let mut place = at;
    for byte in bytes {
        if *byte != 0 {
            return Some(place);
        }
        place += 1;
    }
    None
}

/// The first rule that the bytes break.
#[tactic(auto, unfolding(crate::specs::Spelling::first_fault))]
fn broken(bytes: &[u8; 256]) -> Option<DescriptorFault>
    ensures { result ≡ first_fault bytes.now }
{
    if bytes[0] != 1 {
        return Some(DescriptorFault::Version { found: bytes[0] });
    }
    if bytes[1] != 1 {
        return Some(DescriptorFault::Algorithm { found: bytes[1] });
    }
    if bytes[2] != 12 {
        return Some(DescriptorFault::BlockSize { found: bytes[2] });
    }
    let salt_size = bytes[3];
    if salt_size > 32 {
        return Some(DescriptorFault::SaltLength { found: salt_size });
    }
    if let Some(at) = first_not_zero(&bytes[4..8], 4) {
        return Some(DescriptorFault::NotZero { at });
    }
    if let Some(at) = first_not_zero(&bytes[48..80], 48) {
        return Some(DescriptorFault::NotZero { at });
    }
    let after = 80 + salt_size as usize;
    if let Some(at) = first_not_zero(&bytes[after..256], after as u32) {
        return Some(DescriptorFault::NotZero { at });
    }
    None
}

/// Reads a descriptor, all of its bytes.
pub fn decode(bytes: &[u8; 256]) -> Result<Descriptor, DescriptorFault>
    // What is read is spelled so.
    ensures found { IfOk result (λ d. IsDescriptor d × (bytes.now ≡ descriptor_bytes d)) }
    // What is spelled so is read.
    ensures only { (d : Descriptor) → IsDescriptor d → bytes.now ≡ descriptor_bytes d → result
        ≡ Ok d }
    // A refusal names the first rule that is broken, and comes only where one is.
    ensures refused { fault_of result ≡ first_fault bytes.now }
{
    read(bytes)
}

/// The salt of a descriptor that breaks no rule.
fn salt_of(bytes: &[u8; 256]) -> &[u8]
    requires { slice_index bytes.now 3 ≤ 32 }
    ensures value { result.now ≡ take (slice_index bytes.now 3) (drop 80 bytes.now) }
    ensures len { length result.now ≤ 32 }
{
    let end = 80 + bytes[3] as usize;
    &bytes[80..end]
}

fn read(bytes: &[u8; 256]) -> Result<Descriptor, DescriptorFault>
    ensures { result ≡ decoded bytes.now }
{
    if let Some(fault) = broken(bytes) {
        return Err(fault);
    }
    let all: &[u8] = bytes;
    let size = u64::from_le_bytes([
        all[8], all[9], all[10], all[11], all[12], all[13], all[14], all[15],
    ]);
    let mut root = [0; 32];
    root.copy_from_slice(&all[16..48]);
    match Salt::new(salt_of(bytes)) {
        Some(salt) => Ok(Descriptor {
            size,
            root: Digest(root),
            salt,
        }),
        None => Err(DescriptorFault::SaltLength { found: all[3] }),
    }
}

/// Overwrites the bytes from `at` on.
fn put(bytes: &mut [u8; 256], at: usize, piece: &[u8])
    requires { at + length piece.now ≤ 256 }
    ensures { bytes.new ≡ take at bytes.old ++ piece.now ++ drop (at + length piece.now) bytes.old }
{
    let end = at + piece.len();
    let all: &mut [u8] = bytes;
    all[at..end].copy_from_slice(piece);
}

/// The 256 bytes of a descriptor.
pub fn encode(d: &Descriptor) -> [u8; 256]
    ensures { result ≡ descriptor_bytes d.now }
{
    let salt = d.salt.bytes();
    let mut bytes = [0; 256];
    put(&mut bytes, 0, &[1, 1, 12, salt.len() as u8]);
    put(&mut bytes, 8, &d.size.to_le_bytes());
    put(&mut bytes, 16, &d.root.0);
    put(&mut bytes, 80, salt);
    bytes
}

/// The digest that stands for a file: SHA-256 of its descriptor. It takes no memory.
pub fn file_digest(d: &Descriptor) -> Digest
    ensures { result.0 ≡ sha256 (descriptor_bytes d.now) }
{
    let bytes = encode(d);
    Digest(Sha256::digest(&bytes))
}
