// Reading a file's front from left to right.
ghost use Rattle.std.specs.Prelude.{◌≡◌, ◌+◌, ◌≤◌, ◌↔◌, ℕ, List, Ok, length, take, min, IfOk};
ghost use Rattle.idsig_v4.specs.declared.head.Head.{Head};
ghost use Rattle.idsig_v4.specs.Grammar.{IsFront, IsIdsig};
ghost use Rattle.idsig_v4.specs.Reading.{Gives, bytes_at, i32_at, at_most, exactly, not_negative, block_size, tree_size, info_of, head_of};

use crate::head::{Head, IdsigFault};
use mg_base::{Digest, Salt};

// The `n` bytes at a place.
#[tactic(auto, unfolding(crate::specs::Reading::bytes_at))]
fn bytes_at(bytes: &[u8], total: u64, at: u64, n: u64) -> Result<&[u8], IdsigFault>
    requires front { length bytes.now ≡ min total 69632 }
    requires near { at + n ≤ 69632 }
    ensures value { Gives (λ b. b.now) result (bytes_at bytes.now total at n) }
    ensures len { IfOk result (λ b. length b.now ≡ n) }
    ensures within { IfOk result (λ b. at + n ≤ total) }
{
    if total < at + n {
        return Err(IdsigFault::Truncated { at });
    }
    Ok(&bytes[at as usize..(at + n) as usize])
}

// The signed number at a place.
#[tactic(auto, unfolding(crate::specs::Reading::i32_at))]
fn i32_at(bytes: &[u8], total: u64, at: u64) -> Result<i32, IdsigFault>
    requires front { length bytes.now ≡ min total 69632 }
    requires near { at + 4 ≤ 69632 }
    ensures { Gives (λ z. z) result (i32_at bytes.now total at) }
{
    let b = bytes_at(bytes, total, at, 4)?;
    Ok(i32::from_le_bytes([b[0], b[1], b[2], b[3]]))
}

fn not_negative(fault: IdsigFault, z: i32) -> Result<u32, IdsigFault>
    ensures { Gives (λ n. n) result (not_negative fault z) }
{
    if z < 0 {
        return Err(fault);
    }
    Ok(z as u32)
}

fn at_most(most: u32, fault: IdsigFault, z: i32) -> Result<u32, IdsigFault>
    ensures value { Gives (λ n. n) result (at_most most fault z) }
    ensures small { IfOk result (λ n. n ≤ most) }
{
    if z < 0 {
        return Err(fault);
    }
    let n = z as u32;
    if most < n {
        return Err(fault);
    }
    Ok(n)
}

fn exactly(wanted: u32, fault: IdsigFault, z: i32) -> Result<u32, IdsigFault>
    ensures { Gives (λ n. n) result (exactly wanted fault z) }
{
    if z < 0 {
        return Err(fault);
    }
    let n = z as u32;
    if n != wanted {
        return Err(fault);
    }
    Ok(n)
}

fn block_size(b: &[u8]) -> Result<u8, IdsigFault>
    requires { length b.now ≡ 1 }
    ensures { Gives (λ n. n) result (block_size b.now) }
{
    if b[0] != 12 {
        return Err(IdsigFault::BlockSize { found: b[0] });
    }
    Ok(12)
}

// The size of the tree at a place, where the file may end.
#[tactic(auto, unfolding(crate::specs::Reading::tree_size))]
fn tree_size(bytes: &[u8], total: u64, at: u64) -> Result<u32, IdsigFault>
    requires front { length bytes.now ≡ min total 69632 }
    requires near { at + 4 ≤ 69632 }
    ensures { Gives (λ n. n) result (tree_size bytes.now total at) }
{
    if total == at {
        return Err(IdsigFault::NoTree);
    }
    let z = i32_at(bytes, total, at)?;
    let n = not_negative(IdsigFault::Truncated { at }, z)?;
    if n == 0 {
        return Err(IdsigFault::NoTree);
    }
    Ok(n)
}

// The salt and the root of the hashing info.
#[tactic(auto, unfolding(crate::specs::Reading::info_of))]
fn info_of(bytes: &[u8], total: u64) -> Result<(&[u8], &[u8]), IdsigFault>
    requires { length bytes.now ≡ min total 69632 }
    ensures value { Gives (λ x. (x.0.now, x.1.now)) result (info_of bytes.now total) }
    ensures salt { IfOk result (λ x. length x.0.now ≤ 32) }
    ensures root { IfOk result (λ x. length x.1.now ≡ 32) }
{
    let version = i32_at(bytes, total, 0)?;
    exactly(2, IdsigFault::Version { found: version }, version)?;
    let info = i32_at(bytes, total, 4)?;
    not_negative(IdsigFault::InfoLength { found: info }, info)?;
    let algorithm = i32_at(bytes, total, 8)?;
    exactly(1, IdsigFault::Algorithm { found: algorithm }, algorithm)?;
    let block = bytes_at(bytes, total, 12, 1)?;
    block_size(block)?;
    let salt_size = i32_at(bytes, total, 13)?;
    let s = at_most(32, IdsigFault::SaltLength { found: salt_size }, salt_size)?;
    let salt = bytes_at(bytes, total, 17, u64::from(s))?;
    let root_size = i32_at(bytes, total, 17 + u64::from(s))?;
    exactly(32, IdsigFault::RootLength { found: root_size }, root_size)?;
    let root = bytes_at(bytes, total, 21 + u64::from(s), 32)?;
    exactly(45 + s, IdsigFault::InfoLength { found: info }, info)?;
    Ok((salt, root))
}

fn digest_of(root: &[u8]) -> Digest
    requires { length root.now ≡ 32 }
    ensures { result ≡ record { 0 = root.now } }
{
    let mut bytes = [0; 32];
    bytes.copy_from_slice(root);
    Digest(bytes)
}

#[tactic(auto, unfolding(crate::specs::Reading::head_of))]
fn head_of(bytes: &[u8], total: u64) -> Result<Head, IdsigFault>
    requires { length bytes.now ≡ min total 69632 }
    ensures { Gives (λ h. h) result (head_of bytes.now total) }
{
    let (salt, root) = info_of(bytes, total)?;
    let at = 53 + salt.len() as u64;
    let signing_size = i32_at(bytes, total, at)?;
    let g = at_most(
        65_536,
        IdsigFault::SigningLength {
            found: signing_size,
        },
        signing_size,
    )?;
    bytes_at(bytes, total, at + 4, u64::from(g))?;
    let tree_len = tree_size(bytes, total, at + 4 + u64::from(g))?;
    let tree_at = at + 4 + u64::from(g) + 4;
    if total < tree_at + u64::from(tree_len) {
        return Err(IdsigFault::Truncated { at: tree_at });
    }
    let Some(salt) = Salt::new(salt) else {
        unreachable!()
    };
    Ok(Head {
        salt,
        root: digest_of(root),
        tree_at,
        tree_len: u64::from(tree_len),
    })
}

/// Reads the head of a file of `total` bytes from the first of them, as many as there are up to 69,632. No head needs more. What
/// follows the tree is not read. It takes no memory.
pub fn read_head(bytes: &[u8], total: u64) -> Result<Head, IdsigFault>
    requires { length bytes.now ≡ min total 69632 }
    // The head, or the first rule that is broken.
    ensures exact { result ≡ head_of bytes.now total }
    // What is read is spelled so.
    ensures found { IfOk result (λ h. IsFront bytes.now total h) }
    // What is spelled so is read.
    ensures only { (h : Head) → IsFront bytes.now total h → result ≡ Ok h }
    // Of each file that begins so, a head is read exactly where the file is an idsig with this head.
    ensures files { (file : List ℕ) (h : Head) → length file ≡ total → take 69632 file ≡ bytes.now
        → ((result ≡ Ok h) ↔ IsIdsig file h) }
{
    head_of(bytes, total)
}
