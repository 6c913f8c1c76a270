// Writing a file. The room is taken first, so no piece can fail.
ghost use Rattle.std.specs.Prelude.{◌≡◌, ◌+◌, ◌≤◌, ◌^◌, ◌++◌, length, take, Ok, OnOk, OnErr, vec_len, vec_capacity};
ghost use Rattle.idsig_v4.specs.Grammar.{int32, sized, info_bytes, front_bytes, idsig_bytes, IsIdsig, head_for};
ghost use Rattle.idsig_v4.specs.Reading.{head_of};

use mg_base::{Digest, Memory, Salt};

// Adds a piece.
fn put(piece: &[u8], out: &mut Vec<u8>)
    requires { vec_len out.old + length piece.now ≤ vec_capacity out.old }
    ensures text { out.new.items ≡ out.old.items ++ piece.now }
    ensures len { vec_len out.new ≡ vec_len out.old + length piece.now }
    ensures room { vec_capacity out.old ≤ vec_capacity out.new }
{
    let _fits = out.extend_from_slice(piece);
}

// Adds a number.
#[tactic(auto, unfolding(crate::specs::Grammar::int32))]
fn put_int32(n: u32, out: &mut Vec<u8>)
    requires { vec_len out.old + 4 ≤ vec_capacity out.old }
    ensures text { out.new.items ≡ out.old.items ++ int32 n }
    ensures len { vec_len out.new ≡ vec_len out.old + 4 }
    ensures room { vec_capacity out.old ≤ vec_capacity out.new }
{
    put(&n.to_le_bytes(), out);
}

// Adds bytes behind their size.
fn put_sized(bytes: &[u8], out: &mut Vec<u8>)
    requires few { length bytes.now ≤ 65536 }
    requires space { vec_len out.old + (4 + length bytes.now) ≤ vec_capacity out.old }
    ensures text { out.new.items ≡ out.old.items ++ sized bytes.now }
    ensures len { vec_len out.new ≡ vec_len out.old + (4 + length bytes.now) }
    ensures room { vec_capacity out.old ≤ vec_capacity out.new }
{
    put_int32(bytes.len() as u32, out);
    put(bytes, out);
}

// Adds the hashing info behind its size.
#[tactic(auto, using(crate::proofs::Sizes::info_joined))]
fn put_info(salt: &[u8], root: &[u8; 32], out: &mut Vec<u8>)
    requires few { length salt.now ≤ 32 }
    requires space { vec_len out.old + (49 + length salt.now) ≤ vec_capacity out.old }
    ensures text { out.new.items ≡ out.old.items ++ sized (info_bytes salt.now root.now) }
    ensures len { vec_len out.new ≡ vec_len out.old + (49 + length salt.now) }
    ensures room { vec_capacity out.old ≤ vec_capacity out.new }
{
    put_int32(45 + salt.len() as u32, out);
    put_int32(1, out);
    put(&[12], out);
    put_sized(salt, out);
    put_sized(root, out);
}

// Adds all that stands before a tree of so many bytes.
#[tactic(auto, using(crate::proofs::Sizes::front_joined))]
fn put_front(salt: &[u8], root: &[u8; 32], signing: &[u8], tree_len: u32, out: &mut Vec<u8>)
    requires few { length salt.now ≤ 32 }
    requires most { length signing.now ≤ 65536 }
    requires space { vec_len out.old + (61 + length salt.now + length signing.now)
        ≤ vec_capacity out.old }
    ensures text { out.new.items
        ≡ out.old.items ++ front_bytes salt.now root.now signing.now tree_len }
    ensures len { vec_len out.new ≡ vec_len out.old + (61 + length salt.now + length signing.now) }
    ensures room { vec_capacity out.old ≤ vec_capacity out.new }
{
    put_int32(2, out);
    put_info(salt, root, out);
    put_sized(signing, out);
    put_int32(tree_len, out);
}

/// Writes a file behind what stands in `out`: a head of this salt and this root, the signing info, which is not looked at, and the
/// stored tree. Where memory runs out, `out` is as before.
pub fn write_idsig(
    salt: &Salt,
    root: &Digest,
    signing: &[u8],
    tree: &[u8],
    out: &mut Vec<u8>,
) -> Result<(), Memory>
    requires most { length signing.now ≤ 65536 }
    requires some { 1 ≤ length tree.now }
    requires size { length tree.now ≤ 2 ^ 30 }
    ensures text { OnOk result
        (out.new.items ≡ out.old.items ++ idsig_bytes salt.now root.now.0 signing.now tree.now) }
    // These bytes are an idsig, and are read as its head.
    ensures again { OnOk result
        (IsIdsig (idsig_bytes salt.now root.now.0 signing.now tree.now)
        (head_for salt.now root.now signing.now tree.now)) }
    ensures read { OnOk result
        (head_of (take 69632 (idsig_bytes salt.now root.now.0 signing.now tree.now))
        (length (idsig_bytes salt.now root.now.0 signing.now tree.now))
        ≡ Ok (head_for salt.now root.now signing.now tree.now)) }
    ensures unchanged { OnErr result (out.new.items ≡ out.old.items) }
{
    let salt = salt.bytes();
    let root = &root.0;
    out.reserve(61 + salt.len() + signing.len() + tree.len())?;
    put_front(salt, root, signing, tree.len() as u32, out);
    put(tree, out);
    Ok(())
}
