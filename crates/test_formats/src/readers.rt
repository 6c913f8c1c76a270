// What the readers of binary formats answer.
ghost use Rattle.std.specs.Prelude.{◌≡◌, ◌≤◌, ◌^◌, length};

use crate::words::{bytes_of, salt_of};
use anyhow::{Result, bail, ensure};
use guid_crc::{crc32, from_disk, read_guid, to_disk};
use hex::FromHex;
use idsig_v4::{read_head, write_idsig};
use mg_base::Digest;
use session_frames::{Next, Splitter};
use std::alloc::Global;
use verity_descriptor::{decode, encode, file_digest};

// The most bytes of a file that a head is read from, and the most blocks of a tree.
const FRONT: u64 = 69_632;

const BLOCKS: u64 = 1_048_576;

/// The CRC-32 of these bytes.
pub fn crc_line(alloc: Global, bytes: &str) -> Result<String> {
    let crc = crc32(bytes_of(alloc, bytes)?.as_slice());
    Ok(format!(in alloc; "{crc:08x}")?)
}

/// The GUID of this text in the bytes of a disk, where it is one and is read back from them.
pub fn guid_line(alloc: Global, text: &str) -> Result<String> {
    let Some(guid) = read_guid(text) else {
        return Ok(format!(in alloc; "none")?);
    };
    let bytes = to_disk(&guid);
    ensure!(from_disk(&bytes) == guid, "another GUID from the disk");
    Ok(hex::encode(alloc, &bytes)?)
}

/// What 256 bytes of a descriptor say: the size, the root, the salt and the digest; or the first broken rule.
pub fn descriptor_line(alloc: Global, bytes: &str) -> Result<String> {
    let bytes = hex::encode(alloc, bytes_of(alloc, bytes)?.as_slice())?;
    let bytes = <[u8; 256] as FromHex>::from_hex(bytes.as_str())?;
    let descriptor = match decode(&bytes) {
        Ok(descriptor) => descriptor,
        Err(fault) => return Ok(format!(in alloc; "{fault:?}")?),
    };
    ensure!(
        encode(&descriptor) == bytes,
        "other bytes of the descriptor"
    );
    let size = descriptor.size;
    let root = hex::encode(alloc, &descriptor.root.0)?;
    let salt = hex::encode(alloc, descriptor.salt.bytes())?;
    let digest = hex::encode(alloc, &file_digest(&descriptor).0)?;
    Ok(format!(in alloc; "{size} {root} {salt}. {digest}")?)
}

/// What the first bytes of an idsig of `total` bytes say, and whether its tree is that of so many blocks.
pub fn idsig_line(alloc: Global, bytes: &str, total: &str, blocks: &str) -> Result<String> {
    let bytes = bytes_of(alloc, bytes)?;
    let total = total.parse::<u64>()?;
    let blocks = blocks.parse::<u64>()?;
    ensure!(
        bytes.len() as u64 == total.min(FRONT),
        "not the front of {total} bytes"
    );
    ensure!(blocks <= BLOCKS, "at most {BLOCKS} blocks");
    let head = match read_head(bytes.as_slice(), total) {
        Ok(head) => head,
        Err(fault) => return Ok(format!(in alloc; "{fault:?}")?),
    };
    let (at, len) = (head.tree_at, head.tree_len);
    let root = hex::encode(alloc, &head.root.0)?;
    let salt = hex::encode(alloc, head.salt.bytes())?;
    let fits = head.fits(blocks);
    Ok(format!(in alloc; "{salt}. {root} {at} {len} {fits:?}")?)
}

/// The length and the CRC-32 of an idsig of these parts.
pub fn idsig_of_line(
    alloc: Global,
    salt: &str,
    root: &str,
    signing: &str,
    tree: &str,
) -> Result<String> {
    let salt = salt_of(alloc, salt)?;
    let root = Digest(<[u8; 32] as FromHex>::from_hex(root)?);
    let signing = bytes_of(alloc, signing)?;
    let tree = bytes_of(alloc, tree)?;
    ensure!(
        signing.len() <= 65_536,
        "at most 65,536 bytes of signing info"
    );
    ensure!(
        1 <= tree.len() && tree.len() <= 1_048_576,
        "1 byte to 1 MiB of tree"
    );
    let mut file = Vec::new(alloc);
    if write_idsig(&salt, &root, signing.as_slice(), tree.as_slice(), &mut file).is_err() {
        bail!("out of memory");
    }
    let len = file.len();
    let crc = crc32(file.as_slice());
    Ok(format!(in alloc; "{len} {crc:08x}")?)
}

/// What a stream of frames that begins with these bytes, fed one by one, has in front.
pub fn frame_line(alloc: Global, bytes: &str) -> Result<String> {
    let Ok(mut splitter) = Splitter::new(alloc) else {
        bail!("out of memory");
    };
    for byte in bytes_of(alloc, bytes)?.iter() {
        ensure!(splitter.feed(&[*byte]) == 1, "a byte that was not taken");
    }
    let len = splitter.len();
    match splitter.next() {
        Next::Frame { channel, payload } => {
            let payload = hex::encode(alloc, payload)?;
            Ok(format!(in alloc; "{channel} {payload} of {len}")?)
        }
        Next::More => Ok(format!(in alloc; "more")?),
        Next::Bad => Ok(format!(in alloc; "bad")?),
    }
}
