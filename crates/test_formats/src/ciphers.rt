// What the ciphers and the key derivation answer.
ghost use Rattle.std.specs.Prelude.{◌≡◌, ◌≤◌, length};

use crate::words::bytes_of;
use aes_core::Aes256;
use aes_gcm::{open_in_place, seal_in_place};
use anyhow::{Result, bail, ensure};
use hex::FromHex;
use key_derive::{hkdf32, hmac};
use sealed_record::{open_record, seal};
use std::alloc::Global;

const LIMIT: usize = 65_536;

/// A block under AES-256, by itself and twice beside itself.
pub fn aes_line(alloc: Global, key: &str, block: &str) -> Result<String> {
    let aes = Aes256::new(&<[u8; 32] as FromHex>::from_hex(key)?);
    let mut block = <[u8; 16] as FromHex>::from_hex(block)?;
    let mut first = block;
    let mut second = block;
    aes.encrypt(&mut block);
    aes.encrypt_two(&mut first, &mut second);
    ensure!(first == block && second == block, "other blocks in pairs");
    Ok(hex::encode(alloc, &block)?)
}

/// The tag of a seal of AES-256-GCM and the ciphertext's first 256 bytes, where it opens to the text again.
pub fn seal_line(alloc: Global, key: &str, nonce: &str, head: &str, text: &str) -> Result<String> {
    let key = <[u8; 32] as FromHex>::from_hex(key)?;
    let nonce = <[u8; 12] as FromHex>::from_hex(nonce)?;
    let head = bytes_of(alloc, head)?;
    let plain = bytes_of(alloc, text)?;
    let mut text = Vec::from_slice(alloc, plain.as_slice())?;
    ensure!(
        head.len() <= LIMIT && text.len() <= LIMIT,
        "at most {LIMIT} bytes"
    );
    let tag = seal_in_place(&key, &nonce, head.as_slice(), text.as_mut_slice());
    let front = text.as_slice().get(..256).unwrap_or(text.as_slice());
    let (printed, front) = (hex::encode(alloc, &tag)?, hex::encode(alloc, front)?);
    let opened = open_in_place(&key, &nonce, head.as_slice(), text.as_mut_slice(), &tag);
    ensure!(
        opened.is_ok() && text.as_slice() == plain.as_slice(),
        "a seal that does not open"
    );
    Ok(format!(in alloc; "{printed} {front}.")?)
}

/// The sealed form of a record's text, where it opens to the text again.
pub fn record_line(
    alloc: Global,
    key: &str,
    data: (&str, &str),
    nonce: &str,
    text: &str,
) -> Result<String> {
    let key = <[u8; 32] as FromHex>::from_hex(key)?;
    let nonce = <[u8; 12] as FromHex>::from_hex(nonce)?;
    let salt = <[u8; 64] as FromHex>::from_hex(data.1)?;
    let start = bytes_of(alloc, data.0)?;
    let text = bytes_of(alloc, text)?;
    ensure!(
        start.len() == 512 && text.len() <= LIMIT,
        "a header of 512 bytes and a text of at most {LIMIT}"
    );
    let mut header = [0u8; 512];
    header.copy_from_slice(start.as_slice());
    let Ok(sealed) = seal(alloc, &key, &nonce, &header, &salt, text.as_slice()) else {
        bail!("out of memory");
    };
    let printed = hex::encode(alloc, sealed.bytes())?;
    match open_record(&key, &header, &salt, sealed) {
        Ok(opened) if opened.bytes() == text.as_slice() => Ok(printed),
        _ => bail!("a record that does not open"),
    }
}

// The nonce of a number.
fn nonce_of(count: u64) -> [u8; 12] {
    let mut nonce = [0u8; 12];
    nonce[..8].copy_from_slice(&count.to_le_bytes());
    nonce
}

// Seals a text of zeros so many times.
fn seal_times(rt: &HostRuntime, len: usize, times: u64) -> Result<()>
    requires { len ≤ 65536 }
{
    let mut text = vec![in rt.alloc(); 0u8; len]?;
    let mut tag = [0u8; 16];
    for count in 0..times {
        tag = seal_in_place(&[7; 32], &nonce_of(count), &[], text.as_mut_slice());
    }
    let printed = hex::encode(rt.alloc(), &tag)?;
    println!(rt; "{printed}")?;
    Ok(())
}

// Opens a seal of zeros so many times.
fn open_times(rt: &HostRuntime, len: usize, times: u64) -> Result<()>
    requires { len ≤ 65536 }
{
    let mut sealed = vec![in rt.alloc(); 0u8; len]?;
    let nonce = nonce_of(0);
    let tag = seal_in_place(&[7; 32], &nonce, &[], sealed.as_mut_slice());
    let mut text = vec![in rt.alloc(); 0u8; len]?;
    for _ in 0..times {
        text.as_mut_slice().copy_from_slice(sealed.as_slice());
        ensure!(
            open_in_place(&[7; 32], &nonce, &[], text.as_mut_slice(), &tag).is_ok(),
            "a seal that does not open"
        );
    }
    let printed = hex::encode(rt.alloc(), &tag)?;
    println!(rt; "{printed}")?;
    Ok(())
}

/// The tag of a text of so many bytes that is sealed or opened so many times.
pub fn print_times(rt: &HostRuntime, word: &str, len: &str, times: &str) -> Result<()> {
    let len = len.parse::<usize>()?;
    let times = times.parse::<u64>()?;
    ensure!(len <= LIMIT, "a text has at most {LIMIT} bytes");
    match word {
        "seal" => seal_times(rt, len, times),
        "open" => open_times(rt, len, times),
        _ => bail!("no such case"),
    }
}

// Does a seal with these parts open, or leave its text changed?
fn gives_way(
    key: &[u8; 32],
    nonce: &[u8; 12],
    head: &[u8],
    text: &mut [u8; 17],
    tag: &[u8; 16],
) -> bool
    requires { length head.now ≤ 65536 }
{
    let before = *text;
    open_in_place(key, nonce, head, text, tag).is_ok() || *text != before
}

/// How many of the seals with one bit of the last byte of nonce, head, tag or text changed are refused and stay as they are.
pub fn changed_line(
    alloc: Global,
    key: &str,
    nonce: &str,
    head: &str,
    text: &str,
) -> Result<String> {
    let key = <[u8; 32] as FromHex>::from_hex(key)?;
    let nonce = <[u8; 12] as FromHex>::from_hex(nonce)?;
    let head = <[u8; 20] as FromHex>::from_hex(head)?;
    let mut text = <[u8; 17] as FromHex>::from_hex(text)?;
    let tag = seal_in_place(&key, &nonce, &head, &mut text);
    let mut refused = 0u32;
    for bit in 0..8u32 {
        let one = 1u8 << bit;
        let (mut other_nonce, mut other_head, mut other_tag, mut other_text) = (
            nonce, head, tag, text,
        );
        other_nonce[11] ^= one;
        other_head[19] ^= one;
        other_tag[15] ^= one;
        other_text[16] ^= one;
        if !gives_way(&key, &other_nonce, &head, &mut text, &tag)
            && !gives_way(&key, &nonce, &other_head, &mut text, &tag)
            && !gives_way(&key, &nonce, &head, &mut text, &other_tag)
            && !gives_way(&key, &nonce, &head, &mut other_text, &tag)
        {
            refused = refused.saturating_add(4);
        }
    }
    ensure!(
        open_in_place(&key, &nonce, &head, &mut text, &tag).is_ok(),
        "a seal that does not open"
    );
    Ok(format!(in alloc; "{refused}")?)
}

/// HMAC with SHA-256.
pub fn hmac_line(alloc: Global, key: &str, text: &str) -> Result<String> {
    let digest = hmac(
        bytes_of(alloc, key)?.as_slice(),
        bytes_of(alloc, text)?.as_slice(),
    );
    Ok(hex::encode(alloc, &digest.0)?)
}

/// 32 bytes by HKDF with SHA-256.
pub fn hkdf_line(alloc: Global, salt: &str, key: &str, info: &str) -> Result<String> {
    let info = bytes_of(alloc, info)?;
    ensure!(info.len() <= 256, "at most 256 bytes of info");
    let derived = hkdf32(
        bytes_of(alloc, salt)?.as_slice(),
        bytes_of(alloc, key)?.as_slice(),
        info.as_slice(),
    );
    Ok(hex::encode(alloc, &derived)?)
}
