// How answers are printed. None where memory runs out.
use host_traits::{HostError, Raw};
use sha2::{Digest, Sha256};
use std::alloc::Global;

const SHORT: usize = 64;

/// The number of the bytes, and the bytes, or their SHA-256 where there are more than 64.
pub(crate) fn bytes(alloc: Global, bytes: &[u8]) -> Option<String> {
    let len = bytes.len();
    if len > SHORT {
        let hash = hex::encode(alloc, &Sha256::digest(bytes)).ok()?;
        return format!(in alloc; "{len} sha256 {hash}").ok();
    }
    if len == 0 {
        return format!(in alloc; "0 -").ok();
    }
    let bytes = hex::encode(alloc, bytes).ok()?;
    format!(in alloc; "{len} {bytes}").ok()
}

fn fault(alloc: Global, error: HostError) -> Option<String> {
    match error {
        HostError::Failed => format!(in alloc; "failed").ok(),
        HostError::Memory => format!(in alloc; "out of memory").ok(),
    }
}

/// An answer that has no value.
pub(crate) fn done(alloc: Global, answer: Result<(), HostError>) -> Option<String> {
    match answer {
        Ok(()) => format!(in alloc; "ok").ok(),
        Err(error) => fault(alloc, error),
    }
}

/// An answer of a number.
pub(crate) fn number(alloc: Global, answer: Result<u64, HostError>) -> Option<String> {
    match answer {
        Ok(number) => format!(in alloc; "number {number}").ok(),
        Err(error) => fault(alloc, error),
    }
}

/// An answer of bytes. After an error there are none.
pub(crate) fn heard(alloc: Global, answer: Result<(), HostError>, raw: &Raw) -> Option<String> {
    match answer {
        Ok(()) => bytes(alloc, raw.layout()),
        Err(_) if raw.len() > 0 => format!(in alloc; "bytes after an error").ok(),
        Err(error) => fault(alloc, error),
    }
}

/// What is held under a number, or `none`.
pub(crate) fn held(alloc: Global, held: Option<Vec<u8>>) -> Option<String> {
    match held {
        Some(held) => bytes(alloc, held.as_slice()),
        None => format!(in alloc; "none").ok(),
    }
}
