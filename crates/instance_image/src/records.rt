// Reading and writing the records of an image.
ghost use Rattle.std.specs.Prelude.{◌≡◌, ◌⊎◌, ◌+◌, ◌-◌, ◌*◌, ◌/◌, ◌<◌, ◌≤◌, ◌^◌, ◌++◌, length, take, [], None, Some, Ok, Err, IfOk, vec_len, vec_capacity, Result};
ghost use Rattle.host_traits.specs.Did.{Did, DidBy};
ghost use Rattle.instance_image.specs.Records.{header_in, find_part, size_of, fits, fits_in, keep_size, room_of, is_large, sectors_of, header_of, zeros, IsLaid};
ghost use Rattle.instance_image.specs.Sealings.{record_key};
ghost use Rattle.instance_image.specs.Access.{IsGetCall, GetOutcome, AnswerOutcome, payload_in, IsPutting, PutOutcome, record_bytes, sealing_of, payload_size};
ghost use Rattle.instance_image.specs.Promised.{RecordIsGot, PutIsKept};
ghost use Rattle.instance_image.specs.Fitting.{Changes, Unsealed};

use crate::faults::{GetFault, PutFault};
use crate::header::{find_part, header_of, u64_at};
use crate::values::{Image, Part};
use host_traits::{Host, HostError, Raw};
use key_derive::hkdf32;
use mg_base::{Guid, Memory};
use sealed_record::{OpenedText, SealedText, open_record, seal_into};
use std::alloc::Global;

/// The most bytes of a text.
const MOST_TEXT: u64 = 65_536;

// The key of a record.
#[tactic(auto, unfolding(crate::specs::Sealings::record_key))]
fn record_key(secret: &[u8; 32], salt: &[u8; 64], uuid: &Guid) -> [u8; 32]
    ensures { result ≡ record_key salt.now secret.now uuid.now.0 }
{
    let mut info = [0u8; 28];
    info[..12].copy_from_slice(b"guest-record");
    info[12..].copy_from_slice(&uuid.0);
    hkdf32(salt, secret, &info)
}

// How many sectors so many bytes take.
fn sectors_of(bytes: u64) -> u64
    requires { bytes ≤ 65564 }
    ensures value { result ≡ sectors_of bytes }
    ensures most { result ≤ 129 }
    ensures room { bytes ≤ 512 * result }
{
    (bytes + 511) / 512
}

// Whether a header has another UUID or another size.
fn is_changed(header: &[u8; 512], uuid: &Guid, size: u64) -> bool
    ensures { Changes uuid.now.0 size header.now result }
{
    if &header[..16] != uuid.0.as_slice() {
        return true;
    }
    let all: &[u8] = header;
    u64_at(all, 16) != size
}

// How many bytes are asked for, of a record with a payload of so many.
fn asked_of(size: u64) -> u64
    requires { size ≤ 65564 }
    ensures value { result ≡ 512 * (1 + sectors_of size) }
    ensures least { 512 + size ≤ result }
{
    512 * (1 + sectors_of(size))
}

// A sector's bytes.
fn first_sector(bytes: &[u8]) -> [u8; 512]
    requires { 512 ≤ length bytes.now }
    ensures { result ≡ header_in bytes.now }
{
    let mut header = [0u8; 512];
    header.copy_from_slice(&bytes[..512]);
    header
}

// The payload behind the header.
fn payload_in<'a>(bytes: &'a [u8], part: &Part) -> &'a [u8]
    requires most { part.now.size ≤ 65564 }
    requires whole { 512 + part.now.size ≤ length bytes.now }
    ensures value { result.now ≡ payload_in part.now bytes.now }
    ensures len { length result.now ≡ part.now.size }
{
    let end = 512 + part.size as usize;
    &bytes[512..end]
}

// The text of a record, by its header and its payload.
fn opened(
    room: Vec<u8>,
    secret: &[u8; 32],
    salt: &[u8; 64],
    uuid: &Guid,
    header: &[u8; 512],
    payload: &[u8],
) -> Result<OpenedText, GetFault>
    requires least { 28 ≤ length payload.now }
    requires most { length payload.now ≤ 65564 }
    requires space { length payload.now ≤ vec_capacity room }
    ensures { Unsealed (record_key salt.now secret.now uuid.now.0) header.now salt.now
        payload.now result }
{
    let sealed = SealedText::in_room(room, payload);
    let key = record_key(secret, salt, uuid);
    match open_record(&key, header, salt, sealed) {
        Ok(text) => Ok(text),
        Err(tag) => Err(GetFault::Tag(tag)),
    }
}

// The text of a record, by the answer to its read, in room for its payload.
fn text_of(
    room: Vec<u8>,
    secret: &[u8; 32],
    salt: &[u8; 64],
    uuid: &Guid,
    part: &Part,
    bytes: &[u8],
) -> Result<OpenedText, GetFault>
    requires least { 28 ≤ part.now.size }
    requires most { part.now.size ≤ 65564 }
    requires space { part.now.size ≤ vec_capacity room }
    requires few { length bytes.now ≤ 512 * (1 + sectors_of part.now.size) }
    ensures { AnswerOutcome salt.now secret.now uuid.now.0 part.now bytes.now result }
{
    let asked = asked_of(part.size);
    let got = bytes.len() as u64;
    if got < asked {
        return Err(GetFault::Short { asked, got });
    }
    let header = first_sector(bytes);
    if is_changed(&header, uuid, part.size) {
        return Err(GetFault::Changed {
            sector: part.sector,
        });
    }
    opened(room, secret, salt, uuid, &header, payload_in(bytes, part))
}

// How many bytes of text a partition takes.
fn room_of(part: &Part) -> u64
    ensures { result ≡ room_of part.now }
{
    (512 * u64::from(part.reserved))
        .saturating_sub(28)
        .min(MOST_TEXT)
}

// Whether a text of so many bytes fits nowhere in the partition.
fn is_large(text: u64, part: &Part) -> bool
    ensures { result ≡ is_large text part.now }
{
    if text > MOST_TEXT {
        return true;
    }
    512 * u64::from(part.reserved) < text + 28
}

// The partition into which a text of so many bytes fits.
fn fits_in(parts: &[Part], uuid: &Guid, text: u64) -> Result<Part, PutFault>
    ensures { result ≡ fits_in parts.now uuid.now.0 text }
{
    let Some(part) = find_part(parts, uuid) else {
        return Err(PutFault::NoRecord);
    };
    if is_large(text, part) {
        let room = room_of(part);
        return Err(PutFault::TooLarge { text, room });
    }
    Ok(*part)
}

// Keeps another payload size for the first partition of a UUID.
#[tactic(auto, unfolding(crate::specs::Records::keep_size))]
fn keep_size(parts: &mut [Part], uuid: &Guid, size: u64)
    ensures { parts.new ≡ keep_size parts.old uuid.now.0 size }
{
    for i in 0..parts.len() {
        if parts[i].uuid == *uuid {
            parts[i].size = size;
            return;
        }
    }
}

// What a put writes.
fn record_of(
    alloc: Global,
    secret: &[u8; 32],
    salt: &[u8; 64],
    uuid: &Guid,
    part: &Part,
    nonce: &[u8; 12],
    text: &[u8],
) -> Result<Vec<u8>, Memory>
    requires { length text.now ≤ 65536 }
    ensures bytes { IfOk result (λ v. v.items ≡ record_bytes salt.now secret.now
        (sealing_of part.now uuid.now.0 nonce.now text.now)) }
    ensures len { IfOk result (λ v.
        vec_len v ≡ 512 * (1 + sectors_of (payload_size text.now))) }
{
    let size = 28 + text.len() as u64;
    let header = header_of(uuid, size, part.reserved);
    let key = record_key(secret, salt, uuid);
    let whole = 512 * (1 + sectors_of(size)) as usize;
    let mut bytes = Vec::with_capacity(alloc, whole)?;
    bytes.extend_from_slice(&header)?;
    seal_into(&key, nonce, &header, salt, text, &mut bytes)?;
    bytes.resize(whole, 0)?;
    Ok(bytes)
}

impl Image {
    /// The kept size of a record's payload in bytes, 0 where it is empty: None exactly where no
    /// partition has the UUID.
    pub fn size_of(&self, uuid: &Guid) -> Option<u64>
        ensures { result ≡ size_of (find_part self.now.parts uuid.now.0) }
    {
        match find_part(self.parts.as_slice(), uuid) {
            Some(part) => Some(part.size),
            None => None,
        }
    }

    /// Whether a text of so many bytes may be put: `NoRecord` exactly where no partition has the
    /// UUID, and `TooLarge` exactly where it has more than 65,536 bytes, or 28 more than it has are
    /// more than are reserved. It takes no memory.
    pub fn fits(&self, uuid: &Guid, text: u64) -> Result<(), PutFault>
        ensures { result ≡ fits (fits_in self.now.parts uuid.now.0 text) }
    {
        match fits_in(self.parts.as_slice(), uuid, text) {
            Ok(_) => Ok(()),
            Err(fault) => Err(fault),
        }
    }

    // Takes room for a record's payload, asks for the record, and opens it.
    fn read_record<H: Host>(
        &self,
        alloc: Global,
        host: &mut H,
        secret: &[u8; 32],
        uuid: &Guid,
        raw: &mut Raw,
    ) -> Result<OpenedText, GetFault>
        ensures { Did (IsGetCall self.now uuid.now.0) 1 (H.told host.old) (H.told host.new)
            (GetOutcome self.now secret.now uuid.now.0 result) }
    {
        let Some(part) = find_part(self.parts.as_slice(), uuid) else {
            return Err(GetFault::NoRecord);
        };
        if part.size == 0 {
            return Err(GetFault::NoRecord);
        }
        let room = match Vec::with_capacity(alloc, part.size as usize) {
            Ok(room) => room,
            Err(_) => return Err(GetFault::Memory),
        };
        let count = 1 + sectors_of(part.size);
        match host.block_read(self.disk, self.first + part.sector, count as u32, raw) {
            Ok(()) => {}
            Err(HostError::Failed) => {
                let faults = host.faults();
                return Err(GetFault::Failed { faults });
            }
            Err(HostError::Memory) => return Err(GetFault::Memory),
        }
        text_of(room, secret, &self.salt, uuid, part, raw.layout())
    }

    /// The text of a record. `NoRecord` comes exactly where no partition has the UUID, or its kept
    /// size is 0, and then nothing is asked. Else it takes its memory, and makes one read, of the
    /// header and the payload's sectors: out of memory no answer was heard.
    pub fn get<H: Host>(
        &self,
        alloc: Global,
        host: &mut H,
        secret: &[u8; 32],
        uuid: &Guid,
        raw: &mut Raw,
    ) -> Result<OpenedText, GetFault>
        // The one call, and what came of it.
        ensures did { Did (IsGetCall self.now uuid.now.0) 1 (H.told host.old) (H.told host.new)
            (GetOutcome self.now secret.now uuid.now.0 result) }
        // Over a host that holds the record, where no call failed or it is honest, its text or want
        // of memory.
        ensures held { RecordIsGot self.now secret.now uuid.now.0
            (H.told host.old) (H.told host.new) result }
    {
        self.read_record(alloc, host, secret, uuid, raw)
    }

    // Seals a text, writes it, and keeps its size.
    fn write_record<H: Host>(
        &mut self,
        alloc: Global,
        host: &mut H,
        secret: &[u8; 32],
        uuid: &Guid,
        nonce: &[u8; 12],
        text: &[u8],
    ) -> Result<(), PutFault>
        ensures did { DidBy (IsPutting self.old secret.now uuid.now.0 nonce.now text.now) 1
            (H.told host.old) (H.told host.new)
            (PutOutcome self.old uuid.now.0 text.now self.new result) }
        ensures laid { IsLaid self.old }
    {
        let part = match fits_in(self.parts.as_slice(), uuid, text.len() as u64) {
            Ok(part) => part,
            Err(fault) => return Err(fault),
        };
        let bytes = match record_of(alloc, secret, &self.salt, uuid, &part, nonce, text) {
            Ok(bytes) => bytes,
            Err(Memory) => return Err(PutFault::Memory),
        };
        match host.block_write(self.disk, self.first + part.sector, bytes.as_slice()) {
            Ok(()) => {}
            Err(HostError::Failed) => {
                let faults = host.faults();
                return Err(PutFault::Failed { faults });
            }
            Err(HostError::Memory) => return Err(PutFault::Memory),
        }
        keep_size(self.parts.as_mut_slice(), uuid, 28 + text.len() as u64);
        Ok(())
    }

    /// Puts a text into a record, sealed with this nonce. It tests first as `fits` does, takes its
    /// memory, and makes one write, of the header, the sealed form and zeros up to a whole sector.
    /// Only after that was answered it keeps the new size: after each error the image is as before.
    /// After `Failed` the host may hold what was sealed. A nonce serves for one text under a key.
    pub fn put<H: Host>(
        &mut self,
        alloc: Global,
        host: &mut H,
        secret: &[u8; 32],
        uuid: &Guid,
        nonce: &[u8; 12],
        text: &[u8],
    ) -> Result<(), PutFault>
        // The one call, with the bytes that it hands over, and what came of it.
        ensures did { DidBy (IsPutting self.old secret.now uuid.now.0 nonce.now text.now) 1
            (H.told host.old) (H.told host.new)
            (PutOutcome self.old uuid.now.0 text.now self.new result) }
        // What a host holds then; and over one that lets the record be written, where no call failed
        // or it is honest, it is put, or memory is wanting.
        ensures held { PutIsKept self.old secret.now uuid.now.0 nonce.now text.now
            (H.told host.old) (H.told host.new) result }
    {
        self.write_record(alloc, host, secret, uuid, nonce, text)
    }
}
