// What messages of FUSE ask, and the bytes of replies.
ghost use Rattle.std.specs.Prelude.{◌≡◌, ◌≤◌, length};

use crate::asked::{fields_of, piece_of, word_of};
use crate::replies::reply_of;
use crate::words::bytes_of;
use anyhow::{Result, bail};
use fuse_codec::{BadMessage, Request, decode, encode_reply, reply_len};
use host_traits::MemSink;
use std::alloc::Global;
use verity_path::Served;

// The bytes in hexadecimal, or `-` where there are none.
fn print_piece(rt: &HostRuntime, piece: &[u8]) -> Result<()> {
    if piece.is_empty() {
        print!(rt; " -")?;
        return Ok(());
    }
    let piece = hex::encode(rt.alloc(), piece)?;
    print!(rt; " {piece}")?;
    Ok(())
}

fn print_request(rt: &HostRuntime, request: &Request<'_>) -> Result<()> {
    let unique = request.unique;
    let node = request.node;
    let word = word_of(&request.body);
    print!(rt; "{unique} {node} {word}")?;
    let (fields, count) = fields_of(&request.body);
    for field in &fields[..count] {
        print!(rt; " {field}")?;
    }
    if let Some(piece) = piece_of(&request.body) {
        print_piece(rt, piece)?;
    }
    println!(rt)?;
    Ok(())
}

fn print_fault(rt: &HostRuntime, fault: BadMessage) -> Result<()> {
    match fault {
        BadMessage::Quiet => println!(rt; "quiet")?,
        BadMessage::Length { unique } => println!(rt; "{unique} length")?,
        BadMessage::Opcode { unique, found } => println!(rt; "{unique} opcode {found}")?,
        BadMessage::Sizes { unique } => println!(rt; "{unique} sizes")?,
    }
    Ok(())
}

/// What a message of at least 40 bytes asks: its number, its node, the operation, its numbers and its bytes; or the first rule
/// that it breaks.
pub fn print_message(rt: &HostRuntime, bytes: &str) -> Result<()> {
    let message = bytes_of(rt.alloc(), bytes)?;
    if message.len() < 40 {
        bail!("a message of fewer than 40 bytes");
    }
    match decode(message.as_slice()) {
        Ok(request) => print_request(rt, &request),
        Err(fault) => print_fault(rt, fault),
    }
}

// No bytes are served.
fn unserved(alloc: Global) -> Result<Served> {
    match Served::new(alloc) {
        Ok(served) => Ok(served),
        Err(_) => bail!("out of memory"),
    }
}

fn sink_of(alloc: Global, room: usize) -> Result<MemSink> {
    match MemSink::new(alloc, room) {
        Ok(sink) => Ok(sink),
        Err(_) => bail!("out of memory"),
    }
}

/// The bytes of the reply that the words describe.
pub fn print_reply(rt: &HostRuntime, words: &[&str]) -> Result<()> {
    let reply = reply_of(rt.alloc(), words)?;
    let served = unserved(rt.alloc())?;
    let mut sink = sink_of(rt.alloc(), reply_len(&reply, &served) as usize)?;
    if encode_reply(&reply, &served, &mut sink).is_err() {
        bail!("a reply that is longer than its length");
    }
    let bytes = hex::encode(rt.alloc(), sink.bytes())?;
    println!(rt; "{bytes}")?;
    Ok(())
}
