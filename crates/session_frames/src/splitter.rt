// What has come of a stream, and the frame at its front.
ghost use Rattle.std.specs.Prelude.{◌≡◌, ◌≤◌, ◌<◌, ◌+◌, ◌-◌, ◌^◌, ℕ, List, [], ◌++◌, length, take, drop, min, IfOk, vec_capacity};
ghost use Rattle.session_frames.specs.Frames.{Held, Fronts, frame};
ghost use Rattle.session_frames.specs.Next.{NextOf};

use crate::head::{completed, is_head, payload_len};
use mg_base::Memory;
use std::alloc::Global;
use std::marker::Model;

/// The bytes of the longest frame.
pub const MOST: usize = 135176;

/// The bytes that are held, and the offset in the stream at which the next frame begins.
#[derive(Drop)]
pub struct Splitter {
    bytes: Vec<u8>,
    start: usize,
    at: u64,
}

/// What comes next.
#[derive(Clone, Copy, Drop)]
pub enum Next<'a> {
    Frame { channel: u8, payload: &'a [u8] },
    More,
    Bad,
}

impl Model for Splitter {
    ghost use Rattle.std.specs.Prelude.{ℕ, ◌≤◌, length, drop, vec_capacity};
    ghost use Rattle.session_frames.specs.Frames.{Held};

    ghost Value = { Held };

    ghost view = { λ a. record { held = drop a.start a.bytes.items; at = a.at } };

    ghost invariant = { λ a. (a.start ≤ length a.bytes.items) × (length a.bytes.items ≤ 135176) × (135176 ≤ vec_capacity a.bytes) };
}

// The bytes from start on alone.
fn compact(bytes: &mut Vec<u8>, start: usize)
    requires { start ≤ length bytes.old.items }
    ensures items { bytes.new.items ≡ drop start bytes.old.items }
    ensures capacity { vec_capacity bytes.new ≡ vec_capacity bytes.old }
{
    if start > 0 {
        let len = bytes.len();
        bytes.copy_within(start..len, 0);
        bytes.truncate(len - start);
    }
}

impl Splitter {
    /// An empty one, with room for one frame.
    pub fn new(alloc: Global) -> Result<Splitter, Memory>
        ensures { IfOk result (λ splitter. splitter ≡ record { held = []; at = 0 }) }
    {
        let bytes = Vec::with_capacity(alloc, MOST)?;
        Ok(Splitter {
            bytes,
            start: 0,
            at: 0,
        })
    }

    /// Takes the first bytes of a piece, as many as there is room for.
    pub fn feed(&mut self, piece: &[u8]) -> usize
        ensures count { result ≡ min (length piece.now) (135176 - length self.old.held) }
        ensures held { self.new.held ≡ self.old.held ++ take result piece.now }
        ensures at { self.new.at ≡ self.old.at }
    {
        compact(&mut self.bytes, self.start);
        self.start = 0;
        let count = piece.len().min(MOST - self.bytes.len());
        let _ = self.bytes.extend_from_slice(&piece[..count]);
        count
    }

    fn held(&self) -> &[u8]
        ensures { result.now ≡ self.now.held }
    {
        &self.bytes[self.start..]
    }

    /// The frame at the front, if it is whole.
    pub fn next(&self) -> Next<'_>
        ensures { NextOf self.now.held result }
    {
        let held = self.held();
        let head = completed(held);
        if !is_head(&head) {
            return Next::Bad;
        }
        if held.len() < 8 {
            return Next::More;
        }
        let len = payload_len(&head) as usize;
        let rest = &held[8..];
        if rest.len() < len {
            return Next::More;
        }
        Next::Frame {
            channel: head[4],
            payload: &rest[..len],
        }
    }

    /// The offset in the stream at which the next frame begins.
    pub fn at(&self) -> u64
        ensures { result ≡ self.now.at }
    {
        self.at
    }

    /// How many bytes are held.
    pub fn len(&self) -> usize
        ensures { result ≡ length self.now.held }
    {
        self.bytes.len() - self.start
    }

    /// Drops the frame at the front.
    pub fn done(&mut self)
        requires frame { (channel : ℕ) × (payload : List ℕ) × (rest : List ℕ)
            × Fronts self.old.held channel payload rest }
        requires at { self.old.at + length self.old.held < 2 ^ 64 }
        ensures { (channel : ℕ) (payload rest : List ℕ) → Fronts self.old.held channel payload rest
            → self.new ≡ record { held = rest; at = self.old.at + length (frame channel payload) } }
    {
        let held = self.held();
        let head = completed(held);
        let len = 8 + payload_len(&head) as usize;
        self.start += len;
        self.at += len as u64;
    }
}
