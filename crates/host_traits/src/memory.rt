// A source and a sink in memory.
ghost use Rattle.std.specs.Prelude.{◌≡◌, ◌≤◌, ◌+◌, ◌<◌, List, ℕ, [], ◌++◌, length, take, drop, false, not, ◌||◌, if◌then◌else◌, Some, IfOk, OnOk, OnErr};
ghost use Rattle.std.specs.declared.option.Option.{Option};
ghost use Rattle.std.specs.Io.KnownBytes.{Appends, ReadConsumes};
ghost use Rattle.host_traits.specs.Told.{Rose};
ghost use Rattle.host_traits.specs.Streams.{HasCause, SomePrefix};
ghost use Rattle.host_traits.specs.Mem.{Counts, SourceData, SinkData, Reads, Writes, is_listed, listing, called, failed, unused};

use crate::streams::{Failed, Sink, Source};
use mg_base::Memory;
use std::alloc::Global;
use std::marker::Model;

/// Counts the calls of a thing in memory, and says which are to fail. Calls are numbered from 0.
#[derive(Drop)]
pub(crate) struct Calls {
    made: u64,
    failing: Vec<u64>,
    pub(crate) faults: u64,
}

impl Model for Calls {
    ghost use Rattle.host_traits.specs.Mem.{Counts};

    ghost Value = { Counts };

    ghost view = { λ c. record { calls = c.made; failing = c.failing.items; faults = c.faults } };
}

impl Calls {
    pub(crate) fn none(alloc: Global) -> Calls
        ensures { result ≡ unused }
    {
        Calls {
            made: 0,
            failing: Vec::new(alloc),
            faults: 0,
        }
    }

    pub(crate) fn fail_at(&mut self, calls: Vec<u64>)
        ensures { self.new ≡ listing self.old calls.items }
    {
        self.failing = calls;
    }

    // Counts one call more, which doesn't fail.
    pub(crate) fn pass(&mut self)
        ensures { self.new ≡ called self.old }
    {
        self.made = self.made.saturating_add(1);
    }

    // Counts one call more: false where it fails, because it is `refused` or listed.
    pub(crate) fn next(&mut self, refused: bool) -> bool
        ensures answer { result ≡ not (refused || is_listed self.old) }
        ensures later { self.old.faults ≤ self.new.faults }
        ensures rose { result ≡ false → Rose self.old.faults self.new.faults }
        ensures counted { self.new ≡ (if result then called self.old else failed self.old) }
    {
        let listed = self.failing.contains(&self.made);
        self.made = self.made.saturating_add(1);
        if refused || listed {
            self.faults = self.faults.saturating_add(1);
            return false;
        }
        true
    }
}

/// A source over bytes in memory, for tests. Reads are numbered from 0 since it was made, those
/// that failed among them; a read fails exactly where its number is listed, and takes nothing then.
#[derive(Drop)]
pub struct MemSource {
    bytes: Vec<u8>,
    at: usize,
    piece: usize,
    calls: Calls,
}

impl Model for MemSource {
    ghost use Rattle.std.specs.Prelude.{◌≤◌, drop, length};
    ghost use Rattle.host_traits.specs.Mem.{SourceData};

    ghost Value = { SourceData };

    ghost view = { λ s. record {
      left = drop s.at s.bytes.items;
      piece = s.piece;
      counts = s.calls;
    } };

    ghost invariant = { λ s. (s.at ≤ length s.bytes.items) × (1 ≤ s.piece) };
}

impl MemSource {
    /// A source of these bytes. A read gives at most `piece` of them, which is at least 1: exactly
    /// the least of `piece`, the space and what is left. No read is to fail. It takes no memory.
    pub fn new(alloc: Global, bytes: Vec<u8>, piece: usize) -> MemSource
        requires { 1 ≤ piece }
        ensures { result ≡ record { left = bytes.items; piece = piece; counts = unused } }
    {
        MemSource {
            bytes,
            at: 0,
            piece,
            calls: Calls::none(alloc),
        }
    }

    /// The reads of these numbers are to fail, and no others: the list takes the place of an
    /// earlier one.
    pub fn fail_at(&mut self, calls: Vec<u64>)
        ensures { self.new ≡ record self.old { counts = listing self.old.counts calls.items } }
    {
        self.calls.fail_at(calls);
    }
}

impl Source for MemSource {
    ghost left = { λ s. Some s.left };

    ghost faults = { λ s. s.counts.faults };

    fn read(&mut self, out: &mut [u8]) -> Result<usize, Failed>
        ensures most { IfOk result (λ n. n ≤ length out.old) }
        ensures given { ReadConsumes (Some self.old.left) (Some self.new.left) result out.new }
        ensures cause { HasCause self.old.counts.faults self.new.counts.faults result }
        ensures exact { Reads self.old out.old result self.new out.new }
    {
        if !self.calls.next(false) {
            return Err(Failed);
        }
        let n = self.piece.min(self.bytes.len() - self.at).min(out.len());
        out[..n].copy_from_slice(&self.bytes[self.at..self.at + n]);
        self.at += n;
        Ok(n)
    }
}

/// A sink in memory, with room that is taken once, for tests. Writes are numbered from 0 since it
/// was made, those that failed among them; a write fails exactly where its number is listed or its
/// bytes pass the room, and writes nothing then.
#[derive(Drop)]
pub struct MemSink {
    bytes: Vec<u8>,
    room: usize,
    calls: Calls,
}

impl Model for MemSink {
    ghost use Rattle.std.specs.Prelude.{◌≤◌, length, vec_capacity};
    ghost use Rattle.host_traits.specs.Mem.{SinkData};

    ghost Value = { SinkData };

    ghost view = { λ s. record { bytes = s.bytes.items; room = s.room; counts = s.calls } };

    ghost invariant = { λ s. (length s.bytes.items ≤ s.room) × (s.room ≤ vec_capacity s.bytes) };
}

impl MemSink {
    /// An empty sink with room for so many bytes, which it takes. No write is listed.
    pub fn new(alloc: Global, room: usize) -> Result<MemSink, Memory>
        ensures { IfOk result (λ sink. sink ≡ record { bytes = []; room = room; counts = unused }) }
    {
        let bytes = Vec::with_capacity(alloc, room)?;
        Ok(MemSink {
            bytes,
            room,
            calls: Calls::none(alloc),
        })
    }

    /// The writes of these numbers are to fail: the list takes the place of an earlier one.
    pub fn fail_at(&mut self, calls: Vec<u64>)
        ensures { self.new ≡ record self.old { counts = listing self.old.counts calls.items } }
    {
        self.calls.fail_at(calls);
    }

    /// The bytes that were written, in order.
    pub fn bytes(&self) -> &[u8]
        ensures { result.now ≡ self.now.bytes }
    {
        self.bytes.as_slice()
    }
}

impl Sink for MemSink {
    ghost holds = { λ s. Some s.bytes };

    ghost faults = { λ s. s.counts.faults };

    fn write_all(&mut self, bytes: &[u8]) -> Result<(), Failed>
        ensures ok { OnOk result (Appends (Some self.old.bytes) (Some self.new.bytes) bytes.now) }
        ensures err { OnErr result
            (SomePrefix (Some self.old.bytes) (Some self.new.bytes) bytes.now) }
        ensures cause { HasCause self.old.counts.faults self.new.counts.faults result }
        ensures exact { Writes self.old bytes.now result self.new }
    {
        let passes = bytes.len() > self.room - self.bytes.len();
        if !self.calls.next(passes) {
            return Err(Failed);
        }
        let _ = self.bytes.extend_from_slice(bytes);
        Ok(())
    }
}
