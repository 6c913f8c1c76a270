// Streams of the system.
ghost use Rattle.std.specs.Prelude.{◌≡◌, ◌≤◌, length, IfOk, OnOk, OnErr, None};
ghost use Rattle.std.specs.Io.KnownBytes.{Appends, ReadConsumes};
ghost use Rattle.host_traits.specs.Streams.{SomePrefix};

use host_traits::{Failed, Sink, Source};
use std::io::{self, ErrorKind, Read, Write};

// Reads once, and again after an interrupt.
fn read_some<R: Read>(stream: &mut R, out: &mut [u8]) -> io::Result<usize>
    ensures most { IfOk result (λ n. n ≤ length out.old) }
    ensures given { ReadConsumes (R.remaining stream.old) (R.remaining stream.new) result out.new }
{
    for _ in 0..u64::MAX {
        match stream.read(out) {
            Ok(count) => return Ok(count),
            Err(error) if error.kind() == ErrorKind::Interrupted => {}
            Err(error) => return Err(error),
        }
    }
    Err(ErrorKind::Interrupted.into())
}

// Writes all bytes, and goes on after an interrupt. After an error a prefix of them was written.
fn write_whole<W: Write>(stream: &mut W, bytes: &[u8]) -> io::Result<()>
    ensures ok { OnOk result (Appends (W.contents stream.old) (W.contents stream.new) bytes.now) }
    ensures err { OnErr result
        (SomePrefix (W.contents stream.old) (W.contents stream.new) bytes.now) }
{
    let mut done = 0;
    for _ in 0..u64::MAX {
        if done >= bytes.len() {
            return Ok(());
        }
        match stream.write(&bytes[done..]) {
            Ok(0) => return Err(ErrorKind::WriteZero.into()),
            Ok(count) => done += count,
            Err(error) if error.kind() == ErrorKind::Interrupted => {}
            Err(error) => return Err(error),
        }
    }
    Err(ErrorKind::Interrupted.into())
}

/// A stream that is read, as standard input. It has the bytes that the stream has left, where the stream tells them.
#[derive(Drop)]
pub struct RealSource<R> {
    stream: R,
    faults: u64,
}

impl<R> RealSource<R> {
    /// No call failed yet.
    pub fn new(stream: R) -> RealSource<R>
        ensures stream { result.stream ≡ stream }
        ensures faults { result.faults ≡ 0 }
    {
        RealSource { stream, faults: 0 }
    }
}

impl<R: Read> Source for RealSource<R> {
    ghost left = { λ s. R.remaining s.stream };

    ghost faults = { λ s. s.faults };

    fn read(&mut self, out: &mut [u8]) -> Result<usize, Failed> {
        match read_some(&mut self.stream, out) {
            Ok(count) => Ok(count),
            Err(_) => {
                self.faults = self.faults.saturating_add(1);
                Err(Failed)
            }
        }
    }
}

/// A stream that is written, as standard output and standard error. It holds what the stream holds, where the stream tells it.
#[derive(Drop)]
pub struct RealSink<W> {
    stream: W,
    faults: u64,
    reason: Option<io::Error>,
}

impl<W> RealSink<W> {
    /// No call failed yet.
    pub fn new(stream: W) -> RealSink<W>
        ensures stream { result.stream ≡ stream }
        ensures faults { result.faults ≡ 0 }
        ensures reason { result.reason ≡ None }
    {
        RealSink {
            stream,
            faults: 0,
            reason: None,
        }
    }

    /// The system's reason for the last failure.
    pub fn reason(&self) -> Option<io::Error>
        ensures { result ≡ self.now.reason }
    {
        self.reason
    }
}

impl<W: Write> Sink for RealSink<W> {
    ghost holds = { λ s. W.contents s.stream };

    ghost faults = { λ s. s.faults };

    fn write_all(&mut self, bytes: &[u8]) -> Result<(), Failed> {
        match write_whole(&mut self.stream, bytes) {
            Ok(()) => Ok(()),
            Err(error) => {
                self.faults = self.faults.saturating_add(1);
                self.reason = Some(error);
                Err(Failed)
            }
        }
    }
}
