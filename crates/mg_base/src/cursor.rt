// Little-endian numbers and slices, read one after another.
ghost use Rattle.std.specs.Prelude.{◌≡◌, ℕ, ◌+◌, ◌-◌, ◌<◌, ◌≤◌, List, length, take, drop, slice_index};
ghost use Rattle.std.specs.Int.{w16, w32, w64, from_le_bytes};
ghost use Rattle.mg_base.specs.Reading.{Reading, Reads};

use std::marker::Model;

/// Fewer bytes are left than were wanted.
#[derive(Clone, Copy, Debug, PartialEq, Eq, Drop)]
pub struct Truncated {
    /// The place of the cursor.
    pub at: u64,
    /// How many bytes were wanted.
    pub wanted: u64,
}

/// A place in some bytes. Contracts see the place and the bytes that are left.
#[derive(Drop)]
pub struct Cursor<'a> {
    bytes: &'a [u8],
    at: usize,
}

impl<'a> Model for Cursor<'a> {
    ghost use Rattle.std.specs.Prelude.{◌≤◌, drop, length};
    ghost use Rattle.mg_base.specs.Reading.{Reading};

    ghost Value = { Reading };

    ghost view = { λ c. record { at = c.at; left = drop c.at c.bytes.now } };

    ghost invariant = { λ c. c.at ≤ length c.bytes.now };
}

impl<'a> Cursor<'a> {
    /// A cursor at the first of these bytes.
    pub fn new(bytes: &'a [u8]) -> Cursor<'a>
        ensures { result ≡ record { at = 0; left = bytes.now } }
    {
        Cursor { bytes, at: 0 }
    }

    /// The next `n` bytes. Where fewer are left, the cursor stays where it was.
    pub fn take(&mut self, n: u64) -> Result<&'a [u8], Truncated>
        ensures { Reads n (λ bytes x. x.now ≡ bytes) self.old self.new result }
    {
        let left = (self.bytes.len() - self.at) as u64;
        if left < n {
            return Err(Truncated {
                at: self.at as u64,
                wanted: n,
            });
        }
        let end = self.at + n as usize;
        let taken = &self.bytes[self.at..end];
        self.at = end;
        Ok(taken)
    }

    /// The next byte.
    pub fn u8(&mut self) -> Result<u8, Truncated>
        ensures { Reads 1 (λ bytes x. x ≡ slice_index bytes 0) self.old self.new result }
    {
        match self.take(1) {
            Ok(bytes) => Ok(bytes[0]),
            Err(truncated) => Err(truncated),
        }
    }

    /// The next two bytes as a little-endian number.
    pub fn u16(&mut self) -> Result<u16, Truncated>
        ensures { Reads 2 (λ bytes x. x ≡ from_le_bytes w16 bytes) self.old self.new result }
    {
        match self.take(2) {
            Ok(bytes) => Ok(u16::from_le_bytes([bytes[0], bytes[1]])),
            Err(truncated) => Err(truncated),
        }
    }

    /// The next four bytes as a little-endian number.
    pub fn u32(&mut self) -> Result<u32, Truncated>
        ensures { Reads 4 (λ bytes x. x ≡ from_le_bytes w32 bytes) self.old self.new result }
    {
        match self.take(4) {
            Ok(bytes) => Ok(u32::from_le_bytes([bytes[0], bytes[1], bytes[2], bytes[3]])),
            Err(truncated) => Err(truncated),
        }
    }

    /// The next eight bytes as a little-endian number.
    pub fn u64(&mut self) -> Result<u64, Truncated>
        ensures { Reads 8 (λ bytes x. x ≡ from_le_bytes w64 bytes) self.old self.new result }
    {
        match self.take(8) {
            Ok(bytes) => Ok(u64::from_le_bytes([
                bytes[0], bytes[1], bytes[2], bytes[3], bytes[4], bytes[5], bytes[6], bytes[7],
            ])),
            Err(truncated) => Err(truncated),
        }
    }
}
