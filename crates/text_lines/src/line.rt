// Lines in the making.
ghost use Rattle.std.specs.Prelude.{◌≡◌, ◌≤◌, ◌+◌, ◌++◌, ◌*◌, [], length};
ghost use Rattle.std.specs.Fmt.{decimal, signed_decimal};
ghost use Rattle.hex.specs.Hex.{encode_lower};
ghost use Rattle.text_lines.specs.Spelling.{crc_text, digests_text, pair_text, salt_text};

use itoa::Buffer;
use mg_base::{Digest, Salt};
use std::marker::Model;

/// Lines in the making, at most 384 bytes, in room that is not taken from memory. Contracts see the bytes so far.
#[derive(Drop)]
pub struct Line {
    bytes: [u8; 384],
    len: usize,
}

impl Model for Line {
    ghost use Rattle.std.specs.Prelude.{ℕ, List, take, ◌≤◌};

    ghost Value = { List ℕ };

    ghost view = { λ l. take l.len l.bytes };

    ghost invariant = { λ l. l.len ≤ 384 };
}

impl Line {
    /// An empty one.
    pub fn new() -> Line
        ensures { result ≡ [] }
    {
        Line {
            bytes: [0; 384],
            len: 0,
        }
    }

    /// Adds bytes.
    pub fn put(&mut self, bytes: &[u8])
        requires { length self.old + length bytes.now ≤ 384 }
        ensures value { self.new ≡ self.old ++ bytes.now }
        ensures len { length self.new ≡ length self.old + length bytes.now }
    {
        let end = self.len + bytes.len();
        self.bytes[self.len..end].copy_from_slice(bytes);
        self.len = end;
    }

    /// Adds a decimal number.
    pub fn number(&mut self, n: u64)
        requires { length self.old + 20 ≤ 384 }
        ensures value { self.new ≡ self.old ++ decimal n }
        ensures len { length self.new ≤ length self.old + 20 }
    {
        let mut buffer = Buffer::new();
        let text = buffer.format(n);
        self.put(text.as_bytes());
    }

    /// Adds a decimal number that may have a minus sign.
    pub fn signed(&mut self, n: i32)
        requires { length self.old + 11 ≤ 384 }
        ensures value { self.new ≡ self.old ++ signed_decimal n }
        ensures len { length self.new ≤ length self.old + 11 }
    {
        let mut buffer = Buffer::new();
        let text = buffer.format(n);
        self.put(text.as_bytes());
    }

    /// Adds two hexadecimal digits for each of up to 32 bytes.
    pub fn hex(&mut self, bytes: &[u8])
        requires few { length bytes.now ≤ 32 }
        requires room { length self.old + 2 * length bytes.now ≤ 384 }
        ensures value { self.new ≡ self.old ++ encode_lower bytes.now }
        ensures len { length self.new ≡ length self.old + 2 * length bytes.now }
    {
        let mut room = [0u8; 64];
        let digits = &mut room[..2 * bytes.len()];
        match hex::encode_to_slice(bytes, digits) {
            Ok(()) => {}
            Err(_) => unreachable!(),
        }
        self.put(digits);
    }

    /// Adds the 64 hexadecimal digits of a digest.
    pub fn digest(&mut self, digest: &Digest)
        requires { length self.old + 64 ≤ 384 }
        ensures value { self.new ≡ self.old ++ encode_lower digest.now.0 }
        ensures len { length self.new ≡ length self.old + 64 }
    {
        self.hex(&digest.0);
    }

    /// Adds the eight hexadecimal digits of a CRC-32.
    pub fn crc(&mut self, crc: u32)
        requires { length self.old + 8 ≤ 384 }
        ensures value { self.new ≡ self.old ++ crc_text crc }
        ensures len { length self.new ≡ length self.old + 8 }
    {
        self.hex(&crc.to_be_bytes());
    }

    /// Adds a salt: `-` for none, or its digits.
    pub fn salt(&mut self, salt: &Salt)
        requires { length self.old + 64 ≤ 384 }
        ensures value { self.new ≡ self.old ++ salt_text salt.now }
        ensures len { length self.new ≤ length self.old + 64 }
    {
        let bytes = salt.bytes();
        if bytes.is_empty() {
            self.put(b"-");
        } else {
            self.hex(bytes);
        }
    }

    /// Adds two numbers, with a space between them.
    pub fn pair(&mut self, a: u64, b: u64)
        requires { length self.old + 41 ≤ 384 }
        ensures value { self.new ≡ self.old ++ pair_text a b }
        ensures len { length self.new ≤ length self.old + 41 }
    {
        self.number(a);
        self.put(b" ");
        self.number(b);
    }

    /// Adds two digests, with a space between them.
    pub fn digests(&mut self, a: &Digest, b: &Digest)
        requires { length self.old + 129 ≤ 384 }
        ensures value { self.new ≡ self.old ++ digests_text a.now b.now }
        ensures len { length self.new ≡ length self.old + 129 }
    {
        self.digest(a);
        self.put(b" ");
        self.digest(b);
    }

    /// The bytes of the lines.
    pub fn bytes(&self) -> &[u8]
        ensures { result.now ≡ self.now }
    {
        &self.bytes[..self.len]
    }
}
