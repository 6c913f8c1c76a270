// An image of one partition over a disk in memory: a put and a get take their memory.
ghost use Rattle.std.specs.Prelude.{◌≡◌, ◌≤◌, ◌*◌, true, false, length, None};

use super::*;
use host_traits::{Host, HostError, Raw};
use mg_base::{Guid, Span};
use std::test::Fail;

// A host of one disk that is only read and written, and answers nothing past its end.
#[derive(Drop)]
struct TestHost {
    disk: Vec<u8>,
}

// So many of the bytes from a place on, as far as they go.
fn some_bytes(bytes: &[u8], at: u64, want: usize, raw: &mut Raw)
    requires { want ≤ 69632 }
    ensures { length raw.new ≤ want }
{
    let from = at.min(bytes.len() as u64) as usize;
    let rest = &bytes[from..];
    let len = rest.len().min(want);
    raw.put(&rest[..len]);
}

// Puts bytes over those from a place on, as far as they go.
fn put_over(disk: &mut [u8], at: u64, bytes: &[u8]) {
    let from = at.min(disk.len() as u64) as usize;
    let rest = &mut disk[from..];
    let len = rest.len().min(bytes.len());
    rest[..len].copy_from_slice(&bytes[..len]);
}

impl Host for TestHost {
    ghost told = { λ h. record {
      faults = 0;
      last_failed = None;
      heard = None;
      made = None;
      held = None;
      ahead = None;
      scarce = true;
      honest = false;
    } };

    fn block_size(&mut self, _disk: u32) -> Result<u64, HostError> {
        Err(HostError::Memory)
    }

    fn block_read(
        &mut self,
        _disk: u32,
        sector: u64,
        count: u32,
        raw: &mut Raw,
    ) -> Result<(), HostError> {
        some_bytes(
            &self.disk,
            sector.saturating_mul(512),
            512 * count as usize,
            raw,
        );
        Ok(())
    }

    fn block_write(&mut self, _disk: u32, sector: u64, bytes: &[u8]) -> Result<(), HostError> {
        put_over(&mut self.disk, sector.saturating_mul(512), bytes);
        Ok(())
    }

    fn block_sync(&mut self, _disk: u32) -> Result<(), HostError> {
        Err(HostError::Memory)
    }

    fn file_read(
        &mut self,
        _file: u32,
        _at: u64,
        _want: u32,
        raw: &mut Raw,
    ) -> Result<(), HostError> {
        raw.clear();
        Err(HostError::Memory)
    }

    fn file_tree_read(
        &mut self,
        _file: u32,
        _level: u32,
        _index: u64,
        raw: &mut Raw,
    ) -> Result<(), HostError> {
        raw.clear();
        Err(HostError::Memory)
    }

    fn file_descriptor(&mut self, _file: u32, raw: &mut Raw) -> Result<(), HostError> {
        raw.clear();
        Err(HostError::Memory)
    }

    fn file_write(&mut self, _file: u32, _at: u64, _bytes: &[u8]) -> Result<(), HostError> {
        Err(HostError::Memory)
    }

    fn file_tree_write(
        &mut self,
        _file: u32,
        _level: u32,
        _index: u64,
        _bytes: &[u8],
    ) -> Result<(), HostError> {
        Err(HostError::Memory)
    }

    fn file_resize(&mut self, _file: u32, _size: u64) -> Result<(), HostError> {
        Err(HostError::Memory)
    }

    fn file_create(&mut self, _dir: u32, _name: &[u8], _file: u32) -> Result<(), HostError> {
        Err(HostError::Memory)
    }

    fn file_mkdir(&mut self, _dir: u32, _name: &[u8], _file: u32) -> Result<(), HostError> {
        Err(HostError::Memory)
    }

    fn file_delete(&mut self, _dir: u32, _name: &[u8]) -> Result<(), HostError> {
        Err(HostError::Memory)
    }

    fn faults(&self) -> u64 {
        0
    }

    fn heard_bytes(&self) -> u64 {
        0
    }
}

const SECRET: [u8; 32] = [
    0, 1, 2, 3, 4, 5, 6, 7, 8, 9, 10, 11, 12, 13, 14, 15, 16, 17, 18, 19, 20, 21, 22, 23, 24, 25,
    26, 27, 28, 29, 30, 31,
];

const A: Guid = Guid([
    16, 17, 18, 19, 20, 21, 22, 23, 24, 25, 26, 27, 28, 29, 30, 31,
]);

const NONCE: [u8; 12] = [
    0x40, 0x41, 0x42, 0x43, 0x44, 0x45, 0x46, 0x47, 0x48, 0x49, 0x4a, 0x4b,
];

// What Python's `cryptography` made of `hello`, for partition A with 4 reserved sectors.
const SEALED: [u8; 33] = [
    0x40, 0x41, 0x42, 0x43, 0x44, 0x45, 0x46, 0x47, 0x48, 0x49, 0x4a, 0x4b, 0x82, 0x11, 0x66, 0x0a,
    0x8c, 0x19, 0x5e, 0xd6, 0x69, 0x94, 0x67, 0xb6, 0x34, 0x51, 0xf0, 0x04, 0x06, 0xe4, 0xb6, 0x1e,
    0xce,
];

fn salt() -> [u8; 64] {
    let mut salt = [0u8; 64];
    for i in 0..64 {
        salt[i] = i as u8;
    }
    salt
}

#[test]
fn puts_and_gets(rt: HostRuntime) -> Result<(), Fail> {
    let alloc = rt.alloc();
    let mut raw = Raw::new(alloc)?;
    let mut disk = Vec::new(alloc);
    Image::writer(&salt(), &[(A, 4)], &mut disk)?;
    let mut host = TestHost { disk };
    let span = Span {
        first: 0,
        sectors: 6,
    };
    let Ok(mut image) = open_image(alloc, &mut host, 7, span, &salt(), &mut raw) else {
        return Err("not opened")?;
    };
    assert_eq!(rt; image.size_of(&A), Some(0));
    assert_eq!(rt;
        image.put(alloc, &mut host, &SECRET, &A, &NONCE, b"hello"),
        Ok(())
    );
    assert_eq!(rt; image.size_of(&A), Some(33));
    assert_eq!(rt;
        host.disk.get(1024..1057).ok_or("sealed")?,
        SEALED.as_slice()
    );
    let text = image
        .get(alloc, &mut host, &SECRET, &A, &mut raw)
        .map_err(|_| "not got")?;
    assert_eq!(rt; text.bytes(), b"hello".as_slice());
    Ok(())
}
