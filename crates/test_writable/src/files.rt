// Writable files over a host in memory. The digests of the byte j modulo 251 were worked out by another program, from the text
// of the standard.
ghost use Rattle.std.specs.Prelude.{◌≤◌, length};

use host_bent::{Bend, Bent};
use host_mem::MemHost;
use host_traits::{Host, Raw};
use mg_base::{Digest, Page};
use rw_file::{RwFault, RwFile, Written};
use rw_leaves::Leaves;
use std::alloc::Global;
use std::process::Abort;
use std::test::Fail;
use verity_path::{Buffers, Served};

const EMPTY: &[u8; 32] =
    b"\x3d\x24\x8c\xa5\x42\xa2\x4f\xc6\x2d\x1c\x43\xb9\x16\xea\xe5\x01\x68\x78\xe2\x53\x3c\x88\x23\x84\x80\xb2\x61\x28\xa1\xf1\xaf\x95";

const OF_100_000: &[u8; 32] =
    b"\xf5\x82\xac\xdb\x8f\x0a\xe0\xd1\x59\xb6\x50\xc0\xb9\x67\xc2\x77\x0f\x2b\xc9\x94\xa4\x16\xf8\x0d\xb8\x78\x0a\x70\xb2\x56\x71\x4b";

fn buffers(alloc: Global) -> Result<Buffers, Fail> {
    Ok(Buffers {
        raw: Raw::new(alloc)?,
        page: Page::new(alloc)?,
    })
}

// A host with an empty file 3.
fn empty_host(alloc: Global) -> Result<MemHost, Fail> {
    let mut host = MemHost::new(alloc);
    if host.has_number(3) {
        return Err(Fail::new(format_args!("taken")));
    }
    host.add_empty(3)?;
    Ok(host)
}

// Writes all of these bytes.
fn put<R: Abort, H: Host>(
    rt: &R,
    file: &mut RwFile<Leaves>,
    host: &mut H,
    at: u64,
    bytes: &[u8],
    buf: &mut Buffers,
) -> Result<Written, Fail> {
    assert!(rt; bytes.len() <= 131_072);
    match file.write(host, at, bytes, buf) {
        Ok(written) => Ok(written),
        Err(_) => Err(Fail::new(format_args!("not written"))),
    }
}

// The bytes that a read gives are these.
fn gives<R: Abort, H: Host>(
    rt: &R,
    file: &mut RwFile<Leaves>,
    host: &mut H,
    at: u64,
    len: u32,
    wanted: &[u8],
    buf: &mut Buffers,
    served: &mut Served,
) -> Result<(), Fail> {
    assert!(rt; len <= 131_072);
    served.clear();
    match file.read(host, at, len, buf, served) {
        Ok(()) => {}
        Err(_) => return Err(Fail::new(format_args!("not read"))),
    }
    assert_eq!(rt; served.bytes(), wanted);
    Ok(())
}

// A write of ten bytes over the end of a block, whose second call that writes fails.
#[test]
fn stops_at_a_block(rt: HostRuntime) -> Result<(), Fail> {
    let mut host = empty_host(rt.alloc())?;
    let mut buf = buffers(rt.alloc())?;
    let mut served = Served::new(rt.alloc())?;
    let mut file = RwFile::new(3, Leaves::new(rt.alloc()));
    let all = vec![in rt.alloc(); 0x41; 8200]?;
    let whole = put(&rt, &mut file, &mut host, 0, &all, &mut buf)?;
    assert_eq!(rt; (whole.count, whole.why, file.size()), (8200, None, 8200));
    host.fail_at(vec![in rt.alloc(); 6]?);
    let part = put(&rt, &mut file, &mut host, 4090, b"BBBBBBBBBB", &mut buf)?;
    assert_eq!(rt;
        (part.count, part.why),
        (6, Some(RwFault::Failed { faults: 1 }))
    );
    gives(
        &rt,
        &mut file,
        &mut host,
        4088,
        12,
        b"AABBBBBBAAAA",
        &mut buf,
        &mut served,
    )
}

// A gap, and a cut that is grown again.
#[test]
fn shows_zeros(rt: HostRuntime) -> Result<(), Fail> {
    let mut host = empty_host(rt.alloc())?;
    let mut buf = buffers(rt.alloc())?;
    let mut served = Served::new(rt.alloc())?;
    let mut file = RwFile::new(3, Leaves::new(rt.alloc()));
    let _ = put(&rt, &mut file, &mut host, 1_000_000, b"Z", &mut buf)?;
    gives(
        &rt,
        &mut file,
        &mut host,
        999_998,
        5,
        b"\x00\x00Z",
        &mut buf,
        &mut served,
    )?;
    let _ = file.truncate(&mut host, 0, &mut buf);
    let _ = put(&rt, &mut file, &mut host, 0, b"abcdefghij", &mut buf)?;
    assert_eq!(rt; file.truncate(&mut host, 5, &mut buf), Ok(()));
    assert_eq!(rt; file.truncate(&mut host, 10, &mut buf), Ok(()));
    gives(
        &rt,
        &mut file,
        &mut host,
        0,
        20,
        b"abcde\x00\x00\x00\x00\x00",
        &mut buf,
        &mut served,
    )
}

// The end of the longest file.
#[test]
fn refuses_what_is_too_large(rt: HostRuntime) -> Result<(), Fail> {
    let mut host = empty_host(rt.alloc())?;
    let mut buf = buffers(rt.alloc())?;
    let mut file = RwFile::new(3, Leaves::new(rt.alloc()));
    let limit = 4_294_967_296;
    let large = RwFault::TooLarge { end: limit + 1 };
    assert_eq!(rt; file.write(&mut host, limit, b"Z", &mut buf), Err(large));
    assert_eq!(rt; file.truncate(&mut host, limit + 1, &mut buf), Err(large));
    let none = Written {
        count: 0,
        why: None,
    };
    assert_eq!(rt; file.write(&mut host, limit, b"", &mut buf), Ok(none));
    assert_eq!(rt; file.size(), 0);
    Ok(())
}

// A new size that the host refuses.
#[test]
fn keeps_what_is_not_cut(rt: HostRuntime) -> Result<(), Fail> {
    let mut host = empty_host(rt.alloc())?;
    let mut buf = buffers(rt.alloc())?;
    let mut served = Served::new(rt.alloc())?;
    let mut file = RwFile::new(3, Leaves::new(rt.alloc()));
    let _ = put(&rt, &mut file, &mut host, 0, b"abcde", &mut buf)?;
    host.fail_at(vec![in rt.alloc(); 2]?);
    let fault = RwFault::Failed { faults: 1 };
    assert_eq!(rt; file.truncate(&mut host, 3, &mut buf), Err(fault));
    gives(
        &rt,
        &mut file,
        &mut host,
        0,
        9,
        b"abcde",
        &mut buf,
        &mut served,
    )
}

// A block that is bent under a write, and the next write.
#[test]
fn names_a_bent_block(rt: HostRuntime) -> Result<(), Fail> {
    let mut host = empty_host(rt.alloc())?;
    let mut buf = buffers(rt.alloc())?;
    let mut file = RwFile::new(3, Leaves::new(rt.alloc()));
    let all = vec![in rt.alloc(); 0x41; 8192]?;
    let _ = put(&rt, &mut file, &mut host, 0, &all, &mut buf)?;
    let mut bends = Vec::new(rt.alloc());
    bends.push((0, Bend::Flip { byte: 0 }))?;
    let mut bent = Bent::new(host, bends);
    match file.write(&mut bent, 100, b"BBBBBBBBBB", &mut buf) {
        Err(RwFault::Mismatch(m)) => assert_eq!(rt; (m.level, m.index), (0, 0)),
        _ => return Err(Fail::new(format_args!("not found"))),
    }
    let next = put(&rt, &mut file, &mut bent, 100, b"BBBBBBBBBB", &mut buf)?;
    assert_eq!(rt; (next.count, next.why), (10, None));
    Ok(())
}

// The first n bytes, as far as they go.
fn before(all: &[u8], n: usize) -> &[u8] {
    let n = n.min(all.len());
    &all[..n]
}

// The bytes from the n-th on.
fn behind(all: &[u8], n: usize) -> &[u8] {
    let n = n.min(all.len());
    &all[n..]
}

// Byte j modulo 251, in pieces, and what the host holds.
#[test]
fn is_measured(rt: HostRuntime) -> Result<(), Fail> {
    let mut host = empty_host(rt.alloc())?;
    let mut buf = buffers(rt.alloc())?;
    let mut file = RwFile::new(3, Leaves::new(rt.alloc()));
    assert_eq!(rt; file.digest(), Digest(*EMPTY));
    let mut all = Vec::new(rt.alloc());
    for j in 0..100_000u32 {
        all.push((j % 251) as u8)?;
    }
    let front = before(&all, 5001);
    let back = behind(&all, 5000);
    let _ = put(&rt, &mut file, &mut host, 5000, back, &mut buf)?;
    let _ = put(&rt, &mut file, &mut host, 0, front, &mut buf)?;
    assert_eq!(rt; file.digest(), Digest(*OF_100_000));
    assert_eq!(rt; file.sync(&mut host, &mut buf), Ok(()));
    let Some(held) = host.file_bytes(3)? else {
        return Err(Fail::new(format_args!("no file")));
    };
    assert_eq!(rt; held.as_slice(), all.as_slice());
    Ok(())
}
