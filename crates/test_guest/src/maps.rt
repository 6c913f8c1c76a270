// Bytes of a composite disk, read and written.
ghost use Rattle.std.specs.Prelude.{IfOk};
ghost use Rattle.composite_spec.specs.Said.{IsComposite, composite};

use block_map::{Map, MapFault};
use composite_spec::{Spec, read_spec};
use std::alloc::Global;
use std::test::Fail;

// `a` at 0, read only, and `b` at 512, writable, of a disk of 1,024 bytes.
fn two(alloc: Global) -> Result<Spec, Fail>
    ensures { IfOk result (λ s. IsComposite (composite s)) }
{
    let bytes =
        b"composite_disk\x1d\x08\x02\x12\x03\x0a\x01a\x12\x08\x0a\x01b\x10\x80\x04\x18\x01\x18\x80\x08";
    Ok(read_spec(alloc, bytes)?)
}

#[test]
fn reads_and_writes(rt: HostRuntime) -> Result<(), Fail> {
    let map = Map::new(rt.alloc(), two(rt.alloc())?)?;
    let a = vec![in rt.alloc(); 7u8; 100]?;
    let b = vec![in rt.alloc(); 9u8; 256]?;
    let mut files = vec![in rt.alloc(); a, b]?;
    assert_eq!(rt; files.len(), map.components());
    assert_eq!(rt; map.length(), 1024);
    let mut out = [1u8; 20];
    map.read(files.as_slice(), 90, &mut out)?;
    assert_eq!(rt;
        out,
        [7, 7, 7, 7, 7, 7, 7, 7, 7, 7, 0, 0, 0, 0, 0, 0, 0, 0, 0, 0]
    );
    let all = files.as_mut_slice();
    assert_eq!(rt;
        map.write(all, 500, &out),
        Err(MapFault::ReadOnly { component: 0 })
    );
    assert_eq!(rt;
        map.write(all, 760, &out),
        Err(MapFault::PastComponent { component: 1 })
    );
    assert_eq!(rt;
        map.write(all, 1020, &[1, 2, 3, 4, 5]),
        Err(MapFault::OutOfDisk)
    );
    assert_eq!(rt; map.write(all, 766, &[1, 2]), Ok(()));
    map.read(all, 764, &mut out)?;
    assert_eq!(rt;
        out,
        [9, 9, 1, 2, 0, 0, 0, 0, 0, 0, 0, 0, 0, 0, 0, 0, 0, 0, 0, 0]
    );
    assert_eq!(rt; map.read(all, 1005, &mut out), Err(MapFault::OutOfDisk));
    Ok(())
}
