// A partition table that is written: names that no entry has, a table of too many parts, and each bit of a header.
ghost use Rattle.std.specs.Prelude.{◌≡◌, All, IfOk};
ghost use Rattle.gpt.specs.Names.{UsedIsBounded};

use gpt::{GptFault, GptImage, Part, Table, WriteGptFault, read_gpt, write_gpt};
use mg_base::{Guid, Span};
use std::alloc::Global;
use std::test::Fail;

const SIZE: usize = 20_480;

// A part of one unit's name.
fn part(letter: u8) -> Part
    ensures { result.sectors ≡ 9 }
{
    let mut name = [0; 72];
    name[0] = letter;
    Part {
        name,
        unique: Guid([7; 16]),
        sectors: 9,
    }
}

fn image(alloc: Global) -> Result<GptImage, WriteGptFault> {
    let parts = [part(b'a'), part(b'b')];
    write_gpt(alloc, Guid([9; 16]), &parts)
}

fn crowded(alloc: Global) -> Result<GptImage, WriteGptFault> {
    let one = part(b'a');
    let parts = [one; 129];
    write_gpt(alloc, Guid([9; 16]), &parts)
}

fn read(alloc: Global, image: &GptImage) -> Result<Table, GptFault>
    ensures { IfOk result (λ t. All UsedIsBounded t.entries) }
{
    if image.head.len() != SIZE || image.tail.len() != SIZE {
        return Err(GptFault::Memory);
    }
    read_gpt(
        alloc,
        image.head.as_slice(),
        image.tail.as_slice(),
        image.sectors,
    )
}

#[test]
fn finds_names_and_no_others(rt: HostRuntime) -> Result<(), Fail> {
    let image = image(rt.alloc())?;
    let table = read(rt.alloc(), &image)?;
    let b = Span {
        first: 49,
        sectors: 9,
    };
    assert_eq!(rt; table.find("b"), Some(b));
    for name in ["", "c", "bb", "B", "\u{10000}"] {
        assert_eq!(rt; table.find(name), None, "{name}");
    }
    assert_eq!(rt; table.entries.into_vec().len(), 128);
    let many = WriteGptFault::TooMany { found: 129 };
    assert_eq!(rt; crowded(rt.alloc()).err(), Some(many));
    Ok(())
}

fn flip(bytes: &mut [u8], at: usize, bit: u32) {
    if at < bytes.len() {
        bytes[at] ^= 1u8 << (bit % 8);
    }
}

#[test]
fn refuses_each_changed_bit(rt: HostRuntime) -> Result<(), Fail> {
    let mut image = image(rt.alloc())?;
    image.tail.as_mut_slice().fill(0);
    for at in 0..92 {
        for bit in 0..8 {
            flip(image.head.as_mut_slice(), 512 + at, bit);
            assert!(rt; read(rt.alloc(), &image).is_err(), "{at} {bit}");
            flip(image.head.as_mut_slice(), 512 + at, bit);
        }
    }
    Ok(())
}
