// CRC-32 by a table of bytes.
ghost use Rattle.std.specs.Prelude.{◌≡◌};
ghost use Rattle.guid_crc.specs.Remainder.{bits, remainder, crc32};

use crate::table::TABLE;

fn with_byte(register: u32, byte: u8) -> u32
    ensures { result ≡ remainder register (bits 8 byte) }
{
    let summed = register ^ byte as u32;
    (summed >> 8) ^ TABLE[(summed & 0xff) as usize]
}

/// The CRC-32 of the bytes (ITU-T V.42, 8.1.1.6.2; IEEE 802.3, 3.2.9), as partition tables have it
/// (UEFI 2.10, section 5.3.2). It takes no memory.
pub fn crc32(bytes: &[u8]) -> u32
    ensures { result ≡ crc32 bytes.now }
{
    let mut register = u32::MAX;
    for byte in bytes {
        let next = with_byte(register, *byte);
        register = next;
    }
    register ^ u32::MAX
}
