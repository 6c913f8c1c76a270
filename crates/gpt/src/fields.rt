// Little-endian fields at their places.
ghost use Rattle.std.specs.Prelude.{◌≡◌, ◌+◌, ◌≤◌, length};
ghost use Rattle.gpt.specs.Fields.{u32_at, u64_at, guid_at};

use guid_crc::from_disk;
use mg_base::Guid;

pub(crate) fn u32_at(bytes: &[u8], at: usize) -> u32
    requires { at + 4 ≤ length bytes.now }
    ensures { result ≡ u32_at at bytes.now }
{
    let field = &bytes[at..at + 4];
    u32::from_le_bytes([field[0], field[1], field[2], field[3]])
}

pub(crate) fn u64_at(bytes: &[u8], at: usize) -> u64
    requires { at + 8 ≤ length bytes.now }
    ensures { result ≡ u64_at at bytes.now }
{
    let field = &bytes[at..at + 8];
    u64::from_le_bytes([
        field[0], field[1], field[2], field[3], field[4], field[5], field[6], field[7],
    ])
}

pub(crate) fn guid_at(bytes: &[u8], at: usize) -> Guid
    requires { at + 16 ≤ length bytes.now }
    ensures { result ≡ guid_at at bytes.now }
{
    let mut field = [0; 16];
    field.copy_from_slice(&bytes[at..at + 16]);
    from_disk(&field)
}
