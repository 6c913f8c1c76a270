// Values, written as a line spells them.
ghost use Rattle.std.specs.Prelude.{◌≡◌, ◌++◌, ◌≤◌, length, OnOk};
ghost use Rattle.std.specs.Fmt.{decimal};
ghost use Rattle.hex.specs.Hex.{encode_lower};
ghost use Rattle.text_lines.specs.Spelling.{salt_text};

use mg_base::Salt;
use std::alloc::{AllocError, Global};

/// Adds two digits in lower case for each byte, of at most 64 bytes.
pub fn put_hex(out: &mut Vec<u8>, bytes: &[u8]) -> Result<(), AllocError>
    requires { length bytes.now ≤ 64 }
    ensures { OnOk result (out.new.items ≡ out.old.items ++ encode_lower bytes.now) }
{
    let mut room = [0u8; 128];
    let digits = &mut room[..2 * bytes.len()];
    if hex::encode_to_slice(bytes, digits).is_err() {
        return Ok(());
    }
    out.extend_from_slice(digits)?;
    Ok(())
}

/// Adds a decimal number.
pub fn put_number(alloc: Global, out: &mut Vec<u8>, n: u64) -> Result<(), AllocError>
    ensures { OnOk result (out.new.items ≡ out.old.items ++ decimal n) }
{
    let text = format!(in alloc; "{n}")?;
    out.extend_from_slice(text.as_bytes())?;
    Ok(())
}

/// Adds the digits of a salt, or `-` for none.
pub fn put_salt(out: &mut Vec<u8>, salt: &Salt) -> Result<(), AllocError>
    ensures { OnOk result (out.new.items ≡ out.old.items ++ salt_text salt.now) }
{
    let bytes = salt.bytes();
    if bytes.is_empty() {
        out.push(b'-')?;
        return Ok(());
    }
    put_hex(out, bytes)
}
