// Names.
ghost use Rattle.std.specs.Prelude.{◌≡◌, false, MatchOption};
ghost use Rattle.fuse_codec.specs.Pieces.{EndsIn};
ghost use Rattle.fuse_codec.specs.Reading.{is_plain, is_name, ends_in_name};

const ZERO: u8 = 0;

const SLASH: u8 = 47;

// Whether there is no zero and no slash.
fn is_plain(bytes: &[u8]) -> bool
    ensures { result ≡ is_plain bytes.now }
{
    for b in bytes {
        if *b == ZERO || *b == SLASH {
            return false;
        }
    }
    true
}

/// Whether a file can have this name.
fn is_name(name: &[u8]) -> bool
    ensures { result ≡ is_name name.now }
{
    if name.is_empty() || name.len() > 255 {
        return false;
    }
    is_plain(name) && name != [46].as_slice() && name != [46, 46].as_slice()
}

/// The name that ends these bytes with one zero behind it.
pub fn name_of(body: &[u8]) -> Option<&[u8]>
    ensures { MatchOption result (ends_in_name body.now ≡ false) (λ n. EndsIn n.now body.now) }
{
    if body.is_empty() {
        return None;
    }
    let last = body.len() - 1;
    let name = &body[..last];
    if is_name(name) && &body[last..] == [0].as_slice() {
        Some(name)
    } else {
        None
    }
}
