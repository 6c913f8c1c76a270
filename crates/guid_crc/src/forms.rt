// The two forms of a GUID.
ghost use Rattle.std.specs.Prelude.{◌≡◌, ◌↔◌, IfSome, IsSome, Some};
ghost use Rattle.guid_crc.specs.Guids.{disk_form, guid_text, guid_of, IsGuid, Guid};

use mg_base::Guid;
use uuid::Uuid;

/// The GUID's 16 bytes on disk (UEFI 2.10, appendix A; RFC 4122, section 3): the first three fields
/// are little-endian.
pub fn to_disk(guid: &Guid) -> [u8; 16]
    ensures value { result ≡ disk_form guid.now.0 }
    ensures inverse { disk_form result ≡ guid.now.0 }
{
    Uuid::from_bytes_le(guid.0).into_bytes()
}

/// The GUID whose bytes on disk these are.
pub fn from_disk(bytes: &[u8; 16]) -> Guid
    ensures value { result.0 ≡ disk_form bytes.now }
    ensures inverse { disk_form result.0 ≡ bytes.now }
{
    Guid(Uuid::from_bytes_le(*bytes).into_bytes())
}

/// Reads a GUID: 36 characters, hexadecimal digits in lower case in groups of 8, 4, 4, 4 and 12, joined by
/// hyphens (RFC 4122, section 3). None is answered for any other text. It takes no memory.
pub fn read_guid(text: &str) -> Option<Guid>
    // What is read has this text.
    ensures found { IfSome result (λ g. text.now ≡ guid_text g.0) }
    // A text of a GUID is read as that GUID.
    ensures only { (g : Guid) → IsGuid g → text.now ≡ guid_text g.0 → result ≡ Some g }
    // The answer as a function of the text.
    ensures value { result ≡ guid_of text.now }
{
    let Ok(id) = Uuid::parse_str(text) else {
        return None;
    };
    let mut buffer = Uuid::encode_buffer();
    let again = id.hyphenated().encode_lower(&mut buffer);
    if again != text {
        return None;
    }
    Some(Guid(id.into_bytes()))
}
