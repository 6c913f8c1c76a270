// The eight bytes before a payload.
ghost use Rattle.std.specs.Prelude.{◌≡◌, ◌↔◌, ◌<◌, ℕ, slice_index, IsTrue, length};
ghost use Rattle.std.specs.Int.{w32, from_le_bytes};
ghost use Rattle.session_frames.specs.Frames.{IsPayload};
ghost use Rattle.session_frames.specs.Head.{IsHead, complete};

/// The length of the payload behind a head.
pub fn payload_len(head: &[u8; 8]) -> u32
    ensures { result ≡ from_le_bytes w32 head.now }
{
    u32::from_le_bytes([head[0], head[1], head[2], head[3]])
}

fn suits(channel: u8, len: u32) -> bool
    ensures { IsTrue result ↔ IsPayload channel len }
{
    match channel {
        0 => len >= 40 && len <= 135168,
        1 | 2 => len == 16,
        3 => len >= 16 && len <= 135168,
        _ => false,
    }
}

/// Whether a frame begins with these eight bytes.
pub fn is_head(head: &[u8; 8]) -> bool
    ensures { IsTrue result ↔ IsHead head.now }
{
    suits(head[4], payload_len(head)) && head[5] == 0 && head[6] == 0 && head[7] == 0
}

/// The first eight bytes, of which those that are missing are such that a frame begins so if one can.
pub fn completed(held: &[u8]) -> [u8; 8]
    ensures value { result ≡ complete held.now }
    ensures bytes { (i : ℕ) → slice_index result i < 256 }
{
    let mut head = [0, 0, 1, 0, 3, 0, 0, 0];
    let known = held.len().min(8);
    head[..known].copy_from_slice(&held[..known]);
    head
}
