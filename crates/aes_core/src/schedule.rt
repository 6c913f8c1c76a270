// The key schedule of a key of 256 bits (FIPS 197, 5.2).
ghost use Rattle.std.specs.Prelude.{◌≡◌, ◌<◌, ◌≤◌};
ghost use Rattle.aes_core.specs.Field.{sbox};
ghost use Rattle.aes_core.specs.Aes.{changed_word, key_schedule, next_word};

use crate::tables::{POWERS, SBOX};

fn sub(x: u8) -> u8
    ensures { result ≡ sbox x }
{
    SBOX[x as usize]
}

// What is added to the word 8 before word `i`, where `word` is the word before it.
fn changed(word: [u8; 4], i: usize) -> [u8; 4]
    requires low { 8 ≤ i }
    requires high { i < 60 }
    ensures { result ≡ changed_word word i }
{
    let [a, b, c, d] = word;
    if i % 8 == 0 {
        [
            sub(b) ^ POWERS[i / 8 - 1],
            sub(c) ^ 0,
            sub(d) ^ 0,
            sub(a) ^ 0,
        ]
    } else if i % 8 == 4 {
        [sub(a), sub(b), sub(c), sub(d)]
    } else {
        word
    }
}

// Word `i`, from the words before it.
fn next_word(keys: &[u8; 240], i: usize) -> [u8; 4]
    requires low { 8 ≤ i }
    requires high { i < 60 }
    ensures { result ≡ next_word keys.now i }
{
    let at = 4 * (i - 1);
    let added = changed([keys[at], keys[at + 1], keys[at + 2], keys[at + 3]], i);
    let far = 4 * (i - 8);
    [
        keys[far] ^ added[0],
        keys[far + 1] ^ added[1],
        keys[far + 2] ^ added[2],
        keys[far + 3] ^ added[3],
    ]
}

// The 60 words of the schedule.
pub(crate) fn expanded(key: &[u8; 32]) -> [u8; 240]
    ensures { result ≡ key_schedule key.now }
{
    let mut keys = [0u8; 240];
    keys[..32].copy_from_slice(key);
    for n in 0..52 {
        let word = next_word(&keys, n + 8);
        keys[4 * (n + 8)..4 * (n + 8) + 4].copy_from_slice(&word);
    }
    keys
}
