// The rounds of AES on the sixteen bytes of a block at once, by look-ups of lanes in tables of
// sixteen (`u8x16::swizzle_dyn`). A byte is kept in an inner form: two halves of four bits, its
// coordinates over the field of sixteen elements. There an inverse takes five look-ups of inverses
// of that small field, in which 128 stands for the inverse of zero: a look-up at 128 or more gives
// zero. A sum of bytes is the sum of their inner forms.
ghost use Rattle.std.specs.Prelude.{◌≡◌, ℕ, ◌<◌, List, length, map};
ghost use Rattle.aes_core.specs.Field.{sbox};
ghost use Rattle.aes_core.specs.Aes.{cipher_with, mix_columns, round_key, shift_rows, sub_bytes, xor_bytes};
ghost use Rattle.aes_core.specs.Inner.{ArePlaces, entry, first_root, outer, second_root, twice};

use std::simd::u8x16;

// The inverses of the small field.
const INVERSE: [u8; 16] = [128, 1, 8, 13, 15, 6, 5, 14, 2, 12, 11, 10, 9, 3, 7, 4];

// The same, each times one constant of the small field.
const SCALED: [u8; 16] = [128, 13, 5, 6, 10, 2, 3, 7, 12, 11, 4, 9, 8, 1, 15, 14];

// The two halves of an entry of the S-box without its constant, at the two roots.
const FIRST: [u8; 16] = [
    0, 75, 42, 181, 194, 163, 159, 137, 119, 254, 22, 93, 97, 60, 232, 212,
];

const SECOND: [u8; 16] = [
    0, 84, 183, 1, 242, 17, 182, 166, 243, 85, 16, 68, 227, 167, 69, 226,
];

// Into the inner form: of the low four bits and of the high four bits of a byte.
const IN_LOW: [u8; 16] = [
    0, 16, 86, 70, 188, 172, 234, 250, 156, 140, 202, 218, 32, 48, 118, 102,
];

const IN_HIGH: [u8; 16] = [
    0, 71, 57, 126, 7, 64, 62, 121, 254, 185, 199, 128, 249, 190, 192, 135,
];

// Out of the inner form, likewise.
const OUT_LOW: [u8; 16] = [
    0, 19, 212, 199, 135, 148, 83, 64, 62, 45, 234, 249, 185, 170, 109, 126,
];

const OUT_HIGH: [u8; 16] = [
    0, 1, 12, 13, 80, 81, 92, 93, 176, 177, 188, 189, 224, 225, 236, 237,
];

// As FIRST and SECOND, with the entry in inner form.
const FIRST_INNER: [u8; 16] = [
    0, 221, 243, 44, 175, 129, 223, 114, 131, 241, 173, 112, 46, 94, 92, 2,
];

const SECOND_INNER: [u8; 16] = [
    0, 252, 122, 16, 209, 87, 106, 45, 193, 236, 71, 187, 134, 61, 171, 150,
];

// As these, with the double of the entry.
const FIRST_TWICE_INNER: [u8; 16] = [
    0, 83, 252, 105, 223, 112, 149, 140, 182, 58, 25, 74, 175, 229, 35, 198,
];

const SECOND_TWICE_INNER: [u8; 16] = [
    0, 91, 213, 86, 225, 111, 131, 186, 183, 13, 57, 98, 142, 236, 52, 216,
];

// ShiftRows as the place that each byte comes from.
const OWN: [u8; 16] = [0, 5, 10, 15, 4, 9, 14, 3, 8, 13, 2, 7, 12, 1, 6, 11];

// The places of the bytes one, two and three rows below, after ShiftRows.
const NEXT: [u8; 16] = [5, 10, 15, 0, 9, 14, 3, 4, 13, 2, 7, 8, 1, 6, 11, 12];

const THIRD: [u8; 16] = [10, 15, 0, 5, 14, 3, 4, 9, 2, 7, 8, 13, 6, 11, 12, 1];

const FOURTH: [u8; 16] = [15, 0, 5, 10, 3, 4, 9, 14, 7, 8, 13, 2, 11, 12, 1, 6];

#[inline(always)]
fn look(table: [u8; 16], places: u8x16) -> u8x16
    requires { ArePlaces places }
    ensures { result ≡ map (entry table) places }
{
    u8x16::from_array(table).swizzle_dyn(places)
}

// The inner forms of bytes.
#[inline(always)]
fn inner(x: u8x16) -> u8x16
    ensures { outer result ≡ x }
{
    let low = x & u8x16::splat(15);
    let high = x >> u8x16::splat(4);
    let from_low = look(IN_LOW, low);
    let from_high = look(IN_HIGH, high);
    from_low ^ from_high
}

// What the two parts of an inverse are read from.
#[inline(always)]
fn roots(y: u8x16) -> (u8x16, u8x16)
    ensures first { result.0 ≡ map first_root y }
    ensures second { result.1 ≡ map second_root y }
{
    let low = y & u8x16::splat(15);
    let high = y >> u8x16::splat(4);
    let both = high ^ low;
    let scaled = look(SCALED, low);
    let of_high = look(INVERSE, high);
    let of_both = look(INVERSE, both);
    let first = look(INVERSE, of_high ^ scaled);
    let second = look(INVERSE, of_both ^ scaled);
    (first ^ both, second ^ high)
}

// The entries of the S-box and their doubles, in inner form.
#[inline(always)]
fn substituted(y: u8x16) -> (u8x16, u8x16)
    ensures entries { outer result.0 ≡ map sbox (outer y) }
    ensures doubles { outer result.1 ≡ map twice (outer y) }
{
    let (first, second) = roots(y);
    let a = look(FIRST_INNER, first);
    let b = look(SECOND_INNER, second);
    let c = look(FIRST_TWICE_INNER, first);
    let d = look(SECOND_TWICE_INNER, second);
    (a ^ b ^ u8x16::splat(120), c ^ d ^ u8x16::splat(19))
}

// The entries of the S-box themselves.
#[inline(always)]
fn last_entries(y: u8x16) -> u8x16
    ensures { result ≡ map sbox (outer y) }
{
    let (first, second) = roots(y);
    let a = look(FIRST, first);
    let b = look(SECOND, second);
    a ^ b ^ u8x16::splat(0x63)
}

// The rows moved and the columns mixed, from the entries of the S-box and their doubles.
#[inline(always)]
fn mixed(entries: u8x16, doubles: u8x16) -> u8x16
    ensures { (x : List ℕ) → length x ≡ 16 → outer entries ≡ map sbox x
        → outer doubles ≡ map twice x → outer result ≡ mix_columns (shift_rows (sub_bytes x)) }
{
    doubles.swizzle_dyn(u8x16::from_array(OWN))
        ^ (entries ^ doubles).swizzle_dyn(u8x16::from_array(NEXT))
        ^ entries.swizzle_dyn(u8x16::from_array(THIRD))
        ^ entries.swizzle_dyn(u8x16::from_array(FOURTH))
}

#[inline(always)]
fn round(y: u8x16, key: u8x16) -> u8x16
    ensures { outer result
        ≡ xor_bytes (mix_columns (shift_rows (sub_bytes (outer y)))) (outer key) }
{
    let (entries, doubles) = substituted(y);
    mixed(entries, doubles) ^ key
}

#[inline(always)]
fn last_round(y: u8x16, key: u8x16) -> u8x16
    ensures { result ≡ xor_bytes (shift_rows (sub_bytes (outer y))) key }
{
    let entries = last_entries(y);
    entries.swizzle_dyn(u8x16::from_array(OWN)) ^ key
}

#[inline(always)]
fn first_round(x: u8x16, key: u8x16) -> u8x16
    ensures { outer result ≡ xor_bytes x (outer key) }
{
    inner(x) ^ key
}

#[inline(always)]
fn key_of(keys: &[u8; 240], r: usize) -> u8x16
    requires { r < 15 }
    ensures { result ≡ round_key keys.now r }
{
    u8x16::from_slice(&keys[16 * r..])
}

// A block under the schedule whose inner form `keys` is. `last` is its last key as it is.
pub(crate) fn encrypted(keys: &[u8; 240], last: u8x16, block: u8x16) -> u8x16
    requires { last ≡ round_key (outer keys.now) 14 }
    ensures { result ≡ cipher_with (outer keys.now) block }
{
    let mut state = first_round(block, key_of(keys, 0));
    for r in 0..13 {
        let next = round(state, key_of(keys, r + 1));
        state = next;
    }
    last_round(state, last)
}

// Two blocks, in the time of little more than one.
pub(crate) fn encrypted_two(
    keys: &[u8; 240],
    last: u8x16,
    first: u8x16,
    second: u8x16,
) -> (u8x16, u8x16)
    requires { last ≡ round_key (outer keys.now) 14 }
    ensures first { result.0 ≡ cipher_with (outer keys.now) first }
    ensures second { result.1 ≡ cipher_with (outer keys.now) second }
{
    let start = key_of(keys, 0);
    let mut x = first_round(first, start);
    let mut y = first_round(second, start);
    for r in 0..13 {
        let key = key_of(keys, r + 1);
        x = round(x, key);
        y = round(y, key);
    }
    (last_round(x, last), last_round(y, last))
}

// A schedule in inner form, and its last key as it is.
pub(crate) fn prepared(keys: &[u8; 240]) -> ([u8; 240], u8x16)
    ensures inner { outer result.0 ≡ keys.now }
    ensures last { result.1 ≡ round_key keys.now 14 }
{
    let mut all = [0u8; 240];
    for r in 0..15 {
        let key = inner(key_of(keys, r)).to_array();
        all[16 * r..16 * r + 16].copy_from_slice(&key);
    }
    (all, key_of(keys, 14))
}
