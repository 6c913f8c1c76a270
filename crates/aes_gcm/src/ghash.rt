// Products of blocks by a table of the products of each byte.

ghost use Rattle.std.specs.Prelude.{◌≡◌, ℕ, ◌+◌, ◌/◌, ◌%◌, ◌^◌, ◌<◌, ◌≤◌, length, drop, take, slice_index, bit_xor, replicate, ◌++◌, ◌-◌};
ghost use Rattle.std.specs.Int.{w128, from_be_bytes};
ghost use Rattle.aes_gcm.specs.Ghash.{block_count, ghash_from, padded, product, product_steps, shifted};
ghost use Rattle.aes_gcm.specs.Parts.{HasTables, HoldsProducts, shifts};

use crate::reduction::REDUCTION;

// The polynomial of the field in the bit order of the standard (6.3).
const R: u128 = 0xe1 << 120;

#[inline(always)]
fn shift(v: u128) -> u128
    ensures { result ≡ shifted v }
{
    if v & 1 == 1 { (v >> 1) ^ R } else { v >> 1 }
}

// The product with `h` of the `n` low bits of `x`, as the first bits of a block.
fn product_of(n: u32, x: u128, h: u128) -> u128
    requires { n ≤ 128 }
    ensures { result ≡ product_steps n x h }
{
    let mut z = 0;
    let mut v = h;
    for i in 0..n {
        if (x >> (n - 1 - i)) & 1 == 1 {
            z ^= v;
        }
        v = shift(v);
    }
    z
}

// From the products of the numbers below `count` those of the numbers below its double: each of the
// others is one of these and `count` itself, whose product is `product`.
fn double(table: &mut [u128; 256], count: usize, product: u128)
    requires { count ≤ 128 }
    ensures below { (k : ℕ) → k < count → slice_index table.new k ≡ slice_index table.old k }
    ensures above { (k : ℕ) → k < count → slice_index table.new (count + k)
        ≡ bit_xor product (slice_index table.old k) }
{
    for k in 0..count {
        table[count + k] = product ^ table[k];
    }
}

// The products of `h` by each byte.
fn byte_products(h: u128) -> [u128; 256]
    ensures { HoldsProducts h result }
{
    let mut table = [0u128; 256];
    for bit in 0..8u32 {
        let product = product_of(8, 1 << bit, h);
        double(&mut table, 1 << bit, product);
    }
    table
}

#[inline(always)]
fn shift_byte(z: u128) -> u128
    ensures { result ≡ shifts 8 z }
{
    (z >> 8) ^ ((REDUCTION[(z & 0xff) as usize] as u128) << 112)
}

// What a hash subkey is multiplied by: for each word of four bytes of a block, from the first, the
// products of the subkey at that word by each byte.
#[derive(Drop)]
pub(crate) struct Tables {
    first: [u128; 256],
    second: [u128; 256],
    third: [u128; 256],
    fourth: [u128; 256],
}

// 32 places to the right.
fn shift_word(h: u128) -> u128
    ensures { result ≡ shifts 32 h }
{
    let mut v = h;
    for n in 0..32u32 {
        v = shift(v);
    }
    v
}

// The tables of the subkey `h`.
pub(crate) fn tables_of(h: u128) -> Tables
    ensures { HasTables h result }
{
    let second = shift_word(h);
    let third = shift_word(second);
    let fourth = shift_word(third);
    Tables {
        first: byte_products(h),
        second: byte_products(second),
        third: byte_products(third),
        fourth: byte_products(fourth),
    }
}

#[inline(always)]
fn byte_of(x: u128, at: u32) -> usize
    requires { at < 128 }
    ensures { result ≡ x / 2 ^ at % 256 }
{
    ((x >> at) & 0xff) as usize
}

// The product of a block and the subkey, the four words of the block side by side.
fn times(tables: &Tables, x: u128) -> u128
    ensures { (h : ℕ) → HasTables h tables.now → result ≡ product x h }
{
    let mut z = 0u128;
    for i in 0..4u32 {
        let entries = tables.first[byte_of(x, 96 + 8 * i)]
            ^ tables.second[byte_of(x, 64 + 8 * i)]
            ^ tables.third[byte_of(x, 32 + 8 * i)]
            ^ tables.fourth[byte_of(x, 8 * i)];
        z = shift_byte(z) ^ entries;
    }
    z
}

fn block_of(xs: &[u8], at: usize) -> u128
    requires { at + 16 ≤ length xs.now }
    ensures { result ≡ from_be_bytes w128 (take 16 (drop at xs.now)) }
{
    let mut block = [0u8; 16];
    block.copy_from_slice(&xs[at..at + 16]);
    u128::from_be_bytes(block)
}

// A block that begins with `xs`, and zeros after it.
fn padded_block(xs: &[u8]) -> u128
    requires { length xs.now ≤ 16 }
    ensures { result ≡ from_be_bytes w128 (xs.now ++ replicate (16 - length xs.now) 0) }
{
    let mut block = [0u8; 16];
    block[..xs.len()].copy_from_slice(xs);
    u128::from_be_bytes(block)
}

// The state after the string and zeros up to a whole block.
pub(crate) fn absorb(tables: &Tables, start: u128, xs: &[u8]) -> u128
    ensures { (h : ℕ) → HasTables h tables.now
        → result ≡ ghash_from h start (padded xs.now) (block_count (length xs.now)) }
{
    let mut y = start;
    let count = xs.len() / 16;
    for i in 0..count {
        let block = block_of(xs, 16 * i);
        y = times(tables, y ^ block);
    }
    let rest = &xs[16 * count..];
    if rest.len() > 0 {
        let block = padded_block(rest);
        y = times(tables, y ^ block);
    }
    y
}
