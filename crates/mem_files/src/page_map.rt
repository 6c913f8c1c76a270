// The pages of some bytes, by number. A byte that no page has is zero.
ghost use Rattle.std.specs.Prelude.{◌≡◌, ◌≤◌, ◌<◌, ◌+◌, ◌-◌, ◌*◌, ◌/◌, ◌%◌, ◌^◌, ◌||◌, List, ℕ, [], length, take, drop, ◌++◌, nat_lt, nat_le, slice_index, if◌then◌else◌, OnOk, OnErr, IfOk, IsSome, MatchBool, None};
ghost use Rattle.mem_files.specs.Files.{at, byte_in, byte_over, bytes_in, IsCutAt, Reaches};

use mg_base::{Memory, Page};
use std::alloc::Global;
use std::collections::BTreeMap;

/// The size of a page.
pub(crate) const PAGE: u64 = 4096;

const ZEROS: [u8; 4096] = [0; 4096];

// The bytes of a page, which are zeros where there is none.
fn page_of(pages: &BTreeMap<u64, Page>, page: u64) -> &[u8]
    ensures bytes { (k : ℕ) → k < 4096 → slice_index result.now k
        ≡ byte_in pages.now.entries (4096 * page + k) }
    ensures len { length result.now ≡ 4096 }
{
    match pages.get(&page) {
        Some(kept) => kept.bytes(),
        None => &ZEROS,
    }
}

/// So many bytes of one page from a place on.
pub(crate) fn piece_of(pages: &BTreeMap<u64, Page>, at: u64, count: usize) -> &[u8]
    requires { at % 4096 + count ≤ 4096 }
    ensures { result.now ≡ bytes_in pages.now.entries at count }
{
    let bytes = page_of(pages, at / PAGE);
    let from = (at % PAGE) as usize;
    &bytes[from..from + count]
}

// Puts bytes over others.
fn put(out: &mut [u8], at: usize, piece: &[u8])
    requires { at + length piece.now ≤ length out.old }
    ensures { out.new ≡ take at out.old ++ piece.now ++ drop (at + length piece.now) out.old }
{
    let end = at + piece.len();
    out[at..end].copy_from_slice(piece);
}

/// Fills a slice with the bytes from a place on.
pub(crate) fn fill(pages: &BTreeMap<u64, Page>, at: u64, out: &mut [u8])
    requires { at + length out.old < 2 ^ 64 }
    ensures { out.new ≡ bytes_in pages.now.entries at (length out.old) }
{
    let count = out.len();
    let mut done = 0;
    'pieces: while done < count {
        let place = at + done as u64;
        let len = ((PAGE - place % PAGE) as usize).min(count - done);
        put(out, done, piece_of(pages, place, len));
        done += len;
    }
}

// Takes the page that a piece of bytes is to be put into, where there is such a piece.
fn reserve(
    alloc: Global,
    pages: &mut BTreeMap<u64, Page>,
    page: u64,
    piece: &[u8],
) -> Result<(), Memory>
    ensures there { OnOk result (0 < length piece.now → IsSome (at pages.new.entries page)) }
    ensures keeps { (q : ℕ) → IsSome (at pages.old.entries q) → IsSome (at pages.new.entries q) }
    ensures same { (place : ℕ) → byte_in pages.new.entries place ≡ byte_in pages.old.entries place }
{
    if piece.is_empty() || pages.contains_key(&page) {
        return Ok(());
    }
    let zeros = match Page::new(alloc) {
        Ok(zeros) => zeros,
        Err(_) => return Err(Memory),
    };
    match pages.insert(page, zeros) {
        Ok(_) => {}
        Err(_) => return Err(Memory),
    }
    Ok(())
}

// Puts a piece of bytes into its page.
fn put_piece(pages: &mut BTreeMap<u64, Page>, page: u64, from: usize, piece: &[u8])
    requires fits { from + length piece.now ≤ 4096 }
    requires there { 0 < length piece.now → IsSome (at pages.old.entries page) }
    ensures keeps { (q : ℕ) → IsSome (at pages.old.entries q) → IsSome (at pages.new.entries q) }
    ensures put { (place : ℕ) → byte_in pages.new.entries place
        ≡ byte_over (4096 * page + from) piece.now (byte_in pages.old.entries) place }
{
    match pages.get_mut(&page) {
        Some(kept) => kept.put(from, piece),
        None => {}
    }
}

/// Puts bytes from a place on. The pages are taken before a byte changes.
pub(crate) fn overwrite(
    alloc: Global,
    pages: &mut BTreeMap<u64, Page>,
    at: u64,
    bytes: &[u8],
) -> Result<(), Memory>
    requires most { length bytes.now ≤ 4096 }
    requires end { at + length bytes.now ≤ 2 ^ 32 }
    ensures ok { OnOk result
        ((place : ℕ) → byte_in pages.new.entries place
        ≡ byte_over at bytes.now (byte_in pages.old.entries) place) }
    ensures err { OnErr result
        ((place : ℕ) → byte_in pages.new.entries place ≡ byte_in pages.old.entries place) }
{
    let page = at / PAGE;
    let from = (at % PAGE) as usize;
    let cut = bytes.len().min(4096 - from);
    let head = &bytes[..cut];
    let tail = &bytes[cut..];
    match reserve(alloc, pages, page, head) {
        Ok(()) => {}
        Err(_) => return Err(Memory),
    }
    match reserve(alloc, pages, page + 1, tail) {
        Ok(()) => {}
        Err(_) => return Err(Memory),
    }
    put_piece(pages, page, from, head);
    put_piece(pages, page + 1, 0, tail);
    Ok(())
}

// Is there a page of this number or above?
fn reaches(pages: &BTreeMap<u64, Page>, limit: u64) -> bool
    ensures { MatchBool result (Reaches pages.now.entries limit)
        ((q : ℕ) → limit ≤ q → at pages.now.entries q ≡ None) }
{
    match pages.last_key_value() {
        Some((last, _)) => *last >= limit,
        None => false,
    }
}

// Drops the pages from this number on.
fn drop_from(pages: &mut BTreeMap<u64, Page>, limit: u64)
    ensures { (q : ℕ) → at pages.new.entries q
        ≡ (if nat_lt q limit then at pages.old.entries q else None) }
{
    'pages: while reaches(pages, limit) {
        let _ = pages.pop_last();
    }
}

// Puts zeros into a page from a place on.
fn clear_rest(pages: &mut BTreeMap<u64, Page>, page: u64, from: usize)
    requires { from ≤ 4096 }
    ensures { (place : ℕ) → byte_in pages.new.entries place
        ≡ (if nat_lt place (4096 * page + from) || nat_le (4096 * page + 4096) place then byte_in
        pages.old.entries place else 0) }
{
    match pages.get_mut(&page) {
        Some(kept) => kept.clear_from(from),
        None => {}
    }
}

/// Makes each byte past the size zero. It takes no memory.
pub(crate) fn cut(pages: &mut BTreeMap<u64, Page>, size: u64)
    ensures { (place : ℕ) → byte_in pages.new.entries place
        ≡ (if nat_lt place size then byte_in pages.old.entries place else 0) }
{
    let from = size % PAGE;
    let whole = size / PAGE;
    let limit = if from == 0 { whole } else { whole + 1 };
    drop_from(pages, limit);
    clear_rest(pages, whole, from as usize);
}
