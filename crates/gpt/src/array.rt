// The array of entries, and the rules that they must keep.
ghost use Rattle.std.specs.Prelude.{◌≡◌, ◌+◌, ◌*◌, ◌<◌, ◌≤◌, ◌^◌, IfOk, length, []};
ghost use Rattle.gpt.specs.Entries.{entry_of, entries_of, is_used, is_outside, share, first_outside, first_sharing, first_overlap};

use crate::fields::{guid_at, u64_at};
use crate::values::Entry;
use mg_base::Memory;
use std::alloc::Global;

/// The bytes of one entry.
const ENTRY: usize = 128;

#[tactic(auto, unfolding(crate::specs::Entries::entry_of))]
fn entry_of(bytes: &[u8]) -> Entry
    requires { length bytes.now ≡ 128 }
    ensures { result ≡ entry_of bytes.now }
{
    let mut name = [0; 72];
    name.copy_from_slice(&bytes[56..128]);
    Entry {
        kind: guid_at(bytes, 0),
        unique: guid_at(bytes, 16),
        first: u64_at(bytes, 32),
        last: u64_at(bytes, 40),
        attributes: u64_at(bytes, 48),
        name,
    }
}

/// The entries of an array of `count`.
pub fn entries_of(alloc: Global, array: &[u8], count: usize) -> Result<Vec<Entry>, Memory>
    requires { length array.now ≡ 128 * count }
    ensures { IfOk result (λ v. v.items ≡ entries_of count array.now) }
{
    let mut entries = Vec::with_capacity(alloc, count)?;
    for index in 0..count {
        let from = index * ENTRY;
        entries.push(entry_of(&array[from..from + ENTRY]))?;
    }
    Ok(entries)
}

/// Whether the entry is in use.
pub fn is_used(entry: &Entry) -> bool
    ensures { result ≡ is_used entry.now }
{
    entry.kind.0 != [0; 16]
}

/// Whether a used entry doesn't lie within these sectors.
fn is_outside(entry: &Entry, low: u64, high: u64) -> bool
    ensures { result ≡ is_outside low high entry.now }
{
    if !is_used(entry) {
        return false;
    }
    entry.first < low || entry.last < entry.first || high < entry.last
}

/// Whether both are used, and have a sector in common.
fn share(a: &Entry, b: &Entry) -> bool
    ensures { result ≡ share a.now b.now }
{
    if !is_used(a) || !is_used(b) {
        return false;
    }
    a.first <= b.last && b.first <= a.last
}

/// The first entry that is used and lies outside these sectors.
#[tactic(auto, unfolding(crate::specs::Entries::first_outside))]
pub fn first_outside(entries: &[Entry], low: u64, high: u64) -> Option<u32>
    requires { length entries.now < 2 ^ 32 }
    ensures { result ≡ first_outside low high 0 entries.now }
{
    let mut place = 0;
    for entry in entries {
        if is_outside(entry, low, high) {
            return Some(place);
        }
        place += 1;
    }
    None
}

/// The first entry that shares a sector with this one.
#[tactic(auto, unfolding(crate::specs::Entries::first_sharing))]
fn first_sharing(entry: &Entry, entries: &[Entry]) -> Option<u32>
    requires { length entries.now < 2 ^ 32 }
    ensures { result ≡ first_sharing 0 entry.now entries.now }
{
    let mut place = 0;
    for other in entries {
        if share(other, entry) {
            return Some(place);
        }
        place += 1;
    }
    None
}

/// The first entry that shares a sector with one before it, behind the first of those.
#[tactic(auto, unfolding(crate::specs::Entries::first_overlap))]
pub fn first_overlap(entries: &[Entry]) -> Option<(u32, u32)>
    requires { length entries.now < 2 ^ 32 }
    ensures { result ≡ first_overlap [] entries.now }
{
    for (b, entry) in entries.iter().enumerate() {
        if let Some(a) = first_sharing(entry, &entries[..b]) {
            return Some((a, b as u32));
        }
    }
    None
}
