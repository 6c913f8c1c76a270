// A store list, read from its text.
ghost use Rattle.std.specs.Prelude.{◌≡◌, ◌+◌, ◌<◌, ◌^◌, length, List, IfOk, Ok};
ghost use Rattle.std.specs.List.{list_any};
ghost use Rattle.guest_plan.specs.declared.store.StoreLine.{StoreLine};
ghost use Rattle.guest_plan.specs.StoreItems.{store_line_of};
ghost use Rattle.guest_plan.specs.Stores.{disk_in, node_in, stored_in, kept_disk, kept_file, store_clash, adds_kept, is_keep, store_lacks, first_lacking_in, store_missing, store_of, IsStore, TellsStore};

use crate::adding::is_same;
use crate::store::{Store, StoreLine};
use crate::store_items::store_line_of;
use std::alloc::Global;
use text_lines::{LineFault, ListLine, PlanFault, PlanKind, read_list};

fn disk_in(line: &StoreLine) -> Option<u32>
    ensures { result ≡ disk_in line.now }
{
    match line {
        StoreLine::Disk { n, .. } | StoreLine::Composite { n, .. } => Some(*n),
        _ => None,
    }
}

fn node_in(line: &StoreLine) -> Option<u32>
    ensures { result ≡ node_in line.now }
{
    match line {
        StoreLine::Verity { n, .. } | StoreLine::Empty { n } | StoreLine::Dir { n } => Some(*n),
        _ => None,
    }
}

fn stored_in(line: &StoreLine) -> Option<u32>
    ensures { result ≡ stored_in line.now }
{
    match line {
        StoreLine::Verity { n, .. } | StoreLine::Empty { n } => Some(*n),
        _ => None,
    }
}

fn kept_disk(line: &StoreLine) -> Option<u32>
    ensures { result ≡ kept_disk line.now }
{
    match line {
        StoreLine::KeepDisk { n, .. } => Some(*n),
        _ => None,
    }
}

fn kept_file(line: &StoreLine) -> Option<u32>
    ensures { result ≡ kept_file line.now }
{
    match line {
        StoreLine::KeepFile { n, .. } => Some(*n),
        _ => None,
    }
}

fn is_keep(line: &StoreLine) -> bool
    ensures { result ≡ is_keep line.now }
{
    matches!(
        line,
        StoreLine::KeepDisk { .. } | StoreLine::KeepFile { .. }
    )
}

fn store_clash(a: &StoreLine, b: &StoreLine) -> bool
    ensures { result ≡ store_clash a.now b.now }
{
    if is_same(disk_in(a), disk_in(b)) {
        return true;
    }
    is_same(node_in(a), node_in(b))
}

fn adds_kept(keep: &StoreLine, line: &StoreLine) -> bool
    ensures { result ≡ adds_kept keep.now line.now }
{
    if is_same(kept_disk(keep), disk_in(line)) {
        return true;
    }
    is_same(kept_file(keep), stored_in(line))
}

fn is_added(keep: &StoreLine, lines: &[StoreLine]) -> bool
    ensures { result ≡ list_any (adds_kept keep.now) lines.now }
{
    for line in lines {
        if adds_kept(keep, line) {
            return true;
        }
    }
    false
}

fn store_lacks(lines: &[StoreLine], line: &StoreLine) -> bool
    ensures { result ≡ store_lacks lines.now line.now }
{
    if is_keep(line) {
        return !is_added(line, lines);
    }
    false
}

fn store_missing(lines: &[StoreLine]) -> Option<u64>
    requires { length lines.now < 2 ^ 63 }
    ensures { result ≡ store_missing lines.now }
{
    let mut number = 2;
    for line in lines {
        if store_lacks(lines, line) {
            return Some(number);
        }
        number += 1;
    }
    None
}

impl ListLine for StoreLine {
    ghost item_of = { store_line_of };

    ghost clash = { store_clash };

    fn read(alloc: Global, line: &[u8]) -> Result<StoreLine, LineFault> {
        store_line_of(alloc, line)
    }

    fn clashes(&self, other: &StoreLine) -> bool {
        store_clash(self, other)
    }
}

fn read(alloc: Global, bytes: &[u8]) -> Result<Store, PlanFault>
    ensures { TellsStore result (store_of bytes.now) }
{
    let lines = read_list(alloc, b"store 1", bytes)?;
    match store_missing(&lines) {
        Some(line) => Err(PlanFault::At {
            line,
            kind: PlanKind::Missing,
        }),
        None => Ok(Store { lines }),
    }
}

/// Reads a store list, all of its bytes.
pub fn read_store(alloc: Global, bytes: &[u8]) -> Result<Store, PlanFault>
    // What is read is in the grammar.
    ensures found { IfOk result (λ s. IsStore bytes.now s.lines.items) }
    // What is in the grammar is read, unless memory runs out.
    ensures only { (lines : List StoreLine) → IsStore bytes.now lines
        → TellsStore result (Ok lines) }
    // The list; or the first line that breaks a rule, and the first rule that it breaks.
    ensures exact { TellsStore result (store_of bytes.now) }
{
    read(alloc, bytes)
}
